//! Texts of readings, with what is read of each or at which line it is at fault.
use quantity::Whole;
use readings_text::{ReadingsFault, read_readings};
use std::alloc::{AllocError, Global};
use std::test::Fail;

// How many values are read of the text, where so many variables are to be read, and what is answered.
fn read(
    heap: Global,
    text: &[u8],
    variables: usize,
) -> Result<(usize, Result<(), ReadingsFault>), AllocError> {
    let mut values = Vec::new(heap);
    let mut rates = Vec::new(heap);
    let answer = read_readings(text, variables, &mut values, &mut rates)?;
    Ok((values.len(), answer))
}

// A text for two variables, how many of them are read, and the fault, if there is one.
struct Case {
    text: &'static [u8],
    read: usize,
    answer: Result<(), ReadingsFault>,
}

const CASES: [Case; 16] = [
    Case {
        text: b"1 2\n# three\n\n-3 004",
        read: 2,
        answer: Ok(()),
    },
    Case {
        text: b"1099511627776 -1099511627776\n-0 0\n",
        read: 2,
        answer: Ok(()),
    },
    Case {
        text: b"1 2\n1099511627777 0\n",
        read: 1,
        answer: Err(ReadingsFault::TooLarge { line: 2 }),
    },
    Case {
        text: b"1 2\n\n0 -1099511627777\n",
        read: 1,
        answer: Err(ReadingsFault::TooLarge { line: 3 }),
    },
    Case {
        text: b"-1099511627777 0\n",
        read: 0,
        answer: Err(ReadingsFault::TooLarge { line: 1 }),
    },
    // Numbers that 64 bits do not hold: 2^63, -2^63 - 1, 2^64 and 2^64 + 1.
    Case {
        text: b"9223372036854775808 0\n",
        read: 0,
        answer: Err(ReadingsFault::TooLarge { line: 1 }),
    },
    Case {
        text: b"0 -9223372036854775809\n",
        read: 0,
        answer: Err(ReadingsFault::TooLarge { line: 1 }),
    },
    Case {
        text: b"18446744073709551616 18446744073709551617\n",
        read: 0,
        answer: Err(ReadingsFault::TooLarge { line: 1 }),
    },
    Case {
        text: b"0 99999999999999999999999999999999999999999\n",
        read: 0,
        answer: Err(ReadingsFault::TooLarge { line: 1 }),
    },
    // The form comes first, then the size, and then the number of readings.
    Case {
        text: b"1099511627777 x\n",
        read: 0,
        answer: Err(ReadingsFault::Form { line: 1 }),
    },
    Case {
        text: b"1 2 3\n",
        read: 0,
        answer: Err(ReadingsFault::Form { line: 1 }),
    },
    Case {
        text: b"+1 2\n",
        read: 0,
        answer: Err(ReadingsFault::Form { line: 1 }),
    },
    Case {
        text: b"1 2\n3 4\n1099511627777 0\n",
        read: 2,
        answer: Err(ReadingsFault::TooLarge { line: 3 }),
    },
    Case {
        text: b"1 2\n3 4\n5 6\n",
        read: 2,
        answer: Err(ReadingsFault::TooMany { line: 3 }),
    },
    Case {
        text: b"1 2\n#\n",
        read: 1,
        answer: Err(ReadingsFault::TooFew { line: 2 }),
    },
    Case {
        text: b"",
        read: 0,
        answer: Err(ReadingsFault::TooFew { line: 0 }),
    },
];

#[test]
fn cases(rt: HostRuntime) -> Result<(), Fail> {
    for (i, case) in CASES.iter().enumerate() {
        let told = read(rt.alloc(), case.text, 2)?;
        assert!(rt; told == (case.read, case.answer), "case {i}");
    }
    Ok(())
}

#[test]
fn least_and_greatest(rt: HostRuntime) -> Result<(), Fail> {
    let mut values = Vec::new(rt.alloc());
    let mut rates = Vec::new(rt.alloc());
    let text = b"-1099511627776 1099511627776\n";
    let answer = read_readings(text, 1, &mut values, &mut rates)?;
    assert_eq!(rt; answer, Ok(()));
    assert!(rt; values.as_slice() == [Whole::new(-1_099_511_627_776)].as_slice());
    assert!(rt; rates.as_slice() == [Whole::new(1_099_511_627_776)].as_slice());
    Ok(())
}

#[test]
fn lines_of_faults(rt: HostRuntime) -> Result<(), Fail> {
    let large = ReadingsFault::TooLarge { line: 4 };
    let told = format!(in rt.alloc(); "{large}")?;
    assert!(rt;
        told.as_str() == "readings fault 4: a number is not from -1099511627776 to 1099511627776"
    );
    let form = ReadingsFault::Form { line: 4 };
    let told = format!(in rt.alloc(); "{form}")?;
    assert!(rt; told.as_str() == "readings fault 4: not a value, a blank and a rate");
    Ok(())
}
