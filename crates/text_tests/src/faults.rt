//! Texts with a fault: the line, the column, the number, the place and the cause that are told.
use printing::print_text;
use std::alloc::{AllocError, Global};
use std::test::Fail;

struct Faulty {
    text: &'static [u8],
    printed: &'static [u8],
}

// A line that is none of the allowed ones, told at the column where it first differs from all of them.
const FORMS: [Faulty; 13] = [
    Faulty {
        text: b"B 0 1 0",
        printed: b"fault 1 8 11 0 0\n",
    },
    Faulty {
        text: b"N 1x",
        printed: b"fault 1 4 11 0 0\n",
    },
    Faulty {
        text: b"N  1",
        printed: b"fault 1 3 11 0 0\n",
    },
    Faulty {
        text: b"N 12345678",
        printed: b"fault 1 10 11 0 0\n",
    },
    Faulty {
        text: b"X",
        printed: b"fault 1 1 11 0 0\n",
    },
    Faulty {
        text: b"L 1 0 3 ",
        printed: b"fault 1 9 11 0 0\n",
    },
    Faulty {
        text: b"L 5 -1 0",
        printed: b"fault 1 5 11 0 0\n",
    },
    // Nine terms: the line has to end behind the eighth.
    Faulty {
        text: b"L 1 0 0 1 0 0 1 0 0 1 0 0 1 0 0 1 0 0 1 0 0 1 0 0 1 0 0\n",
        printed: b"fault 1 50 11 0 0\n",
    },
    // Lines are counted from 1, with comments and empty lines.
    Faulty {
        text: b"# \xff\n\nN 1\nN 1 \n",
        printed: b"fault 4 4 11 0 0\n",
    },
    Faulty {
        text: b"N 1\r\nN 1\r\n",
        printed: b"fault 1 4 11 0 0\n",
    },
    // Bytes past ASCII are free in a comment, and nowhere else.
    Faulty {
        text: b"# na\xc3\xafve \xff\x00\nN \xb2",
        printed: b"fault 2 3 11 0 0\n",
    },
    Faulty {
        text: b"\xefN 1",
        printed: b"fault 1 1 11 0 0\n",
    },
    Faulty {
        text: b"N 1\n C 1 1 1 0 0 1 0 1",
        printed: b"fault 2 1 11 0 0\n",
    },
];

// A call that is refused is told at column 1 of its line.
const REFUSALS: [Faulty; 19] = [
    Faulty {
        text: b"V 4001\n",
        printed: b"fault 1 1 1 2 0\n",
    },
    // A repeat of 1,000 has 999 joints, and there are two nodes already.
    Faulty {
        text: b"N 1\nN 1\nC 1 1 1 0 0 1000 0 1\n",
        printed: b"fault 3 1 1 1 0\n",
    },
    Faulty {
        text: b"V 2\nE 0 1 0\n",
        printed: b"fault 2 1 2 3 0\n",
    },
    Faulty {
        text: b"N 1\nV 2\nB 0 1 0 1\n",
        printed: b"fault 3 1 2 4 0\n",
    },
    Faulty {
        text: b"N 1\nC 1 1 1 0 0 1 0 1\n",
        printed: b"fault 2 1 2 3 0\n",
    },
    Faulty {
        text: b"N 1\nV 1\nE 0 1 0\n",
        printed: b"fault 3 1 3 2 0\n",
    },
    Faulty {
        text: b"V 1\nL 1 0 0 1 0 1\n",
        printed: b"fault 2 1 3 2 0\n",
    },
    Faulty {
        text: b"N 7\n",
        printed: b"fault 1 1 4 1 0\n",
    },
    Faulty {
        text: b"N 1\nN 2\nV 2\nB 0 1 0 1\n",
        printed: b"fault 4 1 4 4 0\n",
    },
    Faulty {
        text: b"N 2\nN 1\nC 2 1 1 0 0 1 0 1\n",
        printed: b"fault 3 1 4 3 0\n",
    },
    Faulty {
        text: b"N 1\nV 3\nE 0 1 0\nE 0 2 0\n",
        printed: b"fault 4 1 5 1 0\n",
    },
    Faulty {
        text: b"V 1\nL 1 0 0 -0 0 0\n",
        printed: b"fault 2 1 6 2 0\n",
    },
    Faulty {
        text: b"V 1\nL 1000001 0 0\n",
        printed: b"fault 2 1 6 1 0\n",
    },
    // An assembly is void: no domain 7, no copy, 1,001 copies.
    Faulty {
        text: b"N 1\nN 1\nC 7 1 1 0 0 1 0 1\n",
        printed: b"fault 3 1 8 1 0\n",
    },
    Faulty {
        text: b"N 1\nN 1\nC 1 1 1 0 0 0 0 1\n",
        printed: b"fault 3 1 8 1 0\n",
    },
    Faulty {
        text: b"N 1\nN 1\nC 1 1 1 0 0 1001 0 1\n",
        printed: b"fault 3 1 8 1 0\n",
    },
    // The first law of a plan is at the place 10,000, and its coefficient is refused by 6.
    Faulty {
        text: b"N 1\nN 1\nC 1 2000000 1 0 0 2 0 1\n",
        printed: b"fault 3 1 9 10000 6\n",
    },
    Faulty {
        text: b"V 1\nL 1 2 0\n",
        printed: b"fault 2 1 10 1 0\n",
    },
    // The first fault is told, and no later one.
    Faulty {
        text: b"N 1\nN 5\nX\nN 6\n",
        printed: b"fault 2 1 4 1 0\n",
    },
];

// Whether so much is printed of the text, which has a fault.
fn tells(heap: Global, faulty: &Faulty) -> Result<bool, AllocError> {
    let mut printed = Vec::new(heap);
    let answer = print_text(heap, faulty.text, &mut printed)?;
    Ok(answer.is_err() && printed.as_slice() == faulty.printed)
}

#[test]
fn forms(rt: HostRuntime) -> Result<(), Fail> {
    for (i, faulty) in FORMS.iter().enumerate() {
        assert!(rt; tells(rt.alloc(), faulty)?, "form {i}");
    }
    Ok(())
}

#[test]
fn refusals(rt: HostRuntime) -> Result<(), Fail> {
    for (i, faulty) in REFUSALS.iter().enumerate() {
        assert!(rt; tells(rt.alloc(), faulty)?, "refusal {i}");
    }
    Ok(())
}
