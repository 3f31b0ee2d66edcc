//! Lines, with what each commands or where it goes wrong.
use super::whole::{Place, first_fault};
use commands::{Command, Terms, read_command};
use netlist::terms::RawTerm;
use std::alloc::{AllocError, Global};
use std::test::Fail;
use text::{TextLine, count_lines, fits};

// The column where the line goes wrong.
fn column(bytes: &[u8]) -> Option<usize> {
    read_command(TextLine { number: 1, bytes })
        .err()
        .map(|fault| fault.column)
}

// What the line commands, and nothing where it goes wrong.
fn said(bytes: &[u8]) -> Option<Command> {
    read_command(TextLine { number: 1, bytes }).ok()
}

// The terms of a law.
fn law(bytes: &[u8]) -> Option<Terms> {
    match said(bytes)? {
        Command::Law(terms) => Some(terms),
        _ => None,
    }
}

fn first_term(bytes: &[u8]) -> Option<RawTerm> {
    let terms = law(bytes)?;
    terms.as_slice().first().copied()
}

fn term_count(bytes: &[u8]) -> Option<usize> {
    let terms = law(bytes)?;
    Some(terms.as_slice().len())
}

// A line, and the column where it goes wrong, if it does.
struct Fault {
    line: &'static [u8],
    column: Option<usize>,
}

const FAULTS: [Fault; 20] = [
    Fault {
        line: b"B 0 1 0",
        column: Some(8),
    },
    Fault {
        line: b"N 1x",
        column: Some(4),
    },
    Fault {
        line: b"N  1",
        column: Some(3),
    },
    Fault {
        line: b"N 12345678",
        column: Some(10),
    },
    Fault {
        line: b"X",
        column: Some(1),
    },
    Fault {
        line: b"L 1 0 3 ",
        column: Some(9),
    },
    Fault {
        line: b"L 5 -1 0",
        column: Some(5),
    },
    Fault {
        line: b"N",
        column: Some(2),
    },
    Fault {
        line: b"N -1",
        column: Some(3),
    },
    Fault {
        line: b"L - 0 1",
        column: Some(4),
    },
    Fault {
        line: b"N 1\r",
        column: Some(4),
    },
    Fault {
        line: b" N 1",
        column: Some(1),
    },
    Fault {
        line: b"n 1",
        column: Some(1),
    },
    // Bytes past ASCII are free in a comment, and nowhere else.
    Fault {
        line: b"# na\xc3\xafve \xff\x00",
        column: None,
    },
    Fault {
        line: b"#",
        column: None,
    },
    Fault {
        line: b"",
        column: None,
    },
    Fault {
        line: b"N \xb2",
        column: Some(3),
    },
    Fault {
        line: b"N 1\xff",
        column: Some(4),
    },
    Fault {
        line: b"\xffN 1",
        column: Some(1),
    },
    Fault {
        line: b"B 0 1\xa00 1",
        column: Some(6),
    },
];

#[test]
fn fault_columns(rt: HostRuntime) {
    for fault in &FAULTS {
        assert_eq!(rt; column(fault.line), fault.column);
    }
}

// A line, and what it commands.
struct Reading {
    line: &'static [u8],
    command: Command,
}

const READINGS: [Reading; 8] = [
    Reading {
        line: b"N 3",
        command: Command::Node { domain: 3 },
    },
    Reading {
        line: b"N 0000003",
        command: Command::Node { domain: 3 },
    },
    Reading {
        line: b"V 9999999",
        command: Command::Variables { count: 9_999_999 },
    },
    Reading {
        line: b"E 2 3 1",
        command: Command::Earth {
            flow: 2,
            across: 3,
            node: 1,
        },
    },
    Reading {
        line: b"B 0 1 2 3",
        command: Command::Branch {
            flow: 0,
            across: 1,
            first: 2,
            second: 3,
        },
    },
    Reading {
        line: b"# N 3",
        command: Command::Nothing,
    },
    Reading {
        line: b"",
        command: Command::Nothing,
    },
    Reading {
        line: b"C 1 -1 2 -3 0 40 5 6",
        command: Command::Repeat {
            domain: 1,
            coefficients: [-1, 2, -3, 0],
            times: 40,
            first: 5,
            second: 6,
        },
    },
];

#[test]
fn readings(rt: HostRuntime) {
    for reading in &READINGS {
        assert_eq!(rt; said(reading.line), Some(reading.command));
    }
}

#[test]
fn laws(rt: HostRuntime) {
    assert_eq!(rt;
        first_term(b"L -012 1 7 1 0 0"),
        Some(RawTerm::rate(-12, 7))
    );
    assert_eq!(rt; first_term(b"L -0 0 4"), Some(RawTerm::value(0, 4)));
    assert_eq!(rt; term_count(b"L 1 0 1 2 0 2"), Some(2));
    assert_eq!(rt;
        term_count(b"L 1 0 1 2 0 2 3 0 3 4 0 4 5 0 5 6 0 6 7 0 7 8 0 8"),
        Some(8)
    );
    assert_eq!(rt;
        column(b"L 1 0 1 2 0 2 3 0 3 4 0 4 5 0 5 6 0 6 7 0 7 8 0 8 9 0 9"),
        Some(50)
    );
}

#[test]
fn whole_texts(rt: HostRuntime) {
    assert_eq!(rt; first_fault(b"N 1\n\n# \xff\nN 2"), None);
    assert_eq!(rt;
        first_fault(b"N 1\n\nN 1 \nX\n"),
        Some(Place { line: 3, column: 4 })
    );
    assert_eq!(rt; count_lines(b"N 1\nN 2"), 2);
    assert_eq!(rt; count_lines(b"N 1\nN 2\n"), 2);
    assert_eq!(rt; count_lines(b"N 1\nN 2\n\n"), 3);
    assert_eq!(rt; count_lines(b"\r\n"), 1);
    assert_eq!(rt; count_lines(b""), 0);
}

// So many bytes of a comment.
fn comment(heap: Global, bytes: usize) -> Result<Vec<u8>, AllocError> {
    vec![in heap; b'#'; bytes]
}

#[test]
fn limit(rt: HostRuntime) -> Result<(), Fail> {
    assert!(rt; fits(b""));
    assert!(rt; fits(comment(rt.alloc(), 65_536)?.as_slice()));
    assert!(rt; !fits(comment(rt.alloc(), 65_537)?.as_slice()));
    Ok(())
}
