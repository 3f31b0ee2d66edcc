//! Texts that are read to their end, and what is printed of them; and what a fault leaves drawn.
use calls::CallRefusal;
use draft::Draft;
use plan_judging::PlaceRefusal;
use printing::print_text;
use refusal::Refuses;
use sheet::Counts;
use sheet_reader::{TextFault, read, write_fault};
use spelling::WriteRefusal;
use std::alloc::{AllocError, Global};
use std::test::Fail;

// A resistance from node 0 to node 1, which is earthed.
const RESISTANCE: &[u8] = b"N 1\nN 1\nV 4\nB 0 1 0 1\nE 2 3 1\nL 200 0 0 -1 0 1\nL 1 0 3\n";

const RESISTANCE_EQUATIONS: &[u8] =
    b"equations 6\n+200v0 -1v1 = 0\n+1v3 = 0\n+1v0 = 0\n-1v0 +1v2 = 0\n+1v1 -1p0 +1p1 = 0\n+1v3 -1p1 = 0\n";

// Two springs between two nodes, which come behind what is drawn by the other lines: a joint, four variables, and
// a row and a law for each.
const SPRINGS: &[u8] = b"N 3\nN 3\nV 2\nE 0 1 1\nC 3 0 -7 1 0 2 0 1";

const SPRINGS_EQUATIONS: &[u8] =
    b"equations 8\n-7v3 +1r2 = 0\n-7v5 +1r4 = 0\n+1v2 = 0\n+1v0 -1v4 = 0\n-1v2 +1v4 = 0\n+1v1 -1p1 = 0\n+1v3 -1p0 +1p2 = 0\n+1v5 -1p2 +1p1 = 0\n";

// Whether the text is read to its end, and so much is printed of it.
fn prints(heap: Global, text: &[u8], wanted: &[u8]) -> Result<bool, AllocError> {
    let mut printed = Vec::new(heap);
    let answer = print_text(heap, text, &mut printed)?;
    Ok(answer.is_ok() && printed.as_slice() == wanted)
}

#[test]
fn equations(rt: HostRuntime) -> Result<(), Fail> {
    assert!(rt; prints(rt.alloc(), RESISTANCE, RESISTANCE_EQUATIONS)?);
    assert!(rt; prints(rt.alloc(), SPRINGS, SPRINGS_EQUATIONS)?);
    // The last newline may be absent.
    let end = RESISTANCE.len().saturating_sub(1);
    let text = RESISTANCE.get(..end).unwrap_or(b"");
    assert!(rt; prints(rt.alloc(), text, RESISTANCE_EQUATIONS)?);
    Ok(())
}

#[test]
fn nothing_drawn(rt: HostRuntime) -> Result<(), Fail> {
    assert!(rt; prints(rt.alloc(), b"", b"equations 0\n")?);
    assert!(rt; prints(rt.alloc(), b"\n\n# \xff\x00\r\n", b"equations 0\n")?);
    Ok(())
}

// What the lines before a fault drew stays drawn, and the faulty line draws nothing.
#[test]
fn drawn_before_a_fault(rt: HostRuntime) -> Result<(), Fail> {
    let mut draft = Draft::new(rt.alloc())?;
    let answer = read(b"N 1\nV 2\nC 1 1 1 0 0 3 0 1\nN 1\n", &mut draft);
    let why = CallRefusal::Place(PlaceRefusal::NoNode { end: 1 });
    let fault = TextFault::Refused { line: 3, why };
    assert_eq!(rt; answer, Err(fault));
    let drawn = Counts {
        nodes: 1,
        variables: 2,
        rows: 0,
        laws: 0,
    };
    assert_eq!(rt; draft.counts(), drawn);
    assert_eq!(rt; fault.line(), 3);
    assert_eq!(rt; fault.column(), 1);
    assert_eq!(rt; fault.number(), 2);
    assert_eq!(rt; fault.place(), 3);
    assert_eq!(rt; fault.cause(), 0);
    Ok(())
}

// A text may be read onto what another drew.
#[test]
fn read_on(rt: HostRuntime) -> Result<(), Fail> {
    let mut draft = Draft::new(rt.alloc())?;
    assert_eq!(rt; read(b"N 1\nV 2\n", &mut draft), Ok(()));
    assert_eq!(rt; read(b"E 0 1 0\n", &mut draft), Ok(()));
    assert_eq!(rt; draft.counts().rows, 1);
    Ok(())
}

#[test]
fn lines_of_faults(rt: HostRuntime) {
    let mut buffer = [b'x'; 18];
    let fault = TextFault::Form { line: 1, column: 8 };
    assert_eq!(rt; write_fault(fault, &mut buffer), Ok(17));
    assert_eq!(rt; buffer, *b"fault 1 8 11 0 0\nx");
    let mut short = [b'x'; 16];
    assert_eq!(rt;
        write_fault(fault, &mut short),
        Err(WriteRefusal::ShortBuffer)
    );
    assert_eq!(rt; short, [b'x'; 16]);
}
