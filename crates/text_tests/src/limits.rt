//! Texts of the most bytes, and of one byte more.
use draft::Draft;
use printing::print_text;
use sheet_reader::{TextFault, read};
use std::alloc::{AllocError, Global};
use std::test::Fail;

// So many bytes of one line, which is no allowed line unless it begins with `#`.
fn line_of(heap: Global, byte: u8, bytes: usize) -> Result<Vec<u8>, AllocError> {
    vec![in heap; byte; bytes]
}

#[test]
fn length(rt: HostRuntime) -> Result<(), Fail> {
    let mut draft = Draft::new(rt.alloc())?;
    let most = line_of(rt.alloc(), b'#', 65_536)?;
    assert_eq!(rt; read(most.as_slice(), &mut draft), Ok(()));
    let more = line_of(rt.alloc(), b'#', 65_537)?;
    assert_eq!(rt; read(more.as_slice(), &mut draft), Err(TextFault::TooLong));
    Ok(())
}

// The length is tested before any line is read.
#[test]
fn length_comes_first(rt: HostRuntime) -> Result<(), Fail> {
    let text = line_of(rt.alloc(), b'X', 65_537)?;
    let mut printed = Vec::new(rt.alloc());
    let answer = print_text(rt.alloc(), text.as_slice(), &mut printed)?;
    assert_eq!(rt; answer, Err(TextFault::TooLong));
    assert!(rt; printed.as_slice() == b"fault 0 0 12 0 0\n".as_slice());
    Ok(())
}
