//! A whole text, written piece by piece.

use qw_io::{IoFault, MemorySink};
use qw_top::output::write_whole;
use std::test::Fail;

#[test]
fn a_text_is_written_piece_by_piece(rt: HostRuntime) -> Result<(), Fail> {
    let alloc = rt.alloc();
    let mut sink = MemorySink::new(alloc, 2, Vec::from_slice(alloc, &[4])?);
    let written = (
        write_whole(&mut sink, b"hello"),
        write_whole(&mut sink, b" you"),
    );
    assert_eq!(rt; written, (Ok(()), Err(IoFault::Failed)));
    assert_eq!(rt; sink.bytes(), b"hello y".as_slice());
    Ok(())
}
