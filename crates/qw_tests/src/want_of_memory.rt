// Runs whose report's sink wants memory: the line on that, whole and cut short.

use crate::tables::{WORDS, call, shelf};
use qw_io::{IoFault, MemorySink, Sink};
use qw_top::status::Status;
use std::alloc::Global;
use std::process::Abort;
use std::test::Fail;

// A sink whose calls want memory.
#[derive(Drop)]
struct FullSink;

impl Sink for FullSink {
    ghost use Rattle.std.specs.Prelude.{Some, []};

    ghost taken = { λ _. Some [] };

    ghost faults = { λ _. 0 };

    fn put(&mut self, _piece: &[u8]) -> Result<usize, IoFault> {
        Err(IoFault::NoMemory)
    }
}

// The calls of the notes' sink that fail, the end and its number, and what is noted.
const WANTS: [(&[u64], Status, u8, &[u8]); 2] = [
    (&[], Status::NoMemory, 9, b"want of memory\n"),
    (&[4], Status::WriteFailed, 7, b"want"),
];

fn assert_noted(
    rt: &impl Abort,
    alloc: Global,
    failing: &[u64],
    (end, number, line): (Status, u8, &[u8]),
) -> Result<(), Fail> {
    let schema = b"CREATE TABLE T (A INTEGER NOT NULL)";
    let mut files = shelf(alloc, schema, b"A\n7\n", b"SELECT A FROM T WHERE A > 5")?;
    let mut notes = MemorySink::new(alloc, 1, Vec::from_slice(alloc, failing)?);
    let (status, kept) = call(alloc, &mut files, &WORDS, &mut FullSink, &mut notes)?;
    assert_eq!(rt;
        (status, status.code(), notes.bytes(), kept.is_some()),
        (end, number, line, true)
    );
    Ok(())
}

#[test]
fn want_of_memory_is_noted(rt: HostRuntime) -> Result<(), Fail> {
    for &(failing, end, number, line) in &WANTS {
        assert_noted(&rt, rt.alloc(), failing, (end, number, line))?;
    }
    Ok(())
}
