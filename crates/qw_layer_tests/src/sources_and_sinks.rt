// Where files are read from and reports go: in memory, and of the system.

use crate::assertions::assert_octets;
use qw_io::{IoFault, MemoryShelf, MemorySink, NamedFile, PlainSink, Shelf, Sink};
use std::alloc::Global;
use std::process::Abort;
use std::test::Fail;

mod device;
mod files;
mod streams;

/// A call of a shelf: the name, the place, how many octets are asked for, 64 at most, and what is read.
type Fetch = (&'static str, u64, usize, Result<&'static [u8], IoFault>);

/// A call of a sink, and how many octets it takes.
type Put = (&'static [u8], Result<usize, IoFault>);

// Of a shelf that is to fail at its calls 2 and 4.
const FETCHES: [Fetch; 8] = [
    ("greeting", 0, 4, Ok(b"he")),
    ("greeting", 2, 1, Ok(b"l")),
    ("greeting", 2, 1, Err(IoFault::Failed)),
    ("greeting", 4, 4, Ok(b"o")),
    ("greeting", 4, 4, Err(IoFault::Failed)),
    ("greeting", 5, 4, Ok(b"")),
    ("greeting", 0, 0, Ok(b"")),
    ("farewell", 0, 4, Err(IoFault::Failed)),
];

// Of a sink that takes at most two octets at a call, and is to fail at call 1.
const SHORT_PUTS: [Put; 4] = [
    (b"hello", Ok(2)),
    (b"llo", Err(IoFault::Failed)),
    (b"l", Ok(1)),
    (b"", Ok(0)),
];

const WHOLE_PUTS: [Put; 1] = [(b"hello", Ok(5))];

/// A shelf with one file, `greeting`, that reads at most two octets at a call.
fn greeting_shelf(alloc: Global, failing: &[u64]) -> Result<MemoryShelf, Fail> {
    let mut files = Vec::new(alloc);
    files.push(NamedFile {
        name: String::from_str(alloc, "greeting")?,
        bytes: Vec::from_slice(alloc, b"hello")?,
    })?;
    Ok(MemoryShelf::new(files, 2, Vec::from_slice(alloc, failing)?))
}

/// Calls a shelf, and asserts what is read.
fn assert_fetch<F: Shelf>(
    rt: &impl Abort,
    shelf: &mut F,
    name: &str,
    at: u64,
    asked: usize,
    expected: Result<&[u8], IoFault>,
) {
    let mut into = [0u8; 64];
    let read = match shelf.fetch(name, at, &mut into[..asked.min(64)]) {
        Ok(count) => Ok(&into[..count]),
        Err(fault) => Err(fault),
    };
    assert_eq!(rt; read, expected, "{name} at {at}");
}

/// Calls a shelf, and asserts what is read at each call.
fn assert_fetches<F: Shelf>(rt: &impl Abort, shelf: &mut F, calls: &[Fetch]) {
    for &(name, at, asked, expected) in calls {
        assert_fetch(rt, shelf, name, at, asked, expected);
    }
}

/// Calls a sink, and asserts what it takes at each call.
fn assert_puts<S: Sink>(rt: &impl Abort, sink: &mut S, calls: &[Put]) {
    for &(piece, answer) in calls {
        assert!(rt; sink.put(piece) == answer, "{piece:?}");
    }
}

#[test]
fn memory_shelf_answers(rt: HostRuntime) -> Result<(), Fail> {
    let mut shelf = greeting_shelf(rt.alloc(), &[2, 4])?;
    assert_fetches(&rt, &mut shelf, &FETCHES);
    Ok(())
}

#[test]
fn memory_sinks_take(rt: HostRuntime) -> Result<(), Fail> {
    let failing = Vec::from_slice(rt.alloc(), &[1])?;
    let mut sink = MemorySink::new(rt.alloc(), 2, failing);
    assert_puts(&rt, &mut sink, &SHORT_PUTS);
    assert_octets(&rt, sink.bytes(), b"hel");
    Ok(())
}

#[test]
fn plain_sinks_take(rt: HostRuntime) {
    let mut sink = PlainSink::new(rt.alloc());
    assert_puts(&rt, &mut sink, &WHOLE_PUTS);
    assert_octets(&rt, sink.bytes(), b"hello");
}
