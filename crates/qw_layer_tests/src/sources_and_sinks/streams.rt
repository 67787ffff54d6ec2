// A sink over a writer that takes little, nothing, or fails.

use super::{Put, assert_puts};
use crate::assertions::assert_octets;
use qw_io::{IoFault, Sink, StdSink};
use std::fs::File;
use std::io::{ErrorKind, Write};
use std::test::Fail;
use std::{fs, io};

const RELUCTANT_PUTS: [Put; 5] = [
    (b"hello", Ok(2)),
    (b"llo", Err(IoFault::Failed)),
    (b"llo", Err(IoFault::Failed)),
    (b"", Ok(0)),
    (b"llo", Ok(2)),
];

const STDOUT_PUTS: [Put; 2] = [(b"", Ok(0)), (b"taken\n", Ok(6))];

// A writer that takes two octets of the first write, none of the second, fails at the third, and takes two
// of each from then on.
#[derive(Drop)]
struct Reluctant<'a> {
    taken: &'a mut Vec<u8>,
    calls: u64,
}

impl Write for Reluctant<'_> {
    fn write(&mut self, buf: &[u8]) -> io::Result<usize> {
        let call = self.calls;
        self.calls = call.saturating_add(1);
        if call == 1 {
            return Ok(0);
        }
        if call == 2 {
            return Err(io::Error::from(ErrorKind::BrokenPipe));
        }
        let count = buf.len().min(2);
        let taken = self.taken.extend_from_slice(&buf[..count]);
        taken.map_err(|_| io::Error::from(ErrorKind::OutOfMemory))?;
        Ok(count)
    }

    fn flush(&mut self) -> io::Result<()> {
        Ok(())
    }
}

#[test]
fn std_sink_over_a_reluctant_writer(rt: HostRuntime) {
    let mut taken = Vec::new(rt.alloc());
    let writer = Reluctant {
        taken: &mut taken,
        calls: 0,
    };
    assert_puts(&rt, &mut StdSink::new(writer), &RELUCTANT_PUTS);
    assert_octets(&rt, &taken, b"hell");
}

#[test]
fn std_sink_takes(rt: HostRuntime) {
    assert_puts(&rt, &mut StdSink::new(rt.stdout()), &STDOUT_PUTS);
}

const LARGE: &str = "std-sink-large.txt";

// Writes the rest of a text to a sink, from where it took the front.
fn put_on<O: Sink>(sink: &mut O, text: &[u8], taken: usize) -> Result<usize, Fail> {
    let rest = text.get(taken..).ok_or("past its end")?;
    let count = sink.put(rest).ok().ok_or("a fault")?;
    Ok(taken.saturating_add(count))
}

// A piece of 1 MB goes to a file of the system, in as few writes as that takes.
#[test]
fn std_sink_takes_a_large_piece(rt: HostRuntime) -> Result<(), Fail> {
    let text = vec![in rt.alloc(); 7u8; 1_000_000]?;
    let mut sink = StdSink::new(File::create(&rt, LARGE)?);
    let mut taken = 0;
    for _ in 0..16 {
        taken = put_on(&mut sink, text.as_slice(), taken)?;
    }
    assert!(rt; taken == text.len());
    assert!(rt; fs::read(&rt, LARGE)? == text);
    fs::remove_file(&rt, LARGE)?;
    Ok(())
}
