//! Whole texts, written piece by piece.

ghost use Rattle.std.specs.Prelude.{◌≡◌, ◌≤◌, IfErr, IsErrOf, IsTrue, OnOk, OnErr};
ghost use Rattle.qw_top.specs.Inner.Sinks.{CountsWrite, write_fault_of};
ghost use Rattle.qw_top.specs.Output.{TookFront, with_text};

use crate::status::Status;
use qw_io::{IoFault, Sink};

/// Writes the whole text, going on behind each piece that the sink took.
///
/// # Errors
///
/// The sink's fault. A front of the text was taken then.
pub fn write_whole<O: Sink>(out: &mut O, text: &[u8]) -> Result<(), IoFault>
    ensures whole { OnOk result (O.taken out.new ≡ with_text (O.taken out.old) text.now) }
    ensures front { OnErr result (TookFront (O.taken out.old) (O.taken out.new) text.now) }
    ensures counts { CountsWrite result (O.faults out.old) (O.faults out.new) }
    ensures memory_is_taken { IsErrOf result IoFault.NoMemory → IsTrue O.takes_memory }
    ensures never_falls { O.faults out.old ≤ O.faults out.new }
{
    let mut written = 0;
    while written < text.len() {
        let count = out.put(&text[written..])?;
        written += count;
    }
    Ok(())
}

/// How a run ends whose last text was written so: as it would, but for what kept the text from being written.
pub fn end_of_write(written: Result<(), IoFault>, status: Status) -> Status
    ensures whole { OnOk written (result ≡ status) }
    ensures cut_short { IfErr written (λ fault. result ≡ write_fault_of fault) }
{
    match written {
        Ok(()) => status,
        Err(IoFault::Failed) => Status::WriteFailed,
        Err(IoFault::NoMemory) => Status::NoMemory,
    }
}
