//! The writing of a text that is all that a command writes.

ghost use Rattle.std.specs.Prelude.{◌≡◌, ◌≢◌, ◌⊎◌, IsTrue};
ghost use Rattle.qw_io.specs.Faults.{IsCounted};
ghost use Rattle.qw_top.specs.Inner.Noted.{AnswersText};
ghost use Rattle.qw_top.specs.Notes.{want_of_memory_line};
ghost use Rattle.qw_top.specs.Output.{TookFront, with_text};

use crate::notes::note_want_of_memory;
use crate::output::{end_of_write, write_whole};
use crate::status::Status;
use qw_io::Sink;

/// Writes the text, and answers `Done`, or what kept it from being written. Where that is want of memory, it is noted.
pub(super) fn answer<O: Sink, E: Sink>(text: &[u8], out: &mut O, notes: &mut E) -> Status
    ensures written { AnswersText text.now result (O.taken out.old) (O.taken out.new) (E.taken notes.old) (E.taken notes.new) }
    ensures front { TookFront (O.taken out.old) (O.taken out.new) text.now }
    ensures noted_whole { (IsTrue E.takes_memory → ⊥) → result ≡ Status.NoMemory
        → E.taken notes.new ≡ with_text (E.taken notes.old) want_of_memory_line }
    ensures silent_at_fault { O.faults out.new ≢ O.faults out.old → E.taken notes.new ≡ E.taken notes.old }
    ensures write_fault { result ≡ Status.WriteFailed
        → IsCounted (O.faults out.old) (O.faults out.new) ⊎ IsCounted (E.faults notes.old) (E.faults notes.new) }
    ensures no_write_fault { result ≢ Status.WriteFailed
        → (O.faults out.new ≡ O.faults out.old) × (E.faults notes.new ≡ E.faults notes.old) }
{
    match end_of_write(write_whole(out, text), Status::Done) {
        Status::NoMemory => note_want_of_memory(notes),
        status => status,
    }
}
