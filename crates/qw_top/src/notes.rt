//! The lines that say what went wrong. They are written piece by piece, without taking memory.

ghost use Rattle.std.specs.Prelude.{◌≡◌, ◌≢◌, ◌++◌, IsErrOf, IsTrue, OnOk, OnErr};
ghost use Rattle.qw_io.specs.Faults.{IsCounted};
ghost use Rattle.qw_top.specs.declared.status.Status.{Status};
ghost use Rattle.qw_top.specs.declared.stop.Stop.{Stop};
ghost use Rattle.qw_top.specs.Inner.Sinks.{CountsWrite};
ghost use Rattle.qw_top.specs.Inner.Noted.{NotesStop, NotesWords};
ghost use Rattle.qw_top.specs.Causes.{line_of_cause, number_out_of_range};
ghost use Rattle.qw_top.specs.Notes.{NotesLine, read_fault_line, want_of_memory_line, words_not_utf8_line};
ghost use Rattle.qw_top.specs.Output.{TookFront, with_text};

use crate::output::{end_of_write, write_whole};
use crate::status::Status;
use crate::stop::Stop;
use qw_command_line::command::{Number, WordsFault};
use qw_io::{IoFault, Sink};

/// Notes why a run stopped, where there is a line on that. Answers how the run ends: with what kept the line from being
/// written, if that comes.
pub fn note_stop<E: Sink>(notes: &mut E, stop: &Stop<'_>) -> Status
    ensures noted { NotesStop stop.now result (E.taken notes.old) (E.taken notes.new) }
    ensures whole { (IsTrue E.takes_memory → ⊥) → result ≡ Status.NoMemory
        → E.taken notes.new ≡ with_text (E.taken notes.old) want_of_memory_line }
    ensures hides_none { (IsTrue E.takes_memory → ⊥) → result ≡ Status.NoMemory → stop.now ≡ Stop.NoMemory }
    ensures fault { result ≡ Status.WriteFailed → IsCounted (E.faults notes.old) (E.faults notes.new) }
    ensures no_fault { result ≢ Status.WriteFailed → E.faults notes.new ≡ E.faults notes.old }
{
    match stop {
        Stop::Refused { refusal, line } => {
            end_of_write(write_whole(notes, line.as_bytes()), refusal.status())
        }
        Stop::Unread(name) => note_read_fault(notes, name.as_str()),
        Stop::NoMemory => note_want_of_memory(notes),
    }
}

/// Notes why words aren't read: what `clap` says of them, or the line on a number that is out of its range, or that there was no memory
/// left. Answers how the call ends.
pub fn note_words<E: Sink>(notes: &mut E, fault: &WordsFault) -> Status
    ensures noted { NotesWords fault.now result (E.taken notes.old) (E.taken notes.new) }
    ensures whole { (IsTrue E.takes_memory → ⊥) → result ≡ Status.NoMemory
        → E.taken notes.new ≡ with_text (E.taken notes.old) want_of_memory_line }
    ensures fault { result ≡ Status.WriteFailed → IsCounted (E.faults notes.old) (E.faults notes.new) }
    ensures no_fault { result ≢ Status.WriteFailed → E.faults notes.new ≡ E.faults notes.old }
{
    match fault {
        WordsFault::Refused(text) => note_line(notes, text.as_bytes(), Status::WordsRefused),
        WordsFault::OutOfRange(number) => note_out_of_range(notes, *number),
        WordsFault::NoMemory => note_want_of_memory(notes),
    }
}

/// Notes that a word isn't UTF-8, and answers how the call ends.
pub fn note_words_not_utf8<E: Sink>(notes: &mut E) -> Status
    ensures noted { NotesLine words_not_utf8_line Status.WordsRefused result (E.taken notes.old) (E.taken notes.new) }
    ensures fault { result ≡ Status.WriteFailed → IsCounted (E.faults notes.old) (E.faults notes.new) }
    ensures no_fault { result ≢ Status.WriteFailed → E.faults notes.new ≡ E.faults notes.old }
{
    note_line(notes, b"words: not utf-8\n", Status::WordsRefused)
}

/// Notes that this number is out of its range, and answers how the call ends.
fn note_out_of_range<E: Sink>(notes: &mut E, number: Number) -> Status
    ensures noted { NotesLine (line_of_cause (number_out_of_range number)) Status.WordsRefused result (E.taken notes.old) (E.taken notes.new) }
    ensures memory_is_taken { result ≡ Status.NoMemory → IsTrue E.takes_memory }
    ensures fault { result ≡ Status.WriteFailed → IsCounted (E.faults notes.old) (E.faults notes.new) }
    ensures no_fault { result ≢ Status.WriteFailed → E.faults notes.new ≡ E.faults notes.old }
{
    end_of_write(
        write_around(notes, b"words: ", number.name(), b" out of range\n"),
        Status::WordsRefused,
    )
}

/// Writes this line to the notes, and answers the status, or what kept the line from being written.
fn note_line<E: Sink>(notes: &mut E, line: &[u8], status: Status) -> Status
    requires refused { status ≡ Status.WordsRefused }
    ensures noted { NotesLine line.now status result (E.taken notes.old) (E.taken notes.new) }
    ensures memory_is_taken { result ≡ Status.NoMemory → IsTrue E.takes_memory }
    ensures fault { result ≡ Status.WriteFailed → IsCounted (E.faults notes.old) (E.faults notes.new) }
    ensures no_fault { result ≢ Status.WriteFailed → E.faults notes.new ≡ E.faults notes.old }
{
    end_of_write(write_whole(notes, line), status)
}

/// Notes that there was no memory left, and answers how the run ends.
pub fn note_want_of_memory<E: Sink>(notes: &mut E) -> Status
    ensures noted { NotesLine want_of_memory_line Status.NoMemory result (E.taken notes.old) (E.taken notes.new) }
    ensures whole { (IsTrue E.takes_memory → ⊥) → result ≡ Status.NoMemory
        → E.taken notes.new ≡ with_text (E.taken notes.old) want_of_memory_line }
    ensures fault { result ≡ Status.WriteFailed → IsCounted (E.faults notes.old) (E.faults notes.new) }
    ensures no_fault { result ≢ Status.WriteFailed → E.faults notes.new ≡ E.faults notes.old }
{
    end_of_write(write_whole(notes, b"want of memory\n"), Status::NoMemory)
}

/// Notes that the file of this name couldn't be read, and answers how the run ends.
fn note_read_fault<E: Sink>(notes: &mut E, name: &str) -> Status
    ensures noted { NotesLine (read_fault_line name.now) Status.ReadFailed result (E.taken notes.old) (E.taken notes.new) }
    ensures memory_is_taken { result ≡ Status.NoMemory → IsTrue E.takes_memory }
    ensures fault { result ≡ Status.WriteFailed → IsCounted (E.faults notes.old) (E.faults notes.new) }
    ensures no_fault { result ≢ Status.WriteFailed → E.faults notes.new ≡ E.faults notes.old }
{
    end_of_write(
        write_around(notes, b"read fault: ", name, b"\n"),
        Status::ReadFailed,
    )
}

/// Writes a line with a name between these texts.
fn write_around<E: Sink>(
    notes: &mut E,
    before: &[u8],
    name: &str,
    behind: &[u8],
) -> Result<(), IoFault>
    ensures whole { OnOk result (E.taken notes.new ≡ with_text (E.taken notes.old) (before.now ++ (name.now ++ behind.now))) }
    ensures front { OnErr result (TookFront (E.taken notes.old) (E.taken notes.new) (before.now ++ (name.now ++ behind.now))) }
    ensures counts { CountsWrite result (E.faults notes.old) (E.faults notes.new) }
    ensures memory_is_taken { IsErrOf result IoFault.NoMemory → IsTrue E.takes_memory }
{
    write_whole(notes, before)?;
    write_whole(notes, name.as_bytes())?;
    write_whole(notes, behind)
}
