//! The program: `qwasm-layout SCHEMA QUERIES --statement K` tells in JSON what a host has to know of the module that `qwasm compile` writes for
//! the same words, so that it needs no SQL (docs/FORMATS.md, "The layout"). It ends with the status of the call.
//!
//! All that it does is [`qw_top::qwasm_layout`]; here it is given the outside: words, files, standard output and standard error, as the
//! program `qwasm` has them.
#![tactic(auto)]

ghost use Rattle.std.specs.Prelude.{◌≡◌, ◌≢◌, map, IfErr, IfOk};
ghost use Rattle.std.specs.IoError.{error_kind};
ghost use Rattle.std.specs.String.{string_bytes};
ghost use Rattle.qw_io.specs.Faults.{IsCounted};
ghost use Rattle.qw_top.specs.Notes.{NotesLine, want_of_memory_line, words_not_utf8_line};
ghost use Rattle.qw_top.specs.declared.status.Status.{Status};
ghost use Rattle.qwasm_layout.specs.Program.{HasEndedWithout, HasTold, outside};

use qw_io::{FileShelf, Shelf, Sink, StdSink};
use qw_top::notes::{note_want_of_memory, note_words_not_utf8};
use qw_top::{Status, qwasm_layout};
use std::alloc::Global;
use std::io::ErrorKind;
use std::process::ExitCode;
use std::rt::Env;
use std::{env, io};

/// The words of the command line, without the program's own name. A word that is not UTF-8 is an error
/// of another kind than want of memory.
fn words<R: Env + AllocGlobal>(rt: &R) -> io::Result<Vec<String>> {
    let mut words = Vec::new(rt.alloc());
    for word in env::args(rt)?.skip(1) {
        words.push(word)?;
    }
    Ok(words)
}

/// How the program ends where its words could not be had, which is noted: there was no memory left, or a word isn't UTF-8.
fn end_without_words<E: Sink>(error: &io::Error, notes: &mut E) -> Status
    ensures wanted { error_kind error.now ≡ ErrorKind.OutOfMemory
        → NotesLine want_of_memory_line Status.NoMemory result (E.taken notes.old) (E.taken notes.new) }
    ensures refused { error_kind error.now ≢ ErrorKind.OutOfMemory
        → NotesLine words_not_utf8_line Status.WordsRefused result (E.taken notes.old) (E.taken notes.new) }
    ensures fault { result ≡ Status.WriteFailed → IsCounted (E.faults notes.old) (E.faults notes.new) }
    ensures no_fault { result ≢ Status.WriteFailed → E.faults notes.new ≡ E.faults notes.old }
{
    if error.kind() == ErrorKind::OutOfMemory {
        note_want_of_memory(notes)
    } else {
        note_words_not_utf8(notes)
    }
}

/// Does what the words ask for, where they could be had, and answers the number that the program ends with.
fn end<F: Shelf, O: Sink, E: Sink>(
    alloc: Global,
    words: io::Result<Vec<String>>,
    files: &mut F,
    out: &mut O,
    notes: &mut E,
) -> ExitCode
    ensures told { IfOk words (λ words. HasTold (F.files files.old) (map string_bytes words.items) E.takes_memory
        (outside (F.faults files.old) (F.fault_name files.old) (O.faults out.old) (O.taken out.old) (E.faults notes.old) (E.taken notes.old))
        (outside (F.faults files.new) (F.fault_name files.new) (O.faults out.new) (O.taken out.new) (E.faults notes.new) (E.taken notes.new)) result) }
    ensures wanted { IfErr words (λ error. error_kind error ≡ ErrorKind.OutOfMemory
        → HasEndedWithout want_of_memory_line Status.NoMemory (E.faults notes.old) (E.faults notes.new) (E.taken notes.old) (E.taken notes.new) result) }
    ensures refused { IfErr words (λ error. error_kind error ≢ ErrorKind.OutOfMemory
        → HasEndedWithout words_not_utf8_line Status.WordsRefused (E.faults notes.old) (E.faults notes.new) (E.taken notes.old) (E.taken notes.new) result) }
    ensures without { IfErr words (λ error. (F.faults files.new ≡ F.faults files.old) × (O.faults out.new ≡ O.faults out.old) × (O.taken out.new ≡ O.taken out.old)) }
{
    match words {
        Ok(words) => {
            let status = qwasm_layout(alloc, words.as_slice(), files, out, notes);
            ExitCode::from(status.code())
        }
        Err(error) => ExitCode::from(end_without_words(&error, notes).code()),
    }
}

fn main(rt: HostRuntime) -> ExitCode {
    let mut files = FileShelf::new(rt.alloc(), &rt);
    let mut out = StdSink::new(rt.stdout());
    let mut notes = StdSink::new(rt.stderr());
    end(rt.alloc(), words(&rt), &mut files, &mut out, &mut notes)
}
