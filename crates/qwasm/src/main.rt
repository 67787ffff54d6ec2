//! The program: `qwasm run SCHEMA DIR QUERIES` runs the queries of a file over table files, each as a WebAssembly module, and reports
//! their rows on standard output. `qwasm gen SEED ROWS` does so over tables that it generates. `qwasm compile SCHEMA QUERIES --statement K`
//! writes such a module, and `qwasm check MODULE` says whether a file is a valid one. The program ends with the status of the call.
//!
//! All that it does is [`qw_top::qwasm`], whose clauses say what a call promises (docs/THEOREMS.md); here it is given the outside:
//!
//! - `words`: the words of the command line, as the system has them;
//! - [`qw_io::FileShelf`]: the files, read by their names; [`qw_io::StdSink`]: standard output for the report, standard error for one line;
//! - `end`: the call, and the number that the program ends with, that of a [`qw_top::Status`] (README.md has all of them);
//! - `main`: puts these together, with memory of the system's allocator.
//!
//! An example, in this crate's folder: of the table T with the rows 4, 1 and 7 in `data/t.csv`,
//!
//!     qwasm run data/schema.sql data data/queries.sql
//!
//! runs `SELECT A FROM T WHERE A > 5`, prints `QUERY 1 ROWS 1`, `A` and `7`, a line each, and ends with 0.
//!
//! What each choice costs, as measured in docs/ARCHITECTURE.md ("Speed"), over a million records of four columns (46 MB of text):
//!
//! - a run loads each table of the schema, whichever the queries name: 0.22 s of processor time and 47 MiB, 1.1 times the text, with a query
//!   that keeps no row. Twice the records take up to twice the time. So a schema should have the tables that are wanted, and no more;
//! - ten queries over one such table took 0.63 s, its loading included: a script loads once, and ten runs would load ten times;
//! - a query reads only the columns that it names, and those that a conjunct is the first to name only at rows that reach it: write the
//!   conjunct first that few rows pass;
//! - a result row holds 8 octets and 16 for each cell until the report is written, within the pages that a query may hold (`--pages`), and takes some
//!   300 native instructions to print where it has one INTEGER cell;
//! - `compile` reads no table's file; `check` reads a module's octets once.
#![tactic(auto)]

ghost use Rattle.std.specs.Prelude.{◌≡◌, ◌≢◌, map, IfErr, IfOk};
ghost use Rattle.std.specs.IoError.{error_kind};
ghost use Rattle.std.specs.String.{string_bytes};
ghost use Rattle.qw_io.specs.Faults.{IsCounted};
ghost use Rattle.qw_top.specs.Notes.{NotesLine, want_of_memory_line, words_not_utf8_line};
ghost use Rattle.qw_top.specs.declared.status.Status.{Status};
ghost use Rattle.qwasm.specs.Program.{HasEnded, HasEndedWithout, outside};

use qw_io::{FileShelf, Shelf, Sink, StdSink};
use qw_top::notes::{note_want_of_memory, note_words_not_utf8};
use qw_top::{Status, qwasm};
use std::alloc::Global;
use std::io::ErrorKind;
use std::process::ExitCode;
use std::rt::Env;
use std::{env, io};

/// The words of the command line, without the program's own name. A word that is not UTF-8 is an error
/// of another kind than want of memory.
fn words<R: Env + AllocGlobal>(rt: &R) -> io::Result<Vec<String>> {
    let mut words = Vec::new(rt.alloc());
    for word in env::args(rt)?.skip(1) {
        words.push(word)?;
    }
    Ok(words)
}

/// How the program ends where its words could not be had, which is noted: there was no memory left, or a word isn't UTF-8.
fn end_without_words<E: Sink>(error: &io::Error, notes: &mut E) -> Status
    ensures wanted { error_kind error.now ≡ ErrorKind.OutOfMemory
        → NotesLine want_of_memory_line Status.NoMemory result (E.taken notes.old) (E.taken notes.new) }
    ensures refused { error_kind error.now ≢ ErrorKind.OutOfMemory
        → NotesLine words_not_utf8_line Status.WordsRefused result (E.taken notes.old) (E.taken notes.new) }
    ensures fault { result ≡ Status.WriteFailed → IsCounted (E.faults notes.old) (E.faults notes.new) }
    ensures no_fault { result ≢ Status.WriteFailed → E.faults notes.new ≡ E.faults notes.old }
{
    if error.kind() == ErrorKind::OutOfMemory {
        note_want_of_memory(notes)
    } else {
        note_words_not_utf8(notes)
    }
}

/// Runs what the words ask for, where they could be had, and answers the number that the program ends with.
fn end<F: Shelf, O: Sink, E: Sink>(
    alloc: Global,
    words: io::Result<Vec<String>>,
    files: &mut F,
    out: &mut O,
    notes: &mut E,
) -> ExitCode
    ensures run { IfOk words (λ words. HasEnded (F.files files.old) (map string_bytes words.items) E.takes_memory
        (outside (F.faults files.old) (F.fault_name files.old) (O.faults out.old) (O.taken out.old) (E.faults notes.old) (E.taken notes.old))
        (outside (F.faults files.new) (F.fault_name files.new) (O.faults out.new) (O.taken out.new) (E.faults notes.new) (E.taken notes.new)) result) }
    ensures wanted { IfErr words (λ error. error_kind error ≡ ErrorKind.OutOfMemory
        → HasEndedWithout want_of_memory_line Status.NoMemory (E.faults notes.old) (E.faults notes.new) (E.taken notes.old) (E.taken notes.new) result) }
    ensures refused { IfErr words (λ error. error_kind error ≢ ErrorKind.OutOfMemory
        → HasEndedWithout words_not_utf8_line Status.WordsRefused (E.faults notes.old) (E.faults notes.new) (E.taken notes.old) (E.taken notes.new) result) }
    ensures without { IfErr words (λ error. (F.faults files.new ≡ F.faults files.old) × (O.faults out.new ≡ O.faults out.old) × (O.taken out.new ≡ O.taken out.old)) }
{
    match words {
        Ok(words) => {
            let status = qwasm(alloc, words.as_slice(), files, out, notes, &mut None);
            ExitCode::from(status.code())
        }
        Err(error) => ExitCode::from(end_without_words(&error, notes).code()),
    }
}

fn main(rt: HostRuntime) -> ExitCode {
    let mut files = FileShelf::new(rt.alloc(), &rt);
    let mut out = StdSink::new(rt.stdout());
    let mut notes = StdSink::new(rt.stderr());
    end(rt.alloc(), words(&rt), &mut files, &mut out, &mut notes)
}
