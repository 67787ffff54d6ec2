//! A call, from its words to the command that they are read as.

ghost use Rattle.std.specs.Prelude.{◌≡◌, ◌≢◌, ◌⊎◌, ℕ, List, Option, map, IfSome, IsTrue, None};
ghost use Rattle.std.specs.String.{string_bytes};
ghost use Rattle.qw_io.specs.Faults.{IsCounted};
ghost use Rattle.qw_command_line.specs.Read.{names_of, options_of};
ghost use Rattle.qw_top.specs.Asking.{AsksWithin};
ghost use Rattle.qw_top.specs.Call.{Explains, IsLimit, IsNamed, IsRunLimit, Leaves, LeavesFront, Notes};
ghost use Rattle.qw_top.specs.Delivered.{CommandNotes, LeavesBench, RunLeaves};
ghost use Rattle.qw_top.specs.Generated.{generated_files, generated_names};
ghost use Rattle.qw_top.specs.Inner.Noted.{IsUnread};
ghost use Rattle.qw_top.specs.Limits.{limits_of};
ghost use Rattle.qw_top.specs.Notes.{want_of_memory_line};
ghost use Rattle.qw_top.specs.Output.{TookFront, with_text};
ghost use Rattle.qw_top.specs.Top.{FilesSettle, IsFileOf, RunExplains};

use super::check::check_file;
use super::compile::compile_statement;
use super::report::deliver;
use super::run::run;
use crate::generated::{GeneratedFiles, words_of};
use crate::notes::{note_stop, note_want_of_memory, note_words};
use crate::status::Status;
use qw_bench::bench::Bench;
use qw_command_line::command::{Command, GenWords, RunWords};
use qw_command_line::read::read;
use qw_generate::generated;
use qw_io::{Shelf, Sink};
use qw_types::NoMemory;
use std::alloc::Global;

/// Does what the words ask for.
pub(super) fn perform<F: Shelf, O: Sink, E: Sink>(
    alloc: Global,
    words: &[String],
    files: &mut F,
    out: &mut O,
    notes: &mut E,
    kept: &mut Option<Bench>,
) -> Status
    ensures explained { Explains (F.files files.old) (map string_bytes words.now) kept.new result }
    ensures left { Leaves (F.files files.old) (map string_bytes words.now) result kept.new (O.taken out.old) (O.taken out.new) }
    ensures kept_at_fault { O.faults out.new ≢ O.faults out.old
        → LeavesFront (F.files files.old) (map string_bytes words.now) kept.new (O.taken out.old) (O.taken out.new) }
    ensures noted { Notes (F.files files.old) (map string_bytes words.now) (F.fault_name files.new) result (E.taken notes.old) (E.taken notes.new) }
    ensures noted_whole { (IsTrue E.takes_memory → ⊥) → result ≡ Status.NoMemory
        → E.taken notes.new ≡ with_text (E.taken notes.old) want_of_memory_line }
    ensures silent_at_fault { O.faults out.new ≢ O.faults out.old → E.taken notes.new ≡ E.taken notes.old }
    ensures read_fault { result ≡ Status.ReadFailed → IsCounted (F.faults files.old) (F.faults files.new) }
    ensures no_read_fault { result ≢ Status.ReadFailed → result ≢ Status.WriteFailed → result ≢ Status.NoMemory
        → F.faults files.new ≡ F.faults files.old }
    ensures want_hides_none { (IsTrue E.takes_memory → ⊥) → result ≡ Status.NoMemory → F.faults files.new ≡ F.faults files.old }
    ensures fault_name { F.faults files.new ≢ F.faults files.old
        → IfSome (F.fault_name files.new) (λ name. IsNamed (F.files files.old) (map string_bytes words.now) name) }
    ensures same_files { F.files files.new ≡ F.files files.old }
    ensures asked { AsksWithin (IsLimit (map string_bytes words.now)) (F.watched files.old) (F.watched files.new) }
    ensures write_fault { result ≡ Status.WriteFailed
        → IsCounted (O.faults out.old) (O.faults out.new) ⊎ IsCounted (E.faults notes.old) (E.faults notes.new) }
    ensures no_write_fault { result ≢ Status.WriteFailed
        → (O.faults out.new ≡ O.faults out.old) × (E.faults notes.new ≡ E.faults notes.old) }
{
    *kept = None;
    match read(alloc, words) {
        Ok(Command::Run(names)) => run_queries(alloc, &names, files, out, notes, kept),
        Ok(Command::Compile(names)) => compile_statement(alloc, &names, files, out, notes),
        Ok(Command::Check(name)) => check_file(alloc, name, files, out, notes),
        Ok(Command::Gen(words)) => run_generated(alloc, &words, out, notes, kept),
        Err(fault) => note_words(notes, &fault),
    }
}

/// Runs the queries of the files that the words name, and writes the report. Where it gets as far as a bench, the bench is kept.
fn run_queries<F: Shelf, O: Sink, E: Sink>(
    alloc: Global,
    names: &RunWords<'_>,
    files: &mut F,
    out: &mut O,
    notes: &mut E,
    kept: &mut Option<Bench>,
) -> Status
    requires { kept.old ≡ None }
    ensures explained { RunExplains (limits_of (options_of names.now.options)) (F.files files.old) (names_of names.now) kept.new result }
    ensures left { RunLeaves (options_of names.now.options) (F.files files.old) (names_of names.now) result kept.new (O.taken out.old) (O.taken out.new) }
    ensures kept_at_fault { O.faults out.new ≢ O.faults out.old
        → LeavesBench (options_of names.now.options) (F.files files.old) (names_of names.now) kept.new
        (λ status report. TookFront (O.taken out.old) (O.taken out.new) report) }
    ensures noted { CommandNotes (FilesSettle (limits_of (options_of names.now.options)) (F.files files.old) (names_of names.now))
        (IsUnread (IsFileOf (F.files files.old) (names_of names.now)) (F.faults files.old) (F.faults files.new))
        (F.fault_name files.new) result (E.taken notes.old) (E.taken notes.new) }
    ensures noted_whole { (IsTrue E.takes_memory → ⊥) → result ≡ Status.NoMemory
        → E.taken notes.new ≡ with_text (E.taken notes.old) want_of_memory_line }
    ensures silent_at_fault { O.faults out.new ≢ O.faults out.old → E.taken notes.new ≡ E.taken notes.old }
    ensures read_fault { result ≡ Status.ReadFailed → IsCounted (F.faults files.old) (F.faults files.new) }
    ensures no_read_fault { result ≢ Status.ReadFailed → result ≢ Status.WriteFailed → result ≢ Status.NoMemory
        → F.faults files.new ≡ F.faults files.old }
    ensures want_hides_none { (IsTrue E.takes_memory → ⊥) → result ≡ Status.NoMemory → F.faults files.new ≡ F.faults files.old }
    ensures fault_name { F.faults files.new ≢ F.faults files.old
        → IfSome (F.fault_name files.new) (λ name. IsFileOf (F.files files.old) (names_of names.now) name) }
    ensures same_files { F.files files.new ≡ F.files files.old }
    ensures asked { AsksWithin (IsRunLimit (names_of names.now)) (F.watched files.old) (F.watched files.new) }
    ensures write_fault { result ≡ Status.WriteFailed
        → IsCounted (O.faults out.old) (O.faults out.new) ⊎ IsCounted (E.faults notes.old) (E.faults notes.new) }
    ensures no_write_fault { result ≢ Status.WriteFailed
        → (O.faults out.new ≡ O.faults out.old) × (E.faults notes.new ≡ E.faults notes.old) }
{
    match run(alloc, names, files) {
        Ok(turned) => {
            let status = deliver(alloc, &turned, names.options.counts, out);
            *kept = Some(turned.bench);
            match status {
                Status::NoMemory => note_want_of_memory(notes),
                status => status,
            }
        }
        Err(stop) => note_stop(notes, &stop),
    }
}

/// Runs the queries of generated input, and writes the report. Where it gets as far as a bench, the bench is kept.
fn run_generated<O: Sink, E: Sink>(
    alloc: Global,
    words: &GenWords,
    out: &mut O,
    notes: &mut E,
    kept: &mut Option<Bench>,
) -> Status
    requires { kept.old ≡ None }
    ensures explained { RunExplains (limits_of (options_of words.now.options)) (generated_files words.now.seed words.now.rows) generated_names kept.new result }
    ensures left { RunLeaves (options_of words.now.options) (generated_files words.now.seed words.now.rows) generated_names result kept.new (O.taken out.old) (O.taken out.new) }
    ensures kept_at_fault { O.faults out.new ≢ O.faults out.old
        → LeavesBench (options_of words.now.options) (generated_files words.now.seed words.now.rows) generated_names kept.new
        (λ status report. TookFront (O.taken out.old) (O.taken out.new) report) }
    ensures noted { (fault_name : Option (List ℕ))
        → CommandNotes (FilesSettle (limits_of (options_of words.now.options)) (generated_files words.now.seed words.now.rows) generated_names) (λ name. ⊥)
        fault_name result (E.taken notes.old) (E.taken notes.new) }
    ensures noted_whole { (IsTrue E.takes_memory → ⊥) → result ≡ Status.NoMemory
        → E.taken notes.new ≡ with_text (E.taken notes.old) want_of_memory_line }
    ensures silent_at_fault { O.faults out.new ≢ O.faults out.old → E.taken notes.new ≡ E.taken notes.old }
    ensures no_read { result ≢ Status.ReadFailed }
    ensures write_fault { result ≡ Status.WriteFailed
        → IsCounted (O.faults out.old) (O.faults out.new) ⊎ IsCounted (E.faults notes.old) (E.faults notes.new) }
    ensures no_write_fault { result ≢ Status.WriteFailed
        → (O.faults out.new ≡ O.faults out.old) × (E.faults notes.new ≡ E.faults notes.old) }
{
    match generated(alloc, words.seed, words.rows) {
        Ok(input) => {
            let mut files = GeneratedFiles::new(input);
            let names = words_of(words.options);
            run_queries(alloc, &names, &mut files, out, notes, kept)
        }
        Err(NoMemory) => note_want_of_memory(notes),
    }
}
