//! `qwasm-layout`: what a host has to know of the module of a statement.

ghost use Rattle.std.specs.Prelude.{◌≡◌, ◌≢◌, ◌⊎◌, ℕ, List, Option, None, Some, map, IfErr, IfOk, IfSome, IsTrue};
ghost use Rattle.std.specs.String.{string_bytes};
ghost use Rattle.qw_io.specs.Faults.{IsCounted};
ghost use Rattle.qw_command_line.specs.LayoutWords.{layout_reading};
ghost use Rattle.qw_command_line.specs.Read.{texts_of};
ghost use Rattle.qw_command_line.specs.Words.{TextNames, command, compile};
ghost use Rattle.qw_top.specs.Asking.{AsksWithin};
ghost use Rattle.qw_top.specs.Call.{CompileSettles, ExplainsBy, HasStatement, IsLimitBy, IsScriptFile, IsTextLimit, LeavesText, NamesBy, NotesBy, SettlesBy, TextExplains, TookFrontOf};
ghost use Rattle.qw_top.specs.Causes.{Cause, status_of_cause};
ghost use Rattle.qw_top.specs.Delivered.{CommandNotes};
ghost use Rattle.qw_top.specs.Inner.Queries.{IsOver, asked_of};
ghost use Rattle.qw_top.specs.Inner.Shelves.{HasRead, told_by};
ghost use Rattle.qw_top.specs.Inner.Stop.{StopsBy, failed_stop};
ghost use Rattle.qw_top.specs.LayoutCall.{LayoutLeavesBy, LayoutLeavesFrontBy, LayoutWrites, TellsCompiled};
ghost use Rattle.qw_top.specs.Notes.{want_of_memory_line};
ghost use Rattle.qw_top.specs.Output.{with_text};
ghost use Rattle.qw_top.specs.Top.{Asked, IsFault};

use super::answer::answer;
use super::header::header_of;
use super::program::compiled;
use super::statement::read_statement;
use crate::notes::{note_stop, note_words};
use crate::status::Status;
use crate::stop::Stop;
use qw_check::laws::one_answer;
use qw_command_line::command::CompileWords;
use qw_command_line::layout::read_layout;
use qw_describe::description::description;
use qw_io::{Shelf, Sink};
use qw_typer::query::TypedQuery;
use qw_types::{NoMemory, Schema};
use std::alloc::Global;

/// Does what the words of a command line of `qwasm-layout` ask for, which come without its own name: writes to `out` what a host has to know
/// of the module of the statement, as one object in JSON and a line end (docs/FORMATS.md). `notes` gets a line where it couldn't. It reads the
/// files that `compile` reads, and refuses what it refuses.
pub fn qwasm_layout<F: Shelf, O: Sink, E: Sink>(
    alloc: Global,
    words: &[String],
    files: &mut F,
    out: &mut O,
    notes: &mut E,
) -> Status
    ensures explained { ExplainsBy (F.files files.old) (layout_reading (map string_bytes words.now)) None result }
    ensures exactly { (told : List ℕ → Option (List ℕ)) (cause : Cause) → F.files files.old ≡ Some told
        → SettlesBy (Some told) (layout_reading (map string_bytes words.now)) cause → (result ≡ status_of_cause cause) ⊎ IsFault result }
    ensures tells { (told : List ℕ → Option (List ℕ)) (names : TextNames) (number : ℕ) (one : Asked) → F.files files.old ≡ Some told
        → layout_reading (map string_bytes words.now) ≡ command (compile names number) → HasStatement (Some told) names number one
        → (result ≡ Status.Done) ⊎ IsFault result }
    ensures left { LayoutLeavesBy (F.files files.old) (layout_reading (map string_bytes words.now)) result (O.taken out.old) (O.taken out.new) }
    ensures at_fault { O.faults out.new ≢ O.faults out.old
        → LayoutLeavesFrontBy (F.files files.old) (layout_reading (map string_bytes words.now)) (O.taken out.old) (O.taken out.new) }
    ensures noted { NotesBy (F.files files.old) (layout_reading (map string_bytes words.now)) (F.fault_name files.new) result (E.taken notes.old) (E.taken notes.new) }
    ensures noted_whole { (IsTrue E.takes_memory → ⊥) → result ≡ Status.NoMemory
        → E.taken notes.new ≡ with_text (E.taken notes.old) want_of_memory_line }
    ensures silent_at_fault { O.faults out.new ≢ O.faults out.old → E.taken notes.new ≡ E.taken notes.old }
    ensures read_fault { result ≡ Status.ReadFailed → IsCounted (F.faults files.old) (F.faults files.new) }
    ensures no_read_fault { result ≢ Status.ReadFailed → result ≢ Status.WriteFailed → result ≢ Status.NoMemory
        → F.faults files.new ≡ F.faults files.old }
    ensures want_hides_none { (IsTrue E.takes_memory → ⊥) → result ≡ Status.NoMemory → F.faults files.new ≡ F.faults files.old }
    ensures fault_name { F.faults files.new ≢ F.faults files.old
        → IfSome (F.fault_name files.new) (λ name. NamesBy (F.files files.old) (layout_reading (map string_bytes words.now)) name) }
    ensures same_files { F.files files.new ≡ F.files files.old }
    ensures asked { AsksWithin (IsLimitBy (layout_reading (map string_bytes words.now))) (F.watched files.old) (F.watched files.new) }
    ensures write_fault { result ≡ Status.WriteFailed
        → IsCounted (O.faults out.old) (O.faults out.new) ⊎ IsCounted (E.faults notes.old) (E.faults notes.new) }
    ensures no_write_fault { result ≢ Status.WriteFailed
        → (O.faults out.new ≡ O.faults out.old) × (E.faults notes.new ≡ E.faults notes.old) }
{
    one_answer();
    perform(alloc, words, files, out, notes)
}

/// Does what the words ask for.
fn perform<F: Shelf, O: Sink, E: Sink>(
    alloc: Global,
    words: &[String],
    files: &mut F,
    out: &mut O,
    notes: &mut E,
) -> Status
    ensures explained { ExplainsBy (F.files files.old) (layout_reading (map string_bytes words.now)) None result }
    ensures left { LayoutLeavesBy (F.files files.old) (layout_reading (map string_bytes words.now)) result (O.taken out.old) (O.taken out.new) }
    ensures at_fault { O.faults out.new ≢ O.faults out.old
        → LayoutLeavesFrontBy (F.files files.old) (layout_reading (map string_bytes words.now)) (O.taken out.old) (O.taken out.new) }
    ensures noted { NotesBy (F.files files.old) (layout_reading (map string_bytes words.now)) (F.fault_name files.new) result (E.taken notes.old) (E.taken notes.new) }
    ensures noted_whole { (IsTrue E.takes_memory → ⊥) → result ≡ Status.NoMemory
        → E.taken notes.new ≡ with_text (E.taken notes.old) want_of_memory_line }
    ensures silent_at_fault { O.faults out.new ≢ O.faults out.old → E.taken notes.new ≡ E.taken notes.old }
    ensures read_fault { result ≡ Status.ReadFailed → IsCounted (F.faults files.old) (F.faults files.new) }
    ensures no_read_fault { result ≢ Status.ReadFailed → result ≢ Status.WriteFailed → result ≢ Status.NoMemory
        → F.faults files.new ≡ F.faults files.old }
    ensures want_hides_none { (IsTrue E.takes_memory → ⊥) → result ≡ Status.NoMemory → F.faults files.new ≡ F.faults files.old }
    ensures fault_name { F.faults files.new ≢ F.faults files.old
        → IfSome (F.fault_name files.new) (λ name. NamesBy (F.files files.old) (layout_reading (map string_bytes words.now)) name) }
    ensures same_files { F.files files.new ≡ F.files files.old }
    ensures asked { AsksWithin (IsLimitBy (layout_reading (map string_bytes words.now))) (F.watched files.old) (F.watched files.new) }
    ensures write_fault { result ≡ Status.WriteFailed
        → IsCounted (O.faults out.old) (O.faults out.new) ⊎ IsCounted (E.faults notes.old) (E.faults notes.new) }
    ensures no_write_fault { result ≢ Status.WriteFailed
        → (O.faults out.new ≡ O.faults out.old) × (E.faults notes.new ≡ E.faults notes.old) }
{
    match read_layout(alloc, words) {
        Ok(names) => tell_statement(alloc, &names, files, out, notes),
        Err(fault) => note_words(notes, &fault),
    }
}

/// Writes what a host has to know of the module of the statement that the words name.
fn tell_statement<F: Shelf, O: Sink, E: Sink>(
    alloc: Global,
    names: &CompileWords<'_>,
    files: &mut F,
    out: &mut O,
    notes: &mut E,
) -> Status
    ensures explained { TextExplains ((one : Asked) × HasStatement (F.files files.old) (texts_of names.now) names.now.statement one) (CompileSettles (F.files files.old) (texts_of names.now) names.now.statement) result }
    ensures left { LeavesText (LayoutWrites (F.files files.old) (texts_of names.now) names.now.statement) result (O.taken out.old) (O.taken out.new) }
    ensures at_fault { O.faults out.new ≢ O.faults out.old → TookFrontOf (LayoutWrites (F.files files.old) (texts_of names.now) names.now.statement) (O.taken out.old) (O.taken out.new) }
    ensures noted { CommandNotes (CompileSettles (F.files files.old) (texts_of names.now) names.now.statement) (IsScriptFile (F.files files.old) (texts_of names.now)) (F.fault_name files.new) result (E.taken notes.old) (E.taken notes.new) }
    ensures noted_whole { (IsTrue E.takes_memory → ⊥) → result ≡ Status.NoMemory
        → E.taken notes.new ≡ with_text (E.taken notes.old) want_of_memory_line }
    ensures silent_at_fault { O.faults out.new ≢ O.faults out.old → E.taken notes.new ≡ E.taken notes.old }
    ensures read_fault { result ≡ Status.ReadFailed → IsCounted (F.faults files.old) (F.faults files.new) }
    ensures no_read_fault { result ≢ Status.ReadFailed → result ≢ Status.WriteFailed → result ≢ Status.NoMemory
        → F.faults files.new ≡ F.faults files.old }
    ensures want_hides_none { (IsTrue E.takes_memory → ⊥) → result ≡ Status.NoMemory → F.faults files.new ≡ F.faults files.old }
    ensures fault_name { F.faults files.new ≢ F.faults files.old → IfSome (F.fault_name files.new) (IsScriptFile (F.files files.old) (texts_of names.now)) }
    ensures same_files { F.files files.new ≡ F.files files.old }
    ensures asked { AsksWithin (IsTextLimit names.now.schema.now names.now.queries.now) (F.watched files.old) (F.watched files.new) }
    ensures write_fault { result ≡ Status.WriteFailed
        → IsCounted (O.faults out.old) (O.faults out.new) ⊎ IsCounted (E.faults notes.old) (E.faults notes.new) }
    ensures no_write_fault { result ≢ Status.WriteFailed
        → (O.faults out.new ≡ O.faults out.old) × (E.faults notes.new ≡ E.faults notes.old) }
{
    match layout_of_statement(alloc, names, files) {
        Ok(text) => answer(text.as_bytes(), out, notes),
        Err(stop) => note_stop(notes, &stop),
    }
}

/// What a host has to know of the module of the statement that the words name.
///
/// # Errors
///
/// A refusal of a file or of the statement's number, the name of a file that couldn't be read, or want of memory.
fn layout_of_statement<'a, F: Shelf>(
    alloc: Global,
    names: &CompileWords<'a>,
    files: &mut F,
) -> Result<String, Stop<'a>>
    ensures written { IfOk result (λ text. LayoutWrites (F.files files.old) (texts_of names.now) names.now.statement (string_bytes text)) }
    ensures stops { IfErr result (λ stop. StopsBy (CompileSettles (F.files files.old) (texts_of names.now) names.now.statement)
        (IsScriptFile (F.files files.old) (texts_of names.now)) stop) }
    ensures shelf { HasRead (failed_stop result) (told_by F.Shelf files.old) (told_by F.Shelf files.new) }
    ensures within { AsksWithin (IsTextLimit names.now.schema.now names.now.queries.now) (F.watched files.old) (F.watched files.new) }
{
    let found = read_statement(alloc, names, files)?;
    Ok(layout_of(alloc, &found.schema, &found.query)?)
}

/// What a host has to know of the module of a query over a schema.
fn layout_of(alloc: Global, schema: &Schema, query: &TypedQuery) -> Result<String, NoMemory>
    requires { IsOver schema.now query.now }
    ensures { IfOk result (λ text. TellsCompiled schema.now (asked_of query.now) (string_bytes text)) }
{
    let compiled = compiled(alloc, schema, query)?;
    let header = header_of(alloc, query)?;
    let mut text = description(
        alloc,
        schema.as_slice(),
        compiled.module.imports.as_slice(),
        &compiled.layout,
        header.as_slice(),
        query.keys.as_slice(),
    )?;
    text.push_str("\n")?;
    Ok(text)
}
