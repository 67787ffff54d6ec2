//! `compile`: the module of a statement.

ghost use Rattle.std.specs.Prelude.{◌≡◌, ◌≢◌, ◌⊎◌, IfErr, IfOk, IfSome, IsTrue};
ghost use Rattle.qw_io.specs.Faults.{IsCounted};
ghost use Rattle.qw_command_line.specs.Read.{texts_of};
ghost use Rattle.qw_top.specs.Asking.{AsksWithin};
ghost use Rattle.qw_top.specs.Call.{CompileSettles, CompileWrites, HasStatement, IsScriptFile, IsTextLimit, LeavesText, SpellsCompiled, TextExplains, TookFrontOf};
ghost use Rattle.qw_top.specs.Delivered.{CommandNotes};
ghost use Rattle.qw_top.specs.Inner.Queries.{IsOver, asked_of};
ghost use Rattle.qw_top.specs.Inner.Shelves.{HasRead, told_by};
ghost use Rattle.qw_top.specs.Inner.Stop.{StopsBy, failed_stop};
ghost use Rattle.qw_top.specs.Notes.{want_of_memory_line};
ghost use Rattle.qw_top.specs.Output.{with_text};
ghost use Rattle.qw_top.specs.Top.{Asked};

use super::answer::answer;
use super::program::compiled;
use super::statement::read_statement;
use crate::notes::note_stop;
use crate::status::Status;
use crate::stop::Stop;
use qw_binary::encode::encode;
use qw_command_line::command::CompileWords;
use qw_io::{Shelf, Sink};
use qw_octet_grammar::write::WriteFault;
use qw_typer::query::TypedQuery;
use qw_types::{NoMemory, Schema};
use std::alloc::Global;

/// Writes the module of the statement that the words name.
pub(super) fn compile_statement<F: Shelf, O: Sink, E: Sink>(
    alloc: Global,
    names: &CompileWords<'_>,
    files: &mut F,
    out: &mut O,
    notes: &mut E,
) -> Status
    ensures explained { TextExplains ((one : Asked) × HasStatement (F.files files.old) (texts_of names.now) names.now.statement one) (CompileSettles (F.files files.old) (texts_of names.now) names.now.statement) result }
    ensures left { LeavesText (CompileWrites (F.files files.old) (texts_of names.now) names.now.statement) result (O.taken out.old) (O.taken out.new) }
    ensures at_fault { O.faults out.new ≢ O.faults out.old → TookFrontOf (CompileWrites (F.files files.old) (texts_of names.now) names.now.statement) (O.taken out.old) (O.taken out.new) }
    ensures noted { CommandNotes (CompileSettles (F.files files.old) (texts_of names.now) names.now.statement) (IsScriptFile (F.files files.old) (texts_of names.now)) (F.fault_name files.new) result (E.taken notes.old) (E.taken notes.new) }
    ensures noted_whole { (IsTrue E.takes_memory → ⊥) → result ≡ Status.NoMemory
        → E.taken notes.new ≡ with_text (E.taken notes.old) want_of_memory_line }
    ensures silent_at_fault { O.faults out.new ≢ O.faults out.old → E.taken notes.new ≡ E.taken notes.old }
    ensures read_fault { result ≡ Status.ReadFailed → IsCounted (F.faults files.old) (F.faults files.new) }
    ensures no_read_fault { result ≢ Status.ReadFailed → result ≢ Status.WriteFailed → result ≢ Status.NoMemory
        → F.faults files.new ≡ F.faults files.old }
    ensures want_hides_none { (IsTrue E.takes_memory → ⊥) → result ≡ Status.NoMemory → F.faults files.new ≡ F.faults files.old }
    ensures fault_name { F.faults files.new ≢ F.faults files.old → IfSome (F.fault_name files.new) (IsScriptFile (F.files files.old) (texts_of names.now)) }
    ensures same_files { F.files files.new ≡ F.files files.old }
    ensures asked { AsksWithin (IsTextLimit names.now.schema.now names.now.queries.now) (F.watched files.old) (F.watched files.new) }
    ensures write_fault { result ≡ Status.WriteFailed
        → IsCounted (O.faults out.old) (O.faults out.new) ⊎ IsCounted (E.faults notes.old) (E.faults notes.new) }
    ensures no_write_fault { result ≢ Status.WriteFailed
        → (O.faults out.new ≡ O.faults out.old) × (E.faults notes.new ≡ E.faults notes.old) }
{
    match octets_of_statement(alloc, names, files) {
        Ok(octets) => answer(octets.as_slice(), out, notes),
        Err(stop) => note_stop(notes, &stop),
    }
}

/// The octets of the module of the statement that the words name.
///
/// # Errors
///
/// A refusal of a file or of the statement's number, the name of a file that couldn't be read, or want of memory.
fn octets_of_statement<'a, F: Shelf>(
    alloc: Global,
    names: &CompileWords<'a>,
    files: &mut F,
) -> Result<Vec<u8>, Stop<'a>>
    ensures written { IfOk result (λ octets. CompileWrites (F.files files.old) (texts_of names.now) names.now.statement octets.items) }
    ensures stops { IfErr result (λ stop. StopsBy (CompileSettles (F.files files.old) (texts_of names.now) names.now.statement)
        (IsScriptFile (F.files files.old) (texts_of names.now)) stop) }
    ensures shelf { HasRead (failed_stop result) (told_by F.Shelf files.old) (told_by F.Shelf files.new) }
    ensures within { AsksWithin (IsTextLimit names.now.schema.now names.now.queries.now) (F.watched files.old) (F.watched files.new) }
{
    let found = read_statement(alloc, names, files)?;
    Ok(octets_of(alloc, &found.schema, &found.query)?)
}

/// The octets of the module of a query over a schema. A compiled module is always spelled.
fn octets_of(alloc: Global, schema: &Schema, query: &TypedQuery) -> Result<Vec<u8>, NoMemory>
    requires { IsOver schema.now query.now }
    ensures { IfOk result (λ octets. SpellsCompiled (asked_of query.now) octets.items) }
{
    let compiled = compiled(alloc, schema, query)?;
    match encode(alloc, &compiled.module) {
        Ok(octets) => Ok(octets),
        Err(WriteFault::NoMemory) => Err(NoMemory),
        Err(WriteFault::NotSpelled) => unreachable!(),
    }
}
