//! The statement that words name, by a schema file and a queries file.

ghost use Rattle.std.specs.Prelude.{◌≡◌, ◌-◌, ◌≤◌, ◌<◌, None, IfErr, IfOk, IfSome, Some, length, slice_get};
ghost use Rattle.qw_command_line.specs.Read.{texts_of};
ghost use Rattle.qw_top.specs.Asking.{AsksWithin};
ghost use Rattle.qw_top.specs.Call.{CompileSettles, IsScriptFile, IsTextLimit};
ghost use Rattle.qw_top.specs.Inner.Queries.{IsOver, asked_of};
ghost use Rattle.qw_top.specs.Inner.Shelves.{HasRead, told_by};
ghost use Rattle.qw_top.specs.Inner.Stop.{StopsBy, failed_stop};
ghost use Rattle.qw_top.specs.LayoutCall.{IsStatement};

use super::inputs::{read_queries, read_schema};
use crate::causes::Cause;
use crate::stop::{Stop, refused};
use qw_command_line::command::CompileWords;
use qw_io::Shelf;
use qw_typer::query::TypedQuery;
use qw_types::Schema;
use std::alloc::Global;

/// A statement over a schema.
#[derive(Drop)]
pub struct Statement {
    pub schema: Schema,
    pub query: TypedQuery,
}

/// The statement that the words name.
///
/// # Errors
///
/// A refusal of a file or of the statement's number, the name of a file that couldn't be read, or want of memory.
pub(super) fn read_statement<'a, F: Shelf>(
    alloc: Global,
    names: &CompileWords<'a>,
    files: &mut F,
) -> Result<Statement, Stop<'a>>
    ensures found { IfOk result (λ found. IsStatement (F.files files.old) (texts_of names.now) names.now.statement found.schema (asked_of found.query)) }
    ensures over { IfOk result (λ found. IsOver found.schema found.query) }
    ensures stops { IfErr result (λ stop. StopsBy (CompileSettles (F.files files.old) (texts_of names.now) names.now.statement)
        (IsScriptFile (F.files files.old) (texts_of names.now)) stop) }
    ensures shelf { HasRead (failed_stop result) (told_by F.Shelf files.old) (told_by F.Shelf files.new) }
    ensures within { AsksWithin (IsTextLimit names.now.schema.now names.now.queries.now) (F.watched files.old) (F.watched files.new) }
{
    let schema = read_schema(alloc, names.schema, files)?;
    let queries = read_queries(alloc, names.queries, &schema, files)?;
    match statement_of(queries, names.statement) {
        Some(query) => Ok(Statement { schema, query }),
        None => Err(refused(alloc, Cause::NoStatement(names.statement))),
    }
}

/// The query of this number, counted from 1.
fn statement_of(mut queries: Vec<TypedQuery>, statement: u64) -> Option<TypedQuery>
    requires { 1 ≤ length queries.items }
    ensures there { IfSome result (λ query. slice_get queries.items (statement - 1) ≡ Some query) }
    ensures missing { result ≡ None → length queries.items < statement }
{
    let index = statement.saturating_sub(1) as usize;
    if index < queries.len() {
        Some(queries.remove(index))
    } else {
        None
    }
}
