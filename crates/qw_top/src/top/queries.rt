//! The queries that the text of a script asks for.

ghost use Rattle.std.specs.Prelude.{◌≤◌, IfErr, IfOk, length, map};
ghost use Rattle.std.specs.List.{AllByRecursion};
ghost use Rattle.qw_top.specs.Inner.Queries.{IsOver, Refuses, asked_of};
ghost use Rattle.qw_top.specs.Top.{AsksFor};

use qw_parse::fault::ParseFault;
use qw_parse::script::script_of;
use qw_typer::fault::TypeFault;
use qw_typer::query::TypedQuery;
use qw_typer::script::type_script;
use qw_types::Schema;
use std::alloc::Global;
use thiserror::Error;

/// Why a text asks for no queries over a schema.
#[derive(Debug, Drop, Error)]
pub enum QueriesFault {
    /// The text is no script.
    #[error("{0}")]
    Script(ParseFault),
    /// A query of the script means nothing.
    #[error("{0}")]
    Typing(TypeFault),
}

/// The queries of a script over a schema, in order.
///
/// # Errors
///
/// The first fault of the text; or, of a script, a fault of its first query that has any; or want of memory.
pub fn queries_of(
    alloc: Global,
    schema: &Schema,
    text: &[u8],
) -> Result<Vec<TypedQuery>, QueriesFault>
    ensures asks { IfOk result (λ queries. AsksFor schema.now text.now (map asked_of queries.items)) }
    ensures over { IfOk result (λ queries. AllByRecursion (IsOver schema.now) queries.items) }
    ensures some { IfOk result (λ queries. 1 ≤ length queries.items) }
    ensures few { IfOk result (λ queries. length queries.items ≤ 64) }
    ensures refused { IfErr result (λ fault. Refuses schema.now text.now fault) }
{
    let script = match script_of(alloc, text) {
        Ok(script) => script,
        Err(fault) => return Err(QueriesFault::Script(fault)),
    };
    match type_script(alloc, schema, &script) {
        Ok(queries) => Ok(queries),
        Err(fault) => Err(QueriesFault::Typing(fault)),
    }
}
