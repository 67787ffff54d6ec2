//! What the queries of a script mean (ISO/IEC 9075:1992, 7.9), or its first fault.

ghost use Rattle.std.specs.Prelude.{◌≡◌, ◌⊎◌, ◌+◌, IfOk, IfErr, List, length};
ghost use Rattle.qw_ast.specs.SyntaxTree.{select_of, selects_of};
ghost use Rattle.qw_typer.specs.Inner.Queries.{IsFaultOf};
ghost use Rattle.qw_typer.specs.Inner.Typing.{spelled};
ghost use Rattle.qw_typer.specs.Meanings.{AreMeant};
ghost use Rattle.qw_typer.specs.Sizes.{AreSmall};
ghost use Rattle.qw_typer.specs.Typed.{HasFirstFault, query_faults};
ghost use Rattle.qw_typer.specs.declared.fault.TypeFault.TheVariants as type_fault;

use crate::fault::TypeFault;
use crate::name::{name_text, written_text};
use crate::query::{TypedQuery, query};
use crate::refusal::{Refusal, Token};
use crate::set_function::word;
use qw_ast::script::Script;
use qw_types::{NoMemory, Schema, Text};
use std::alloc::Global;

/// What a script's queries mean over a schema's tables, in order, each with the names of its result columns and the keys of
/// its order.
///
/// # Errors
///
/// `Fault` where a query has a fault: the number of the first faulty query, from 1, one of its faults, and the token that it is
/// reported at. `NoMemory` where memory is wanting.
pub fn type_script<'a>(
    alloc: Global,
    schema: &'a Schema,
    script: &Script<'a>,
) -> Result<Vec<TypedQuery>, TypeFault>
    ensures meanings { IfOk result (λ made. AreMeant schema.now (selects_of script.now) made.items) }
    ensures small { IfOk result (λ made. AreSmall made.items) }
    ensures first_fault { IfErr result (λ fault. (fault ≡ type_fault.NoMemory) ⊎ HasFirstFault schema.now 1 (selects_of script.now) fault) }
{
    let mut made = Vec::new(alloc);
    let mut rest = script.as_slice();
    while let [statement, behind @ ..] = rest {
        match query(alloc, schema, statement) {
            Ok(typed) => made.push(typed).map_err(|_| TypeFault::NoMemory)?,
            Err(refusal) => return Err(fault_of(alloc, made.len() + 1, refusal)),
        }
        rest = behind;
    }
    Ok(made)
}

/// The fault of a query with this number, counted from 1, which is refused.
fn fault_of(alloc: Global, statement: usize, refusal: Refusal<'_>) -> TypeFault
    ensures { IsFaultOf statement refusal.entry result }
{
    match refusal {
        Refusal::NoMemory => TypeFault::NoMemory,
        Refusal::Fault(kind, token) => match token_text(alloc, token) {
            Ok(name) => TypeFault::Fault {
                statement,
                kind,
                name,
            },
            Err(_) => TypeFault::NoMemory,
        },
    }
}

/// A token as a fault names it.
fn token_text(alloc: Global, token: Token<'_>) -> Result<Text, NoMemory>
    ensures { IfOk result (λ text. text ≡ spelled token.entry) }
{
    match token {
        Token::Name(octets) => name_text(alloc, octets),
        Token::Literal(octets) => written_text(alloc, octets),
        Token::Function(function) => written_text(alloc, word(function)),
    }
}
