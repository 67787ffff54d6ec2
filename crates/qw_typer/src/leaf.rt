//! Typed literals and columns, the leaves of an expression.
#![tactic(auto, unfolding(crate::specs::Inner::Typing::Refuses))]

ghost use Rattle.std.specs.Prelude.{◌≡◌, IfOk, List, length, map, option_map};
ghost use Rattle.qw_ast.specs.Grammar.{name_of};
ghost use Rattle.qw_ast.specs.Syntax.{column, date, number, text};
ghost use Rattle.qw_ast.specs.SyntaxTree.{days_of, octets_of};
ghost use Rattle.qw_ast.specs.Quoted.{string_value};
ghost use Rattle.qw_typer.specs.Inner.Sizes.{Fits};
ghost use Rattle.qw_scalar.specs.Expression as meaning;
ghost use Rattle.qw_typer.specs.Faults.{counted_faults};
ghost use Rattle.qw_typer.specs.Inner.Typing.{Gives, GivesPlace, IsFound, as_entries, as_grouping, group_outcome, in_reach, outcome, reference_outcome, typed};
ghost use Rattle.qw_typer.specs.Meant.{Scope as Reach, first_of};

use crate::date::date_of;
use crate::fault::FaultKind;
use crate::name::{name_text, value_text};
use crate::number::number_of;
use crate::refusal::{Refusal, Token};
use crate::scope::{Entry, Found, Grouping, Place, Scope, is_known, referred};
use crate::tree::Typed;
use qw_ast::script::Interval;
use qw_scalar::expression::Expr;
use qw_types::Kind;
use std::alloc::Global;

/// A number.
pub(crate) fn number<'a>(alloc: Global, octets: &'a [u8]) -> Result<Typed, Refusal<'a>>
    ensures gives { (scope : Reach) → Gives result (typed scope (number octets.now)) }
    ensures fits { IfOk result (λ made. Fits made.tree 1 0) }
{
    let found = number_of(alloc, octets).map_err(|_| Refusal::NoMemory)?;
    match found {
        Some(numeral) => Ok(Typed {
            kind: Some(Kind::Number(numeral.scale)),
            tree: Expr::Number(numeral.number, numeral.scale),
        }),
        None => Err(Refusal::Fault(FaultKind::LiteralTooLong, Token::Literal(octets))),
    }
}

/// A character string.
pub(crate) fn text<'a>(alloc: Global, octets: &'a [u8]) -> Result<Typed, Refusal<'a>>
    ensures gives { (scope : Reach) → Gives result (typed scope (text octets.now)) }
    ensures fits { IfOk result (λ made. Fits made.tree 1 (length (string_value octets.now))) }
{
    let value = value_text(alloc, octets).map_err(|_| Refusal::NoMemory)?;
    Ok(Typed {
        kind: Some(Kind::Text),
        tree: Expr::Text(value),
    })
}

/// A column of FROM, or of the grouped table where there is one.
#[tactic(auto, using(crate::proofs::OutcomeLemmas::gives_after, crate::proofs::OutcomeLemmas::refuses_after, crate::proofs::OutcomeLemmas::refuses_then), unfolding(crate::specs::Inner::Typing::Refuses))]
pub(crate) fn column<'a>(
    alloc: Global,
    scope: &Scope<'_, '_>,
    qualifier: Option<&'a [u8]>,
    name: &'a [u8],
) -> Result<Typed, Refusal<'a>>
    ensures gives { Gives result (typed (in_reach scope.now) (column (octets_of qualifier.entry) name.now)) }
    ensures fits { IfOk result (λ made. Fits made.tree 1 0) }
{
    let named = reference(alloc, scope.entries, qualifier, name)?;
    let place = in_group(scope.grouping, named, name)?;
    Ok(Typed {
        kind: Some(Kind::of_type(place.ty)),
        tree: Expr::Column(place.place, place.ty),
    })
}

/// The column of FROM that a column reference means.
pub(crate) fn reference<'a>(
    alloc: Global,
    entries: &[Entry<'_>],
    qualifier: Option<&'a [u8]>,
    name: &'a [u8],
) -> Result<Place, Refusal<'a>>
    ensures { GivesPlace result (reference_outcome (as_entries entries.now) (octets_of qualifier.entry) name.now) }
{
    let kept = name_text(alloc, name).map_err(|_| Refusal::NoMemory)?;
    match qualifier {
        Some(qualifier) => {
            let entry = name_text(alloc, qualifier).map_err(|_| Refusal::NoMemory)?;
            if !is_known(entries, &entry) {
                return Err(Refusal::Fault(FaultKind::UnknownTable, Token::Name(qualifier)));
            }
            only_column(referred(entries, Some(&entry), &kept), name)
        }
        None => only_column(referred(entries, None, &kept), name),
    }
}

/// The only column that a name may mean.
fn only_column<'a>(found: Found, name: &'a [u8]) -> Result<Place, Refusal<'a>>
    ensures { (es : List meaning.Expression) → IsFound found es → GivesPlace result (outcome (counted_faults (name_of name.now) es) (first_of es)) }
{
    match found {
        Found::One(place) => Ok(place),
        Found::Nothing => Err(Refusal::Fault(FaultKind::UnknownColumn, Token::Name(name))),
        Found::Several => Err(Refusal::Fault(FaultKind::Ambiguous, Token::Name(name))),
    }
}

/// A column of FROM over the grouped table, where there is one.
fn in_group<'a>(
    grouping: Option<Grouping<'_>>,
    column: Place,
    name: &'a [u8],
) -> Result<Place, Refusal<'a>>
    ensures { GivesPlace result (group_outcome (option_map as_grouping grouping.entry) (name_of name.now) (meaning.column column.place column.ty)) }
{
    match grouping {
        Some(grouping) => match grouping.column(column) {
            Some(place) => Ok(place),
            None => Err(Refusal::Fault(FaultKind::NotGrouped, Token::Name(name))),
        },
        None => Ok(column),
    }
}

/// A date with its intervals.
pub(crate) fn date<'a>(
    alloc: Global,
    string: &'a [u8],
    intervals: &[Interval<'a>],
) -> Result<Typed, Refusal<'a>>
    ensures gives { (scope : Reach) → Gives result (typed scope (date string.now (map days_of intervals.now))) }
    ensures fits { IfOk result (λ made. Fits made.tree 1 0) }
{
    let found = date_of(alloc, string, intervals).map_err(|_| Refusal::NoMemory)?;
    match found {
        Some(day) => Ok(Typed {
            kind: Some(Kind::Date),
            tree: Expr::Date(day),
        }),
        None => Err(Refusal::Fault(FaultKind::BadDate, Token::Literal(string))),
    }
}
