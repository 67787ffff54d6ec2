//! Set functions in expressions (ISO/IEC 9075:1992, 6.5): where they may stand, which arguments they take, and the columns of the grouped
//! table that they are.
#![tactic(auto, unfolding(crate::specs::Inner::Typing::Refuses))]

ghost use Rattle.std.specs.Prelude.{◌≡◌, IfOk, MatchResult, Ok, Result, option_map, true, unwrap_or};
ghost use Rattle.qw_ast.specs.Syntax.{count_rows};
ghost use Rattle.qw_ast.specs.SyntaxTree as syntax;
ghost use Rattle.qw_scalar.specs.Expression as meaning;
ghost use Rattle.qw_scalar.specs.Tree.{expression_of};
ghost use Rattle.qw_typer.specs.Faults.{Fault, first_token, function_word, has_scale, takes};
ghost use Rattle.qw_typer.specs.Inner.Sizes.{Fits};
ghost use Rattle.qw_typer.specs.Inner.Typing.{◌>>=◌ as ◌and_then◌, Gives, IsTold, Refuses, argument_outcome, in_reach, kind_scale, nested_outcome, typed};
ghost use Rattle.qw_typer.specs.Meant.{function_meant};
ghost use Rattle.qw_typer.specs.declared.fault.FaultKind.TheVariants.{NestedAggregate};
ghost use Rattle.qw_typer.specs.declared.refusal.Refusal.TheVariants as refusal;
ghost use Rattle.qw_typer.specs.declared.refusal.Token.TheVariants.{Function};

use crate::fault::FaultKind;
use crate::kinds::{is_number, scale};
use crate::refusal::{Refusal, Token, first_token};
use crate::scope::{Place, Scope};
use crate::tree::Typed;
use qw_ast::script::{self, SetFunction};
use qw_scalar::expression::Expr;
use qw_types::Kind;

/// The most digits behind the point of what is averaged.
const MAX_AVERAGED: u8 = 14;

/// The word of a set function.
pub(crate) fn word(function: SetFunction) -> &'static [u8]
    ensures { result.now ≡ function_word function }
{
    match function {
        SetFunction::Count => b"COUNT".as_slice(),
        SetFunction::Sum => b"SUM".as_slice(),
        SetFunction::Avg => b"AVG".as_slice(),
        SetFunction::Min => b"MIN".as_slice(),
        SetFunction::Max => b"MAX".as_slice(),
    }
}

/// COUNT(*).
pub(crate) fn rows_counted<'a>(scope: &Scope<'_, '_>, place: usize) -> Result<Typed, Refusal<'a>>
    ensures gives { Gives result (typed (in_reach scope.now) (count_rows place)) }
    ensures fits { IfOk result (λ made. Fits made.tree 1 0) }
{
    match scope.grouping {
        Some(_) => Ok(function_column(scope, place)),
        None => Err(nested(SetFunction::Count)),
    }
}

/// Whether a set function may stand here: there is a grouped table.
fn expect_grouping<'a>(scope: &Scope<'_, '_>, function: SetFunction) -> Result<(), Refusal<'a>>
    ensures { MatchResult result (λ _. nested_outcome (in_reach scope.now).grouping (function_word function) ≡ Ok true)
        (λ refusal. Refuses refusal (nested_outcome (in_reach scope.now).grouping (function_word function))) }
{
    match scope.grouping {
        Some(_) => Ok(()),
        None => Err(nested(function)),
    }
}

/// A set function of this argument, as it was found over the columns of FROM.
pub(crate) fn applied<'a>(
    scope: &Scope<'_, '_>,
    place: usize,
    function: SetFunction,
    argument: Result<Typed, Refusal<'a>>,
    at: &script::Expr<'a>,
) -> Result<Typed, Refusal<'a>>
    ensures gives { (x : Result meaning.Expression Fault) → Gives argument.entry x
        → Gives result (nested_outcome (in_reach scope.now).grouping (function_word function) and_then (λ b. x and_then (λ a. argument_outcome (first_token (syntax.expression_of at.now)) function a (function_meant (in_reach scope.now).grouping place)))) }
    ensures fits { IfOk result (λ made. Fits made.tree 1 0) }
{
    let argument = grouped(scope, function, argument)?;
    of_argument(scope, place, function, &argument, at)
}

/// What was found of an argument, where the set function may stand.
fn grouped<'a>(
    scope: &Scope<'_, '_>,
    function: SetFunction,
    argument: Result<Typed, Refusal<'a>>,
) -> Result<Typed, Refusal<'a>>
    ensures { (x : Result meaning.Expression Fault) → Gives argument.entry x → Gives result (nested_outcome (in_reach scope.now).grouping (function_word function) and_then (λ b. x)) }
{
    expect_grouping(scope, function)?;
    argument
}

/// A set function of this argument.
fn of_argument<'a>(
    scope: &Scope<'_, '_>,
    place: usize,
    function: SetFunction,
    argument: &Typed,
    at: &script::Expr<'a>,
) -> Result<Typed, Refusal<'a>>
    ensures gives { IsTold argument.now → Gives result (argument_outcome (first_token (syntax.expression_of at.now)) function (expression_of argument.now.tree) (function_meant (in_reach scope.now).grouping place)) }
    ensures fits { IfOk result (λ made. Fits made.tree 1 0) }
{
    if !takes(function, argument.kind) {
        return Err(Refusal::Fault(FaultKind::Clash, first_token(at)));
    }
    if !has_scale(function, argument.kind) {
        return Err(Refusal::Fault(FaultKind::ScaleTooLarge, first_token(at)));
    }
    Ok(function_column(scope, place))
}

/// The refusal of a set function where there is no grouped table.
fn nested<'a>(function: SetFunction) -> Refusal<'a>
    ensures { result ≡ refusal.Fault NestedAggregate (Function function) }
{
    Refusal::Fault(FaultKind::NestedAggregate, Token::Function(function))
}

/// Whether a set function takes an argument of this kind.
pub(crate) fn takes(function: SetFunction, kind: Option<Kind>) -> bool
    ensures { result ≡ takes function kind }
{
    match function {
        SetFunction::Sum | SetFunction::Avg => is_number(kind),
        SetFunction::Count | SetFunction::Min | SetFunction::Max => kind.is_some(),
    }
}

/// Whether what a set function gives of an argument of this kind has at most 18 digits behind the point.
pub(crate) fn has_scale(function: SetFunction, kind: Option<Kind>) -> bool
    ensures { result ≡ has_scale function (kind_scale kind) }
{
    match function {
        SetFunction::Avg => scale(kind) <= MAX_AVERAGED,
        SetFunction::Count | SetFunction::Sum | SetFunction::Min | SetFunction::Max => true,
    }
}

/// The set function at a place of the text as a column of the grouped table. What is said of a place that has none is NULL.
fn function_column(scope: &Scope<'_, '_>, place: usize) -> Typed
    ensures is { expression_of result.tree ≡ function_meant (in_reach scope.now).grouping place }
    ensures told { IsTold result }
    ensures fits { Fits result.tree 1 0 }
{
    match function_place(scope, place) {
        Some(column) => Typed {
            kind: Some(Kind::of_type(column.ty)),
            tree: Expr::Column(column.place, column.ty),
        },
        None => Typed {
            kind: None,
            tree: Expr::Null,
        },
    }
}

/// The number and the type of the set function at a place of the text.
fn function_place(scope: &Scope<'_, '_>, place: usize) -> Option<Place>
    ensures { unwrap_or (option_map (λ p. meaning.column p.place p.ty) result) meaning.null ≡ function_meant (in_reach scope.now).grouping place }
{
    match scope.grouping {
        Some(grouping) => grouping.function(place),
        None => None,
    }
}
