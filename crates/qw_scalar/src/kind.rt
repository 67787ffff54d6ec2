//! Which kind an expression's values are of.

ghost use Rattle.std.specs.Prelude.{◌≡◌, ◌≤◌};
ghost use Rattle.qw_scalar.specs.Expression.{cases, coalesced, unless_among};
ghost use Rattle.qw_scalar.specs.Tree.{choices_of, expression_of, expressions_of, matches_of};
ghost use Rattle.qw_scalar.specs.Typing.{AreResultsTyped, IsTyped, at_scale, joined, kind_of};

use crate::evaluate::{largest_argument, largest_branch, largest_match, scale};
use crate::expression::{Branches, Expr, Exprs, Function, Matches};
use qw_types::Kind;

/// The kind of an expression's values, none where null is the only one.
#[cycle(kind)]
#[tactic(auto, using(crate::proofs::CaseLemmas::results_typed))]
pub fn of_expression(expr: &Expr) -> Option<Kind>
    requires typed { IsTyped (expression_of expr.now) }
    ensures { result ≡ kind_of (expression_of expr.now) }
{
    match expr {
        Expr::Null => None,
        Expr::Number(_, scale) => Some(Kind::Number(*scale)),
        Expr::Date(_) => Some(Kind::Date),
        Expr::Text(_) => Some(Kind::Text),
        Expr::Column(_, ty) => Some(Kind::of_type(*ty)),
        Expr::Arithmetic(_, _, _) | Expr::Negative(_) | Expr::Extract(_, _) => {
            Some(Kind::Number(scale(expr)))
        }
        Expr::Case(branches) => of_branches(branches, largest_branch(branches)),
        Expr::Match(operand, matches) => of_matches(
            matches,
            operand,
            largest_match(matches, operand),
        ),
        Expr::Call(function, arguments) => match function {
            Function::Coalesce => of_arguments(arguments, largest_argument(arguments)),
            Function::NullIf => of_first(arguments),
        },
    }
}

/// The kind of the results of a CASE, brought to a scale.
#[cycle(kind)]
fn of_branches(branches: &Branches, to: u8) -> Option<Kind>
    requires typed { AreResultsTyped (choices_of branches.now) }
    ensures { result ≡ kind_of (cases to (choices_of branches.now)) }
{
    match branches {
        Branches::Else(result) => brought(of_expression(result), to),
        Branches::When(_, result, rest) => {
            join(brought(of_expression(result), to), of_branches(rest, to))
        }
    }
}

/// The kind of the results of a CASE with an operand, brought to a scale.
#[cycle(kind)]
fn of_matches(matches: &Matches, operand: &Expr, to: u8) -> Option<Kind>
    requires typed { AreResultsTyped (matches_of matches.now (expression_of operand.now)) }
    ensures { result ≡ kind_of (cases to (matches_of matches.now (expression_of operand.now))) }
{
    match matches {
        Matches::Last(_, result, other) => join(
            brought(of_expression(result), to),
            brought(of_expression(other), to),
        ),
        Matches::When(_, result, rest) => join(
            brought(of_expression(result), to),
            of_matches(rest, operand, to),
        ),
    }
}

/// The kind of the arguments of COALESCE, brought to a scale.
#[cycle(kind)]
fn of_arguments(arguments: &Exprs, to: u8) -> Option<Kind>
    requires typed { AreResultsTyped (coalesced (expressions_of arguments.now)) }
    ensures { result ≡ kind_of (cases to (coalesced (expressions_of arguments.now))) }
{
    match arguments {
        Exprs::Last(argument) => brought(of_expression(argument), to),
        Exprs::More(argument, rest) => {
            join(brought(of_expression(argument), to), of_arguments(rest, to))
        }
    }
}

/// The kind of the first argument, of which NULLIF is.
#[cycle(kind)]
fn of_first(arguments: &Exprs) -> Option<Kind>
    requires typed { IsTyped (unless_among (expressions_of arguments.now)) }
    ensures { result ≡ kind_of (unless_among (expressions_of arguments.now)) }
{
    match arguments {
        Exprs::Last(first) => brought(of_expression(first), scale(first)),
        Exprs::More(first, _) => of_expression(first),
    }
}

/// The kind of what is brought to a scale.
fn brought(kind: Option<Kind>, to: u8) -> Option<Kind>
    ensures { result ≡ at_scale kind to }
{
    match kind {
        Some(Kind::Number(_)) => Some(Kind::Number(to)),
        Some(Kind::Date) | Some(Kind::Text) | None => kind,
    }
}

/// The kind of two results.
fn join(first: Option<Kind>, second: Option<Kind>) -> Option<Kind>
    ensures { result ≡ joined first second }
{
    match (first, second) {
        (None, _) => second,
        (Some(Kind::Number(a)), Some(Kind::Number(b))) => Some(Kind::Number(a.max(b))),
        (Some(_), _) => first,
    }
}
