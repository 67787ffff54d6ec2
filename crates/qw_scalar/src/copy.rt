//! Copies of expressions and conditions, which stand for the same and have as many nodes and the same texts.

ghost use Rattle.std.specs.Prelude.{◌≡◌, IfOk};
ghost use Rattle.qw_scalar.specs.Texts.{texts_in, texts_of_all, texts_of_branches, texts_of_matches, texts_within};
ghost use Rattle.qw_scalar.specs.Expression.{Expression};
ghost use Rattle.qw_scalar.specs.Nodes.{nodes, nodes_of, nodes_of_all, nodes_of_branches, nodes_of_matches};
ghost use Rattle.qw_scalar.specs.Tree.{choices_of, condition_of, expression_of, expressions_of, matches_of};

use crate::expression::{Branches, Cond, Expr, Exprs, Matches};
use qw_types::{NoMemory, Text};
use std::alloc::Global;

/// An expression once more.
///
/// # Errors
///
/// [`NoMemory`] where the copy does not fit memory, and nowhere else.
#[cycle(copies)]
pub fn expression(alloc: Global, expr: &Expr) -> Result<Expr, NoMemory>
    ensures same { IfOk result (λ made. expression_of made ≡ expression_of expr.now) }
    ensures nodes { IfOk result (λ made. nodes made ≡ nodes expr.now) }
    ensures texts { IfOk result (λ made. texts_in made ≡ texts_in expr.now) }
{
    match expr {
        Expr::Null => Ok(Expr::Null),
        Expr::Number(value, scale) => Ok(Expr::Number(*value, *scale)),
        Expr::Date(day) => Ok(Expr::Date(*day)),
        Expr::Text(words) => Ok(Expr::Text(text(alloc, words)?)),
        Expr::Column(index, ty) => Ok(Expr::Column(*index, *ty)),
        Expr::Arithmetic(operator, left, right) => Ok(Expr::Arithmetic(
            *operator,
            boxed(alloc, left)?,
            boxed(alloc, right)?,
        )),
        Expr::Negative(operand) => Ok(Expr::Negative(boxed(alloc, operand)?)),
        Expr::Extract(field, operand) => Ok(Expr::Extract(*field, boxed(alloc, operand)?)),
        Expr::Case(cases) => Ok(Expr::Case(Box::new(alloc, branches(alloc, cases)?)?)),
        Expr::Match(operand, cases) => Ok(Expr::Match(
            boxed(alloc, operand)?,
            Box::new(alloc, matches(alloc, cases)?)?,
        )),
        Expr::Call(function, arguments) => Ok(Expr::Call(
            *function,
            Box::new(alloc, expressions(alloc, arguments)?)?,
        )),
    }
}

/// An expression once more, in a box.
#[cycle(copies)]
fn boxed(alloc: Global, expr: &Expr) -> Result<Box<Expr>, NoMemory>
    ensures same { IfOk result (λ made. expression_of made.value ≡ expression_of expr.now) }
    ensures nodes { IfOk result (λ made. nodes made.value ≡ nodes expr.now) }
    ensures texts { IfOk result (λ made. texts_in made.value ≡ texts_in expr.now) }
{
    Ok(Box::new(alloc, expression(alloc, expr)?)?)
}

/// A condition once more.
///
/// # Errors
///
/// [`NoMemory`] where the copy does not fit memory, and nowhere else.
#[cycle(copies)]
pub fn condition(alloc: Global, cond: &Cond) -> Result<Cond, NoMemory>
    ensures same { IfOk result (λ made. condition_of made ≡ condition_of cond.now) }
    ensures nodes { IfOk result (λ made. nodes_of made ≡ nodes_of cond.now) }
    ensures texts { IfOk result (λ made. texts_within made ≡ texts_within cond.now) }
{
    Ok(match cond {
        Cond::Compare(comparison, left, right) => Cond::Compare(
            *comparison,
            boxed(alloc, left)?,
            boxed(alloc, right)?,
        ),
        Cond::Between(operand, least, greatest) => Cond::Between(
            boxed(alloc, operand)?,
            boxed(alloc, least)?,
            boxed(alloc, greatest)?,
        ),
        Cond::In(operand, values) => Cond::In(
            boxed(alloc, operand)?,
            Box::new(alloc, expressions(alloc, values)?)?,
        ),
        Cond::Predicate(predicate, operand) => Cond::Predicate(*predicate, boxed(alloc, operand)?),
        Cond::And(left, right) => Cond::And(
            boxed_condition(alloc, left)?,
            boxed_condition(alloc, right)?,
        ),
        Cond::Or(left, right) => Cond::Or(
            boxed_condition(alloc, left)?,
            boxed_condition(alloc, right)?,
        ),
        Cond::Not(operand) => Cond::Not(boxed_condition(alloc, operand)?),
        Cond::Is(operand, truth) => Cond::Is(boxed_condition(alloc, operand)?, *truth),
    })
}

#[cycle(copies)]
fn boxed_condition(alloc: Global, cond: &Cond) -> Result<Box<Cond>, NoMemory>
    ensures same { IfOk result (λ made. condition_of made.value ≡ condition_of cond.now) }
    ensures nodes { IfOk result (λ made. nodes_of made.value ≡ nodes_of cond.now) }
    ensures texts { IfOk result (λ made. texts_within made.value ≡ texts_within cond.now) }
{
    Ok(Box::new(alloc, condition(alloc, cond)?)?)
}

#[cycle(copies)]
fn expressions(alloc: Global, list: &Exprs) -> Result<Exprs, NoMemory>
    ensures same { IfOk result (λ made. expressions_of made ≡ expressions_of list.now) }
    ensures nodes { IfOk result (λ made. nodes_of_all made ≡ nodes_of_all list.now) }
    ensures texts { IfOk result (λ made. texts_of_all made ≡ texts_of_all list.now) }
{
    Ok(match list {
        Exprs::Last(last) => Exprs::Last(boxed(alloc, last)?),
        Exprs::More(first, rest) => Exprs::More(
            boxed(alloc, first)?,
            Box::new(alloc, expressions(alloc, rest)?)?,
        ),
    })
}

#[cycle(copies)]
fn branches(alloc: Global, cases: &Branches) -> Result<Branches, NoMemory>
    ensures same { IfOk result (λ made. choices_of made ≡ choices_of cases.now) }
    ensures nodes { IfOk result (λ made. nodes_of_branches made ≡ nodes_of_branches cases.now) }
    ensures texts { IfOk result (λ made. texts_of_branches made ≡ texts_of_branches cases.now) }
{
    Ok(match cases {
        Branches::Else(result) => Branches::Else(boxed(alloc, result)?),
        Branches::When(condition, result, rest) => Branches::When(
            boxed_condition(alloc, condition)?,
            boxed(alloc, result)?,
            Box::new(alloc, branches(alloc, rest)?)?,
        ),
    })
}

#[cycle(copies)]
fn matches(alloc: Global, cases: &Matches) -> Result<Matches, NoMemory>
    ensures same { IfOk result (λ made. (x : Expression) → matches_of made x ≡ matches_of cases.now x) }
    ensures nodes { IfOk result (λ made. nodes_of_matches made ≡ nodes_of_matches cases.now) }
    ensures texts { IfOk result (λ made. texts_of_matches made ≡ texts_of_matches cases.now) }
{
    match cases {
        Matches::Last(value, result, other) => Ok(Matches::Last(
            boxed(alloc, value)?,
            boxed(alloc, result)?,
            boxed(alloc, other)?,
        )),
        Matches::When(value, result, rest) => Ok(Matches::When(
            boxed(alloc, value)?,
            boxed(alloc, result)?,
            Box::new(alloc, matches(alloc, rest)?)?,
        )),
    }
}

fn text(alloc: Global, words: &Text) -> Result<Text, NoMemory>
    ensures { IfOk result (λ made. made ≡ words.now) }
{
    Ok(Text::new(String::from_str(alloc, words.as_str())?))
}
