//! Whole expressions and conditions (ISO/IEC 9075:1992, 6.11, 8.12): the operands first, then what is over them.

ghost use Rattle.std.specs.Prelude.{◌≡◌, ◌≤◌, IfOk};
ghost use Rattle.qw_scalar.specs.Nodes.{nodes, nodes_of, nodes_of_all, nodes_of_branches};
ghost use Rattle.qw_scalar.specs.Tree.{choices_of, condition_of, expression_of, expressions_of};
ghost use Rattle.qw_scalar.specs.Typing.{AreTyped, IsTyped};
ghost use Rattle.qw_scalar.specs.Texts.{texts_in, texts_of_all, texts_of_branches, texts_within};
ghost use Rattle.qw_fold.specs.Stands.{AreFoldOf, IsFoldOf};
ghost use Rattle.qw_fold.specs.Inner.Made.{AllFoldAt, BranchesFold, MatchesFold};
ghost use Rattle.qw_fold.specs.Inner.Typed.{AllTyped, ChoicesTyped, MatchesTyped};

use crate::construct::{
    and_tree, between_tree, call_tree, case_tree, else_tree, in_tree, is_tree, last_match_tree,
    last_tree, match_tree, more_match_tree, more_tree, not_tree, or_tree, predicate_tree,
    when_tree,
};
use crate::literal::{at_scale, copy_of};
use crate::operation::{arithmetic, compared, extract, negative};
use qw_scalar::evaluate::scale;
use qw_scalar::expression::{Branches, Cond, Expr, Exprs, Matches};
use qw_types::NoMemory;
use std::alloc::Global;

/// An expression that can stand for a typed one, with nothing left to compute.
///
/// # Errors
///
/// [`NoMemory`] where memory does not suffice.
#[cycle(tree)]
pub fn expression(alloc: Global, expr: &Expr) -> Result<Expr, NoMemory>
    requires typed { IsTyped (expression_of expr.now) }
    ensures { IfOk result (λ new. IsFoldOf (expression_of expr.now) (nodes expr.now) (texts_in expr.now) new) }
{
    match expr {
        Expr::Null => Ok(Expr::Null),
        Expr::Number(number, scale) => Ok(Expr::Number(*number, *scale)),
        Expr::Date(day) => Ok(Expr::Date(*day)),
        Expr::Text(text) => Ok(Expr::Text(copy_of(alloc, text)?)),
        Expr::Column(index, ty) => Ok(Expr::Column(*index, *ty)),
        Expr::Arithmetic(operator, left, right) => {
            let x = expression(alloc, left)?;
            let y = expression(alloc, right)?;
            arithmetic(alloc, *operator, x, y)
        }
        Expr::Negative(operand) => {
            let x = expression(alloc, operand)?;
            negative(alloc, x)
        }
        Expr::Extract(field, operand) => {
            let x = expression(alloc, operand)?;
            extract(alloc, *field, x)
        }
        Expr::Case(branches) => {
            let folded = branches_at(alloc, branches, scale(expr))?;
            case_tree(alloc, folded)
        }
        Expr::Match(operand, matches) => {
            let x = expression(alloc, operand)?;
            let folded = matches_at(alloc, matches, scale(operand), scale(expr))?;
            match_tree(alloc, x, folded)
        }
        Expr::Call(function, arguments) => {
            let folded = expressions_at(alloc, arguments, scale(expr))?;
            call_tree(alloc, *function, folded)
        }
    }
}

/// A condition that can stand for a typed one, with nothing left to compute.
///
/// # Errors
///
/// [`NoMemory`] where memory does not suffice.
#[cycle(tree)]
pub fn condition(alloc: Global, cond: &Cond) -> Result<Cond, NoMemory>
    requires typed { AreTyped (condition_of cond.now) }
    ensures { IfOk result (λ new. AreFoldOf (condition_of cond.now) (nodes_of cond.now) (texts_within cond.now) new) }
{
    match cond {
        Cond::Compare(op, left, right) => {
            let x = expression(alloc, left)?;
            let y = expression(alloc, right)?;
            compared(alloc, *op, x, y)
        }
        Cond::Between(operand, least, greatest) => {
            let to = scale(operand);
            let x = expression(alloc, operand)?;
            let low = at_scale(expression(alloc, least)?, to);
            let high = at_scale(expression(alloc, greatest)?, to);
            between_tree(alloc, x, low, high)
        }
        Cond::In(operand, values) => {
            let x = expression(alloc, operand)?;
            let folded = expressions_at(alloc, values, scale(operand))?;
            in_tree(alloc, x, folded)
        }
        Cond::Predicate(wanted, operand) => {
            let x = expression(alloc, operand)?;
            predicate_tree(alloc, *wanted, x)
        }
        Cond::And(left, right) => {
            let x = condition(alloc, left)?;
            let y = condition(alloc, right)?;
            and_tree(alloc, x, y)
        }
        Cond::Or(left, right) => {
            let x = condition(alloc, left)?;
            let y = condition(alloc, right)?;
            or_tree(alloc, x, y)
        }
        Cond::Not(operand) => {
            let x = condition(alloc, operand)?;
            not_tree(alloc, x)
        }
        Cond::Is(operand, truth) => {
            let x = condition(alloc, operand)?;
            is_tree(alloc, x, *truth)
        }
    }
}

/// Several expressions, those that are literals at a scale.
#[cycle(tree)]
fn expressions_at(alloc: Global, exprs: &Exprs, to: u8) -> Result<Exprs, NoMemory>
    requires typed { AllTyped (expressions_of exprs.now) }
    requires near { to ≤ 18 }
    ensures { IfOk result (λ new. AllFoldAt to (expressions_of exprs.now) (nodes_of_all exprs.now) (texts_of_all exprs.now) new) }
{
    match exprs {
        Exprs::Last(expr) => {
            let x = at_scale(expression(alloc, expr)?, to);
            last_tree(alloc, x)
        }
        Exprs::More(expr, rest) => {
            let x = at_scale(expression(alloc, expr)?, to);
            let others = expressions_at(alloc, rest, to)?;
            more_tree(alloc, x, others)
        }
    }
}

/// The branches of a CASE, results that are literals at a scale.
#[cycle(tree)]
fn branches_at(alloc: Global, branches: &Branches, to: u8) -> Result<Branches, NoMemory>
    requires typed { ChoicesTyped (choices_of branches.now) }
    requires near { to ≤ 18 }
    ensures { IfOk result (λ new. BranchesFold to (choices_of branches.now) (nodes_of_branches branches.now) (texts_of_branches branches.now) new) }
{
    match branches {
        Branches::Else(result) => {
            let x = at_scale(expression(alloc, result)?, to);
            else_tree(alloc, x)
        }
        Branches::When(test, result, rest) => {
            let t = condition(alloc, test)?;
            let x = at_scale(expression(alloc, result)?, to);
            let others = branches_at(alloc, rest, to)?;
            when_tree(alloc, t, x, others)
        }
    }
}

/// The branches of a CASE with an operand: values that are literals at its scale, and results at another.
#[cycle(tree)]
fn matches_at(alloc: Global, matches: &Matches, operand: u8, to: u8) -> Result<Matches, NoMemory>
    requires typed { MatchesTyped matches.now }
    requires near { (operand ≤ 18) × (to ≤ 18) }
    ensures { IfOk result (λ new. MatchesFold operand to matches.now new) }
{
    match matches {
        Matches::Last(wanted, result, other) => {
            let v = at_scale(expression(alloc, wanted)?, operand);
            let x = at_scale(expression(alloc, result)?, to);
            let y = at_scale(expression(alloc, other)?, to);
            last_match_tree(alloc, v, x, y)
        }
        Matches::When(wanted, result, rest) => {
            let v = at_scale(expression(alloc, wanted)?, operand);
            let x = at_scale(expression(alloc, result)?, to);
            let others = matches_at(alloc, rest, operand, to)?;
            more_match_tree(alloc, v, x, others)
        }
    }
}
