//! Conditions that need no block: comparisons of known values that are one relation each, BETWEEN and IN of such, and NOT, AND and OR (ISO/IEC 9075:1992, 8.2 to 8.4, 8.12).
//! They raise nothing and are never unknown, so that both sides may be evaluated, whatever the left one is.

ghost use Rattle.std.specs.Prelude.{◌≡◌, ◌+◌, ◌*◌, ◌≤◌, IfOk, IfSome, length};
ghost use Rattle.qw_scalar.specs.Expression.{among, between, comparison};
ghost use Rattle.qw_scalar.specs.Nodes.{nodes, nodes_of, nodes_of_all};
ghost use Rattle.qw_scalar.specs.Tree.{condition_of, expression_of, expressions_of};
ghost use Rattle.qw_scalar.specs.Typing.{AreTyped, IsTyped};
ghost use Rattle.qw_low.specs.Steps.{expression_steps};
ghost use Rattle.qw_expr.specs.Bindings.{IsAmong, TakeKnown, TakesKnown, known_of};
ghost use Rattle.qw_expr.specs.Tests.{tested};
ghost use Rattle.qw_expr.specs.Inner.Made.{with_operand};
ghost use Rattle.qw_expr.specs.Inner.Plain.{MadePlain};

use crate::known::{Binding, column_of, date_of, number_of, text_of};
use crate::operand::Operand;
use crate::test::{Test, is_one_relation};
use qw_scalar::comparison::Comparison;
use qw_scalar::expression::{Cond, Expr, Exprs};
use qw_types::NoMemory;
use qw_wide::order::relation_of;
use std::alloc::Global;

/// The operand of a column or a literal, which is known: none of any other expression.
fn leaf_of(expr: &Expr, known: &[Binding]) -> Option<Operand>
    requires typed { IsTyped (expression_of expr.now) }
    requires known { TakesKnown (known_of known.now) (expression_of expr.now) }
    ensures known { IfSome result (λ o. IsAmong (record { expression = expression_of expr.now; operand = o }) (known_of known.now)) }
    ensures one { IfSome result (λ o. nodes expr.now ≡ 1) }
{
    match expr {
        Expr::Number(value, scale) => Some(number_of(known, *value, *scale)),
        Expr::Date(day) => Some(date_of(known, *day)),
        Expr::Text(text) => Some(text_of(known, text)),
        Expr::Column(index, ty) => Some(column_of(known, *index, *ty)),
        Expr::Null
        | Expr::Arithmetic(_, _, _)
        | Expr::Negative(_)
        | Expr::Extract(_, _)
        | Expr::Case(_)
        | Expr::Match(_, _)
        | Expr::Call(_, _) => None,
    }
}

/// The test of a comparison of a known operand with an expression, where that is known too and they compare by one relation.
fn related(
    operator: Comparison,
    operand: &Expr,
    x: Operand,
    right: &Expr,
    known: &[Binding],
) -> Option<Test>
    requires typed { AreTyped (comparison operator (expression_of operand.now) (expression_of right.now)) }
    requires known { TakesKnown (known_of known.now) (expression_of right.now) }
    ensures plain { IfSome result (λ out. MadePlain (with_operand (expression_of operand.now) x (known_of known.now)) (comparison operator (expression_of operand.now) (expression_of right.now)) out) }
    ensures short { IfSome result (λ out. length (expression_steps (tested out)) + 1 ≤ 4 * nodes right.now) }
{
    let y = leaf_of(right, known)?;
    if is_one_relation(x, y) {
        Some(Test::Related(relation_of(operator), x.cell.value, y.cell.value))
    } else {
        None
    }
}

/// The test of whether a known operand lies between two expressions (8.3), where it compares with both by one relation each.
pub(crate) fn within(
    alloc: Global,
    operand: &Expr,
    x: Operand,
    least: &Expr,
    greatest: &Expr,
    known: &[Binding],
) -> Result<Option<Test>, NoMemory>
    requires typed { AreTyped (between (expression_of operand.now) (expression_of least.now) (expression_of greatest.now)) }
    requires known { TakeKnown (known_of known.now) (between (expression_of operand.now) (expression_of least.now) (expression_of greatest.now)) }
    ensures plain { IfOk result (λ test. IfSome test (λ out. MadePlain (with_operand (expression_of operand.now) x (known_of known.now)) (between (expression_of operand.now) (expression_of least.now) (expression_of greatest.now)) out)) }
    ensures short { IfOk result (λ test. IfSome test (λ out. length (expression_steps (tested out)) + 1 ≤ 4 * (nodes least.now + nodes greatest.now))) }
{
    let Some(lower) = related(Comparison::GreaterOrEqual, operand, x, least, known) else {
        return Ok(None);
    };
    let Some(upper) = related(Comparison::LessOrEqual, operand, x, greatest, known) else {
        return Ok(None);
    };
    Ok(Some(lower.both(alloc, upper)?))
}

/// The test of whether a known operand equals one of some values (8.4), where it compares with each by one relation. The last value is
/// compared first, so that no more than one test waits for another.
pub(crate) fn one_of(
    alloc: Global,
    operand: &Expr,
    x: Operand,
    values: &Exprs,
    known: &[Binding],
) -> Result<Option<Test>, NoMemory>
    requires typed { AreTyped (among (expression_of operand.now) (expressions_of values.now)) }
    requires known { TakeKnown (known_of known.now) (among (expression_of operand.now) (expressions_of values.now)) }
    ensures plain { IfOk result (λ test. IfSome test (λ out. MadePlain (with_operand (expression_of operand.now) x (known_of known.now)) (among (expression_of operand.now) (expressions_of values.now)) out)) }
    ensures short { IfOk result (λ test. IfSome test (λ out. length (expression_steps (tested out)) + 1 ≤ 4 * nodes_of_all values.now)) }
{
    match values {
        Exprs::Last(wanted) => Ok(related(Comparison::Equal, operand, x, wanted, known)),
        Exprs::More(wanted, rest) => {
            let Some(first) = related(Comparison::Equal, operand, x, wanted, known) else {
                return Ok(None);
            };
            let Some(others) = one_of(alloc, operand, x, rest, known)? else {
                return Ok(None);
            };
            Ok(Some(others.either(alloc, first)?))
        }
    }
}

/// The test of a condition that needs no block: none of any other.
pub(crate) fn plain(alloc: Global, cond: &Cond, known: &[Binding]) -> Result<Option<Test>, NoMemory>
    requires typed { AreTyped (condition_of cond.now) }
    requires known { TakeKnown (known_of known.now) (condition_of cond.now) }
    ensures plain { IfOk result (λ test. IfSome test (MadePlain (known_of known.now) (condition_of cond.now))) }
    ensures short { IfOk result (λ test. IfSome test (λ out. length (expression_steps (tested out)) + 1 ≤ 4 * nodes_of cond.now)) }
{
    match cond {
        Cond::Compare(operator, left, right) => match leaf_of(left, known) {
            Some(x) => Ok(related(*operator, left, x, right, known)),
            None => Ok(None),
        },
        Cond::Between(operand, least, greatest) => match leaf_of(operand, known) {
            Some(x) => within(alloc, operand, x, least, greatest, known),
            None => Ok(None),
        },
        Cond::In(operand, values) => match leaf_of(operand, known) {
            Some(x) => one_of(alloc, operand, x, values, known),
            None => Ok(None),
        },
        Cond::Not(operand) => match plain(alloc, operand, known)? {
            Some(test) => Ok(Some(test.not(alloc)?)),
            None => Ok(None),
        },
        Cond::And(left, right) => {
            let Some(first) = plain(alloc, left, known)? else {
                return Ok(None);
            };
            let Some(second) = plain(alloc, right, known)? else {
                return Ok(None);
            };
            Ok(Some(first.both(alloc, second)?))
        }
        Cond::Or(left, right) => {
            let Some(first) = plain(alloc, left, known)? else {
                return Ok(None);
            };
            let Some(second) = plain(alloc, right, known)? else {
                return Ok(None);
            };
            Ok(Some(first.either(alloc, second)?))
        }
        Cond::Predicate(_, _) | Cond::Is(_, _) => Ok(None),
    }
}
