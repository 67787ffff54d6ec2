//! Magnitudes, and what can raise. Nothing here takes memory.

ghost use Rattle.std.specs.Prelude.{◌≡◌, ◌≤◌, ◌+◌, ◌-◌, ◌*◌, ◌^◌, ◌||◌, false, max, min};
ghost use Rattle.qw_types.specs.Value.{IsSized};
ghost use Rattle.qw_scalar.specs.Columns.{HasColumns, HaveColumns};
ghost use Rattle.qw_scalar.specs.Expression.{among, cases, coalesced, unless_among};
ghost use Rattle.qw_scalar.specs.Tree.{choices_of, condition_of, expression_of, expressions_of, matches_of};
ghost use Rattle.qw_scalar.specs.Typing.{AreTyped, IsTyped, ScalesAllowed};
ghost use Rattle.qw_raise.specs.Inner.Known.{IsKnown};
ghost use Rattle.qw_raise.specs.Range.{IsSizedColumn};
ghost use Rattle.qw_raise.specs.Raise.{greatest, operator_raises, raw_bring, raw_result, type_magnitude};

use qw_scalar::evaluate::{largest_argument, largest_branch, largest_match};
use qw_scalar::expression::{Branches, Cond, Expr, Exprs, Function, Matches, Operator};
use qw_types::Ty;

/// The greatest number of 18 digits.
const GREATEST: u128 = 999_999_999_999_999_999;

/// The greatest magnitude of an expression's numbers, whatever the row, as whole numbers at the expression's scale; 0 where its values are
/// dates or texts.
pub fn magnitude(expr: &Expr) -> u128
    requires typed { IsTyped (expression_of expr.now) }
    requires sized { HasColumns IsSizedColumn (expression_of expr.now) }
    ensures value { result ≡ Rattle.qw_raise.specs.Raise.magnitude (expression_of expr.now) }
    ensures bound { result ≤ 10 ^ 18 - 1 }
{
    expression(expr).magnitude
}

/// Whether an expression can raise an exception at some row.
pub fn can_raise(expr: &Expr) -> bool
    requires typed { IsTyped (expression_of expr.now) }
    requires sized { HasColumns IsSizedColumn (expression_of expr.now) }
    ensures { result ≡ Rattle.qw_raise.specs.Raise.can_raise (expression_of expr.now) }
{
    expression(expr).raises
}

/// Whether a condition can raise an exception at some row: where an expression in it can.
#[cycle(raise)]
pub fn condition_can_raise(cond: &Cond) -> bool
    requires typed { AreTyped (condition_of cond.now) }
    requires sized { HaveColumns IsSizedColumn (condition_of cond.now) }
    ensures { result ≡ Rattle.qw_raise.specs.Raise.condition_can_raise (condition_of cond.now) }
{
    match cond {
        Cond::Compare(_, left, right) => expression(left).raises || expression(right).raises,
        Cond::Between(operand, least, greatest) => {
            expression(operand).raises || expression(least).raises || expression(greatest).raises
        }
        Cond::In(operand, list) => values(list, operand, expression(operand).raises),
        Cond::Predicate(_, operand) => expression(operand).raises,
        Cond::And(left, right) => condition_can_raise(left) || condition_can_raise(right),
        Cond::Or(left, right) => condition_can_raise(left) || condition_can_raise(right),
        Cond::Not(operand) => condition_can_raise(operand),
        Cond::Is(operand, _) => condition_can_raise(operand),
    }
}

/// What is known of an expression's values, whatever the row.
#[derive(Clone, Copy)]
struct Known {
    /// The digits behind the point, 0 where they are no numbers.
    scale: u8,
    /// The greatest magnitude, 0 where they are no numbers.
    magnitude: u128,
    /// Whether the expression can raise.
    raises: bool,
}

/// What is known of an expression.
#[cycle(raise)]
fn expression(expr: &Expr) -> Known
    requires typed { IsTyped (expression_of expr.now) }
    requires sized { HasColumns IsSizedColumn (expression_of expr.now) }
    ensures { IsKnown result (expression_of expr.now) }
{
    match expr {
        Expr::Null | Expr::Date(_) | Expr::Text(_) => quiet(0, 0),
        Expr::Number(number, scale) => quiet(*scale, capped(u128::from(number.unsigned_abs()))),
        Expr::Column(_, ty) => quiet(ty.scale(), of_type(*ty)),
        Expr::Arithmetic(operator, left, right) => arithmetic(
            *operator,
            expression(left),
            expression(right),
            is_safe_divisor(right),
        ),
        Expr::Negative(operand) => expression(operand),
        Expr::Extract(_, operand) => Known {
            scale: 0,
            magnitude: 9999,
            raises: expression(operand).raises,
        },
        Expr::Case(list) => branches(list, largest_branch(list)),
        Expr::Match(operand, list) => matches(
            list,
            operand,
            expression(operand).raises,
            largest_match(list, operand),
        ),
        Expr::Call(function, list) => match function {
            Function::Coalesce => arguments(list, largest_argument(list)),
            Function::NullIf => unless_among(list),
        },
    }
}

/// What is known of a CASE whose results are brought to a scale.
#[cycle(raise)]
fn branches(list: &Branches, to: u8) -> Known
    requires scale { to ≤ 18 }
    requires typed { IsTyped (cases to (choices_of list.now)) }
    requires sized { HasColumns IsSizedColumn (cases to (choices_of list.now)) }
    ensures { IsKnown result (cases to (choices_of list.now)) }
{
    match list {
        Branches::Else(result) => brought(expression(result), to),
        Branches::When(condition, result, rest) => either(
            condition_can_raise(condition),
            brought(expression(result), to),
            branches(rest, to),
        ),
    }
}

/// What is known of a CASE with an operand whose results are brought to a scale. The operand is compared with each value.
#[cycle(raise)]
fn matches(list: &Matches, operand: &Expr, operand_raises: bool, to: u8) -> Known
    requires scale { to ≤ 18 }
    requires typed { IsTyped (cases to (matches_of list.now (expression_of operand.now))) }
    requires sized { HasColumns IsSizedColumn (cases to (matches_of list.now (expression_of operand.now))) }
    requires operand { operand_raises ≡ Rattle.qw_raise.specs.Raise.can_raise (expression_of operand.now) }
    ensures { IsKnown result (cases to (matches_of list.now (expression_of operand.now))) }
{
    match list {
        Matches::Last(value, result, other) => either(
            operand_raises || expression(value).raises,
            brought(expression(result), to),
            brought(expression(other), to),
        ),
        Matches::When(value, result, rest) => either(
            operand_raises || expression(value).raises,
            brought(expression(result), to),
            matches(rest, operand, operand_raises, to),
        ),
    }
}

/// What is known of COALESCE whose arguments are brought to a scale.
#[cycle(raise)]
fn arguments(list: &Exprs, to: u8) -> Known
    requires scale { to ≤ 18 }
    requires typed { IsTyped (cases to (coalesced (expressions_of list.now))) }
    requires sized { HasColumns IsSizedColumn (cases to (coalesced (expressions_of list.now))) }
    ensures { IsKnown result (cases to (coalesced (expressions_of list.now))) }
{
    match list {
        Exprs::Last(argument) => brought(expression(argument), to),
        Exprs::More(argument, rest) => {
            let known = expression(argument);
            either(known.raises, brought(known, to), arguments(rest, to))
        }
    }
}

/// What is known of the first argument of NULLIF, which is compared with the others.
#[cycle(raise)]
fn unless_among(list: &Exprs) -> Known
    requires typed { IsTyped (unless_among (expressions_of list.now)) }
    requires sized { HasColumns IsSizedColumn (unless_among (expressions_of list.now)) }
    ensures { IsKnown result (unless_among (expressions_of list.now)) }
{
    match list {
        Exprs::Last(first) => {
            let known = expression(first);
            brought(known, known.scale)
        }
        Exprs::More(first, others) => {
            let known = expression(first);
            Known {
                raises: values(others, first, known.raises) || known.raises,
                ..known
            }
        }
    }
}

/// Whether the comparison of an operand with one of some values can raise.
#[cycle(raise)]
fn values(list: &Exprs, operand: &Expr, operand_raises: bool) -> bool
    requires typed { AreTyped (among (expression_of operand.now) (expressions_of list.now)) }
    requires sized { HaveColumns IsSizedColumn (among (expression_of operand.now) (expressions_of list.now)) }
    requires operand { operand_raises ≡ Rattle.qw_raise.specs.Raise.can_raise (expression_of operand.now) }
    ensures { result ≡ Rattle.qw_raise.specs.Raise.condition_can_raise (among (expression_of operand.now) (expressions_of list.now)) }
{
    match list {
        Exprs::Last(value) => operand_raises || expression(value).raises,
        Exprs::More(value, rest) => {
            operand_raises || expression(value).raises || values(rest, operand, operand_raises)
        }
    }
}

/// A value that is there without an exception.
fn quiet(scale: u8, magnitude: u128) -> Known
    ensures { result ≡ record { scale = scale; magnitude = magnitude; raises = false } }
{
    Known {
        scale,
        magnitude,
        raises: false,
    }
}

/// The greatest magnitude of a type's numbers.
fn of_type(ty: Ty) -> u128
    requires { IsSized ty }
    ensures value { result ≡ type_magnitude ty }
    ensures bound { result ≤ greatest }
{
    match ty {
        Ty::Integer => 2_147_483_648,
        Ty::Decimal { precision, .. } => ten_to(precision) - 1,
        Ty::Date | Ty::Varchar { .. } => 0,
    }
}

/// What is known of an operator's result, from its operands.
fn arithmetic(operator: Operator, x: Known, y: Known, is_safe: bool) -> Known
    requires scales { (x.scale ≤ 18) × (y.scale ≤ 18) × ScalesAllowed operator x.scale y.scale }
    requires bounds { (x.magnitude ≤ greatest) × (y.magnitude ≤ greatest) }
    ensures scale { result.scale ≡ Rattle.qw_scalar.specs.Expression.scale_after operator x.scale y.scale }
    ensures magnitude { result.magnitude ≡ min (raw_result operator x.magnitude x.scale y.magnitude y.scale) greatest }
    ensures raises { result.raises ≡ (x.raises || (y.raises || operator_raises operator is_safe x.magnitude x.scale y.magnitude y.scale)) }
{
    let (scale, raw, raises) = match operator {
        Operator::Add | Operator::Subtract => {
            let scale = x.scale.max(y.scale);
            let left = bring(x, scale);
            let right = bring(y, scale);
            (
                scale,
                capped(left) + capped(right),
                is_past(left) || is_past(right),
            )
        }
        Operator::Multiply => (x.scale + y.scale, x.magnitude * y.magnitude, false),
        Operator::Divide => (x.scale, bring(x, x.scale + y.scale), !is_safe),
    };
    Known {
        scale,
        magnitude: capped(raw),
        raises: x.raises || y.raises || raises || is_past(raw),
    }
}

/// Whether an expression is a literal other than 0.
fn is_safe_divisor(expr: &Expr) -> bool
    ensures { result ≡ Rattle.qw_raise.specs.Raise.is_safe_divisor (expression_of expr.now) }
{
    match expr {
        Expr::Number(number, _) => *number != 0,
        _ => false,
    }
}

/// What is known of a value that is brought to a scale.
fn brought(known: Known, to: u8) -> Known
    requires scales { (known.scale ≤ 18) × (to ≤ 18) }
    requires bound { known.magnitude ≤ greatest }
    ensures { result ≡ record {
      scale = to;
      magnitude = min (raw_bring known.magnitude known.scale to) greatest;
      raises = known.raises || Rattle.qw_raise.specs.Raise.is_past (raw_bring known.magnitude known.scale to);
    } }
{
    let raw = bring(known, to);
    Known {
        scale: to,
        magnitude: capped(raw),
        raises: known.raises || is_past(raw),
    }
}

/// What is known of the one or the other, after a condition.
fn either(condition_raises: bool, first: Known, second: Known) -> Known
    ensures { result ≡ record {
      scale = max first.scale second.scale;
      magnitude = max first.magnitude second.magnitude;
      raises = condition_raises || (first.raises || second.raises);
    } }
{
    Known {
        scale: first.scale.max(second.scale),
        magnitude: first.magnitude.max(second.magnitude),
        raises: condition_raises || first.raises || second.raises,
    }
}

/// The greatest magnitude of numbers that are brought to a scale, which may have 36 digits.
fn bring(known: Known, to: u8) -> u128
    requires scales { (known.scale ≤ 18) × (to ≤ 18) }
    requires bound { known.magnitude ≤ greatest }
    ensures value { result ≡ raw_bring known.magnitude known.scale to }
    ensures bound { result ≤ greatest * 10 ^ 18 }
{
    known.magnitude * ten_to(to.saturating_sub(known.scale))
}

/// A power of ten.
#[tactic(auto, using(crate::proofs::RaiseLemmas::power_small))]
fn ten_to(exponent: u8) -> u128
    requires { exponent ≤ 18 }
    ensures value { result ≡ 10 ^ exponent }
    ensures positive { 1 ≤ result }
    ensures bound { result ≤ 10 ^ 18 }
{
    10u128.pow(u32::from(exponent))
}

/// Whether numbers of a magnitude may have more than 18 digits.
fn is_past(raw: u128) -> bool
    ensures { result ≡ Rattle.qw_raise.specs.Raise.is_past raw }
{
    raw > GREATEST
}

/// The greatest magnitude of numbers that have at most 18 digits.
fn capped(raw: u128) -> u128
    ensures { result ≡ Rattle.qw_raise.specs.Raise.capped raw }
{
    raw.min(GREATEST)
}
