//! The meaning of expressions as a slow program: it evaluates a tree at one row, operands from left to right. What
//! compiled expressions give is compared with it. Nothing here takes memory.

ghost use Rattle.std.specs.Prelude.{◌≡◌, ◌≤◌, IfOk, IsTrue, Ok, slice_get};
ghost use Rattle.qw_types.specs.Arithmetic.{fits};
ghost use Rattle.qw_types.specs.declared.value.Val.TheVariants.{Null};
ghost use Rattle.qw_scalar.specs.declared.comparison.Comparison.TheVariants.{GreaterOrEqual, LessOrEqual};
ghost use Rattle.qw_scalar.specs.Columns.{HasColumns, HaveColumns, HoldsIn};
ghost use Rattle.qw_scalar.specs.Expression.{among, cases, coalesced, largest_result, scale_of, unless_among};
ghost use Rattle.qw_scalar.specs.Evaluation.{answers, answers_texts, applied, cell_of, chosen, combined, compared, extracted, field_of, negated, raised, same_truth, tested, tested_null, truth_of, value_fits, value_of, at_row};
ghost use Rattle.qw_scalar.specs.Tree.{choices_of, condition_of, expression_of, expressions_of, matches_of};
ghost use Rattle.qw_scalar.specs.Typing.{AreResultsTyped, AreTyped, IsTyped, ScalesAllowed};
ghost use Rattle.qw_scalar.specs.Value.{val_of, valued};

use crate::comparison::Comparison;
use crate::expression::{
    Branches, Cond, Expr, Exprs, Field, Function, Matches, Operator, Predicate,
};
use crate::value::{Value, lent};
use qw_types::like::is_like;
use qw_types::{Code, Text, Truth, Ty, Val, arithmetic, text_order, truth};
use std::cmp::Ordering;

/// The value of an expression at a row, or the first exception that it raises.
///
/// # Errors
///
/// The exception, where the expression has no value.
#[cycle(evaluate)]
#[tactic(auto, using(crate::proofs::CaseLemmas::results_typed, crate::proofs::CaseLemmas::operand_typed, crate::proofs::CaseLemmas::operand_raises))]
pub fn value<'a>(expr: &'a Expr, row: &'a [Val]) -> Result<Value<'a>, Code>
    requires typed { IsTyped (expression_of expr.now) }
    requires columns { HasColumns (HoldsIn row.now) (expression_of expr.now) }
    ensures value { valued result ≡ value_of (expression_of expr.now) (at_row row.now) }
    ensures fits { IfOk result (λ v. IsTrue (value_fits (val_of v))) }
{
    match expr {
        Expr::Null => Ok(Value::Null),
        Expr::Number(number, _) => Ok(Value::Number(*number)),
        Expr::Date(day) => Ok(Value::Date(*day)),
        Expr::Text(text) => Ok(Value::Text(text)),
        Expr::Column(index, _) => Ok(cell(row, *index)),
        Expr::Arithmetic(operator, left, right) => {
            let x = value(left, row)?;
            let y = value(right, row)?;
            combine(*operator, x, scale(left), y, scale(right))
        }
        Expr::Negative(operand) => Ok(negate(value(operand, row)?)),
        Expr::Extract(field, operand) => Ok(extract(*field, value(operand, row)?)),
        Expr::Case(branches) => branch(branches, largest_branch(branches), row),
        Expr::Match(operand, matches) => {
            let x = value(operand, row)?;
            matched(matches, operand, x, largest_match(matches, operand), row)
        }
        Expr::Call(function, arguments) => match function {
            Function::Coalesce => coalesce(arguments, largest_argument(arguments), row),
            Function::NullIf => unless_among(arguments, row),
        },
    }
}

/// The truth of a condition at a row, or the first exception that it raises.
///
/// # Errors
///
/// The exception, where the condition has no truth.
#[cycle(evaluate)]
#[tactic(auto, using(crate::proofs::CaseLemmas::among_typed, crate::proofs::CaseLemmas::among_raises))]
pub fn condition(cond: &Cond, row: &[Val]) -> Result<Truth, Code>
    requires typed { AreTyped (condition_of cond.now) }
    requires columns { HaveColumns (HoldsIn row.now) (condition_of cond.now) }
    ensures { result ≡ truth_of (condition_of cond.now) (at_row row.now) }
{
    match cond {
        Cond::Compare(comparison, left, right) => {
            let x = value(left, row)?;
            let y = value(right, row)?;
            Ok(compare(*comparison, x, scale(left), y, scale(right)))
        }
        Cond::Between(operand, least, greatest) => {
            let x = value(operand, row)?;
            let low = value(least, row)?;
            let above = at_least(x, scale(operand), low, scale(least));
            if is_same(above, Truth::False) {
                return Ok(Truth::False);
            }
            let high = value(greatest, row)?;
            let below = at_most(x, scale(operand), high, scale(greatest));
            Ok(truth::and(above, below))
        }
        Cond::In(operand, values) => {
            let x = value(operand, row)?;
            is_among(values, operand, x, row)
        }
        Cond::Predicate(predicate, operand) => Ok(test(*predicate, value(operand, row)?)),
        Cond::And(left, right) => match condition(left, row)? {
            Truth::False => Ok(Truth::False),
            first => Ok(truth::and(first, condition(right, row)?)),
        },
        Cond::Or(left, right) => match condition(left, row)? {
            Truth::True => Ok(Truth::True),
            first => Ok(truth::or(first, condition(right, row)?)),
        },
        Cond::Not(operand) => Ok(truth::not(condition(operand, row)?)),
        Cond::Is(operand, wanted) => Ok(truth_if(is_same(condition(operand, row)?, *wanted))),
    }
}

/// The result of the first branch whose condition is true, brought to a scale.
#[cycle(evaluate)]
fn branch<'a>(branches: &'a Branches, to: u8, row: &'a [Val]) -> Result<Value<'a>, Code>
    requires typed { IsTyped (cases to (choices_of branches.now)) }
    requires columns { HasColumns (HoldsIn row.now) (cases to (choices_of branches.now)) }
    ensures value { valued result ≡ value_of (cases to (choices_of branches.now)) (at_row row.now) }
    ensures fits { IfOk result (λ v. IsTrue (value_fits (val_of v))) }
{
    match branches {
        Branches::Else(result) => raise(value(result, row)?, scale(result), to),
        Branches::When(test, result, rest) => match condition(test, row)? {
            Truth::True => raise(value(result, row)?, scale(result), to),
            Truth::False | Truth::Unknown => branch(rest, to, row),
        },
    }
}

/// The result of the first branch whose value equals the operand's, brought to a scale.
#[cycle(evaluate)]
fn matched<'a>(
    matches: &'a Matches,
    operand: &'a Expr,
    x: Value<'a>,
    to: u8,
    row: &'a [Val],
) -> Result<Value<'a>, Code>
    requires typed { IsTyped (cases to (matches_of matches.now (expression_of operand.now))) }
    requires columns { HasColumns (HoldsIn row.now) (cases to (matches_of matches.now (expression_of operand.now))) }
    requires operand_fits { IsTrue (value_fits (val_of x)) }
    requires evaluated { value_of (expression_of operand.now) (at_row row.now) ≡ Ok (val_of x) }
    ensures value { valued result ≡ value_of (cases to (matches_of matches.now (expression_of operand.now))) (at_row row.now) }
    ensures fits { IfOk result (λ v. IsTrue (value_fits (val_of v))) }
{
    match matches {
        Matches::Last(wanted, result, other) => {
            let y = value(wanted, row)?;
            match compare(Comparison::Equal, x, scale(operand), y, scale(wanted)) {
                Truth::True => raise(value(result, row)?, scale(result), to),
                Truth::False | Truth::Unknown => raise(value(other, row)?, scale(other), to),
            }
        }
        Matches::When(wanted, result, rest) => {
            let y = value(wanted, row)?;
            match compare(Comparison::Equal, x, scale(operand), y, scale(wanted)) {
                Truth::True => raise(value(result, row)?, scale(result), to),
                Truth::False | Truth::Unknown => matched(rest, operand, x, to, row),
            }
        }
    }
}

/// The first argument that isn't null, brought to a scale, or the last one.
#[cycle(evaluate)]
fn coalesce<'a>(arguments: &'a Exprs, to: u8, row: &'a [Val]) -> Result<Value<'a>, Code>
    requires typed { IsTyped (cases to (coalesced (expressions_of arguments.now))) }
    requires columns { HasColumns (HoldsIn row.now) (cases to (coalesced (expressions_of arguments.now))) }
    ensures value { valued result ≡ value_of (cases to (coalesced (expressions_of arguments.now))) (at_row row.now) }
    ensures fits { IfOk result (λ v. IsTrue (value_fits (val_of v))) }
{
    match arguments {
        Exprs::Last(argument) => raise(value(argument, row)?, scale(argument), to),
        Exprs::More(argument, rest) => {
            let x = value(argument, row)?;
            match test_null(x) {
                Truth::True => coalesce(rest, to, row),
                Truth::False | Truth::Unknown => raise(x, scale(argument), to),
            }
        }
    }
}

/// The first argument, or null where it equals another.
#[cycle(evaluate)]
#[tactic(auto, using(crate::proofs::CaseLemmas::unless_raises))]
fn unless_among<'a>(arguments: &'a Exprs, row: &'a [Val]) -> Result<Value<'a>, Code>
    requires typed { IsTyped (unless_among (expressions_of arguments.now)) }
    requires columns { HasColumns (HoldsIn row.now) (unless_among (expressions_of arguments.now)) }
    ensures value { valued result ≡ value_of (unless_among (expressions_of arguments.now)) (at_row row.now) }
    ensures fits { IfOk result (λ v. IsTrue (value_fits (val_of v))) }
{
    match arguments {
        Exprs::Last(first) => {
            let to = scale(first);
            raise(value(first, row)?, to, to)
        }
        Exprs::More(first, others) => {
            let x = value(first, row)?;
            Ok(null_where(is_among(others, first, x, row)?, x))
        }
    }
}

/// Whether the operand's value equals one of some values, up to the first that it equals.
#[cycle(evaluate)]
fn is_among<'a>(
    values: &'a Exprs,
    operand: &'a Expr,
    x: Value<'a>,
    row: &'a [Val],
) -> Result<Truth, Code>
    requires typed { AreTyped (among (expression_of operand.now) (expressions_of values.now)) }
    requires columns { HaveColumns (HoldsIn row.now) (among (expression_of operand.now) (expressions_of values.now)) }
    requires operand_fits { IsTrue (value_fits (val_of x)) }
    requires evaluated { value_of (expression_of operand.now) (at_row row.now) ≡ Ok (val_of x) }
    ensures { result ≡ truth_of (among (expression_of operand.now) (expressions_of values.now)) (at_row row.now) }
{
    match values {
        Exprs::Last(wanted) => {
            let y = value(wanted, row)?;
            Ok(compare(Comparison::Equal, x, scale(operand), y, scale(wanted)))
        }
        Exprs::More(wanted, rest) => {
            let y = value(wanted, row)?;
            match compare(Comparison::Equal, x, scale(operand), y, scale(wanted)) {
                Truth::True => Ok(Truth::True),
                first => Ok(truth::or(first, is_among(rest, operand, x, row)?)),
            }
        }
    }
}

/// The value of a column: null where the row has none.
fn cell(row: &[Val], index: usize) -> Value<'_>
    ensures { val_of result ≡ cell_of (slice_get row.now index) }
{
    match row.get(index) {
        None => Value::Null,
        Some(value) => lent(value),
    }
}

/// Null where a comparison is true, else the value.
fn null_where(test: Truth, x: Value<'_>) -> Value<'_>
    requires { IsTrue (value_fits (val_of x)) }
    ensures value { val_of result ≡ chosen test Null (val_of x.entry) }
    ensures fits { IsTrue (value_fits (val_of result)) }
{
    match test {
        Truth::True => Value::Null,
        Truth::False | Truth::Unknown => x,
    }
}

/// The digits behind the point of an expression's values, 0 where they are no numbers.
#[cycle(scale)]
#[tactic(auto, using(crate::proofs::CaseLemmas::cases_scale, crate::proofs::CaseLemmas::results_typed))]
pub fn scale(expr: &Expr) -> u8
    requires typed { IsTyped (expression_of expr.now) }
    ensures value { result ≡ scale_of (expression_of expr.now) }
    ensures bound { result ≤ 18 }
{
    match expr {
        Expr::Null | Expr::Date(_) | Expr::Text(_) | Expr::Extract(_, _) => 0,
        Expr::Number(_, scale) => *scale,
        Expr::Column(_, ty) => ty.scale(),
        Expr::Arithmetic(operator, left, right) => scale_after(
            *operator,
            scale(left),
            scale(right),
        ),
        Expr::Negative(operand) => scale(operand),
        Expr::Case(branches) => largest_branch(branches),
        Expr::Match(operand, matches) => largest_match(matches, operand),
        Expr::Call(function, arguments) => match function {
            Function::Coalesce => largest_argument(arguments),
            Function::NullIf => first_scale(arguments),
        },
    }
}

/// The largest scale of the results of a CASE.
#[cycle(scale)]
pub fn largest_branch(branches: &Branches) -> u8
    requires typed { AreResultsTyped (choices_of branches.now) }
    ensures value { result ≡ largest_result (choices_of branches.now) }
    ensures bound { result ≤ 18 }
{
    match branches {
        Branches::Else(result) => scale(result),
        Branches::When(_, result, rest) => scale(result).max(largest_branch(rest)),
    }
}

/// The largest scale of the results of a CASE with an operand.
#[cycle(scale)]
pub fn largest_match(matches: &Matches, operand: &Expr) -> u8
    requires typed { AreResultsTyped (matches_of matches.now (expression_of operand.now)) }
    ensures value { result ≡ largest_result (matches_of matches.now (expression_of operand.now)) }
    ensures bound { result ≤ 18 }
{
    match matches {
        Matches::Last(_, result, other) => scale(result).max(scale(other)),
        Matches::When(_, result, rest) => scale(result).max(largest_match(rest, operand)),
    }
}

/// The largest scale of the arguments of COALESCE.
#[cycle(scale)]
pub fn largest_argument(arguments: &Exprs) -> u8
    requires typed { AreResultsTyped (coalesced (expressions_of arguments.now)) }
    ensures value { result ≡ largest_result (coalesced (expressions_of arguments.now)) }
    ensures bound { result ≤ 18 }
{
    match arguments {
        Exprs::Last(argument) => scale(argument),
        Exprs::More(argument, rest) => scale(argument).max(largest_argument(rest)),
    }
}

/// The scale of the first argument, which NULLIF keeps.
#[cycle(scale)]
fn first_scale(arguments: &Exprs) -> u8
    requires typed { IsTyped (unless_among (expressions_of arguments.now)) }
    ensures value { result ≡ scale_of (unless_among (expressions_of arguments.now)) }
    ensures bound { result ≤ 18 }
{
    match arguments {
        Exprs::Last(first) | Exprs::More(first, _) => scale(first),
    }
}

/// The scale of what an operator gives.
fn scale_after(operator: Operator, left: u8, right: u8) -> u8
    requires bounds { (left ≤ 18) × (right ≤ 18) }
    requires allowed { ScalesAllowed operator left right }
    ensures value { result ≡ Rattle.qw_scalar.specs.Expression.scale_after operator left right }
    ensures bound { result ≤ 18 }
{
    match operator {
        Operator::Add | Operator::Subtract => left.max(right),
        Operator::Multiply => left + right,
        Operator::Divide => left,
    }
}

/// Two values under an operator.
fn combine<'a>(
    operator: Operator,
    x: Value<'a>,
    sx: u8,
    y: Value<'a>,
    sy: u8,
) -> Result<Value<'a>, Code>
    requires fit { IsTrue (value_fits (val_of x)) × IsTrue (value_fits (val_of y)) }
    requires bounds { (sx ≤ 18) × (sy ≤ 18) }
    requires allowed { ScalesAllowed operator sx sy }
    ensures value { valued result ≡ combined operator (val_of x.entry) sx (val_of y.entry) sy }
    ensures fits { IfOk result (λ v. IsTrue (value_fits (val_of v))) }
{
    match (x, y) {
        (Value::Number(a), Value::Number(b)) => Ok(Value::Number(apply(operator, a, sx, b, sy)?)),
        _ => Ok(Value::Null),
    }
}

/// Two numbers under an operator.
fn apply(operator: Operator, a: i64, sa: u8, b: i64, sb: u8) -> Result<i64, Code>
    requires fit { IsTrue (fits a) × IsTrue (fits b) }
    requires bounds { (sa ≤ 18) × (sb ≤ 18) }
    requires allowed { ScalesAllowed operator sa sb }
    ensures value { result ≡ applied operator a sa b sb }
    ensures fits { IfOk result (λ v. IsTrue (fits v)) }
{
    match operator {
        Operator::Add => arithmetic::add(a, sa, b, sb),
        Operator::Subtract => arithmetic::sub(a, sa, b, sb),
        Operator::Multiply => arithmetic::mul(a, sa, b, sb),
        Operator::Divide => arithmetic::div(a, sa, b, sb),
    }
}

/// A value with its sign turned.
fn negate(x: Value<'_>) -> Value<'_>
    requires fit { IsTrue (value_fits (val_of x)) }
    ensures value { val_of result ≡ negated (val_of x.entry) }
    ensures fits { IsTrue (value_fits (val_of result)) }
{
    match x {
        Value::Number(a) => Value::Number(-a),
        Value::Null | Value::Date(_) | Value::Text(_) => Value::Null,
    }
}

/// A field of a date, as a number of scale 0.
fn extract(field: Field, x: Value<'_>) -> Value<'_>
    ensures value { val_of result ≡ extracted field (val_of x.entry) }
    ensures fits { IsTrue (value_fits (val_of result)) }
{
    match x {
        Value::Date(day) => Value::Number(i64::from(field_at(field, day))),
        Value::Null | Value::Number(_) | Value::Text(_) => Value::Null,
    }
}

/// A field of a date that is kept as year * 10000 + month * 100 + day.
fn field_at(field: Field, day: i32) -> i32
    ensures { result ≡ field_of field day }
{
    match field {
        Field::Year => day / 10_000,
        Field::Month => day / 100 % 100,
        Field::Day => day % 100,
    }
}

/// A value at a scale that is no smaller.
fn raise(x: Value<'_>, from: u8, to: u8) -> Result<Value<'_>, Code>
    requires fit { IsTrue (value_fits (val_of x)) }
    requires scales { (from ≤ to) × (to ≤ 18) }
    ensures value { valued result ≡ raised (val_of x.entry) from to }
    ensures fits { IfOk result (λ v. IsTrue (value_fits (val_of v))) }
{
    match x {
        Value::Number(a) => Ok(Value::Number(arithmetic::bring(a, from, to)?)),
        Value::Null | Value::Date(_) | Value::Text(_) => Ok(x),
    }
}

/// How two values compare.
fn compare(comparison: Comparison, x: Value<'_>, sx: u8, y: Value<'_>, sy: u8) -> Truth
    requires fit { IsTrue (value_fits (val_of x)) × IsTrue (value_fits (val_of y)) }
    requires bounds { (sx ≤ 18) × (sy ≤ 18) }
    ensures { result ≡ compared comparison (val_of x.entry) sx (val_of y.entry) sy }
{
    match (x, y) {
        (Value::Number(a), Value::Number(b)) => truth_if(answer(
            comparison,
            arithmetic::compare(a, sx, b, sy),
        )),
        (Value::Date(a), Value::Date(b)) => truth_if(answer(comparison, a.cmp(&b))),
        (Value::Text(a), Value::Text(b)) => truth_if(answer_texts(comparison, a, b)),
        _ => Truth::Unknown,
    }
}

/// Whether a value is another or above it.
fn at_least(x: Value<'_>, sx: u8, y: Value<'_>, sy: u8) -> Truth
    requires fit { IsTrue (value_fits (val_of x)) × IsTrue (value_fits (val_of y)) }
    requires bounds { (sx ≤ 18) × (sy ≤ 18) }
    ensures { result ≡ compared GreaterOrEqual (val_of x.entry) sx (val_of y.entry) sy }
{
    compare(Comparison::GreaterOrEqual, x, sx, y, sy)
}

/// Whether a value is another or below it.
fn at_most(x: Value<'_>, sx: u8, y: Value<'_>, sy: u8) -> Truth
    requires fit { IsTrue (value_fits (val_of x)) × IsTrue (value_fits (val_of y)) }
    requires bounds { (sx ≤ 18) × (sy ≤ 18) }
    ensures { result ≡ compared LessOrEqual (val_of x.entry) sx (val_of y.entry) sy }
{
    compare(Comparison::LessOrEqual, x, sx, y, sy)
}

/// Whether an order answers a comparison.
fn answer(comparison: Comparison, order: Ordering) -> bool
    ensures { result ≡ answers comparison order }
{
    match comparison {
        Comparison::Equal | Comparison::Like => order.is_eq(),
        Comparison::NotEqual | Comparison::NotLike => order.is_ne(),
        Comparison::Less => order.is_lt(),
        Comparison::LessOrEqual => order.is_le(),
        Comparison::Greater => order.is_gt(),
        Comparison::GreaterOrEqual => order.is_ge(),
    }
}

/// Whether two texts answer a comparison, the second as a pattern where it is LIKE.
fn answer_texts(comparison: Comparison, a: &Text, b: &Text) -> bool
    ensures { result ≡ answers_texts comparison a.now b.now }
{
    match comparison {
        Comparison::Like => is_like(a.as_str().as_bytes(), b.as_str().as_bytes()),
        Comparison::NotLike => !is_like(a.as_str().as_bytes(), b.as_str().as_bytes()),
        Comparison::Equal
        | Comparison::NotEqual
        | Comparison::Less
        | Comparison::LessOrEqual
        | Comparison::Greater
        | Comparison::GreaterOrEqual => answer(comparison, text_order::compare(a, b)),
    }
}

/// The truth of what is known.
fn truth_if(holds: bool) -> Truth
    ensures { result ≡ Rattle.qw_scalar.specs.Evaluation.truth_if holds }
{
    if holds { Truth::True } else { Truth::False }
}

/// Whether a value is null, which is never unknown.
fn test_null(x: Value<'_>) -> Truth
    ensures { result ≡ tested_null (val_of x.entry) }
{
    match x {
        Value::Null => Truth::True,
        Value::Number(_) | Value::Date(_) | Value::Text(_) => Truth::False,
    }
}

/// A predicate of a value.
fn test(predicate: Predicate, x: Value<'_>) -> Truth
    ensures { result ≡ tested predicate (val_of x.entry) }
{
    match predicate {
        Predicate::IsNull => test_null(x),
    }
}

/// Whether two truth values are the same.
fn is_same(t: Truth, u: Truth) -> bool
    ensures { result ≡ same_truth t u }
{
    match (t, u) {
        (Truth::True, Truth::True)
        | (Truth::False, Truth::False)
        | (Truth::Unknown, Truth::Unknown) => true,
        _ => false,
    }
}
