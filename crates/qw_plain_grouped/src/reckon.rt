//! What the set functions come to over values (ISO/IEC 9075:1992, 6.5).

ghost use Rattle.std.specs.Prelude.{◌≡◌, ◌<◌, ◌*◌, ◌^◌, ◌+ℤ◌, ◌*ℤ◌, ◌<ℤ◌, [], ◌∷◌, ◌++◌, pos, int_div, unsigned_abs, length, IfOk, OnOk};
ghost use Rattle.std.specs.List.{filter};
ghost use Rattle.qw_types.specs.Arithmetic.{checked};
ghost use Rattle.qw_types.specs.declared.value.Val.TheVariants.{Num};
ghost use Rattle.qw_scalar.specs.Evaluation.{as_number};
ghost use Rattle.qw_grouped.specs.SetFunctions as meaning;

use crate::order::value_order;
use qw_grouped::SetFunctionKind;
use qw_scalar::value::{lent, owned};
use qw_types::{Code, NoMemory, Val};
use std::alloc::Global;

/// One more than the greatest value that fits.
const FIRST_TOO_LARGE: u128 = 1_000_000_000_000_000_000;

/// A sum that takes more than 10^14 values, of 24 octets and more each.
const MOST_SUMMED: u128 = 1_000_000_000_000_000_000_000_000_000_000_000;

/// What a set function comes to, or the exception that it raises.
///
/// # Errors
///
/// [`NoMemory`] where a copy does not fit memory, or there are more values than fit memory, and nowhere else.
pub(crate) fn set_function(
    alloc: Global,
    kind: SetFunctionKind,
    values: Vec<Val>,
) -> Result<Result<Val, Code>, NoMemory>
    requires few { length values.items < 10 ^ 18 }
    ensures { IfOk result (λ made. made ≡ meaning.set_function_value kind values.items) }
{
    match kind {
        SetFunctionKind::CountRows => Ok(Ok(count(values.len()))),
        SetFunctionKind::Count => Ok(Ok(count(not_null(alloc, values)?.len()))),
        SetFunctionKind::Sum => sum(&not_null(alloc, values)?),
        SetFunctionKind::Avg => average(&not_null(alloc, values)?),
        SetFunctionKind::Min => Ok(Ok(least(alloc, &not_null(alloc, values)?)?)),
        SetFunctionKind::Max => Ok(Ok(greatest(alloc, &not_null(alloc, values)?)?)),
    }
}

/// A number of rows as a value.
fn count(number: usize) -> Val
    requires { number < 10 ^ 18 }
    ensures { result ≡ Num (pos number) }
{
    Val::Num(number as i64)
}

/// The values that aren't null.
fn not_null(alloc: Global, values: Vec<Val>) -> Result<Vec<Val>, NoMemory>
    ensures { IfOk result (λ found. found.items ≡ meaning.not_null values.items) }
{
    let mut found = Vec::new(alloc);
    for value in values {
        add_unless_null(value, &mut found)?;
    }
    Ok(found)
}

/// Adds a value that isn't null.
fn add_unless_null(value: Val, found: &mut Vec<Val>) -> Result<(), NoMemory>
    ensures { OnOk result (found.new.items ≡ found.old.items ++ filter meaning.is_not_null (value ∷ [])) }
{
    match value {
        Val::Null => {}
        Val::Num(_) | Val::Date(_) | Val::Text(_) => found.push(value)?,
    }
    Ok(())
}

/// The sum of values that aren't null, or null where there are none.
#[tactic(auto, using(crate::proofs::Sums::sum_of_some, crate::proofs::Sums::sum_of_none))]
fn sum(values: &[Val]) -> Result<Result<Val, Code>, NoMemory>
    ensures { IfOk result (λ made. made ≡ meaning.sum_value values.now) }
{
    if values.is_empty() {
        return Ok(Ok(Val::Null));
    }
    Ok(number(within(total(values)?)))
}

/// Their average, with four digits more behind the point.
#[tactic(auto, using(crate::proofs::Sums::average_of_some, crate::proofs::Sums::average_of_none))]
fn average(values: &[Val]) -> Result<Result<Val, Code>, NoMemory>
    ensures { IfOk result (λ made. made ≡ meaning.average_value values.now) }
{
    if values.is_empty() {
        return Ok(Ok(Val::Null));
    }
    let mean = divided(with_four_digits(total(values)?), wide(values.len()));
    Ok(number(within(mean)))
}

/// A sum with four digits more.
#[tactic(auto, using(crate::proofs::Sums::product_fits))]
fn with_four_digits(sum: i128) -> i128
    requires { unsigned_abs sum < 2 * 10 ^ 33 }
    ensures { result ≡ sum *ℤ pos (10 ^ 4) }
{
    sum * 10_000
}

/// A count as wide as a sum.
fn wide(count: usize) -> i128
    ensures { result ≡ pos count }
{
    count as i128
}

/// A sum over a count.
#[tactic(auto, using(crate::proofs::Sums::quotient_fits))]
fn divided(sum: i128, count: i128) -> i128
    requires { pos 0 <ℤ count }
    ensures { result ≡ int_div sum count }
{
    sum / count
}

/// The exact sum. One that passes 10^33 takes more values than fit memory.
fn total(values: &[Val]) -> Result<i128, NoMemory>
    ensures sum { IfOk result (λ sum. sum ≡ meaning.total values.now) }
    ensures small { IfOk result (λ sum. unsigned_abs sum < 2 * 10 ^ 33) }
{
    let mut sum = 0i128;
    for value in values {
        if sum.unsigned_abs() >= MOST_SUMMED {
            return Err(NoMemory);
        }
        sum = added(sum, number_in(value));
    }
    Ok(sum)
}

/// A sum of one number more.
#[tactic(auto, using(crate::proofs::Sums::sum_fits, crate::proofs::Sums::sum_small))]
fn added(sum: i128, number: i64) -> i128
    requires { unsigned_abs sum < 10 ^ 33 }
    ensures value { result ≡ sum +ℤ number }
    ensures small { unsigned_abs result < 2 * 10 ^ 33 }
{
    sum + i128::from(number)
}

/// The number that a value is.
fn number_in(value: &Val) -> i64
    ensures { result ≡ meaning.number_in value.now }
{
    match value {
        Val::Num(number) => *number,
        Val::Null | Val::Date(_) | Val::Text(_) => 0,
    }
}

/// A result that fits.
fn within(number: i128) -> Result<i64, Code>
    ensures { result ≡ checked number }
{
    if number.unsigned_abs() < FIRST_TOO_LARGE {
        Ok(number as i64)
    } else {
        Err(Code::OutOfRange)
    }
}

/// A number as a value.
fn number(found: Result<i64, Code>) -> Result<Val, Code>
    ensures { result ≡ as_number found }
{
    match found {
        Ok(number) => Ok(Val::Num(number)),
        Err(code) => Err(code),
    }
}

/// The least of values that aren't null, or null where there are none.
fn least(alloc: Global, values: &[Val]) -> Result<Val, NoMemory>
    ensures { IfOk result (λ made. made ≡ meaning.least_value values.now) }
{
    match values {
        [] => Ok(Val::Null),
        [first, others @ ..] => owned(alloc, lent(least_of(first, others))),
    }
}

/// The greatest of them.
fn greatest(alloc: Global, values: &[Val]) -> Result<Val, NoMemory>
    ensures { IfOk result (λ made. made ≡ meaning.greatest_value values.now) }
{
    match values {
        [] => Ok(Val::Null),
        [first, others @ ..] => owned(alloc, lent(greatest_of(first, others))),
    }
}

/// The least of a value and others.
fn least_of<'a>(first: &'a Val, others: &'a [Val]) -> &'a Val
    ensures { result.now ≡ meaning.least first.now others.now }
{
    let mut best = first;
    for other in others {
        best = lesser(best, other);
    }
    best
}

/// The greatest of a value and others.
fn greatest_of<'a>(first: &'a Val, others: &'a [Val]) -> &'a Val
    ensures { result.now ≡ meaning.greatest first.now others.now }
{
    let mut best = first;
    for other in others {
        best = greater(best, other);
    }
    best
}

/// The lesser of two values.
fn lesser<'a>(value: &'a Val, other: &'a Val) -> &'a Val
    ensures { result.now ≡ meaning.lesser value.now other.now }
{
    if value_order(value, other).is_le() {
        value
    } else {
        other
    }
}

/// The greater of two values.
fn greater<'a>(value: &'a Val, other: &'a Val) -> &'a Val
    ensures { result.now ≡ meaning.greater value.now other.now }
{
    if value_order(value, other).is_ge() {
        value
    } else {
        other
    }
}
