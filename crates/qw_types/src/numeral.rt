//! Numbers as a table file writes them (ISO/IEC 9075:1992, 5.3 "signed numeric literal"). Nothing here takes memory.

ghost use Rattle.std.specs.Prelude.{◌≡◌, ◌+◌, ◌-◌, ◌*◌, ◌^◌, ◌≤◌, ◌==◌, ◌||◌, ◌&&◌, nat_lt, false, min, length, take, drop, IsTrue, MatchResult, IfSome, IfNone};
ghost use Rattle.std.specs.Str.Parse.{digits_value, digits_value_after, starts_with_minus, without_leading_sign};
ghost use Rattle.qw_types.specs.Numeral.{IsNumberFault, IsNumberOf, after_digits, after_fraction, are_spaces, fraction_at, fraction_digits, is_fine, is_negative, is_number, leading_digits, magnitude, signed, without_spaces};
ghost use Rattle.std.specs.Char.{digit_value, is_ascii_digit};
ghost use Rattle.std.specs.List.{list_all};
ghost use Rattle.qw_types.specs.Inner.Numeral.{greatest};
ghost use Rattle.qw_types.specs.Value.{IsNumeric, IsSized};
ghost use Rattle.qw_types.specs.declared.value.Ty.TheVariants.{Integer};

use crate::power::power_of_ten;
use crate::short_number::{short_integer, short_number};
use crate::value::Ty;
use thiserror::Error;

/// Why a field stands for no value of its column's type.
#[derive(Clone, Copy, Debug, PartialEq, Eq, Error)]
pub enum FieldFault {
    #[error("not a number")]
    NotNumber,
    /// A number that is out of the type's range.
    #[error("too large")]
    TooLarge,
    /// A number with a digit other than 0 past the type's scale.
    #[error("too fine")]
    TooFine,
    #[error("not a date")]
    NotDate,
}

/// The first number of more than 18 digits; what is larger is kept as this.
const TOO_LARGE: u64 = 1_000_000_000_000_000_000;

/// What a number's text says, at a scale.
#[derive(Clone, Copy)]
struct Numeral {
    negative: bool,
    /// Without the sign, at the scale; [`TOO_LARGE`] for what is larger.
    magnitude: u64,
    /// Whether each digit past the scale is 0.
    fine: bool,
}

/// The digits at the start of a text.
#[derive(Clone, Copy)]
pub(crate) struct Digits {
    /// What they count to; [`TOO_LARGE`] for what is larger.
    pub(crate) number: u64,
    pub(crate) count: usize,
}

/// The digits after a point.
#[derive(Clone, Copy)]
struct Fraction<'a> {
    /// What the digits up to the scale count to, after those before the point; [`TOO_LARGE`] for what is larger.
    number: u64,
    count: usize,
    /// Whether each digit past the scale is 0.
    fine: bool,
    /// What follows.
    rest: &'a [u8],
}

/// The number that a text stands for, as the whole number that it is at the type's scale. Spaces round it are passed over.
///
/// # Errors
///
/// `NotNumber` where the text is no number's; else `TooFine` where a digit past the scale isn't 0; else `TooLarge` where the
/// number is out of the type's range.
#[inline(always)]
pub fn read_number(bytes: &[u8], ty: &Ty) -> Result<i64, FieldFault>
    requires numeric { IsNumeric ty.now }
    requires sized { IsSized ty.now }
    ensures { MatchResult result (IsNumberOf ty.now bytes.now) (IsNumberFault ty.now bytes.now) }
{
    match short_number(bytes, ty) {
        Some(number) => Ok(number),
        None => read_any_number(bytes, ty),
    }
}

/// The INTEGER that a text stands for; as [`read_number`] of that type.
///
/// # Errors
///
/// As those of [`read_number`].
#[inline(always)]
pub fn read_integer(bytes: &[u8]) -> Result<i32, FieldFault>
    ensures { MatchResult result (IsNumberOf Integer bytes.now) (IsNumberFault Integer bytes.now) }
{
    if let Some(number) = short_integer(bytes) {
        return Ok(number);
    }
    match read_any_number(bytes, &Ty::Integer) {
        Ok(number) => Ok(number as i32),
        Err(fault) => Err(fault),
    }
}

/// The number of a type that a text in any form stands for.
#[cold]
fn read_any_number(bytes: &[u8], ty: &Ty) -> Result<i64, FieldFault>
    requires numeric { IsNumeric ty.now }
    requires sized { IsSized ty.now }
    ensures { MatchResult result (IsNumberOf ty.now bytes.now) (IsNumberFault ty.now bytes.now) }
{
    let Some(numeral) = numeral_of(bytes, usize::from(ty.scale())) else {
        return Err(FieldFault::NotNumber);
    };
    if !numeral.fine {
        return Err(FieldFault::TooFine);
    }
    if numeral.magnitude > greatest(ty, numeral.negative) {
        return Err(FieldFault::TooLarge);
    }
    Ok(signed(numeral.negative, numeral.magnitude))
}

/// A number of a sign and a magnitude.
pub(crate) fn signed(negative: bool, magnitude: u64) -> i64
    requires { magnitude ≤ 1000000000000000000 }
    ensures { result ≡ signed negative magnitude }
{
    let number = magnitude as i64;
    if negative { -number } else { number }
}

/// The greatest magnitude of a type's negative numbers, or of the others.
pub(crate) fn greatest(ty: &Ty, negative: bool) -> u64
    requires { IsSized ty.now }
    ensures { result ≡ greatest ty.now negative }
{
    match ty {
        Ty::Decimal { precision, .. } => power_of_ten(usize::from(*precision)) - 1,
        _ if negative => 2_147_483_648,
        _ => 2_147_483_647,
    }
}

/// What a number's text says at a scale, or none where it is no number's.
fn numeral_of(bytes: &[u8], scale: usize) -> Option<Numeral>
    requires { scale ≤ 18 }
    ensures none { IfNone result (is_number bytes.now ≡ false) }
    ensures some { IfSome result (λ n. IsTrue (is_number bytes.now) × (n.negative ≡ is_negative bytes.now)
        × (n.fine ≡ is_fine scale bytes.now) × (n.magnitude ≡ min (magnitude scale bytes.now) 1000000000000000000)) }
{
    let text = without_spaces(bytes);
    let unsigned = without_sign(text);
    let whole = leading_digits(unsigned);
    let fraction = fraction_of(&unsigned[whole.count..], whole.number, scale);
    if !is_number(whole.count, fraction.count, fraction.rest) {
        return None;
    }
    Some(Numeral {
        negative: begins_with_minus(text),
        magnitude: with_zeros(fraction.number, scale.saturating_sub(fraction.count)),
        fine: fraction.fine,
    })
}

/// Whether so many digits before and after the point, and this text behind them, are a number's.
fn is_number(whole: usize, fraction: usize, rest: &[u8]) -> bool
    ensures { result ≡ ((nat_lt 0 whole || nat_lt 0 fraction) && are_spaces rest.now) }
{
    (whole > 0 || fraction > 0) && are_spaces(rest)
}

/// A text without the spaces at its start.
pub(crate) fn without_spaces(octets: &[u8]) -> &[u8]
    ensures { result.now ≡ without_spaces octets.now }
{
    for (index, octet) in octets.iter().enumerate() {
        if *octet != b' ' {
            return &octets[index..];
        }
    }
    &[]
}

/// Whether there are spaces alone.
pub(crate) fn are_spaces(octets: &[u8]) -> bool
    ensures { result ≡ are_spaces octets.now }
{
    octets.iter().all(|octet| *octet == b' ')
}

/// Whether a text begins with a minus sign.
pub(crate) fn begins_with_minus(text: &[u8]) -> bool
    ensures { result ≡ starts_with_minus text.now }
{
    matches!(text, [b'-', ..])
}

/// A text without the sign at its start, if it has one.
fn without_sign(text: &[u8]) -> &[u8]
    ensures { result.now ≡ without_leading_sign text.now }
{
    match text {
        [b'+' | b'-', digits @ ..] => digits,
        _ => text,
    }
}

/// The digits at the start of a text.
pub(crate) fn leading_digits(octets: &[u8]) -> Digits
    ensures count { result.count ≡ length (leading_digits octets.now) }
    ensures number { result.number ≡ min (digits_value 10 (leading_digits octets.now)) 1000000000000000000 }
    ensures rest { drop result.count octets.now ≡ after_digits octets.now }
    ensures within { result.count ≤ length octets.now }
{
    let mut number = 0;
    for (count, octet) in octets.iter().enumerate() {
        if !octet.is_ascii_digit() {
            return Digits { number, count };
        }
        number = with_digit(number, *octet);
    }
    let count = octets.len();
    Digits { number, count }
}

/// The number that a digit makes behind the digits of another.
fn with_digit(number: u64, digit: u8) -> u64
    requires small { number ≤ 1000000000000000000 }
    requires digit { IsTrue (is_ascii_digit digit) }
    ensures { result ≡ min (number * 10 + digit_value digit) 1000000000000000000 }
{
    (number * 10 + u64::from(digit - b'0')).min(TOO_LARGE)
}

/// The point at the start of a text and the digits after it, where there are any, behind a number's digits before the point.
fn fraction_of<'a>(octets: &'a [u8], whole: u64, scale: usize) -> Fraction<'a>
    requires small { whole ≤ 1000000000000000000 }
    ensures count { result.count ≡ length (fraction_at octets.now) }
    ensures number { result.number ≡ min (digits_value_after 10 whole (take scale (fraction_at octets.now))) 1000000000000000000 }
    ensures fine { result.fine ≡ list_all (λ octet. octet == 48) (drop scale (fraction_at octets.now)) }
    ensures rest { result.rest.now ≡ after_fraction octets.now }
{
    match octets {
        [b'.', digits @ ..] => digits_after_point(digits, whole, scale),
        _ => Fraction {
            number: whole,
            count: 0,
            fine: true,
            rest: octets,
        },
    }
}

/// The digits after a point, behind a number's digits before it.
fn digits_after_point<'a>(octets: &'a [u8], whole: u64, scale: usize) -> Fraction<'a>
    requires small { whole ≤ 1000000000000000000 }
    ensures count { result.count ≡ length (leading_digits octets.now) }
    ensures number { result.number ≡ min (digits_value_after 10 whole (take scale (leading_digits octets.now))) 1000000000000000000 }
    ensures fine { result.fine ≡ list_all (λ octet. octet == 48) (drop scale (leading_digits octets.now)) }
    ensures rest { result.rest.now ≡ after_digits octets.now }
{
    let mut number = whole;
    let mut fine = true;
    for (count, octet) in octets.iter().enumerate() {
        if !octet.is_ascii_digit() {
            let rest = &octets[count..];
            return Fraction {
                number,
                count,
                fine,
                rest,
            };
        }
        if count < scale {
            number = with_digit(number, *octet);
        } else {
            fine = fine && *octet == b'0';
        }
    }
    Fraction {
        number,
        count: octets.len(),
        fine,
        rest: &[],
    }
}

/// A number with so many zeros behind its digits.
fn with_zeros(number: u64, zeros: usize) -> u64
    requires { number ≤ 1000000000000000000 }
    ensures { result ≡ min (number * 10 ^ zeros) 1000000000000000000 }
{
    let mut number = number;
    for _ in 0..zeros {
        number = (number * 10).min(TOO_LARGE);
    }
    number
}
