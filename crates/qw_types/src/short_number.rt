//! Numbers of at most 18 digits in the commonest form: a minus sign or none, digits, and maybe a point and digits behind it. They are
//! read in one pass, and no step asks whether the number has grown too large. Other texts of numbers are left to
//! [`crate::numeral`].

ghost use Rattle.std.specs.Prelude.{◌≡◌, ◌≤◌, ◌<◌, ◌^◌, ◌+◌, ◌-◌, ◌*◌, ◌++◌, true, [], length, take, drop, if◌then◌else◌, IsTrue, IfSome};
ghost use Rattle.std.specs.Char.{digit_value, is_ascii_digit};
ghost use Rattle.std.specs.List.{list_all};
ghost use Rattle.std.specs.Str.Parse.{digits_value, starts_with_minus};
ghost use Rattle.qw_types.specs.Numeral.{IsNumberOf, after_digits, after_fraction, fraction_at, leading_digits};
ghost use Rattle.qw_types.specs.Value.{IsNumeric, IsSized};
ghost use Rattle.qw_types.specs.declared.value.Ty.TheVariants.{Integer};

use crate::numeral::{Digits, begins_with_minus, greatest, signed};
use crate::power::power_of_ten;
use crate::value::Ty;

/// The number of a type that a text shows in the commonest form. None where it has another form, or shows no number of the type.
#[inline(always)]
pub(crate) fn short_number(bytes: &[u8], ty: &Ty) -> Option<i64>
    requires numeric { IsNumeric ty.now }
    requires sized { IsSized ty.now }
    ensures { IfSome result (IsNumberOf ty.now bytes.now) }
{
    let magnitude = short_magnitude(without_minus(bytes), usize::from(ty.scale()))?;
    let negative = begins_with_minus(bytes);
    if magnitude > greatest(ty, negative) {
        return None;
    }
    Some(signed(negative, magnitude))
}

/// The INTEGER that a text of digits shows, a minus sign before them or none. None where it has another form, or shows no INTEGER.
/// The sign is asked for only where there aren't digits alone.
#[inline(always)]
pub(crate) fn short_integer(bytes: &[u8]) -> Option<i32>
    ensures { IfSome result (IsNumberOf Integer bytes.now) }
{
    let Some(number) = digits_alone(bytes) else {
        return negative_integer(bytes);
    };
    if number > 2_147_483_647 {
        return None;
    }
    Some(number as i32)
}

/// The INTEGER that a minus sign and digits show. None where the text has another form, or shows no INTEGER.
#[inline(always)]
fn negative_integer(bytes: &[u8]) -> Option<i32>
    ensures { IfSome result (IsNumberOf Integer bytes.now) }
{
    if !begins_with_minus(bytes) {
        return None;
    }
    let magnitude = digits_alone(without_minus(bytes))?;
    if magnitude > 2_147_483_648 {
        return None;
    }
    Some(signed(true, magnitude) as i32)
}

/// The number that a text of digits alone shows. None where there is something else, no digit, or more than 18.
#[inline(always)]
fn digits_alone(text: &[u8]) -> Option<u64>
    ensures some { IfSome result (λ n. 0 < length text.now) }
    ensures digits { IfSome result (λ n. list_all is_ascii_digit text.now ≡ true) }
    ensures number { IfSome result (λ n. n ≡ digits_value 10 text.now) }
{
    if text.is_empty() || text.len() > 18 {
        return None;
    }
    let first = first_digits(text)?;
    let mut number = first.number;
    for index in first.count..text.len() {
        let octet = text[index];
        if !octet.is_ascii_digit() {
            return None;
        }
        number = digit_behind(number, octet);
    }
    Some(number)
}

/// A text without the minus sign at its start, if it has one.
fn without_minus(text: &[u8]) -> &[u8]
    ensures { result.now ≡ (if starts_with_minus text.now then drop 1 text.now else text.now) }
{
    match text {
        [b'-', digits @ ..] => digits,
        _ => text,
    }
}

/// The number at a scale that a text of digits shows, with at most one point behind the first of them. None where it has more
/// digits after the point than the scale says, or too many for any type.
fn short_magnitude(octets: &[u8], scale: usize) -> Option<u64>
    requires { scale ≤ 18 }
    ensures some { IfSome result (λ m. 0 < length (leading_digits octets.now)) }
    ensures rest { IfSome result (λ m. after_fraction (after_digits octets.now) ≡ []) }
    ensures few { IfSome result (λ m. length (fraction_at (after_digits octets.now)) ≤ scale) }
    ensures value { IfSome result (λ m. m ≡ digits_value 10 (leading_digits octets.now ++ fraction_at (after_digits octets.now))
        * 10 ^ (scale - length (fraction_at (after_digits octets.now)))) }
    ensures small { IfSome result (λ m. m < 10 ^ 18) }
{
    let whole = few_digits(octets);
    if whole.count == 0 || whole.count + scale > 18 {
        return None;
    }
    let fraction = short_fraction(&octets[whole.count..], scale)?;
    Some(at_scale(whole, fraction, scale))
}

/// The digits behind a point, up to the scale, where nothing else follows; none where there is nothing at all.
fn short_fraction(octets: &[u8], scale: usize) -> Option<Digits>
    ensures stop { IfSome result (λ d. leading_digits octets.now ≡ []) }
    ensures count { IfSome result (λ d. d.count ≡ length (fraction_at octets.now)) }
    ensures number { IfSome result (λ d. d.number ≡ digits_value 10 (fraction_at octets.now)) }
    ensures rest { IfSome result (λ d. after_fraction octets.now ≡ []) }
    ensures few { IfSome result (λ d. d.count ≤ scale) }
    ensures below { IfSome result (λ d. d.number < 10 ^ d.count) }
{
    match octets {
        [] => Some(Digits {
            number: 0,
            count: 0,
        }),
        [b'.', digits @ ..] => digits_to_end(digits, scale),
        _ => None,
    }
}

/// The digits that a text is, up to the scale. None where there is something else, or there are more.
fn digits_to_end(text: &[u8], scale: usize) -> Option<Digits>
    ensures count { IfSome result (λ d. d.count ≡ length (leading_digits text.now)) }
    ensures number { IfSome result (λ d. d.number ≡ digits_value 10 (leading_digits text.now)) }
    ensures rest { IfSome result (λ d. after_digits text.now ≡ []) }
    ensures few { IfSome result (λ d. d.count ≤ scale) }
    ensures below { IfSome result (λ d. d.number < 10 ^ d.count) }
{
    let none = Digits {
        number: 0,
        count: 0,
    };
    let digits = digits_from(text, none);
    if digits.count < text.len() || digits.count > scale {
        return None;
    }
    Some(digits)
}

/// The digits before and after a point as the number at a scale.
fn at_scale(whole: Digits, fraction: Digits, scale: usize) -> u64
    requires whole { whole.number < 10 ^ whole.count }
    requires fraction { fraction.number < 10 ^ fraction.count }
    requires few { fraction.count ≤ scale }
    requires short { whole.count + scale ≤ 18 }
    ensures value { result ≡ whole.number * 10 ^ scale + fraction.number * 10 ^ (scale - fraction.count) }
    ensures small { result < 10 ^ 18 }
{
    let tenfold = power_of_ten(scale);
    let missing = power_of_ten(scale - fraction.count);
    whole.number * tenfold + fraction.number * missing
}

/// The digits at the start of a text, up to 18 of them.
#[inline(always)]
fn few_digits(octets: &[u8]) -> Digits
    ensures digits { list_all is_ascii_digit (take result.count octets.now) ≡ true }
    ensures number { result.number ≡ digits_value 10 (take result.count octets.now) }
    ensures within { result.count ≤ length octets.now }
    ensures few { result.count ≤ 18 }
    ensures below { result.number < 10 ^ result.count }
{
    digits_from(octets, eight_digits(octets))
}

/// The digits at the start of a text, up to 18 of them, of which the first ones are known.
fn digits_from(octets: &[u8], first: Digits) -> Digits
    requires digits { list_all is_ascii_digit (take first.count octets.now) ≡ true }
    requires number { first.number ≡ digits_value 10 (take first.count octets.now) }
    requires within { first.count ≤ length octets.now }
    requires few { first.count ≤ 18 }
    ensures digits { list_all is_ascii_digit (take result.count octets.now) ≡ true }
    ensures number { result.number ≡ digits_value 10 (take result.count octets.now) }
    ensures within { result.count ≤ length octets.now }
    ensures few { result.count ≤ 18 }
    ensures below { result.number < 10 ^ result.count }
{
    let mut number = first.number;
    let end = octets.len().min(18);
    for count in first.count..end {
        let octet = octets[count];
        if !octet.is_ascii_digit() {
            return Digits { number, count };
        }
        number = digit_behind(number, octet);
    }
    Digits { number, count: end }
}

/// The number that a digit makes behind the digits of another.
fn digit_behind(number: u64, digit: u8) -> u64
    requires small { number < 10 ^ 17 }
    requires digit { IsTrue (is_ascii_digit digit) }
    ensures { result ≡ number * 10 + digit_value digit }
{
    number * 10 + u64::from(digit - b'0')
}

/// The first eight octets of a text where they are digits; else none.
fn eight_digits(octets: &[u8]) -> Digits
    ensures digits { list_all is_ascii_digit (take result.count octets.now) ≡ true }
    ensures number { result.number ≡ digits_value 10 (take result.count octets.now) }
    ensures within { result.count ≤ length octets.now }
    ensures few { result.count ≤ 8 }
{
    match first_digits(octets) {
        Some(first) => first,
        None => Digits {
            number: 0,
            count: 0,
        },
    }
}

/// The first eight octets of a text, or none of them where it has fewer. None where one of the eight is no digit.
fn first_digits(octets: &[u8]) -> Option<Digits>
    ensures digits { IfSome result (λ d. list_all is_ascii_digit (take d.count octets.now) ≡ true) }
    ensures number { IfSome result (λ d. d.number ≡ digits_value 10 (take d.count octets.now)) }
    ensures within { IfSome result (λ d. d.count ≤ length octets.now) }
    ensures few { IfSome result (λ d. d.count ≤ 8) }
{
    match octets.first_chunk::<8>() {
        Some(eight) if are_digits(eight) => Some(Digits {
            number: number_of(eight),
            count: 8,
        }),
        Some(_) => None,
        None => Some(Digits {
            number: 0,
            count: 0,
        }),
    }
}

/// Whether eight octets are digits. Each is asked, whatever the others are, so that all can be asked at once.
fn are_digits(octets: &[u8; 8]) -> bool
    requires { length octets.now ≡ 8 }
    ensures { result ≡ list_all is_ascii_digit octets.now }
{
    let [a, b, c, d, e, f, g, h] = *octets;
    a.is_ascii_digit()
        & b.is_ascii_digit()
        & c.is_ascii_digit()
        & d.is_ascii_digit()
        & e.is_ascii_digit()
        & f.is_ascii_digit()
        & g.is_ascii_digit()
        & h.is_ascii_digit()
}

/// What eight digits count to. The octets count for the digits, each by the power of ten of its place, so that all can be counted at
/// once; what each is above its digit is taken away at the end.
fn number_of(octets: &[u8; 8]) -> u64
    requires eight { length octets.now ≡ 8 }
    requires digits { list_all is_ascii_digit octets.now ≡ true }
    ensures { result ≡ digits_value 10 octets.now }
{
    let [a, b, c, d, e, f, g, h] = *octets;
    let high = scaled(a, 10_000_000)
        + scaled(b, 1_000_000)
        + scaled(c, 100_000)
        + scaled(d, 10_000);
    let low = scaled(e, 1_000) + scaled(f, 100) + scaled(g, 10) + scaled(h, 1);
    let number = high + low - 48 * 11_111_111;
    u64::from(number)
}

/// An octet's number times the power of ten of its place.
fn scaled(octet: u8, place: u32) -> u32
    requires { place ≤ 10000000 }
    ensures { result ≡ octet * place }
{
    u32::from(octet) * place
}
