//! The number that a literal of digits is, if it fits.

ghost use Rattle.std.specs.Prelude.{◌≡◌, IsTrue};
ghost use Rattle.qw_types.specs.Digits.{are_digits};
ghost use Rattle.qw_schema.specs.Inner.Parser.{literal_of};

use qw_types::digits::are_digits;
use std::str;

/// The greatest literal.
const MAX_LITERAL: i64 = 999_999_999_999_999_999;

/// The number that the octets are, if they are digits and it fits.
pub(crate) fn literal_of(octets: &[u8]) -> Option<i64>
    ensures { result ≡ literal_of octets.now }
{
    if !are_digits(octets) {
        return None;
    }
    match str::from_utf8(octets) {
        Ok(digits) => value_of(digits),
        Err(_) => None,
    }
}

/// The number that the digits are, if there is one and it fits.
fn value_of(digits: &str) -> Option<i64>
    requires { IsTrue (are_digits digits.now) }
    ensures { result ≡ literal_of digits.now }
{
    let Ok(value) = digits.parse::<i64>() else {
        return None;
    };
    if value <= MAX_LITERAL {
        Some(value)
    } else {
        None
    }
}
