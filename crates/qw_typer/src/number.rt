//! Numbers (ISO/IEC 9075:1992, 5.3 "unsigned numeric literal").

ghost use Rattle.std.specs.Prelude.{◌≡◌, ◌≤◌, ◌==◌, ℕ, IfOk, IfSome, IsTrue, option_map, position};
ghost use Rattle.qw_scalar.specs.Expression.{number};
ghost use Rattle.qw_types.specs.Digits.{are_digits};
ghost use Rattle.qw_types.specs.Octets.{period};
ghost use Rattle.qw_typer.specs.Inner.Literals.{value_of};
ghost use Rattle.qw_typer.specs.Literal.{digits_of, number_of, scale_of};

use qw_types::NoMemory;
use qw_types::digits::are_digits;
use std::alloc::Global;
use std::str;

/// The greatest literal.
const MAX_LITERAL: i64 = 999_999_999_999_999_999;

/// The most digits behind a point.
const MAX_SCALE: usize = 18;

/// A number and its scale.
#[derive(Clone, Copy)]
pub(crate) struct Numeral {
    pub(crate) number: i64,
    pub(crate) scale: u8,
}

/// The number that the octets are, if it isn't too long.
pub(crate) fn number_of(alloc: Global, octets: &[u8]) -> Result<Option<Numeral>, NoMemory>
    ensures { IfOk result (λ found. option_map (λ n. number n.number n.scale) found ≡ number_of octets.now) }
{
    let digits = digits_of(alloc, octets)?;
    let scale = scale_of(octets);
    match value_of(digits.as_slice()) {
        Some(number) if scale <= MAX_SCALE => Ok(Some(Numeral {
            number,
            scale: scale as u8,
        })),
        _ => Ok(None),
    }
}

/// The digits without the point.
fn digits_of(alloc: Global, octets: &[u8]) -> Result<Vec<u8>, NoMemory>
    ensures { IfOk result (λ digits. digits.items ≡ digits_of octets.now) }
{
    Ok(
        octets
            .iter()
            .copied()
            .filter(|octet| *octet != b'.')
            .collect(alloc)?,
    )
}

/// How many octets stand behind the point.
fn scale_of(octets: &[u8]) -> usize
    ensures { result ≡ scale_of octets.now }
{
    match point_of(octets) {
        Some(place) => octets.len() - (place + 1),
        None => 0,
    }
}

/// The place of the point.
fn point_of(octets: &[u8]) -> Option<usize>
    ensures { result ≡ position (λ (b : ℕ). b == period) octets.now }
{
    octets.iter().position(|octet| *octet == b'.')
}

/// The number that the octets are, if they are digits and it fits.
pub(crate) fn value_of(octets: &[u8]) -> Option<i64>
    ensures { result ≡ value_of octets.now }
{
    if !are_digits(octets) {
        return None;
    }
    match str::from_utf8(octets) {
        Ok(digits) => parsed(digits),
        Err(_) => None,
    }
}

/// The number that the digits are, if there is one and it fits.
fn parsed(digits: &str) -> Option<i64>
    requires { IsTrue (are_digits digits.now) }
    ensures { result ≡ value_of digits.now }
{
    let Ok(value) = digits.parse::<i64>() else {
        return None;
    };
    if value <= MAX_LITERAL {
        Some(value)
    } else {
        None
    }
}
