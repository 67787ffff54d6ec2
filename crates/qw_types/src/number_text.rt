//! The text of a number, and what it shows.

ghost use Rattle.std.specs.Prelude.{◌≡◌, ◌++◌, ◌+◌, ◌/◌, ◌%◌, ◌^◌, ◌<◌, ◌∷◌, [], ℕ, ℤ, unsigned_abs, IfOk, OnOk};
ghost use Rattle.std.specs.Fmt.{decimal};
ghost use Rattle.std.specs.String.{string_bytes};
ghost use Rattle.qw_types.specs.Numeral.{ShowsNumber};
ghost use Rattle.qw_types.specs.NumberText.{decimal_text, fraction_text, last_digits, sign_text};

use crate::text::Text;
use qw_base::NoMemory;
use std::alloc::Global;

/// The greatest power of ten below 2^64 is that of 19.
const DIGITS_OF_A_POWER: u8 = 19;

/// The text of a number that is kept as a whole one at a scale: `-5` at scale 2 gives `-0.05`. It has exactly `scale` digits
/// after the point, and at scale 0 no point.
///
/// # Errors
///
/// [`NoMemory`] where the text doesn't fit memory, and nowhere else.
pub fn decimal_text(alloc: Global, number: i64, scale: u8) -> Result<Text, NoMemory>
    ensures { IfOk result (λ text. text ≡ decimal_text number scale) }
{
    let mut text = String::new(alloc);
    push_decimal(&mut text, number, scale)?;
    Ok(Text::new(text))
}

/// Adds the text of a number to a text.
///
/// # Errors
///
/// [`NoMemory`] where it doesn't fit memory, and nowhere else; a part of it may have been added.
pub fn push_decimal(text: &mut String, number: i64, scale: u8) -> Result<(), NoMemory>
    ensures { OnOk result (string_bytes text.new ≡ string_bytes text.old ++ decimal_text number scale) }
{
    let magnitude = number.unsigned_abs();
    push_sign(text, number)?;
    push_whole(text, magnitude, scale)?;
    push_fraction(text, magnitude, scale)
}

/// Adds the sign, where there is one.
fn push_sign(text: &mut String, number: i64) -> Result<(), NoMemory>
    ensures { OnOk result (string_bytes text.new ≡ string_bytes text.old ++ sign_text number) }
{
    if number < 0 {
        text.push('-')?;
    }
    Ok(())
}

/// Adds the digits before the point.
fn push_whole(text: &mut String, magnitude: u64, scale: u8) -> Result<(), NoMemory>
    ensures { OnOk result (string_bytes text.new ≡ string_bytes text.old ++ decimal (magnitude / 10 ^ scale)) }
{
    let whole = without_last_digits(magnitude, scale);
    write!(text, "{whole}")?;
    Ok(())
}

/// Adds the point and the digits after it, where there are any.
fn push_fraction(text: &mut String, magnitude: u64, scale: u8) -> Result<(), NoMemory>
    ensures { OnOk result (string_bytes text.new ≡ string_bytes text.old ++ fraction_text scale magnitude) }
{
    if scale == 0 {
        return Ok(());
    }
    text.push('.')?;
    push_last_digits(text, magnitude, scale)
}

/// Adds the last digits of a number.
fn push_last_digits(text: &mut String, number: u64, count: u8) -> Result<(), NoMemory>
    ensures { OnOk result (string_bytes text.new ≡ string_bytes text.old ++ last_digits count number) }
{
    for done in 0..count {
        push_digit(text, without_last_digits(number, count - 1 - done))?;
    }
    Ok(())
}

/// Adds the last digit of a number.
fn push_digit(text: &mut String, number: u64) -> Result<(), NoMemory>
    ensures { OnOk result (string_bytes text.new ≡ string_bytes text.old ++ (48 + number % 10) ∷ []) }
{
    let digit = (number % 10) as u8;
    text.push(char::from(b'0' + digit))?;
    Ok(())
}

/// A number without its last digits.
fn without_last_digits(number: u64, count: u8) -> u64
    ensures { result ≡ number / 10 ^ count }
{
    if count > DIGITS_OF_A_POWER {
        return 0;
    }
    number / 10u64.pow(u32::from(count))
}

/// The text of a number of 64 bits shows that number: where it is read at its scale, as a table's file is, it gives the number back.
pub fn texts_show_their_numbers()
    ensures { (number : ℤ) (scale : ℕ) → unsigned_abs number < 2 ^ 64 → ShowsNumber scale (decimal_text number scale) number }
{}
