//! Dates as a table file writes them (ISO/IEC 9075:1992, 5.3 "date value"). Nothing here takes memory.

ghost use Rattle.std.specs.Prelude.{◌≡◌, ◌+◌, ◌*◌, ◌<◌, ◌≤◌, ◌^◌, ◌↔◌, true, false, ℤ, pos, length, take, drop, IsTrue, MatchResult, MatchOption};
ghost use Rattle.std.specs.Char.{is_ascii_digit};
ghost use Rattle.std.specs.List.{list_all};
ghost use Rattle.std.specs.Str.Parse.{digits_value};
ghost use Rattle.qw_types.specs.Calendar.{IsDate, packed};
ghost use Rattle.qw_types.specs.DateText.{IsDateForm, ShowsDate, day_of, month_of, year_of};
ghost use Rattle.qw_types.specs.declared.numeral.FieldFault.{FieldFault};

use crate::numeral::{FieldFault, are_spaces, leading_digits, without_spaces};
use jiff::civil::Date;

/// The date that a text stands for, as year * 10000 + month * 100 + day. Spaces round it are passed over.
///
/// # Errors
///
/// `NotDate` where the text isn't `YYYY-MM-DD`, or the calendar has no such day, or the year is 0.
pub fn read_date(bytes: &[u8]) -> Result<i32, FieldFault>
    ensures { MatchResult result (λ number. ShowsDate bytes.now number)
        (λ e. (e ≡ FieldFault.NotDate) × ((number : ℤ) → ShowsDate bytes.now number → ⊥)) }
{
    let text = without_spaces(bytes);
    if text.len() < 10 || !are_spaces(&text[10..]) {
        return Err(FieldFault::NotDate);
    }
    let Some((year, month, day)) = parts_of(&text[..10]) else {
        return Err(FieldFault::NotDate);
    };
    if !is_date(year, month, day) {
        return Err(FieldFault::NotDate);
    }
    Ok(packed(year, month, day))
}

/// A date as one number.
fn packed(year: u16, month: u8, day: u8) -> i32
    requires { (year < 10 ^ 4) × (month < 10 ^ 2) × (day < 10 ^ 2) }
    ensures { result ≡ pos (packed year month day) }
{
    (u32::from(year) * 10_000 + u32::from(month) * 100 + u32::from(day)) as i32
}

/// The year, the month and the day that a text of ten octets shows, if it is `YYYY-MM-DD`.
#[inline(always)]
fn parts_of(text: &[u8]) -> Option<(u16, u8, u8)>
    requires { length text.now ≡ 10 }
    ensures { MatchOption result (IsDateForm text.now → ⊥)
        (λ p. IsDateForm text.now × (p.0 ≡ year_of text.now) × (p.1 ≡ month_of text.now) × (p.2 ≡ day_of text.now)
        × (p.0 < 10 ^ 4) × (p.1 < 10 ^ 2) × (p.2 < 10 ^ 2)) }
{
    if text[4] != b'-' || text[7] != b'-' {
        return None;
    }
    let year = number_of(&text[..4])?;
    let month = number_of(&text[5..7])?;
    let day = number_of(&text[8..])?;
    Some((year, month as u8, day as u8))
}

/// What up to four digits count to, if there are digits alone.
fn number_of(digits: &[u8]) -> Option<u16>
    requires { length digits.now ≤ 4 }
    ensures { MatchOption result (list_all is_ascii_digit digits.now ≡ false)
        (λ n. (list_all is_ascii_digit digits.now ≡ true) × (n ≡ digits_value 10 digits.now) × (n < 10 ^ length digits.now)) }
{
    let leading = leading_digits(digits);
    if leading.count == digits.len() {
        Some(leading.number as u16)
    } else {
        None
    }
}

/// Whether the calendar has this day of the years 1 to 9999.
fn is_date(year: u16, month: u8, day: u8) -> bool
    requires { (year < 10 ^ 4) × (month < 10 ^ 2) × (day < 10 ^ 2) }
    ensures { IsTrue result ↔ IsDate year month day }
{
    if year == 0 {
        return false;
    }
    Date::new(year as i16, month as i8, day as i8).is_ok()
}
