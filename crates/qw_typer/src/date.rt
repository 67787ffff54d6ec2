//! Dates with intervals of days (ISO/IEC 9075:1992, 5.3 "date literal" and "interval literal", 6.14).

ghost use Rattle.std.specs.Prelude.{◌≡◌, ◌≤◌, ◌<◌, ◌^◌, ℤ, pos, ◌≤ℤ◌, ◌<ℤ◌, IfOk, IfSome, MatchOption, map, option_map};
ghost use Rattle.std.specs.Option.{option_and_then};
ghost use Rattle.qw_types.specs.Calendar.{packed};
ghost use Rattle.qw_ast.specs.SyntaxTree.{days_of};
ghost use Rattle.qw_scalar.specs.Expression.{date};
ghost use Rattle.qw_typer.specs.Days.{moved};
ghost use Rattle.qw_typer.specs.Inner.Literals.{IsUnpacked, day_of_date, signed_days};
ghost use Rattle.qw_ast.specs.Quoted.{string_value};
ghost use Rattle.qw_typer.specs.Literal.{after_intervals, date_of, day_shown, interval_days};

use crate::name::value_octets;
use crate::number::value_of;
use jiff::ToSpan;
use jiff::civil::Date;
use qw_ast::script::{Interval, Sign};
use qw_types::NoMemory;
use qw_types::date_text::read_date;
use std::alloc::Global;

/// The most digits of an interval.
const MAX_DIGITS: usize = 7;

/// More days than there are from the first day of the calendar to the last.
const MANY_DAYS: u32 = 4_000_000;

/// The date that a date literal and its intervals are, as year * 10000 + month * 100 + day, if they are one.
pub(crate) fn date_of(
    alloc: Global,
    string: &[u8],
    intervals: &[Interval<'_>],
) -> Result<Option<i32>, NoMemory>
    ensures { IfOk result (λ found. option_map (λ d. date d) found ≡ date_of string.now (map days_of intervals.now)) }
{
    let Some(first) = day_written(alloc, string)? else {
        return Ok(None);
    };
    match after_intervals(alloc, first, intervals)? {
        Some(day) => Ok(Some(packed(day))),
        None => Ok(None),
    }
}

/// A date as one number.
fn packed(day: Date) -> i32
    requires { pos 1 ≤ℤ day.year }
    ensures { date result ≡ Rattle.qw_typer.specs.Literal.date_at (day_of_date day) }
{
    let month = day.month().unsigned_abs();
    number_of(day.year().unsigned_abs(), month, day.day().unsigned_abs())
}

/// A year, a month and a day as one number.
fn number_of(year: u16, month: u8, day: u8) -> i32
    requires { (year < 10 ^ 4) × (month < 10 ^ 2) × (day < 10 ^ 2) }
    ensures { result ≡ pos (packed year month day) }
{
    (u32::from(year) * 10_000 + u32::from(month) * 100 + u32::from(day)) as i32
}

/// The day that a character string shows, if it shows one.
fn day_written(alloc: Global, string: &[u8]) -> Result<Option<Date>, NoMemory>
    ensures day { IfOk result (λ found. option_map day_of_date found ≡ day_shown (string_value string.now)) }
    ensures year { IfOk result (λ found. IfSome found (λ d. pos 1 ≤ℤ d.year)) }
{
    let text = value_octets(alloc, string)?;
    Ok(day_shown(text.as_slice()))
}

/// The day that a text shows, if it is `YYYY-MM-DD` and the calendar has the day.
fn day_shown(text: &[u8]) -> Option<Date>
    ensures day { option_map day_of_date result ≡ day_shown text.now }
    ensures year { IfSome result (λ d. pos 1 ≤ℤ d.year) }
{
    if text.len() != 10 {
        return None;
    }
    match read_date(text) {
        Ok(number) => unpacked(number),
        Err(_) => None,
    }
}

/// The day of a number year * 10000 + month * 100 + day.
fn unpacked(number: i32) -> Option<Date>
    requires first { pos 10000 ≤ℤ number }
    requires last { number ≤ℤ pos 99999999 }
    ensures day { IsUnpacked number result }
    ensures year { IfSome result (λ d. pos 1 ≤ℤ d.year) }
{
    let number = number.unsigned_abs();
    let day = number % 100;
    let month = number / 100 % 100;
    let year = number / 10_000;
    Date::new(year as i16, month as i8, day as i8).ok()
}

/// The day after each interval in turn, if each is a day of the calendar.
fn after_intervals(
    alloc: Global,
    first: Date,
    intervals: &[Interval<'_>],
) -> Result<Option<Date>, NoMemory>
    requires { pos 1 ≤ℤ first.year }
    ensures day { IfOk result (λ found. option_map day_of_date found ≡ after_intervals (map days_of intervals.now) (day_of_date first)) }
    ensures year { IfOk result (λ found. IfSome found (λ d. pos 1 ≤ℤ d.year)) }
{
    let mut day = first;
    let mut rest = intervals;
    while let [interval, behind @ ..] = rest {
        let Some(next) = after_one(alloc, day, interval)? else {
            return Ok(None);
        };
        day = next;
        rest = behind;
    }
    Ok(Some(day))
}

/// The day after an interval, if it is a day of the calendar.
fn after_one(alloc: Global, day: Date, interval: &Interval<'_>) -> Result<Option<Date>, NoMemory>
    requires { pos 1 ≤ℤ day.year }
    ensures day { IfOk result (λ found. option_map day_of_date found ≡ option_and_then (λ n. moved interval.now.sign n (day_of_date day)) (interval_days (string_value interval.now.days.now))) }
    ensures year { IfOk result (λ found. IfSome found (λ d. pos 1 ≤ℤ d.year)) }
{
    let text = value_octets(alloc, interval.days)?;
    Ok(after(day, interval.sign, text.as_slice()))
}

/// The day after an interval, by its text.
fn after(day: Date, sign: Sign, text: &[u8]) -> Option<Date>
    requires { pos 1 ≤ℤ day.year }
    ensures day { option_map day_of_date result ≡ option_and_then (λ n. moved sign n (day_of_date day)) (interval_days text.now) }
    ensures year { IfSome result (λ d. pos 1 ≤ℤ d.year) }
{
    match interval_days(text) {
        Some(count) => moved(day, sign, count),
        None => None,
    }
}

/// The days of an interval, by its text.
fn interval_days(text: &[u8]) -> Option<u32>
    ensures { result ≡ interval_days text.now }
{
    if text.len() > MAX_DIGITS {
        return None;
    }
    match value_of(text) {
        Some(days) => Some(days.unsigned_abs() as u32),
        None => None,
    }
}

/// The day that is so many days later or earlier.
fn moved(day: Date, sign: Sign, count: u32) -> Option<Date>
    requires { pos 1 ≤ℤ day.year }
    ensures day { option_map day_of_date result ≡ moved sign count (day_of_date day) }
    ensures year { IfSome result (λ d. pos 1 ≤ℤ d.year) }
{
    if count > MANY_DAYS {
        return None;
    }
    let days = signed_days(sign, count);
    match day.checked_add(days.days()) {
        Ok(moved) => of_our_years(moved),
        Err(_) => None,
    }
}

/// A date of the years from 1 on.
fn of_our_years(date: Date) -> Option<Date>
    ensures date { MatchOption result (date.year <ℤ pos 1) (λ d. (d ≡ date) × (pos 1 ≤ℤ date.year)) }
    ensures year { IfSome result (λ d. pos 1 ≤ℤ d.year) }
{
    if date.year() >= 1 { Some(date) } else { None }
}

/// Days forward or back.
fn signed_days(sign: Sign, count: u32) -> i64
    ensures { result ≡ signed_days sign count }
{
    match sign {
        Sign::Plus => i64::from(count),
        Sign::Minus => -i64::from(count),
    }
}
