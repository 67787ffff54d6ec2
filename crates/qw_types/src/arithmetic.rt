//! Exact arithmetic on whole numbers with scales (ISO/IEC 9075:1992, 6.12). A value `v` of scale `s` stands for
//! `v / 10^s`, and has at most 18 digits. Nothing here takes memory.

ghost use Rattle.std.specs.Prelude.{◌≡◌, ◌≢◌, ◌+◌, ◌-◌, ◌≤◌, ◌^◌, ◌*ℤ◌, pos, IfOk, IsTrue};
ghost use Rattle.qw_types.specs.Arithmetic.{bring, checked, difference_of, fits, order_of, product_of, quotient_of, sum_of};

use crate::code::Code;
use std::cmp::Ordering;

/// One more than the greatest value that fits.
const FIRST_TOO_LARGE: u128 = 1_000_000_000_000_000_000;

/// The sum, of the larger scale.
///
/// # Errors
///
/// `OutOfRange` where an operand at that scale or the sum doesn't fit.
pub fn add(a: i64, sa: u8, b: i64, sb: u8) -> Result<i64, Code>
    requires fits { IsTrue (fits a) × IsTrue (fits b) }
    requires scales { (sa ≤ 18) × (sb ≤ 18) }
    ensures value { result ≡ sum_of a sa b sb }
    ensures fits { IfOk result (λ v. IsTrue (fits v)) }
{
    let scale = sa.max(sb);
    let x = brought(a, sa, scale)?;
    let y = brought(b, sb, scale)?;
    within(x + y)
}

/// The difference, of the larger scale.
///
/// # Errors
///
/// `OutOfRange` where an operand at that scale or the difference doesn't fit.
pub fn sub(a: i64, sa: u8, b: i64, sb: u8) -> Result<i64, Code>
    requires fits { IsTrue (fits a) × IsTrue (fits b) }
    requires scales { (sa ≤ 18) × (sb ≤ 18) }
    ensures value { result ≡ difference_of a sa b sb }
    ensures fits { IfOk result (λ v. IsTrue (fits v)) }
{
    let scale = sa.max(sb);
    let x = brought(a, sa, scale)?;
    let y = brought(b, sb, scale)?;
    within(x - y)
}

/// The product, whose scale is the sum of the scales.
///
/// # Errors
///
/// `OutOfRange` where it doesn't fit.
pub fn mul(a: i64, sa: u8, b: i64, sb: u8) -> Result<i64, Code>
    requires fits { IsTrue (fits a) × IsTrue (fits b) }
    requires scales { sa + sb ≤ 18 }
    ensures value { result ≡ product_of a b }
    ensures fits { IfOk result (λ v. IsTrue (fits v)) }
{
    within(i128::from(a) * i128::from(b))
}

/// The quotient, of the dividend's scale, truncated toward zero.
///
/// # Errors
///
/// `DivZero` where the divisor is 0, else `OutOfRange` where the dividend at the sum of the scales doesn't fit.
pub fn div(a: i64, sa: u8, b: i64, sb: u8) -> Result<i64, Code>
    requires fits { IsTrue (fits a) × IsTrue (fits b) }
    requires scales { sa + sb ≤ 18 }
    ensures value { result ≡ quotient_of a sa b sb }
    ensures fits { IfOk result (λ v. IsTrue (fits v)) }
{
    if b == 0 {
        return Err(Code::DivZero);
    }
    let x = brought(a, sa, sa + sb)?;
    Ok((x / i128::from(b)) as i64)
}

/// The value of another scale that stands for the same number.
///
/// # Errors
///
/// `OutOfRange` where it doesn't fit.
pub fn bring(v: i64, from: u8, to: u8) -> Result<i64, Code>
    requires fits { IsTrue (fits v) }
    requires scales { (from ≤ to) × (to ≤ 18) }
    ensures value { result ≡ bring v from to }
    ensures fits { IfOk result (λ x. IsTrue (fits x)) }
{
    within(brought(v, from, to)?)
}

/// How two values compare, by their exact values.
pub fn compare(a: i64, sa: u8, b: i64, sb: u8) -> Ordering
    requires fits { IsTrue (fits a) × IsTrue (fits b) }
    requires scales { (sa ≤ 18) × (sb ≤ 18) }
    ensures { result ≡ order_of a sa b sb }
{
    let x = i128::from(a) * ten_to(sb);
    let y = i128::from(b) * ten_to(sa);
    x.cmp(&y)
}

/// A value of one scale at another that is no smaller.
fn brought(v: i64, from: u8, to: u8) -> Result<i128, Code>
    requires fits { IsTrue (fits v) }
    requires up { from ≤ to }
    requires near { to ≤ from + 18 }
    ensures { result ≡ bring v from to }
{
    let brought = i128::from(v) * ten_to(to - from);
    if brought.unsigned_abs() < FIRST_TOO_LARGE {
        Ok(brought)
    } else {
        Err(Code::OutOfRange)
    }
}

/// A result that fits.
fn within(v: i128) -> Result<i64, Code>
    ensures { result ≡ checked v }
{
    if v.unsigned_abs() < FIRST_TOO_LARGE {
        Ok(v as i64)
    } else {
        Err(Code::OutOfRange)
    }
}

/// A power of ten.
fn ten_to(exponent: u8) -> i128
    requires { exponent ≤ 18 }
    ensures { result ≡ pos (10 ^ exponent) }
{
    10i128.pow(u32::from(exponent))
}
