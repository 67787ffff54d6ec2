//! What numeric instructions give (WebAssembly Core Specification 1.0, 4.3). A value is its unsigned reading, of 32 or of 64 bits.

ghost use Rattle.std.specs.Prelude.{◌≡◌, ◌*◌, ◌^◌, ◌%◌, ◌<◌, FitsSigned, int_div, int_rem};
ghost use Rattle.std.specs.Int.{IsNonZero, w64};
ghost use Rattle.qw_module.specs.Numbers.{bits_of, values_of, width_of, signed, unsigned, constant, unary, shift_of, binary, division};
ghost use Rattle.qw_module.specs.Numbers.{quotient_if_value, truth, at_most, is_less, relation, extended, converted, converts_from};
ghost use Rattle.qw_module.specs.Numbers.{load_width, loaded_value};
ghost use Rattle.qw_machine.specs.Inner.Numeric.{rotated_left, rotated_right, shifted_right, greatest_of};

use qw_module::instruction::{
    Binary, Const, Conversion, Division, Load, Relation, Sign, Unary, ValType,
};
use qw_module::trap::Trap;

/// How many values an i32 has: its arithmetic is modulo this (4.3.2).
const I32_VALUES: u64 = 1 << 32;

pub(crate) fn value_of(number: Const) -> u64
    ensures { result ≡ constant number }
{
    match number {
        Const::I32(n) => u64::from(n),
        Const::I64(n) => n,
    }
}

/// A number modulo the number of values of a type.
fn wrap(ty: ValType, number: u64) -> u64
    ensures { result ≡ number % values_of ty }
{
    match ty {
        ValType::I32 => number % I32_VALUES,
        ValType::I64 => number,
    }
}

/// The signed reading of a value (4.3.2, `signed`).
fn signed(ty: ValType, value: u64) -> i64
    requires { value < values_of ty }
    ensures reading { result ≡ signed ty value }
    ensures fits { FitsSigned (width_of ty) result }
{
    match ty {
        ValType::I32 => i64::from((value as u32).cast_signed()),
        ValType::I64 => value.cast_signed(),
    }
}

/// The value of a signed reading.
fn unsigned(ty: ValType, reading: i64) -> u64
    requires { FitsSigned (width_of ty) reading }
    ensures { result ≡ unsigned ty reading }
{
    match ty {
        ValType::I32 => u64::from((reading as i32).cast_unsigned()),
        ValType::I64 => reading.cast_unsigned(),
    }
}

#[tactic(auto, using(crate::proofs::Numeric::leading_is))]
fn leading(ty: ValType, value: u64) -> u32
    requires { value < values_of ty }
    ensures { result ≡ unary ty Unary.Clz value }
{
    match ty {
        ValType::I32 => (value as u32).leading_zeros(),
        ValType::I64 => value.leading_zeros(),
    }
}

#[tactic(auto, using(crate::proofs::Numeric::trailing_is))]
fn trailing(ty: ValType, value: u64) -> u32
    requires { value < values_of ty }
    ensures { result ≡ unary ty Unary.Ctz value }
{
    match ty {
        ValType::I32 => (value as u32).trailing_zeros(),
        ValType::I64 => value.trailing_zeros(),
    }
}

#[tactic(auto, using(crate::proofs::Numeric::ones_are))]
fn ones(ty: ValType, value: u64) -> u32
    requires { value < values_of ty }
    ensures { result ≡ unary ty Unary.Popcnt value }
{
    match ty {
        ValType::I32 => (value as u32).count_ones(),
        ValType::I64 => value.count_ones(),
    }
}

/// An operator of one operand (4.3.2).
pub(crate) fn count(ty: ValType, operator: Unary, x: u64) -> u64
    requires { x < values_of ty }
    ensures { result ≡ unary ty operator x }
{
    match operator {
        Unary::Clz => u64::from(leading(ty, x)),
        Unary::Ctz => u64::from(trailing(ty, x)),
        Unary::Popcnt => u64::from(ones(ty, x)),
    }
}

/// By how many bits a shift or a rotation is.
fn shift(ty: ValType, y: u64) -> u32
    ensures shift { result ≡ shift_of ty y }
    ensures few { result < bits_of ty }
    ensures small { result < 64 }
{
    match ty {
        ValType::I32 => (y % 32) as u32,
        ValType::I64 => (y % 64) as u32,
    }
}

#[tactic(auto, using(crate::proofs::Numeric::left_32, crate::proofs::Numeric::left_64))]
fn rotate_left(ty: ValType, x: u64, by: u32) -> u64
    requires value { x < values_of ty }
    requires few { by < bits_of ty }
    ensures { result ≡ rotated_left ty x by }
{
    match ty {
        ValType::I32 => u64::from((x as u32).rotate_left(by)),
        ValType::I64 => x.rotate_left(by),
    }
}

#[tactic(auto, using(crate::proofs::Numeric::right_32, crate::proofs::Numeric::right_64))]
fn rotate_right(ty: ValType, x: u64, by: u32) -> u64
    requires value { x < values_of ty }
    requires few { by < bits_of ty }
    ensures { result ≡ rotated_right ty x by }
{
    match ty {
        ValType::I32 => u64::from((x as u32).rotate_right(by)),
        ValType::I64 => x.rotate_right(by),
    }
}

#[tactic(auto, using(crate::proofs::Numeric::shifted_is, crate::proofs::Numeric::shifted_fits))]
fn shift_right_signed(ty: ValType, x: u64, by: u32) -> u64
    requires value { x < values_of ty }
    requires few { by < 64 }
    ensures { result ≡ shifted_right ty x by }
{
    unsigned(ty, signed(ty, x) >> by)
}

/// An operator of two operands that always has a result (4.3.2).
#[tactic(auto, using(crate::proofs::Numeric::wrapped, crate::proofs::Numeric::wrapped_difference))]
pub(crate) fn apply(ty: ValType, operator: Binary, x: u64, y: u64) -> u64
    requires left { x < values_of ty }
    requires right { y < values_of ty }
    ensures { result ≡ binary ty operator x y }
{
    match operator {
        Binary::Add => wrap(ty, x.wrapping_add(y)),
        Binary::Sub => wrap(ty, x.wrapping_sub(y)),
        Binary::Mul => wrap(ty, x.wrapping_mul(y)),
        Binary::And => x & y,
        Binary::Or => x | y,
        Binary::Xor => x ^ y,
        Binary::Shl => wrap(ty, x << shift(ty, y)),
        Binary::Shr(Sign::Unsigned) => x >> shift(ty, y),
        Binary::Shr(Sign::Signed) => shift_right_signed(ty, x, shift(ty, y)),
        Binary::Rotl => rotate_left(ty, x, shift(ty, y)),
        Binary::Rotr => rotate_right(ty, x, shift(ty, y)),
    }
}

/// The greatest signed reading of a type.
fn greatest(ty: ValType) -> i64
    ensures { result ≡ greatest_of ty }
{
    match ty {
        ValType::I32 => i64::from(i32::MAX),
        ValType::I64 => i64::MAX,
    }
}

/// A quotient of signed readings, unless it is no value of the type.
fn signed_quotient(ty: ValType, x: i64, y: i64) -> Result<u64, Trap>
    requires left { FitsSigned (width_of ty) x }
    requires divisor { IsNonZero w64 y }
    ensures { result ≡ quotient_if_value ty (int_div x y) }
{
    let Some(quotient) = x.checked_div(y) else {
        return Err(Trap::Overflow);
    };
    if quotient > greatest(ty) {
        return Err(Trap::Overflow);
    }
    Ok(unsigned(ty, quotient))
}

#[tactic(auto, using(crate::proofs::Numeric::remainder_fits))]
fn signed_remainder(ty: ValType, x: i64, y: i64) -> u64
    requires left { FitsSigned (width_of ty) x }
    requires divisor { IsNonZero w64 y }
    ensures { result ≡ unsigned ty (int_rem x y) }
{
    unsigned(ty, x.wrapping_rem(y))
}

/// A quotient or a remainder, unless there is none (4.3.2).
pub(crate) fn divide(ty: ValType, operator: Division, x: u64, y: u64) -> Result<u64, Trap>
    requires left { x < values_of ty }
    requires right { y < values_of ty }
    ensures { result ≡ division ty operator x y }
{
    if y == 0 {
        return Err(Trap::DivideByZero);
    }
    match operator {
        Division::Div(Sign::Unsigned) => Ok(x / y),
        Division::Div(Sign::Signed) => signed_quotient(ty, signed(ty, x), signed(ty, y)),
        Division::Rem(Sign::Unsigned) => Ok(x % y),
        Division::Rem(Sign::Signed) => Ok(signed_remainder(ty, signed(ty, x), signed(ty, y))),
    }
}

fn is_less(ty: ValType, sign: Sign, x: u64, y: u64) -> bool
    requires left { x < values_of ty }
    requires right { y < values_of ty }
    ensures { result ≡ is_less ty sign x y }
{
    match sign {
        Sign::Signed => signed(ty, x) < signed(ty, y),
        Sign::Unsigned => x < y,
    }
}

fn is_at_most(ty: ValType, sign: Sign, x: u64, y: u64) -> bool
    requires left { x < values_of ty }
    requires right { y < values_of ty }
    ensures { result ≡ at_most ty sign x y }
{
    match sign {
        Sign::Signed => signed(ty, x) <= signed(ty, y),
        Sign::Unsigned => x <= y,
    }
}

fn holds(ty: ValType, comparison: Relation, x: u64, y: u64) -> bool
    requires left { x < values_of ty }
    requires right { y < values_of ty }
    ensures { truth result ≡ relation ty comparison x y }
{
    match comparison {
        Relation::Eq => x == y,
        Relation::Ne => x != y,
        Relation::Lt(sign) => is_less(ty, sign, x, y),
        Relation::Gt(sign) => is_less(ty, sign, y, x),
        Relation::Le(sign) => is_at_most(ty, sign, x, y),
        Relation::Ge(sign) => is_at_most(ty, sign, y, x),
    }
}

/// A comparison of two operands (4.3.2).
pub(crate) fn compare(ty: ValType, comparison: Relation, x: u64, y: u64) -> u64
    requires left { x < values_of ty }
    requires right { y < values_of ty }
    ensures { result ≡ relation ty comparison x y }
{
    u64::from(holds(ty, comparison, x, y))
}

/// A value of one type made one of another (4.3.4).
pub(crate) fn convert(conversion: Conversion, x: u64) -> u64
    requires { x < values_of (converts_from conversion) }
    ensures { result ≡ converted conversion x }
{
    match conversion {
        Conversion::Wrap => x % I32_VALUES,
        Conversion::Extend(Sign::Signed) => {
            unsigned(ValType::I64, i64::from((x as u32).cast_signed()))
        }
        Conversion::Extend(Sign::Unsigned) => x,
    }
}

/// The value that a load makes of the number of the octets that it reads (4.4.4).
#[tactic(auto, using(crate::proofs::Numeric::octet_fits, crate::proofs::Numeric::pair_fits))]
pub(crate) fn loaded(load: Load, number: u64) -> u64
    requires { number < 2 ^ (8 * load_width load) }
    ensures { result ≡ loaded_value load number }
{
    match load {
        Load::From8(ty, Sign::Signed) => unsigned(ty, i64::from((number as u8).cast_signed())),
        Load::From16(ty, Sign::Signed) => unsigned(ty, i64::from((number as u16).cast_signed())),
        Load::I64From32(Sign::Signed) => {
            unsigned(ValType::I64, i64::from((number as u32).cast_signed()))
        }
        Load::Full(_)
        | Load::From8(_, Sign::Unsigned)
        | Load::From16(_, Sign::Unsigned)
        | Load::I64From32(Sign::Unsigned) => number,
    }
}
