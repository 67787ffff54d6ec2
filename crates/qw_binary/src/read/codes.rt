//! The codes of instructions that hold no sequence (WebAssembly Core Specification 1.0, 5.4).

ghost use Rattle.std.specs.Prelude.{◌≡◌, slice_get};
ghost use Rattle.qw_binary.specs.Instructions.{load_by, store_by, comparisons, operators, numeric_by, is_float as is_float_by, refused_by, plain_by};

use qw_module::instruction::{
    Binary, Conversion, Division, Instr, Load, Op, Relation, Sign, Store, Unary, ValType,
};
use qw_octet_grammar::fault::{BinaryFault, What};

/// The load of a code (5.4.4).
pub fn load_of(code: u8) -> Option<Load>
    ensures { result ≡ load_by code }
{
    match code {
        0x28 => Some(Load::Full(ValType::I32)),
        0x29 => Some(Load::Full(ValType::I64)),
        0x2C => Some(Load::From8(ValType::I32, Sign::Signed)),
        0x2D => Some(Load::From8(ValType::I32, Sign::Unsigned)),
        0x2E => Some(Load::From16(ValType::I32, Sign::Signed)),
        0x2F => Some(Load::From16(ValType::I32, Sign::Unsigned)),
        0x30 => Some(Load::From8(ValType::I64, Sign::Signed)),
        0x31 => Some(Load::From8(ValType::I64, Sign::Unsigned)),
        0x32 => Some(Load::From16(ValType::I64, Sign::Signed)),
        0x33 => Some(Load::From16(ValType::I64, Sign::Unsigned)),
        0x34 => Some(Load::I64From32(Sign::Signed)),
        0x35 => Some(Load::I64From32(Sign::Unsigned)),
        _ => None,
    }
}

/// The store of a code (5.4.4).
pub fn store_of(code: u8) -> Option<Store>
    ensures { result ≡ store_by code }
{
    match code {
        0x36 => Some(Store::Full(ValType::I32)),
        0x37 => Some(Store::Full(ValType::I64)),
        0x3A => Some(Store::To8(ValType::I32)),
        0x3B => Some(Store::To16(ValType::I32)),
        0x3C => Some(Store::To8(ValType::I64)),
        0x3D => Some(Store::To16(ValType::I64)),
        0x3E => Some(Store::I64To32),
        _ => None,
    }
}

/// The test or comparison of a type, by its place among their codes (5.4.5).
fn comparison(ty: ValType, place: u8) -> Option<Op>
    ensures { result ≡ slice_get (comparisons ty) place }
{
    match place {
        0 => Some(Op::Eqz(ty)),
        1 => Some(Op::Relation(ty, Relation::Eq)),
        2 => Some(Op::Relation(ty, Relation::Ne)),
        3 => Some(Op::Relation(ty, Relation::Lt(Sign::Signed))),
        4 => Some(Op::Relation(ty, Relation::Lt(Sign::Unsigned))),
        5 => Some(Op::Relation(ty, Relation::Gt(Sign::Signed))),
        6 => Some(Op::Relation(ty, Relation::Gt(Sign::Unsigned))),
        7 => Some(Op::Relation(ty, Relation::Le(Sign::Signed))),
        8 => Some(Op::Relation(ty, Relation::Le(Sign::Unsigned))),
        9 => Some(Op::Relation(ty, Relation::Ge(Sign::Signed))),
        10 => Some(Op::Relation(ty, Relation::Ge(Sign::Unsigned))),
        _ => None,
    }
}

/// Another operator of a type, by its place among their codes (5.4.5).
fn operator(ty: ValType, place: u8) -> Option<Op>
    ensures { result ≡ slice_get (operators ty) place }
{
    match place {
        0 => Some(Op::Unary(ty, Unary::Clz)),
        1 => Some(Op::Unary(ty, Unary::Ctz)),
        2 => Some(Op::Unary(ty, Unary::Popcnt)),
        3 => Some(Op::Binary(ty, Binary::Add)),
        4 => Some(Op::Binary(ty, Binary::Sub)),
        5 => Some(Op::Binary(ty, Binary::Mul)),
        6 => Some(Op::Division(ty, Division::Div(Sign::Signed))),
        7 => Some(Op::Division(ty, Division::Div(Sign::Unsigned))),
        8 => Some(Op::Division(ty, Division::Rem(Sign::Signed))),
        9 => Some(Op::Division(ty, Division::Rem(Sign::Unsigned))),
        10 => Some(Op::Binary(ty, Binary::And)),
        11 => Some(Op::Binary(ty, Binary::Or)),
        12 => Some(Op::Binary(ty, Binary::Xor)),
        13 => Some(Op::Binary(ty, Binary::Shl)),
        14 => Some(Op::Binary(ty, Binary::Shr(Sign::Signed))),
        15 => Some(Op::Binary(ty, Binary::Shr(Sign::Unsigned))),
        16 => Some(Op::Binary(ty, Binary::Rotl)),
        17 => Some(Op::Binary(ty, Binary::Rotr)),
        _ => None,
    }
}

/// The numeric instruction of a code, which has no immediates (5.4.5).
fn numeric_of(code: u8) -> Option<Op>
    ensures { result ≡ numeric_by code }
{
    if code < 0x45 {
        None
    } else if code < 0x50 {
        comparison(ValType::I32, code - 0x45)
    } else if code < 0x5B {
        comparison(ValType::I64, code - 0x50)
    } else if code < 0x67 {
        None
    } else if code < 0x79 {
        operator(ValType::I32, code - 0x67)
    } else if code < 0x8B {
        operator(ValType::I64, code - 0x79)
    } else {
        match code {
            0xA7 => Some(Op::Convert(Conversion::Wrap)),
            0xAC => Some(Op::Convert(Conversion::Extend(Sign::Signed))),
            0xAD => Some(Op::Convert(Conversion::Extend(Sign::Unsigned))),
            _ => None,
        }
    }
}

/// Whether a code is that of an instruction on floating point numbers.
fn is_float(code: u8) -> bool
    ensures { result ≡ is_float_by code }
{
    matches!(
        code,
        0x2A..=0x2B | 0x38..=0x39 | 0x43..=0x44 | 0x5B..=0x66 | 0x8B..=0xA6 | 0xA8..=0xAB | 0xAE..=0xBF
    )
}

/// Why a code is none of the profile's.
fn refusal(code: u8) -> BinaryFault
    ensures { result ≡ refused_by code }
{
    if code == 0x11 {
        BinaryFault::OutOfProfile {
            what: What::CallIndirect,
        }
    } else if is_float(code) {
        BinaryFault::OutOfProfile { what: What::Float }
    } else {
        BinaryFault::NotModule
    }
}

/// The instruction of a code without immediates.
pub fn plain_of(code: u8) -> Result<Instr, BinaryFault>
    ensures { result ≡ plain_by code }
{
    match code {
        0x00 => Ok(Instr::Unreachable),
        0x01 => Ok(Instr::Op(Op::Nop)),
        0x0F => Ok(Instr::Return),
        0x1A => Ok(Instr::Op(Op::Drop)),
        0x1B => Ok(Instr::Op(Op::Select)),
        _ => match numeric_of(code) {
            Some(op) => Ok(Instr::Op(op)),
            None => Err(refusal(code)),
        },
    }
}
