//! The codes of instructions (WebAssembly Core Specification 1.0, 5.4).

ghost use Rattle.std.specs.Prelude.{◌≡◌, Ok};
ghost use Rattle.qw_module.specs.declared.instruction.Op.TheVariants as o;
ghost use Rattle.qw_module.specs.declared.instruction.Instr.TheVariants as i;
ghost use Rattle.qw_binary.specs.Types.{val_type_by, block_type_by};
ghost use Rattle.qw_binary.specs.Inner.Codes.{IsLoad, IsStore, IsPlain};

use qw_module::instruction::{
    Binary, BlockType, Conversion, Division, Load, Relation, Sign, Store, Unary, ValType,
};

/// The code of a value type (5.3.1).
pub fn val_type_code(ty: ValType) -> u8
    ensures { val_type_by result ≡ Ok ty }
{
    match ty {
        ValType::I32 => 0x7F,
        ValType::I64 => 0x7E,
    }
}

/// The code of a type of blocks (5.3.2).
pub fn block_type_code(ty: BlockType) -> u8
    ensures { block_type_by result ≡ Ok ty }
{
    match ty {
        None => 0x40,
        Some(ValType::I32) => 0x7F,
        Some(ValType::I64) => 0x7E,
    }
}

/// The code of a load (5.4.4).
pub fn load_code(load: Load) -> u8
    ensures { IsLoad result load }
{
    match load {
        Load::Full(ValType::I32) => 0x28,
        Load::Full(ValType::I64) => 0x29,
        Load::From8(ValType::I32, Sign::Signed) => 0x2C,
        Load::From8(ValType::I32, Sign::Unsigned) => 0x2D,
        Load::From16(ValType::I32, Sign::Signed) => 0x2E,
        Load::From16(ValType::I32, Sign::Unsigned) => 0x2F,
        Load::From8(ValType::I64, Sign::Signed) => 0x30,
        Load::From8(ValType::I64, Sign::Unsigned) => 0x31,
        Load::From16(ValType::I64, Sign::Signed) => 0x32,
        Load::From16(ValType::I64, Sign::Unsigned) => 0x33,
        Load::I64From32(Sign::Signed) => 0x34,
        Load::I64From32(Sign::Unsigned) => 0x35,
    }
}

/// The code of a store (5.4.4).
pub fn store_code(store: Store) -> u8
    ensures { IsStore result store }
{
    match store {
        Store::Full(ValType::I32) => 0x36,
        Store::Full(ValType::I64) => 0x37,
        Store::To8(ValType::I32) => 0x3A,
        Store::To16(ValType::I32) => 0x3B,
        Store::To8(ValType::I64) => 0x3C,
        Store::To16(ValType::I64) => 0x3D,
        Store::I64To32 => 0x3E,
    }
}

/// The code of a test for zero (5.4.5).
pub fn eqz_code(ty: ValType) -> u8
    ensures { IsPlain result (i.Op (o.Eqz ty)) }
{
    match ty {
        ValType::I32 => 0x45,
        ValType::I64 => 0x50,
    }
}

/// The code of a comparison (5.4.5).
pub fn relation_code(ty: ValType, relation: Relation) -> u8
    ensures { IsPlain result (i.Op (o.Relation ty relation)) }
{
    match (ty, relation) {
        (ValType::I32, Relation::Eq) => 0x46,
        (ValType::I32, Relation::Ne) => 0x47,
        (ValType::I32, Relation::Lt(Sign::Signed)) => 0x48,
        (ValType::I32, Relation::Lt(Sign::Unsigned)) => 0x49,
        (ValType::I32, Relation::Gt(Sign::Signed)) => 0x4A,
        (ValType::I32, Relation::Gt(Sign::Unsigned)) => 0x4B,
        (ValType::I32, Relation::Le(Sign::Signed)) => 0x4C,
        (ValType::I32, Relation::Le(Sign::Unsigned)) => 0x4D,
        (ValType::I32, Relation::Ge(Sign::Signed)) => 0x4E,
        (ValType::I32, Relation::Ge(Sign::Unsigned)) => 0x4F,
        (ValType::I64, Relation::Eq) => 0x51,
        (ValType::I64, Relation::Ne) => 0x52,
        (ValType::I64, Relation::Lt(Sign::Signed)) => 0x53,
        (ValType::I64, Relation::Lt(Sign::Unsigned)) => 0x54,
        (ValType::I64, Relation::Gt(Sign::Signed)) => 0x55,
        (ValType::I64, Relation::Gt(Sign::Unsigned)) => 0x56,
        (ValType::I64, Relation::Le(Sign::Signed)) => 0x57,
        (ValType::I64, Relation::Le(Sign::Unsigned)) => 0x58,
        (ValType::I64, Relation::Ge(Sign::Signed)) => 0x59,
        (ValType::I64, Relation::Ge(Sign::Unsigned)) => 0x5A,
    }
}

/// The code of an operator that counts bits (5.4.5).
pub fn unary_code(ty: ValType, unary: Unary) -> u8
    ensures { IsPlain result (i.Op (o.Unary ty unary)) }
{
    match (ty, unary) {
        (ValType::I32, Unary::Clz) => 0x67,
        (ValType::I32, Unary::Ctz) => 0x68,
        (ValType::I32, Unary::Popcnt) => 0x69,
        (ValType::I64, Unary::Clz) => 0x79,
        (ValType::I64, Unary::Ctz) => 0x7A,
        (ValType::I64, Unary::Popcnt) => 0x7B,
    }
}

/// The code of an operator on two operands whose result there always is (5.4.5).
pub fn binary_code(ty: ValType, binary: Binary) -> u8
    ensures { IsPlain result (i.Op (o.Binary ty binary)) }
{
    match (ty, binary) {
        (ValType::I32, Binary::Add) => 0x6A,
        (ValType::I32, Binary::Sub) => 0x6B,
        (ValType::I32, Binary::Mul) => 0x6C,
        (ValType::I32, Binary::And) => 0x71,
        (ValType::I32, Binary::Or) => 0x72,
        (ValType::I32, Binary::Xor) => 0x73,
        (ValType::I32, Binary::Shl) => 0x74,
        (ValType::I32, Binary::Shr(Sign::Signed)) => 0x75,
        (ValType::I32, Binary::Shr(Sign::Unsigned)) => 0x76,
        (ValType::I32, Binary::Rotl) => 0x77,
        (ValType::I32, Binary::Rotr) => 0x78,
        (ValType::I64, Binary::Add) => 0x7C,
        (ValType::I64, Binary::Sub) => 0x7D,
        (ValType::I64, Binary::Mul) => 0x7E,
        (ValType::I64, Binary::And) => 0x83,
        (ValType::I64, Binary::Or) => 0x84,
        (ValType::I64, Binary::Xor) => 0x85,
        (ValType::I64, Binary::Shl) => 0x86,
        (ValType::I64, Binary::Shr(Sign::Signed)) => 0x87,
        (ValType::I64, Binary::Shr(Sign::Unsigned)) => 0x88,
        (ValType::I64, Binary::Rotl) => 0x89,
        (ValType::I64, Binary::Rotr) => 0x8A,
    }
}

/// The code of a division (5.4.5).
pub fn division_code(ty: ValType, division: Division) -> u8
    ensures { IsPlain result (i.Op (o.Division ty division)) }
{
    match (ty, division) {
        (ValType::I32, Division::Div(Sign::Signed)) => 0x6D,
        (ValType::I32, Division::Div(Sign::Unsigned)) => 0x6E,
        (ValType::I32, Division::Rem(Sign::Signed)) => 0x6F,
        (ValType::I32, Division::Rem(Sign::Unsigned)) => 0x70,
        (ValType::I64, Division::Div(Sign::Signed)) => 0x7F,
        (ValType::I64, Division::Div(Sign::Unsigned)) => 0x80,
        (ValType::I64, Division::Rem(Sign::Signed)) => 0x81,
        (ValType::I64, Division::Rem(Sign::Unsigned)) => 0x82,
    }
}

/// The code of a conversion (5.4.5).
pub fn conversion_code(conversion: Conversion) -> u8
    ensures { IsPlain result (i.Op (o.Convert conversion)) }
{
    match conversion {
        Conversion::Wrap => 0xA7,
        Conversion::Extend(Sign::Signed) => 0xAC,
        Conversion::Extend(Sign::Unsigned) => 0xAD,
    }
}
