//! Whether globals are valid, by their octets: the expression of each is one constant of its type (WebAssembly Core Specification 1.0, 3.3.7
//! and 3.4.4).

ghost use Rattle.std.specs.Prelude.{◌≡◌, ◌≢◌, ◌<◌, ◌↔◌, ℕ, List, [], ◌∷◌, Ok, Err, All, IfOk, IfSome, IsTrue, MatchOption};
ghost use Rattle.qw_module.specs.Numbers.{values_of, constant, type_of_constant};
ghost use Rattle.qw_octet_grammar.specs.Reading.{read};
ghost use Rattle.qw_octet_grammar.specs.Vectors.{counted, one_more, vector};
ghost use Rattle.qw_module.specs.declared.instruction.Const.{Const as AnyConst};
ghost use Rattle.qw_module.specs.declared.instruction.Op.TheVariants as o;
ghost use Rattle.qw_module.specs.declared.instruction.Instr.TheVariants as i;
ghost use Rattle.qw_module.specs.Validity.{IsInitial};
ghost use Rattle.qw_binary.specs.Instructions.{simple, expression};
ghost use Rattle.qw_binary.specs.Sections.{global};
ghost use Rattle.qw_scan.specs.Inner.Initial.{HasInitial};
ghost use Rattle.qw_scan.specs.Inner.Outlines.{values_at, IsThere};
ghost use Rattle.qw_scan.specs.Inner.Tests.{Tells, TellsAll};

use crate::types::from;
use qw_binary::read::instruction::simple_at;
use qw_binary::read::types::{mutability_at, val_type_at};
use qw_module::instruction::{Const, Instr, Op, ValType};
use qw_octet_grammar::fault::BinaryFault;
use qw_octet_grammar::numbers::u32_at;
use qw_valid::checker::constant_type;
use qw_valid::operands::Refusal;

/// A constant behind its code, and what follows it.
fn constant_at(code: u8, octets: &[u8]) -> Result<(Const, &[u8]), Refusal>
    ensures found { IfOk result (λ x. read (simple code) octets.now ≡ Ok (i.Op (o.Const x.0), x.1.now)) }
    ensures none { result ≡ Err Refusal.IllTyped → (value : AnyConst) (rest : List ℕ) → read (simple code) octets.now ≢ Ok (i.Op (o.Const value), rest) }
{
    match simple_at(code, octets) {
        Ok((Instr::Op(Op::Const(value)), rest)) => Ok((value, rest)),
        Err(BinaryFault::NoMemory) => Err(Refusal::NoMemory),
        _ => Err(Refusal::IllTyped),
    }
}

fn has_type(value: Const, ty: ValType) -> bool
    ensures { IsTrue result ↔ ((type_of_constant value ≡ ty) × (constant value < values_of ty)) }
{
    constant_type(value) == ty
}

/// What follows the end of an expression, where it stands here.
fn behind_end(octets: &[u8]) -> Option<&[u8]>
    ensures { MatchOption result ((rest : List ℕ) → octets.now ≢ 0x0B ∷ rest) (λ after. octets.now ≡ 0x0B ∷ after.now) }
{
    let [code, after @ ..] = octets else {
        return None;
    };
    if *code == 0x0B { Some(after) } else { None }
}

/// What follows an expression that is one constant of a type.
fn behind_constant(ty: ValType, octets: &[u8]) -> Result<&[u8], Refusal>
    ensures { Tells (IsInitial ty) result (read expression octets.now) }
{
    let [code, behind @ ..] = octets else {
        return Err(Refusal::NoMemory);
    };
    let (value, rest) = constant_at(*code, behind)?;
    if has_type(value, ty) {
        behind_end(rest).ok_or(Refusal::IllTyped)
    } else {
        Err(Refusal::IllTyped)
    }
}

/// What follows a global whose first value is one constant of its type.
fn behind_global(octets: &[u8]) -> Result<&[u8], Refusal>
    ensures { Tells HasInitial result (read global octets.now) }
{
    let Ok((ty, rest)) = val_type_at(octets) else {
        return Err(Refusal::NoMemory);
    };
    let Ok((_, rest)) = mutability_at(rest) else {
        return Err(Refusal::NoMemory);
    };
    behind_constant(ty, rest)
}

/// Whether the first value of each of so many globals is one constant of its type. `None` is want of memory.
fn are_globals(count: u32, octets: &[u8]) -> Option<bool>
    ensures { TellsAll HasInitial result (read (counted count (one_more global) []) octets.now) }
{
    let mut rest = octets;
    for _ in 0..count {
        match behind_global(rest) {
            Ok(after) => rest = after,
            Err(Refusal::IllTyped) => return Some(false),
            Err(Refusal::NoMemory) => return None,
        }
    }
    Some(true)
}

/// Whether the first value of each of the globals behind so many of a module's octets is one constant of its type. `None` is want of memory.
pub(crate) fn globals_hold(octets: &[u8], at: Option<usize>) -> Option<bool>
    ensures { IsThere (vector global) octets.now at → IfSome result (λ hold. IsTrue hold ↔ All HasInitial (values_at (vector global) octets.now at)) }
{
    let Some(at) = at else {
        return Some(true);
    };
    let Ok((count, rest)) = u32_at(from(octets, at)) else {
        return None;
    };
    are_globals(count, rest)
}
