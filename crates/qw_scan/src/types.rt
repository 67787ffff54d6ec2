//! The types of functions, read again where the module's octets have them.

ghost use Rattle.std.specs.Prelude.{◌≡◌, ◌↔◌, ℕ, List, map, drop, Ok, All, IsTrue, IfSome, slice_get};
ghost use Rattle.qw_valid.specs.Refusals.{Finds};
ghost use Rattle.qw_scan.specs.Inner.TypesAt.{type_by, signature_at, IsTypeAt};
ghost use Rattle.qw_octet_grammar.specs.Vectors.{vector};
ghost use Rattle.qw_octet_grammar.specs.Reading.{read};
ghost use Rattle.qw_module.specs.declared.instruction.ValType.{ValType};
ghost use Rattle.qw_module.specs.Typing.{Signature};
ghost use Rattle.qw_binary.specs.Types.{val_type, func_type};
ghost use Rattle.qw_scan.specs.Inner.Signatures.{signature_of};
ghost use Rattle.qw_scan.specs.Inner.Parts.{HasOneResult};

use qw_module::instruction::ValType;
use qw_octet_grammar::numbers::u32_at;
use qw_valid::operands::Refusal;
use std::marker::Model;

/// The value type of an octet that is read as one.
pub fn type_of(octet: u8) -> ValType
    ensures { result ≡ type_by octet }
{
    if octet == 0x7F {
        ValType::I32
    } else {
        ValType::I64
    }
}

/// The type of a function, by the octets of its parameters and results.
#[derive(Clone, Copy)]
pub struct TypeOctets<'a> {
    pub params: &'a [u8],
    pub results: &'a [u8],
}

/// The types of a module's functions.
#[derive(Drop)]
pub struct Types<'a> {
    /// The octets of the module.
    octets: &'a [u8],
    /// Where in them each type begins.
    offsets: &'a [u32],
}

impl<'a> Model for Types<'a> {
    ghost use Rattle.std.specs.Prelude.{List, map, All};
    ghost use Rattle.qw_module.specs.Typing.{Signature};
    ghost use Rattle.qw_scan.specs.Inner.TypesAt.{signature_at, IsTypeAt};

    ghost Value = { List Signature };

    ghost view = { λ t. map (signature_at t.octets.now) t.offsets.now };

    ghost invariant = { λ t. All (IsTypeAt t.octets.now) t.offsets.now };
}

/// The number of an index.
pub(crate) fn number_of(numbers: &[u32], index: u32) -> Option<u32>
    ensures { result ≡ slice_get numbers.now index }
{
    numbers.get(index as usize).copied()
}

/// What follows so many octets, or nothing where there are fewer.
pub(crate) fn from(octets: &[u8], offset: usize) -> &[u8]
    ensures { result.now ≡ drop offset octets.now }
{
    octets.split_at(offset.min(octets.len())).1
}

/// The octets of the types that a vector of them is, and what follows. `None` is want of memory.
fn types_at(octets: &[u8]) -> Option<(&[u8], &[u8])>
    ensures { (types : List ValType) (rest : List ℕ) → read (vector val_type) octets.now ≡ Ok (types, rest) → IfSome result (λ x. (map type_by x.0.now ≡ types) × (x.1.now ≡ rest)) }
{
    let Ok((count, rest)) = u32_at(octets) else {
        return None;
    };
    let count = count as usize;
    if rest.len() < count {
        return None;
    }
    Some(rest.split_at(count))
}

/// The type of a function that octets begin with. `None` is want of memory.
fn type_at(octets: &[u8]) -> Option<TypeOctets<'_>>
    ensures { (s : Signature) (rest : List ℕ) → read func_type octets.now ≡ Ok (s, rest) → IfSome result (λ ty. signature_of ty ≡ s) }
{
    let [_, vectors @ ..] = octets else {
        return None;
    };
    let (params, rest) = types_at(vectors)?;
    let (results, _) = types_at(rest)?;
    Some(TypeOctets { params, results })
}

impl<'a> Types<'a> {
    /// The types that begin at these offsets of a module's octets.
    pub(crate) fn new(octets: &'a [u8], offsets: &'a [u32]) -> Types<'a>
        requires { All (IsTypeAt octets.now) offsets.now }
        ensures { result ≡ map (signature_at octets.now) offsets.now }
    {
        Types { octets, offsets }
    }

    /// The type of an index.
    pub fn get(&self, index: u32) -> Result<TypeOctets<'a>, Refusal>
        ensures { Finds result (slice_get self.now index) signature_of }
    {
        let offset = number_of(self.offsets, index).ok_or(Refusal::IllTyped)?;
        let Some(ty) = type_at(from(self.octets, offset as usize)) else {
            return Err(Refusal::NoMemory);
        };
        Ok(ty)
    }

    /// Whether each has at most one result. `None` is want of memory.
    pub(crate) fn have_one_result(&self) -> Option<bool>
        ensures { IfSome result (λ holds. IsTrue holds ↔ All HasOneResult self.now) }
    {
        for offset in self.offsets {
            let ty = type_at(from(self.octets, *offset as usize))?;
            if ty.results.len() > 1 {
                return Some(false);
            }
        }
        Some(true)
    }
}
