//! Writing numbers, vectors and names, each in the least number of octets (WebAssembly Core Specification 1.0, 5.1.3, 5.2).

ghost use Rattle.std.specs.Prelude.{◌≡◌, ◌<◌, ◌≤◌, ◌^◌, ◌*◌, ◌-◌, ◌+◌, Ok, OnOk, MatchOption, length, false, true};
ghost use Rattle.qw_octet_grammar.specs.Numbers.{last_octet, leb, u32 as u32_grammar, s32 as s32_grammar, s64 as s64_grammar};
ghost use Rattle.qw_octet_grammar.specs.Vectors.{vector, name};
ghost use Rattle.qw_octet_grammar.specs.Writing.{Puts};

use std::alloc::{AllocError, AllocFailed};
use thiserror::Error;

/// Why something was not written. Writers that refuse nothing answer `AllocError` alone.
#[derive(Clone, Copy, Debug, PartialEq, Eq, Error)]
pub enum WriteFault {
    #[error("want of memory")]
    NoMemory,
    /// No octets spell it.
    #[error("not spelled")]
    NotSpelled,
}

impl From<AllocError> for WriteFault {
    ghost use Rattle.qw_octet_grammar.specs.declared.write.WriteFault.TheVariants.{NoMemory};

    ghost from_gives = { λ _ e. e ≡ NoMemory };

    fn from(_e: AllocError) -> WriteFault {
        WriteFault::NoMemory
    }
}

impl<T: Drop> From<AllocFailed<T>> for WriteFault {
    ghost use Rattle.qw_octet_grammar.specs.declared.write.WriteFault.TheVariants.{NoMemory};

    ghost from_gives = { λ _ e. e ≡ NoMemory };

    fn from(_e: AllocFailed<T>) -> WriteFault {
        WriteFault::NoMemory
    }
}

/// The octet that spells a number of which so many bits are left, where one does.
#[tactic(auto, using(crate::proofs::WriteFacts::many_bits))]
fn only_octet(signed: bool, bits: u32, value: u64) -> Option<u8>
    requires bits { (1 ≤ bits) × (bits ≤ 64) }
    requires value { value < 2 ^ bits }
    ensures { MatchOption result (7 < bits) (λ octet. (octet < 128) × (last_octet signed bits octet ≡ Ok value)) }
{
    if !signed {
        return if value < 128 { Some(value as u8) } else { None };
    }
    let half = 2u64.pow(bits - 1);
    if value < half {
        return if value < 64 { Some(value as u8) } else { None };
    }
    // A negative number is the greatest reading less this.
    let below = ((half - 1) + half) - value;
    if below < 64 {
        Some(127 - below as u8)
    } else {
        None
    }
}

/// Writes a number of so many bits.
fn put_leb(
    signed: bool,
    most: u32,
    bits: u32,
    value: u64,
    out: &mut Vec<u8>,
) -> Result<(), AllocError>
    requires width { (1 ≤ bits) × (bits ≤ 64) × (bits ≤ 7 * most) }
    requires value { value < 2 ^ bits }
    ensures { OnOk result (Puts (leb signed most bits) value out.old.items out.new.items) }
{
    match only_octet(signed, bits, value) {
        Some(octet) => {
            out.push(octet)?;
            Ok(())
        }
        None => {
            out.push((value % 128) as u8 + 128)?;
            put_leb(signed, most - 1, bits - 7, value / 128, out)
        }
    }
}

/// Writes an unsigned number of 32 bits.
pub fn put_u32(value: u32, out: &mut Vec<u8>) -> Result<(), AllocError>
    ensures { OnOk result (Puts u32_grammar value out.old.items out.new.items) }
{
    put_leb(false, 5, 32, value as u64, out)
}

/// Writes a signed number of 32 bits, given by its unsigned reading.
pub fn put_s32(value: u32, out: &mut Vec<u8>) -> Result<(), AllocError>
    ensures { OnOk result (Puts s32_grammar value out.old.items out.new.items) }
{
    put_leb(true, 5, 32, value as u64, out)
}

/// Writes a signed number of 64 bits, given by its unsigned reading.
pub fn put_s64(value: u64, out: &mut Vec<u8>) -> Result<(), AllocError>
    ensures { OnOk result (Puts s64_grammar value out.old.items out.new.items) }
{
    put_leb(true, 10, 64, value, out)
}

/// Writes a size or a count. From 2^32 on none is spelled, and what it tells of would take 4 GiB at least: that counts as want of
/// memory.
pub fn put_size(size: usize, out: &mut Vec<u8>) -> Result<(), AllocError>
    ensures { OnOk result (Puts u32_grammar size out.old.items out.new.items) }
{
    match u32::try_from(size) {
        Ok(size) => put_u32(size, out),
        Err(_) => Err(AllocError),
    }
}

/// Writes a vector of unsigned numbers of 32 bits.
#[tactic(auto, using(crate::proofs::WriteLaws::vector_put))]
pub fn put_number_vector(numbers: &[u32], out: &mut Vec<u8>) -> Result<(), AllocError>
    ensures { OnOk result (Puts (vector u32_grammar) numbers.now out.old.items out.new.items) }
{
    put_size(numbers.len(), out)?;
    for number in numbers {
        put_u32(*number, out)?;
    }
    Ok(())
}

/// Writes a name.
pub fn put_name(text: &str, out: &mut Vec<u8>) -> Result<(), AllocError>
    ensures { OnOk result (Puts name text.now out.old.items out.new.items) }
{
    put_size(text.len(), out)?;
    out.extend_from_slice(text.as_bytes())?;
    Ok(())
}
