//! Numbers in LEB128 (WebAssembly Core Specification 1.0, 5.2.2).

ghost use Rattle.std.specs.Prelude.{◌≡◌, ◌<◌, ◌≤◌, ◌+◌, ◌*◌, ◌^◌, IfOk};
ghost use Rattle.qw_octet_grammar.specs.Numbers.{last_octet as last_octet_by, leb, u32 as u32_grammar, s32 as s32_grammar, s64 as s64_grammar};
ghost use Rattle.qw_octet_grammar.specs.Reading.{Gives, read};

use crate::fault::BinaryFault;

/// What the last octet stands for, in a number of which so many bits are left.
fn last_octet(signed: bool, bits: u32, octet: u64) -> Result<u64, BinaryFault>
    requires bits { (1 ≤ bits) × (bits ≤ 64) }
    requires octet { octet < 128 }
    ensures value { result ≡ last_octet_by signed bits octet }
    ensures fits { IfOk result (λ n. n < 2 ^ bits) }
{
    let half = 2u64.pow(bits - 1);
    if !signed {
        // Twice the half may be 2^64, which no u64 is.
        if octet / 2 < half {
            Ok(octet)
        } else {
            Err(BinaryFault::NotModule)
        }
    } else if octet < 64 {
        if octet < half {
            Ok(octet)
        } else {
            Err(BinaryFault::NotModule)
        }
    } else if half < 128 - octet {
        Err(BinaryFault::NotModule)
    } else {
        Ok((half - (128 - octet)) + half)
    }
}

/// A number of so many bits in at most so many octets, and the octets behind it.
#[tactic(auto, unfolding(crate::specs::Numbers::leb, crate::specs::Reading::read))]
fn leb_at(signed: bool, most: u32, bits: u32, octets: &[u8]) -> Result<(u64, &[u8]), BinaryFault>
    requires { (1 ≤ bits) × (bits ≤ 64) × (7 * most ≤ bits + 6) }
    ensures exact { Gives (λ x. (x.0, x.1.now)) result (read (leb signed most bits) octets.now) }
    ensures fits { IfOk result (λ x. x.0 < 2 ^ bits) }
{
    if most == 0 {
        return Err(BinaryFault::NotModule);
    }
    match octets {
        [] => Err(BinaryFault::NotModule),
        [octet, rest @ ..] => {
            let octet = *octet as u64;
            if octet < 128 {
                Ok((last_octet(signed, bits, octet)?, rest))
            } else if most == 1 {
                Err(BinaryFault::NotModule)
            } else {
                let (high, rest) = leb_at(signed, most - 1, bits - 7, rest)?;
                Ok(((octet - 128) + 128 * high, rest))
            }
        }
    }
}

/// An unsigned number of 32 bits, and the octets behind it.
///
/// # Errors
///
/// `NotModule` where no rule allows what stands there.
pub fn u32_at(octets: &[u8]) -> Result<(u32, &[u8]), BinaryFault>
    ensures { Gives (λ x. (x.0, x.1.now)) result (read u32_grammar octets.now) }
{
    let (value, rest) = leb_at(false, 5, 32, octets)?;
    Ok((value as u32, rest))
}

/// A signed number of 32 bits by its unsigned reading, and the octets behind it.
///
/// # Errors
///
/// `NotModule` where no rule allows what stands there.
pub fn s32_at(octets: &[u8]) -> Result<(u32, &[u8]), BinaryFault>
    ensures { Gives (λ x. (x.0, x.1.now)) result (read s32_grammar octets.now) }
{
    let (value, rest) = leb_at(true, 5, 32, octets)?;
    Ok((value as u32, rest))
}

/// A signed number of 64 bits by its unsigned reading, and the octets behind it.
///
/// # Errors
///
/// `NotModule` where no rule allows what stands there.
pub fn s64_at(octets: &[u8]) -> Result<(u64, &[u8]), BinaryFault>
    ensures { Gives (λ x. (x.0, x.1.now)) result (read s64_grammar octets.now) }
{
    leb_at(true, 10, 64, octets)
}
