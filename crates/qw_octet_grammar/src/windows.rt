//! What is read within so many octets, its size.

ghost use Rattle.std.specs.Prelude.{◌≡◌, ◌<◌, ◌≤◌, ◌⊎◌, IfOk, IfErr, take, drop, length};
ghost use Rattle.qw_octet_grammar.specs.declared.fault.BinaryFault.TheVariants.{NotModule};

use crate::fault::BinaryFault;

/// So many octets, or all where there are fewer.
pub fn window(octets: &[u8], size: u32) -> &[u8]
    ensures { result.now ≡ take size octets.now }
{
    let size = size as usize;
    if octets.len() < size {
        octets
    } else {
        octets.split_at(size).0
    }
}

/// What follows so many octets.
///
/// # Errors
///
/// `NotModule` where there are fewer.
pub fn behind(octets: &[u8], size: u32) -> Result<&[u8], BinaryFault>
    ensures found { IfOk result (λ rest. (size ≤ length octets.now) × (rest.now ≡ drop size octets.now)) }
    ensures short { IfErr result (λ fault. (fault ≡ NotModule) × (length octets.now < size)) }
{
    let size = size as usize;
    if octets.len() < size {
        Err(BinaryFault::NotModule)
    } else {
        Ok(octets.split_at(size).1)
    }
}

/// What follows so many octets, of which these were left when all was read that they hold.
///
/// # Errors
///
/// `NotModule` where there are fewer octets, and where some were left.
pub fn behind_all<'a>(octets: &'a [u8], size: u32, left: &[u8]) -> Result<&'a [u8], BinaryFault>
    ensures found { IfOk result (λ rest. (size ≤ length octets.now) × (length left.now ≡ 0) × (rest.now ≡ drop size octets.now)) }
    ensures not_filled { IfErr result (λ fault. (fault ≡ NotModule) × ((length octets.now < size) ⊎ (1 ≤ length left.now))) }
{
    let rest = behind(octets, size)?;
    if left.is_empty() {
        Ok(rest)
    } else {
        Err(BinaryFault::NotModule)
    }
}
