//! Names (WebAssembly Core Specification 1.0, 5.2.4).

ghost use Rattle.std.specs.Prelude.{◌≡◌, MatchOption, true, false};
ghost use Rattle.std.specs.Str.{is_utf8};
ghost use Rattle.qw_octet_grammar.specs.Vectors.{name};
ghost use Rattle.qw_octet_grammar.specs.Reading.{Gives, read};

use crate::fault::BinaryFault;
use crate::numbers::u32_at;

/// A name, and the octets behind it.
///
/// # Errors
///
/// `NotModule` where the octets end before it does, and where it isn't UTF-8.
#[tactic(auto, unfolding(crate::specs::Reading::read))]
pub fn name_at(octets: &[u8]) -> Result<(&str, &[u8]), BinaryFault>
    ensures { Gives (λ x. (x.0.now, x.1.now)) result (read name octets.now) }
{
    let (count, rest) = u32_at(octets)?;
    let count = count as usize;
    if rest.len() < count {
        return Err(BinaryFault::NotModule);
    }
    let (text, rest) = rest.split_at(count);
    match text_of(text) {
        Some(text) => Ok((text, rest)),
        None => Err(BinaryFault::NotModule),
    }
}

/// The octets as text, where they are UTF-8.
fn text_of(octets: &[u8]) -> Option<&str>
    ensures { MatchOption result (is_utf8 octets.now ≡ false) (λ text. (is_utf8 octets.now ≡ true) × (text.now ≡ octets.now)) }
{
    match std::str::from_utf8(octets) {
        Ok(text) => Some(text),
        Err(_) => None,
    }
}
