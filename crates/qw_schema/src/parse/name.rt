//! The names that identifiers are (ISO/IEC 9075:1992, 5.2 and 5.4).

ghost use Rattle.std.specs.Prelude.{◌≡◌, IfOk};
ghost use Rattle.qw_ast.specs.Grammar.{folded, name_of};

use qw_ast::quoted::unquoted;
use qw_types::{NoMemory, Text};
use std::alloc::Global;

/// The name that the identifier is: of a regular one in upper case, of a delimited one as it is written.
pub(crate) fn name_text(alloc: Global, octets: &[u8]) -> Result<Text, NoMemory>
    ensures { IfOk result (λ text. text ≡ name_of octets.now) }
{
    match octets {
        [b'"', ..] => text_of(unquoted(alloc, b'"', octets)?),
        _ => folded_text(alloc, octets),
    }
}

/// The name in upper case.
pub(crate) fn folded_text(alloc: Global, octets: &[u8]) -> Result<Text, NoMemory>
    ensures { IfOk result (λ text. text ≡ folded octets.now) }
{
    text_of(octets.to_ascii_uppercase(alloc)?)
}

/// The octets as a text. Those of a name in a text of UTF-8 are UTF-8, since a name begins and ends with ASCII there; so none
/// is refused for its octets.
fn text_of(octets: Vec<u8>) -> Result<Text, NoMemory>
    ensures { IfOk result (λ text. text ≡ octets.items) }
{
    match String::from_utf8(octets) {
        Ok(text) => Ok(Text::new(text)),
        Err(_) => Err(NoMemory),
    }
}
