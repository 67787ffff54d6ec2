//! The names that identifiers are, and the values of character strings (ISO/IEC 9075:1992, 5.2 to 5.4).

ghost use Rattle.std.specs.Prelude.{◌≡◌, IfOk};
ghost use Rattle.qw_ast.specs.Grammar.{folded, name_of};
ghost use Rattle.qw_ast.specs.Quoted.{string_value};

use qw_ast::quoted::unquoted;
use qw_types::{NoMemory, Text};
use std::alloc::Global;

/// The name that an identifier is: of a regular one in upper case, of a delimited one as it is written.
pub(crate) fn name_text(alloc: Global, octets: &[u8]) -> Result<Text, NoMemory>
    ensures { IfOk result (λ text. text ≡ name_of octets.now) }
{
    match octets {
        [b'"', ..] => text_of(unquoted(alloc, b'"', octets)?),
        _ => folded_text(alloc, octets),
    }
}

/// A regular identifier's name.
fn folded_text(alloc: Global, octets: &[u8]) -> Result<Text, NoMemory>
    ensures { IfOk result (λ text. text ≡ folded octets.now) }
{
    text_of(octets.to_ascii_uppercase(alloc)?)
}

/// The octets as they are written.
pub(crate) fn written_text(alloc: Global, octets: &[u8]) -> Result<Text, NoMemory>
    ensures { IfOk result (λ text. text ≡ octets.now) }
{
    text_of(octets.to_vec(alloc)?)
}

/// The value of a character string, as a text.
pub(crate) fn value_text(alloc: Global, octets: &[u8]) -> Result<Text, NoMemory>
    ensures { IfOk result (λ text. text ≡ string_value octets.now) }
{
    text_of(value_octets(alloc, octets)?)
}

/// The value of a character string.
pub(crate) fn value_octets(alloc: Global, octets: &[u8]) -> Result<Vec<u8>, NoMemory>
    ensures { IfOk result (λ value. value.items ≡ string_value octets.now) }
{
    unquoted(alloc, b'\'', octets)
}

/// The octets as a text. Those of a token in a text of UTF-8 are UTF-8, since it begins and ends with ASCII there; so none is
/// refused for its octets.
fn text_of(octets: Vec<u8>) -> Result<Text, NoMemory>
    ensures { IfOk result (λ text. text ≡ octets.items) }
{
    match String::from_utf8(octets) {
        Ok(text) => Ok(Text::new(text)),
        Err(_) => Err(NoMemory),
    }
}
