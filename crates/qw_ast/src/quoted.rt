//! What stands between the quotes of a delimited identifier (ISO/IEC 9075:1992, 5.2) and of a character string (5.3), in which two quotes are one.

ghost use Rattle.std.specs.Prelude.{◌≡◌, length, IfOk};
ghost use Rattle.qw_ast.specs.Quoted.{undoubled, unquoted};
ghost use Rattle.qw_ast.specs.Inner.Quoted.{behind_octet};

use qw_types::NoMemory;
use std::alloc::Global;

/// What stands between the first octet and the last one, two quotes there being one: nothing of fewer than two octets.
///
/// # Errors
///
/// Want of memory.
pub fn unquoted(alloc: Global, quote: u8, octets: &[u8]) -> Result<Vec<u8>, NoMemory>
    ensures { IfOk result (λ value. value.items ≡ unquoted quote octets.now) }
{
    match octets {
        [_, inner @ .., _] => undoubled(alloc, quote, inner),
        _ => Ok(Vec::new(alloc)),
    }
}

/// How many octets that is.
pub fn unquoted_length(quote: u8, octets: &[u8]) -> usize
    ensures { result ≡ length (unquoted quote octets.now) }
{
    match octets {
        [_, inner @ .., _] => undoubled_length(quote, inner),
        _ => 0,
    }
}

/// The octets with each two of which the first is the quote as that quote.
fn undoubled(alloc: Global, quote: u8, octets: &[u8]) -> Result<Vec<u8>, NoMemory>
    ensures { IfOk result (λ value. value.items ≡ undoubled quote octets.now) }
{
    let mut value = Vec::new(alloc);
    let mut rest = octets;
    while let [first, behind @ ..] = rest {
        value.push(*first)?;
        rest = behind_octet(quote, *first, behind);
    }
    Ok(value)
}

/// How many octets that makes.
fn undoubled_length(quote: u8, octets: &[u8]) -> usize
    ensures { result ≡ length (undoubled quote octets.now) }
{
    let mut length = 0;
    let mut rest = octets;
    while let [first, behind @ ..] = rest {
        length += 1;
        rest = behind_octet(quote, *first, behind);
    }
    length
}

/// The octets behind an octet, without the second quote where it is one.
fn behind_octet(quote: u8, octet: u8, behind: &[u8]) -> &[u8]
    ensures { result.now ≡ behind_octet quote octet behind.now }
{
    match behind {
        [_, after @ ..] if octet == quote => after,
        _ => behind,
    }
}
