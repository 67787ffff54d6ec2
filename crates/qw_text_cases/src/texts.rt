//! Texts of rows as octets.

use crate::refusal::Refusal;
use std::alloc::{AllocError, Global};

/// The octet that a part behind `\` begins with, and what follows it.
fn octet_of(part: &str) -> Option<(u8, &str)> {
    if let Some(rest) = part.strip_prefix('n') {
        return Some((b'\n', rest));
    }
    if let Some(rest) = part.strip_prefix('r') {
        return Some((b'\r', rest));
    }
    if let Some(rest) = part.strip_prefix('t') {
        return Some((b'\t', rest));
    }
    hexadecimal(part.strip_prefix('x')?)
}

/// The octet of two digits to the base 16, and what follows them.
fn hexadecimal(digits: &str) -> Option<(u8, &str)> {
    let mut characters = digits.chars();
    let high = characters.next()?.to_digit(16)?;
    let low = characters.next()?.to_digit(16)?;
    let octet = u8::try_from(16u32.checked_mul(high)?.checked_add(low)?).ok()?;
    Some((octet, characters.as_str()))
}

/// Adds a part once, with its number in place of the first `#`.
fn put_numbered(
    out: &mut Vec<u8>,
    alloc: Global,
    part: &str,
    number: usize,
) -> Result<(), AllocError> {
    match part.split_once('#') {
        Some((before, after)) => {
            let text = format!(in alloc; "{before}{number}{after}")?;
            out.extend_from_slice(text.as_bytes())
        }
        None => out.extend_from_slice(part.as_bytes()),
    }
}

/// Adds what a part says that begins with a count and stands behind `\`.
fn put_repeated(out: &mut Vec<u8>, alloc: Global, part: &str) -> Result<(), Refusal> {
    let (count, rest) = part.split_once('{').ok_or(Refusal::NotRow)?;
    let (repeated, rest) = rest.split_once('}').ok_or(Refusal::NotRow)?;
    let count: usize = count.parse().map_err(|_| Refusal::NotRow)?;
    for number in 0..count {
        put_numbered(out, alloc, repeated, number)?;
    }
    out.extend_from_slice(rest.as_bytes())?;
    Ok(())
}

/// Adds what a part behind `\` says.
fn put_escaped(out: &mut Vec<u8>, alloc: Global, part: &str) -> Result<(), Refusal> {
    match octet_of(part) {
        Some((octet, rest)) => {
            out.push(octet)?;
            out.extend_from_slice(rest.as_bytes())?;
            Ok(())
        }
        None => put_repeated(out, alloc, part),
    }
}

/// The octets of a row's text.
pub fn octets_of_text(alloc: Global, text: &str) -> Result<Vec<u8>, Refusal> {
    let mut octets = Vec::new(alloc);
    for (number, part) in text.split('\\').enumerate() {
        if number == 0 {
            octets.extend_from_slice(part.as_bytes())?;
        } else {
            put_escaped(&mut octets, alloc, part)?;
        }
    }
    Ok(octets)
}
