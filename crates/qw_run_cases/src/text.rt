//! Texts as the lines of cases spell them: octets with escapes, words, and numbers.

ghost use Rattle.std.specs.Prelude.{◌<◌, IfSome};

use crate::fault::CaseFault;
use std::alloc::{AllocError, Global};

/// The first word of a text, and what follows the blank behind it.
pub fn word_of(text: &str) -> (&str, &str) {
    text.split_once(' ').unwrap_or((text, ""))
}

/// The number that the first word of a text is, and what follows.
pub fn number_of(text: &str) -> Result<(u64, &str), CaseFault> {
    let (word, rest) = word_of(text);
    match word.parse() {
        Ok(number) => Ok((number, rest)),
        Err(_) => Err(CaseFault::Line),
    }
}

/// Adds the octets that a text spells: `\n`, `\r`, and `\xFF` for an octet of two hexadecimal digits.
pub fn push_octets(octets: &mut Vec<u8>, text: &str) -> Result<(), CaseFault> {
    let mut parts = text.split('\\');
    octets.extend_from_slice(parts.next().unwrap_or("").as_bytes())?;
    for part in parts {
        push_escaped(octets, escaped(part.as_bytes()))?;
    }
    Ok(())
}

// Adds the octet of an escape, and what follows it.
fn push_escaped(octets: &mut Vec<u8>, escaped: Option<(u8, &[u8])>) -> Result<(), CaseFault> {
    let (octet, rest) = escaped.ok_or(CaseFault::Line)?;
    octets.push(octet)?;
    octets.extend_from_slice(rest)?;
    Ok(())
}

// The octet of an escape, and what follows it.
fn escaped(part: &[u8]) -> Option<(u8, &[u8])> {
    let (mark, rest) = part.split_first()?;
    match *mark {
        b'n' => Some((b'\n', rest)),
        b'r' => Some((b'\r', rest)),
        b'x' => hexadecimal(rest),
        _ => None,
    }
}

fn hexadecimal(part: &[u8]) -> Option<(u8, &[u8])> {
    match part {
        [high, low, rest @ ..] => Some((digit(*high)? * 16 + digit(*low)?, rest)),
        _ => None,
    }
}

fn digit(octet: u8) -> Option<u8>
    ensures { IfSome result (λ digit. digit < 16) }
{
    match octet {
        b'0'..=b'9' => Some(octet - b'0'),
        b'A'..=b'F' => Some(octet - b'A' + 10),
        _ => None,
    }
}

/// Adds octets to others once for each number from one to another, with the number in place of each `@`.
pub fn push_numbered(
    alloc: Global,
    into: &mut Vec<u8>,
    (from, to): (u64, u64),
    octets: &[u8],
) -> Result<(), AllocError> {
    for k in 0..=from.abs_diff(to) {
        let number = if from <= to {
            from.saturating_add(k)
        } else {
            from.saturating_sub(k)
        };
        push_at(alloc, into, number, octets)?;
    }
    Ok(())
}

fn push_at(
    alloc: Global,
    into: &mut Vec<u8>,
    number: u64,
    octets: &[u8],
) -> Result<(), AllocError> {
    for &octet in octets {
        if octet == b'@' {
            into.extend_from_slice(format!(in alloc; "{number}")?.as_bytes())?;
        } else {
            into.push(octet)?;
        }
    }
    Ok(())
}
