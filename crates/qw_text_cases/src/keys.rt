//! Keys of hash tables.

use crate::refusal::Refusal;
use qw_layout::hash::{hash_of, slot_of};
use qw_types::{Text, Val};
use std::alloc::Global;

/// A text, without its quotes.
fn text_of(alloc: Global, text: &str) -> Result<Val, Refusal> {
    let text = text.trim_end_matches('\'');
    Ok(Val::Text(Text::new(String::from_str(alloc, text)?)))
}

/// The value that a word stands for.
fn value_of(alloc: Global, word: &str) -> Result<Val, Refusal> {
    if word == "null" {
        return Ok(Val::Null);
    }
    if let Some(text) = word.strip_prefix('\'') {
        return text_of(alloc, text);
    }
    if let Some(digits) = word.strip_prefix('@') {
        return Ok(Val::Date(digits.parse().map_err(|_| Refusal::NotRow)?));
    }
    Ok(Val::Num(word.parse().map_err(|_| Refusal::NotRow)?))
}

/// The hash and the slot of a key, by words for its values.
pub fn hashed(alloc: Global, words: &str) -> Result<String, Refusal> {
    let mut key = Vec::new(alloc);
    for word in words.split_whitespace() {
        key.push(value_of(alloc, word)?)?;
    }
    let hash = hash_of(key.as_slice());
    let slot = slot_of(key.as_slice());
    Ok(format!(in alloc; "{hash} {slot}")?)
}
