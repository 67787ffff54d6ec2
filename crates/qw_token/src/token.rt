//! The tokens of a text.

mod lexer;

ghost use Rattle.std.specs.Prelude.{◌≡◌, ◌↔◌, ℕ, IfOk, IsErrOf, List};
ghost use Rattle.std.specs.Str.{IsUtf8};
ghost use Rattle.qw_token.specs.Token.{Lexeme, lexemes, AreTokens, StopsAt};

use lexer::{after_gap, after_mark, first_token};
use std::alloc::Global;
use std::str;
use thiserror::Error;

/// The kind of a token (ISO/IEC 9075:1992, 5.2 "token").
#[derive(Clone, Copy, Debug, PartialEq, Eq)]
pub enum Kind {
    /// A regular identifier or a key word.
    Word,
    /// A name between double quotes.
    DelimitedIdentifier,
    /// A text between single quotes.
    CharacterString,
    /// Digits, with at most one point.
    Number,
    /// A special character, or two that are one symbol, as `<=`.
    Symbol,
}

/// A token of a text that it borrows from.
#[derive(Clone, Copy, Debug)]
pub struct Token<'a> {
    /// What the token is.
    pub kind: Kind,
    /// The token as it stands in the text, with the quotes of a delimited identifier or a string.
    pub octets: &'a [u8],
}

/// Why a text has no tokens.
#[derive(Clone, Copy, Debug, PartialEq, Eq, Error)]
pub enum TokenFault {
    #[error("the text is not UTF-8")]
    NotUtf8,
    /// No token begins at this octet, counted from 0 at the start of the text.
    #[error("no token begins at octet {at}")]
    NotToken { at: usize },
    #[error("want of memory")]
    NoMemory,
}

/// The tokens of a text, in order. A byte order mark at the start of the text is passed over, and so are the
/// separators and comments between tokens.
///
/// # Errors
///
/// `NotUtf8` where the text is not UTF-8, else `NotToken` at the first octet where a token is to begin and
/// none does, and `NoMemory`.
pub fn tokens(alloc: Global, text: &[u8]) -> Result<Vec<Token<'_>>, TokenFault>
    ensures read { IfOk result (λ found. AreTokens text.now (lexemes found.items)) }
    ensures not_utf8 { IsErrOf result TokenFault.NotUtf8 ↔ (IsUtf8 text.now → ⊥) }
    ensures not_token { (at : ℕ) → IsErrOf result (TokenFault.NotToken at) → StopsAt text.now at }
{
    if str::from_utf8(text).is_err() {
        return Err(TokenFault::NotUtf8);
    }
    let mut found = Vec::new(alloc);
    let mut rest = after_gap(after_mark(text));
    while !rest.is_empty() {
        let Some((token, after)) = first_token(rest) else {
            return Err(TokenFault::NotToken {
                at: text.len() - rest.len(),
            });
        };
        found.push(token).map_err(|_| TokenFault::NoMemory)?;
        rest = after_gap(after);
    }
    Ok(found)
}

/// A text has one list of tokens, or stops at one position, or is not UTF-8. So `tokens` can answer
/// nothing else than it does, unless memory runs out.
pub fn one_reading()
    ensures tokens { (text : List ℕ) (ts us : List Lexeme) → AreTokens text ts → AreTokens text us → ts ≡ us }
    ensures position { (text : List ℕ) (m n : ℕ) → StopsAt text m → StopsAt text n → m ≡ n }
    ensures either { (text : List ℕ) (ts : List Lexeme) (n : ℕ) → AreTokens text ts → StopsAt text n → ⊥ }
{}
