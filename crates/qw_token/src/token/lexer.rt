//! The token at the front of a text.

ghost use Rattle.std.specs.Prelude.{◌≡◌, ◌↔◌, Bool, IsTrue, List, MatchOption, ℕ, option_map};
ghost use Rattle.qw_token.specs.Inner.Lexer.{Tells, after_run, after_separator, kind_at, after_quote, after_symbol, IsAfter};
ghost use Rattle.qw_token.specs.Token.{Lexeme, lexeme, is_separator, is_comment_octet, IsAfterGap, after_mark, is_word_octet, is_word_octet_or_point, is_single_symbol, is_double_symbol, IsNumber, Begins};

use super::{Kind, Token};

/// The text behind a byte order mark.
pub(crate) fn after_mark(text: &[u8]) -> &[u8]
    ensures { result.now ≡ after_mark text.now }
{
    text.strip_prefix(b"\xEF\xBB\xBF").unwrap_or(text)
}

/// Whether the octet is a space, a tab, a line feed or a carriage return.
fn is_separator(octet: u8) -> bool
    ensures { result ≡ is_separator octet }
{
    matches!(octet, b' ' | b'\t' | b'\n' | b'\r')
}

/// The text behind the separators and comments at its front.
pub(crate) fn after_gap(text: &[u8]) -> &[u8]
    ensures { IsAfterGap text.now result.now }
{
    let mut rest = text;
    while let Some(after) = after_separator(rest) {
        rest = after;
    }
    rest
}

/// The text behind the separator or the comment at its front, if there is one.
fn after_separator(text: &[u8]) -> Option<&[u8]>
    ensures { option_map (λ x. x.now) result ≡ after_separator text.now }
{
    match text {
        [b'-', b'-', comment @ ..] => Some(after_line(comment)),
        [first, after @ ..] if is_separator(*first) => Some(after),
        _ => None,
    }
}

/// The text from its first line feed on.
fn after_line(text: &[u8]) -> &[u8]
    ensures { result.now ≡ after_run is_comment_octet text.now }
{
    after_run(text, |octet| octet != b'\n')
}

/// The text behind the longest front whose octets all pass the test.
fn after_run<F: Fn(u8) -> bool>(text: &[u8], passes: F) -> &[u8]
    requires { F.IsAlwaysCallable passes }
    ensures { (test : ℕ → Bool) → Tells (F.post passes) test → result.now ≡ after_run test text.now }
{
    let mut rest = text;
    while let [first, after @ ..] = rest {
        if !passes(*first) {
            break;
        }
        rest = after;
    }
    rest
}

/// The token at the front of the text, and what follows it.
pub(crate) fn first_token(text: &[u8]) -> Option<(Token<'_>, &[u8])>
    ensures { MatchOption result ((t : Lexeme) (rest : List ℕ) → Begins text.now t rest → ⊥) (λ first. Begins text.now (lexeme first.0) first.1.now) }
{
    let kind = kind_at(text);
    let after = after_kind(kind, text)?;
    let octets = &text[..text.len() - after.len()];
    Some((Token { kind, octets }, after))
}

/// What follows the token at the front of a text that a token of this kind may begin.
fn after_kind(kind: Kind, text: &[u8]) -> Option<&[u8]>
    requires { kind ≡ kind_at text.now }
    ensures { IsAfter kind text.now (option_map (λ x. x.now) result) }
{
    match kind {
        Kind::Word => Some(after_word(text)),
        Kind::DelimitedIdentifier => after_delimited(text),
        Kind::CharacterString => after_string(text),
        Kind::Number => after_number(text),
        Kind::Symbol => after_symbol(text),
    }
}

/// The only kind of token that can begin the text.
fn kind_at(text: &[u8]) -> Kind
    ensures { result ≡ kind_at text.now }
{
    match text {
        [b'"', ..] => Kind::DelimitedIdentifier,
        [b'\'', ..] => Kind::CharacterString,
        [b'.', b'0'..=b'9', ..] => Kind::Number,
        [first, ..] if first.is_ascii_alphabetic() => Kind::Word,
        [first, ..] if first.is_ascii_digit() => Kind::Number,
        _ => Kind::Symbol,
    }
}

/// Whether the octet is a letter, a digit or `_`.
fn is_word_octet(octet: u8) -> bool
    ensures { result ≡ is_word_octet octet }
{
    octet.is_ascii_alphanumeric() || octet == b'_'
}

/// The text behind the letters, digits and `_` at its front.
fn after_word(text: &[u8]) -> &[u8]
    ensures { result.now ≡ after_run is_word_octet text.now }
{
    after_run(text, is_word_octet)
}

/// The text behind the letters, digits, `_` and points at its front.
fn after_word_and_points(text: &[u8]) -> &[u8]
    ensures { result.now ≡ after_run is_word_octet_or_point text.now }
{
    after_run(text, |octet| is_word_octet(octet) || octet == b'.')
}

/// Whether the octets are digits with at most one point.
fn is_number(octets: &[u8]) -> bool
    ensures { IsTrue result ↔ IsNumber octets.now }
{
    if !octets
        .iter()
        .all(|octet| octet.is_ascii_digit() || *octet == b'.')
    {
        return false;
    }
    let points = octets.iter().filter(|octet| **octet == b'.').count();
    let digits = octets.iter().filter(|octet| octet.is_ascii_digit()).count();
    points <= 1 && 0 < digits
}

/// The text behind the number at its front, if the letters, digits, `_` and points there are one.
fn after_number(text: &[u8]) -> Option<&[u8]>
    requires { kind_at text.now ≡ Kind.Number }
    ensures { IsAfter Kind.Number text.now (option_map (λ x. x.now) result) }
{
    let after = after_word_and_points(text);
    if is_number(&text[..text.len() - after.len()]) {
        Some(after)
    } else {
        None
    }
}

/// The text behind the first quote that isn't doubled. Without one the first of the last two that are closes what ends there.
fn after_quote(quote: u8, text: &[u8]) -> Option<&[u8]>
    ensures { option_map (λ x. x.now) result ≡ after_quote quote text.now }
{
    let mut closed = None;
    let mut rest = text;
    while let [first, after @ ..] = rest {
        if *first != quote {
            rest = after;
            continue;
        }
        let [second, behind @ ..] = after else {
            return Some(after);
        };
        if *second != quote {
            return Some(after);
        }
        closed = Some(after);
        rest = behind;
    }
    closed
}

/// The text behind the delimited identifier at its front, if it is closed and its name isn't empty.
fn after_delimited(text: &[u8]) -> Option<&[u8]>
    requires { kind_at text.now ≡ Kind.DelimitedIdentifier }
    ensures { IsAfter Kind.DelimitedIdentifier text.now (option_map (λ x. x.now) result) }
{
    let after = after_quote(b'"', &text[1..])?;
    if after.len() + 2 < text.len() {
        Some(after)
    } else {
        None
    }
}

/// The text behind the string at its front, if it is closed.
fn after_string(text: &[u8]) -> Option<&[u8]>
    requires { kind_at text.now ≡ Kind.CharacterString }
    ensures { IsAfter Kind.CharacterString text.now (option_map (λ x. x.now) result) }
{
    after_quote(b'\'', &text[1..])
}

/// Whether the octet is a symbol.
fn is_single_symbol(octet: u8) -> bool
    ensures { result ≡ is_single_symbol octet }
{
    matches!(
        octet,
        b'(' | b')' | b',' | b'.' | b';' | b'*' | b'+' | b'-' | b'/' | b'=' | b'<' | b'>'
    )
}

/// Whether the two octets are one symbol.
fn is_double_symbol(first: u8, second: u8) -> bool
    ensures { result ≡ is_double_symbol first second }
{
    matches!((first, second), (b'<', b'=' | b'>') | (b'>', b'='))
}

/// The text behind the symbol at its front, if there is one.
fn after_symbol(text: &[u8]) -> Option<&[u8]>
    ensures { option_map (λ x. x.now) result ≡ after_symbol text.now }
{
    match text {
        [first, second, after @ ..] if is_double_symbol(*first, *second) => Some(after),
        [first, after @ ..] if is_single_symbol(*first) => Some(after),
        _ => None,
    }
}
