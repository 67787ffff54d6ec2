//! Readers of single tokens of a schema: key words, symbols, regular identifiers, digits.

ghost use Rattle.std.specs.Prelude.{◌≡◌, IfSome, IsTrue, option_map};
ghost use Rattle.std.specs.Str.Parse.{digits_value};
ghost use Rattle.qw_types.specs.Digits.{are_digits};
ghost use Rattle.qw_ast.specs.Grammar.{folded, key_word, symbol};
ghost use Rattle.qw_schema.specs.Inner.Parser.{terminal_at, regular_at, digits_at};
ghost use Rattle.qw_schema.specs.Inner.Tables.{number_at};
ghost use Rattle.qw_token.specs.Token.{lexemes};

use qw_ast::word::{folds_to, is_reserved};
use qw_token::token::{Kind, Token};
use qw_types::digits::are_digits;

/// The tokens behind the key word.
#[tactic(auto, unfolding(crate::specs::Inner::Parser::terminal_at))]
pub(crate) fn key_word<'t, 'a>(tokens: &'t [Token<'a>], word: &[u8]) -> Option<&'t [Token<'a>]>
    ensures { option_map (λ x. lexemes x.now) result ≡ terminal_at (key_word word.now) (lexemes tokens.now) }
{
    match tokens {
        [first, rest @ ..] if folds_to(first.octets, word) => Some(rest),
        _ => None,
    }
}

/// The tokens behind the symbol.
#[tactic(auto, unfolding(crate::specs::Inner::Parser::terminal_at))]
pub(crate) fn symbol<'t, 'a>(tokens: &'t [Token<'a>], octets: &[u8]) -> Option<&'t [Token<'a>]>
    ensures { option_map (λ x. lexemes x.now) result ≡ terminal_at (symbol octets.now) (lexemes tokens.now) }
{
    match tokens {
        [first, rest @ ..] if first.octets == octets => Some(rest),
        _ => None,
    }
}

/// The regular identifier in front, as it stands in the text, and the tokens behind it.
#[tactic(auto, unfolding(crate::specs::Inner::Parser::regular_at, crate::specs::Inner::Parser::token_at))]
pub(crate) fn regular<'t, 'a>(tokens: &'t [Token<'a>]) -> Option<(&'a [u8], &'t [Token<'a>])>
    ensures { option_map (λ x. (folded x.0.now, lexemes x.1.now)) result ≡ regular_at (lexemes tokens.now) }
{
    match tokens {
        [first, rest @ ..] if first.kind == Kind::Word && !is_reserved(first.octets) => {
            Some((first.octets, rest))
        }
        _ => None,
    }
}

/// The digits in front, and the tokens behind them.
#[tactic(auto, unfolding(crate::specs::Inner::Parser::digits_at, crate::specs::Inner::Tables::number_at, crate::specs::Inner::Parser::token_at))]
pub(crate) fn digits<'t, 'a>(tokens: &'t [Token<'a>]) -> Option<(&'a [u8], &'t [Token<'a>])>
    ensures written { option_map (λ x. (x.0.now, lexemes x.1.now)) result ≡ digits_at (lexemes tokens.now) }
    ensures read { option_map (λ x. (digits_value 10 x.0.now, lexemes x.1.now)) result ≡ number_at (lexemes tokens.now) }
    ensures digits { IfSome result (λ x. IsTrue (are_digits x.0.now)) }
{
    match tokens {
        [first, rest @ ..] if are_digits(first.octets) => Some((first.octets, rest)),
        _ => None,
    }
}
