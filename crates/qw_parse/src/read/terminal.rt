//! What a single token is: a key word, a symbol, a literal or a name; and which sign, operator, field, function, set function, predicate or truth it says.

ghost use Rattle.std.specs.Prelude.{◌≡◌};
ghost use Rattle.qw_token.specs.Token.{lexeme};
ghost use Rattle.qw_ast.specs.ScriptGrammar as grammar;

use qw_ast::script::{SetFunction, Sign};
use qw_ast::word::{folds_to, is_reserved};
use qw_scalar::comparison::Comparison;
use qw_scalar::expression::{Field, Function, Operator, Predicate};
use qw_token::token::{Kind, Token};
use qw_types::Truth;
use qw_types::digits::are_digits;

/// Whether the token is the key word, which is given in upper case.
pub(crate) fn is_word(token: &Token<'_>, word: &[u8]) -> bool
    ensures { result ≡ grammar.is_word word.now (lexeme token.now) }
{
    matches!(token.kind, Kind::Word) && folds_to(token.octets, word)
}

pub(crate) fn is_symbol(token: &Token<'_>, octets: &[u8]) -> bool
    ensures { result ≡ grammar.is_symbol octets.now (lexeme token.now) }
{
    matches!(token.kind, Kind::Symbol) && token.octets == octets
}

pub(crate) fn is_number(token: &Token<'_>) -> bool
    ensures { result ≡ grammar.is_number (lexeme token.now) }
{
    matches!(token.kind, Kind::Number)
}

pub(crate) fn is_integer(token: &Token<'_>) -> bool
    ensures { result ≡ grammar.is_integer (lexeme token.now) }
{
    is_number(token) && are_digits(token.octets)
}

pub(crate) fn is_string(token: &Token<'_>) -> bool
    ensures { result ≡ grammar.is_string (lexeme token.now) }
{
    matches!(token.kind, Kind::CharacterString)
}

/// Whether the token is a regular identifier.
pub(crate) fn is_regular(token: &Token<'_>) -> bool
    ensures { result ≡ grammar.is_regular (lexeme token.now) }
{
    matches!(token.kind, Kind::Word) && !is_reserved(token.octets)
}

/// Whether the token is an identifier, regular or delimited.
pub(crate) fn is_name(token: &Token<'_>) -> bool
    ensures { result ≡ grammar.is_name (lexeme token.now) }
{
    is_regular(token) || matches!(token.kind, Kind::DelimitedIdentifier)
}

pub(crate) fn sign_of(token: &Token<'_>) -> Option<Sign>
    ensures { result ≡ grammar.sign_of (lexeme token.now) }
{
    if is_symbol(token, b"+") {
        return Some(Sign::Plus);
    }
    if is_symbol(token, b"-") {
        return Some(Sign::Minus);
    }
    None
}

pub(crate) fn addition_of(token: &Token<'_>) -> Option<Operator>
    ensures { result ≡ grammar.addition_of (lexeme token.now) }
{
    if is_symbol(token, b"+") {
        return Some(Operator::Add);
    }
    if is_symbol(token, b"-") {
        return Some(Operator::Subtract);
    }
    None
}

pub(crate) fn multiplication_of(token: &Token<'_>) -> Option<Operator>
    ensures { result ≡ grammar.multiplication_of (lexeme token.now) }
{
    if is_symbol(token, b"*") {
        return Some(Operator::Multiply);
    }
    if is_symbol(token, b"/") {
        return Some(Operator::Divide);
    }
    None
}

pub(crate) fn comparison_of(token: &Token<'_>) -> Option<Comparison>
    ensures { result ≡ grammar.comparison_of (lexeme token.now) }
{
    if is_symbol(token, b"=") {
        return Some(Comparison::Equal);
    }
    if is_symbol(token, b"<>") {
        return Some(Comparison::NotEqual);
    }
    if is_symbol(token, b"<") {
        return Some(Comparison::Less);
    }
    if is_symbol(token, b"<=") {
        return Some(Comparison::LessOrEqual);
    }
    if is_symbol(token, b">") {
        return Some(Comparison::Greater);
    }
    if is_symbol(token, b">=") {
        return Some(Comparison::GreaterOrEqual);
    }
    None
}

pub(crate) fn field_of(token: &Token<'_>) -> Option<Field>
    ensures { result ≡ grammar.field_of (lexeme token.now) }
{
    if is_word(token, b"YEAR") {
        return Some(Field::Year);
    }
    if is_word(token, b"MONTH") {
        return Some(Field::Month);
    }
    if is_word(token, b"DAY") {
        return Some(Field::Day);
    }
    None
}

pub(crate) fn function_of(token: &Token<'_>) -> Option<Function>
    ensures { result ≡ grammar.function_of (lexeme token.now) }
{
    if is_word(token, b"COALESCE") {
        return Some(Function::Coalesce);
    }
    if is_word(token, b"NULLIF") {
        return Some(Function::NullIf);
    }
    None
}

/// Whether the function takes so many arguments behind the first.
pub(crate) fn takes(function: Function, others: usize) -> bool
    ensures { result ≡ grammar.takes function others }
{
    match function {
        Function::Coalesce => 1 <= others,
        Function::NullIf => others == 1,
    }
}

pub(crate) fn predicate_of(token: &Token<'_>) -> Option<Predicate>
    ensures { result ≡ grammar.predicate_of (lexeme token.now) }
{
    if is_word(token, b"NULL") {
        return Some(Predicate::IsNull);
    }
    None
}

pub(crate) fn set_function_of(token: &Token<'_>) -> Option<SetFunction>
    ensures { result ≡ grammar.set_function_of (lexeme token.now) }
{
    if is_word(token, b"COUNT") {
        return Some(SetFunction::Count);
    }
    if is_word(token, b"SUM") {
        return Some(SetFunction::Sum);
    }
    if is_word(token, b"AVG") {
        return Some(SetFunction::Avg);
    }
    if is_word(token, b"MIN") {
        return Some(SetFunction::Min);
    }
    if is_word(token, b"MAX") {
        return Some(SetFunction::Max);
    }
    None
}

pub(crate) fn truth_of(token: &Token<'_>) -> Option<Truth>
    ensures { result ≡ grammar.truth_of (lexeme token.now) }
{
    if is_word(token, b"TRUE") {
        return Some(Truth::True);
    }
    if is_word(token, b"FALSE") {
        return Some(Truth::False);
    }
    if is_word(token, b"UNKNOWN") {
        return Some(Truth::Unknown);
    }
    None
}
