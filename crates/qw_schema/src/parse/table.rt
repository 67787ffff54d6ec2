//! A table definition, read from left to right.

ghost use Rattle.std.specs.Prelude.{◌≡◌, IfOk, IfSome, IsTrue, map, option_map, if◌then◌else◌, nat_le, Some, None};
ghost use Rattle.std.specs.Str.Parse.{digits_value};
ghost use Rattle.qw_types.specs.declared.value.Ty.TheVariants as types;
ghost use Rattle.qw_types.specs.Digits.{are_digits};
ghost use Rattle.qw_ast.specs.Grammar.{folded, name_of};
ghost use Rattle.qw_schema.specs.Inner.Parser.{all_of, is_identifier, is_none, list_at};
ghost use Rattle.qw_schema.specs.Inner.Tables.{sized, type_word_of, type_word_at, identifier_at, scale_at, decimal_at, varchar_at, type_at, nullability_at, column_at, table_at, create_table_at, read_of};
ghost use Rattle.qw_schema.specs.Inner.Written.{written, closing, definition_read};
ghost use Rattle.qw_token.specs.Token.{lexeme, lexemes};

use super::form::{digits, key_word, regular, symbol};
use super::literal::literal_of;
use super::name::{folded_text, name_text};
use qw_ast::tree::{ColumnDefinition, TableDefinition};
use qw_ast::word::{folds_to, is_reserved};
use qw_token::token::{Kind, Token};
use qw_types::digits::are_digits;
use qw_types::{NoMemory, Ty};
use std::alloc::Global;

/// The most digits of an exact number.
const MAX_PRECISION: u16 = 18;

/// The most characters of a text.
const MAX_LENGTH: u16 = 1000;

/// What the word in front of a data type says.
#[derive(Clone, Copy)]
pub(crate) enum TypeWord {
    Integer,
    Decimal,
    Date,
    Varchar,
}

/// A column definition, with its name as it stands in the text. The type is `None` where its sizes are not taken.
#[derive(Clone, Copy)]
pub(crate) struct WrittenColumn<'a> {
    name: &'a [u8],
    ty: Option<Ty>,
    not_null: bool,
}

/// What the octets say as the word in front of a data type.
fn type_word_of(octets: &[u8]) -> Option<TypeWord>
    ensures { result ≡ type_word_of (folded octets.now) }
{
    if folds_to(octets, b"INTEGER") || folds_to(octets, b"INT") {
        return Some(TypeWord::Integer);
    }
    if folds_to(octets, b"DECIMAL") || folds_to(octets, b"DEC") || folds_to(octets, b"NUMERIC") {
        return Some(TypeWord::Decimal);
    }
    if folds_to(octets, b"DATE") {
        return Some(TypeWord::Date);
    }
    if folds_to(octets, b"VARCHAR") {
        return Some(TypeWord::Varchar);
    }
    None
}

/// The word of a data type in front, and the tokens behind it.
#[tactic(auto, unfolding(crate::specs::Inner::Tables::type_word_at, crate::specs::Inner::Parser::token_at))]
fn type_word<'t, 'a>(tokens: &'t [Token<'a>]) -> Option<(TypeWord, &'t [Token<'a>])>
    ensures { option_map (λ x. (x.0, lexemes x.1.now)) result ≡ type_word_at (lexemes tokens.now) }
{
    let [first, rest @ ..] = tokens else {
        return None;
    };
    Some((type_word_of(first.octets)?, rest))
}

/// Whether the token is an identifier, regular or delimited.
fn is_identifier(token: &Token<'_>) -> bool
    ensures { result ≡ is_identifier (lexeme token.now) }
{
    match token.kind {
        Kind::Word => !is_reserved(token.octets),
        Kind::DelimitedIdentifier => true,
        _ => false,
    }
}

/// The identifier in front, as it stands in the text, and the tokens behind it.
#[tactic(auto, unfolding(crate::specs::Inner::Tables::identifier_at, crate::specs::Inner::Parser::token_at))]
fn identifier<'t, 'a>(tokens: &'t [Token<'a>]) -> Option<(&'a [u8], &'t [Token<'a>])>
    ensures { option_map (λ x. (name_of x.0.now, lexemes x.1.now)) result ≡ identifier_at (lexemes tokens.now) }
{
    match tokens {
        [first, rest @ ..] if is_identifier(first) => Some((first.octets, rest)),
        _ => None,
    }
}

/// The digits of the scale behind a comma in front, or `0` where there is no comma, and the tokens behind them.
#[tactic(auto, unfolding(crate::specs::Inner::Tables::scale_at))]
fn scale<'t, 'a>(tokens: &'t [Token<'a>]) -> Option<(&'a [u8], &'t [Token<'a>])>
    ensures read { option_map (λ x. (digits_value 10 x.0.now, lexemes x.1.now)) result ≡ scale_at (lexemes tokens.now) }
    ensures digits { IfSome result (λ x. IsTrue (are_digits x.0.now)) }
{
    match symbol(tokens, b",") {
        Some(rest) => digits(rest),
        None => Some((b"0", tokens)),
    }
}

/// The number of the digits, if it is no greater than `most`.
fn number_within(digits: &[u8], most: u16) -> Option<u16>
    requires { IsTrue (are_digits digits.now) }
    ensures { result ≡ (if nat_le (digits_value 10 digits.now) most then Some (digits_value 10 digits.now) else None) }
{
    let number = literal_of(digits)?;
    if number <= i64::from(most) {
        Some(number as u16)
    } else {
        None
    }
}

/// The exact numeric type of these sizes, if they are taken.
fn decimal_type(precision: &[u8], scale: &[u8]) -> Option<Ty>
    requires digits { IsTrue (are_digits precision.now) × IsTrue (are_digits scale.now) }
    ensures { result ≡ sized (types.Decimal (digits_value 10 precision.now) (digits_value 10 scale.now)) }
{
    let precision = number_within(precision, MAX_PRECISION)?;
    let scale = number_within(scale, precision)?;
    if 1 <= precision {
        Some(Ty::Decimal {
            precision: precision as u8,
            scale: scale as u8,
        })
    } else {
        None
    }
}

/// The character type of this length, if it is taken.
fn varchar_type(length: &[u8]) -> Option<Ty>
    requires digits { IsTrue (are_digits length.now) }
    ensures { result ≡ sized (types.Varchar (digits_value 10 length.now)) }
{
    let length = number_within(length, MAX_LENGTH)?;
    if 1 <= length {
        Some(Ty::Varchar { length })
    } else {
        None
    }
}

/// The exact numeric type of the sizes in front, and the tokens behind them.
#[tactic(auto, unfolding(crate::specs::Inner::Tables::decimal_at))]
fn decimal<'t, 'a>(tokens: &'t [Token<'a>]) -> Option<(Option<Ty>, &'t [Token<'a>])>
    ensures { option_map (λ x. (x.0, lexemes x.1.now)) result ≡ decimal_at sized (lexemes tokens.now) }
{
    let rest = symbol(tokens, b"(")?;
    let (precision, rest) = digits(rest)?;
    let (scale, rest) = scale(rest)?;
    let rest = symbol(rest, b")")?;
    Some((decimal_type(precision, scale), rest))
}

/// The character type of the length in front, and the tokens behind it.
#[tactic(auto, unfolding(crate::specs::Inner::Tables::varchar_at))]
fn varchar<'t, 'a>(tokens: &'t [Token<'a>]) -> Option<(Option<Ty>, &'t [Token<'a>])>
    ensures { option_map (λ x. (x.0, lexemes x.1.now)) result ≡ varchar_at sized (lexemes tokens.now) }
{
    let rest = symbol(tokens, b"(")?;
    let (length, rest) = digits(rest)?;
    let rest = symbol(rest, b")")?;
    Some((varchar_type(length), rest))
}

/// The data type in front, if its sizes are taken, and the tokens behind it.
#[tactic(auto, unfolding(crate::specs::Inner::Tables::type_at))]
fn data_type<'t, 'a>(tokens: &'t [Token<'a>]) -> Option<(Option<Ty>, &'t [Token<'a>])>
    ensures { option_map (λ x. (x.0, lexemes x.1.now)) result ≡ type_at sized (lexemes tokens.now) }
{
    let (word, rest) = type_word(tokens)?;
    match word {
        TypeWord::Integer => Some((Some(Ty::Integer), rest)),
        TypeWord::Decimal => decimal(rest),
        TypeWord::Date => Some((Some(Ty::Date), rest)),
        TypeWord::Varchar => varchar(rest),
    }
}

/// Whether NOT NULL stands in front, and the tokens behind it.
#[tactic(auto, unfolding(crate::specs::Inner::Tables::nullability_at))]
fn nullability<'t, 'a>(tokens: &'t [Token<'a>]) -> Option<(bool, &'t [Token<'a>])>
    ensures { option_map (λ x. (x.0, lexemes x.1.now)) result ≡ nullability_at (lexemes tokens.now) }
{
    let Some(behind_not) = key_word(tokens, b"NOT") else {
        return Some((false, tokens));
    };
    let rest = key_word(behind_not, b"NULL")?;
    Some((true, rest))
}

/// The column definition in front, and the tokens behind it.
#[tactic(auto, unfolding(crate::specs::Inner::Tables::column_at))]
fn column<'t, 'a>(tokens: &'t [Token<'a>]) -> Option<(WrittenColumn<'a>, &'t [Token<'a>])>
    ensures { option_map (λ x. (written x.0, lexemes x.1.now)) result ≡ column_at sized (lexemes tokens.now) }
{
    let (name, rest) = identifier(tokens)?;
    let (ty, rest) = data_type(rest)?;
    let (not_null, rest) = nullability(rest)?;
    let column = WrittenColumn { name, ty, not_null };
    Some((column, rest))
}

/// The column definition with its name as it is kept.
fn kept(alloc: Global, column: &WrittenColumn<'_>) -> Result<ColumnDefinition, NoMemory>
    ensures { IfOk result (λ kept. read_of kept ≡ written column.now) }
{
    Ok(ColumnDefinition {
        name: name_text(alloc, column.name)?,
        ty: column.ty,
        not_null: column.not_null,
    })
}

/// The column definitions in front, with a comma between each two, and the tokens behind them.
fn list<'t, 'a>(
    alloc: Global,
    tokens: &'t [Token<'a>],
) -> Result<Option<(Vec<ColumnDefinition>, &'t [Token<'a>])>, NoMemory>
    ensures { IfOk result (λ read. option_map (λ x. (map read_of x.0.items, lexemes x.1.now)) read ≡ list_at (column_at sized) (lexemes tokens.now)) }
{
    let Some((first, mut rest)) = column(tokens) else {
        return Ok(None);
    };
    let mut columns = vec![in alloc; kept(alloc, &first)?]?;
    while let Some(behind_comma) = symbol(rest, b",") {
        let Some((next, after)) = column(behind_comma) else {
            return Ok(None);
        };
        columns.push(kept(alloc, &next)?)?;
        rest = after;
    }
    Ok(Some((columns, rest)))
}

/// The name of the table that is created, and the tokens behind the `(`.
#[tactic(auto, unfolding(crate::specs::Inner::Tables::table_at))]
fn table<'t, 'a>(tokens: &'t [Token<'a>]) -> Option<(&'a [u8], &'t [Token<'a>])>
    ensures { option_map (λ x. (folded x.0.now, lexemes x.1.now)) result ≡ table_at (lexemes tokens.now) }
{
    let rest = key_word(tokens, b"CREATE")?;
    let rest = key_word(rest, b"TABLE")?;
    let (table, rest) = regular(rest)?;
    let rest = symbol(rest, b"(")?;
    Some((table, rest))
}

/// Whether no token is left.
fn is_none(tokens: &[Token<'_>]) -> bool
    ensures { result ≡ is_none (lexemes tokens.now) }
{
    match tokens {
        [] => true,
        _ => false,
    }
}

/// The column definitions that the tokens are, with a `)` behind them.
#[tactic(auto, unfolding(crate::specs::Inner::Written::closing))]
fn closed_list(
    alloc: Global,
    tokens: &[Token<'_>],
) -> Result<Option<Vec<ColumnDefinition>>, NoMemory>
    ensures { IfOk result (λ read. option_map (λ x. map read_of x.items) read ≡ all_of closing (lexemes tokens.now)) }
{
    let Some((columns, rest)) = list(alloc, tokens)? else {
        return Ok(None);
    };
    let Some(rest) = symbol(rest, b")") else {
        return Ok(None);
    };
    if is_none(rest) {
        Ok(Some(columns))
    } else {
        Ok(None)
    }
}

/// The table definition that the tokens are.
pub(crate) fn create_table(
    alloc: Global,
    tokens: &[Token<'_>],
) -> Result<Option<TableDefinition>, NoMemory>
    ensures { IfOk result (λ read. option_map definition_read read ≡ all_of (create_table_at sized) (lexemes tokens.now)) }
{
    let Some((table, rest)) = table(tokens) else {
        return Ok(None);
    };
    let Some(columns) = closed_list(alloc, rest)? else {
        return Ok(None);
    };
    Ok(Some(TableDefinition {
        name: folded_text(alloc, table)?,
        columns,
    }))
}
