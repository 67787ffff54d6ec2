//! One field of a table's file, as a value of its column.

ghost use Rattle.std.specs.Prelude.{◌≡◌, ◌<◌, ◌↔◌, IsTrue, None, MatchResult, chars, length};
ghost use Rattle.qw_types.specs.Value.{IsSized};
ghost use Rattle.qw_types.specs.declared.value.Ty.TheVariants.{Varchar};
ghost use Rattle.qw_csv.specs.Field.{IsFieldFault, IsFieldOf, IsMarkedFault, IsMarkedFieldOf, IsTypedFault, IsTypedFieldOf, lent, val_of};
ghost use Rattle.qw_csv.specs.Inner.Storage.{IsWrittenText, is_marked};

use qw_types::date_text::read_date;
use qw_types::numeral::read_number;
use qw_types::{Column, FieldFault, Ty};
use thiserror::Error;

/// A value, its text lent.
#[derive(Clone, Copy, Debug)]
pub enum Cell<'a> {
    Null,
    /// A number, as the whole number that it is at its column's scale.
    Num(i64),
    /// A date, as year * 10000 + month * 100 + day.
    Date(i32),
    /// The octets of a text.
    Text(&'a [u8]),
}

/// Why a field stands for no value of its column.
#[derive(Clone, Copy, Debug, PartialEq, Eq, Error)]
pub enum CellFault {
    /// It shows no number or date of the column's type.
    #[error("{0}")]
    Form(FieldFault),
    /// It stands for null, and the column is NOT NULL and, where this is the empty field, none of texts.
    #[error("null forbidden")]
    NullForbidden,
    /// It has more characters than the column's texts may have.
    #[error("text too long")]
    TextTooLong,
    #[error("not utf-8")]
    NotUtf8,
}

/// Whether a field is the text that stands for null, where one does.
pub(crate) fn is_marked(null: Option<&[u8]>, field: &[u8]) -> bool
    ensures { result ≡ is_marked (lent null.entry) field.now }
{
    match null {
        None => false,
        Some(null) => field == null,
    }
}

/// The value that a field stands for in a column. Where `null` is given, the field that is this text stands for null, else the empty one.
pub(crate) fn cell_of<'a>(
    column: &Column,
    null: Option<&[u8]>,
    field: &'a [u8],
) -> Result<Cell<'a>, CellFault>
    requires { IsSized column.now.ty }
    ensures { MatchResult result (λ cell. IsFieldOf (lent null.entry) column.now field.now (val_of cell)) (IsFieldFault (lent null.entry) column.now field.now) }
{
    if null.is_none() {
        return plain_cell(column, field);
    }
    marked_cell(column, is_marked(null, field), field)
}

/// The same, where a text stands for null, by whether the field is this text.
fn marked_cell<'a>(column: &Column, marked: bool, field: &'a [u8]) -> Result<Cell<'a>, CellFault>
    requires { IsSized column.now.ty }
    ensures { MatchResult result (λ cell. IsMarkedFieldOf marked column.now field.now (val_of cell)) (IsMarkedFault marked column.now field.now) }
{
    if !marked {
        return typed_cell(&column.ty, field);
    }
    if column.not_null {
        return Err(CellFault::NullForbidden);
    }
    Ok(Cell::Null)
}

/// The same, where the empty field stands for null.
fn plain_cell<'a>(column: &Column, field: &'a [u8]) -> Result<Cell<'a>, CellFault>
    requires { IsSized column.now.ty }
    ensures { MatchResult result (λ cell. IsFieldOf None column.now field.now (val_of cell)) (IsFieldFault None column.now field.now) }
{
    if !field.is_empty() {
        return typed_cell(&column.ty, field);
    }
    match column.ty {
        _ if !column.not_null => Ok(Cell::Null),
        Ty::Varchar { .. } => Ok(Cell::Text(field)),
        _ => Err(CellFault::NullForbidden),
    }
}

/// The value that a field that is judged by a type stands for.
fn typed_cell<'a>(ty: &Ty, field: &'a [u8]) -> Result<Cell<'a>, CellFault>
    requires { IsSized ty.now }
    ensures { MatchResult result (λ cell. IsTypedFieldOf ty.now field.now (val_of cell)) (IsTypedFault ty.now field.now) }
{
    match ty {
        Ty::Date => match read_date(field) {
            Ok(date) => Ok(Cell::Date(date)),
            Err(fault) => Err(CellFault::Form(fault)),
        },
        Ty::Varchar { length } => text_cell(*length, field),
        _ => match read_number(field, ty) {
            Ok(number) => Ok(Cell::Num(number)),
            Err(fault) => Err(CellFault::Form(fault)),
        },
    }
}

/// Whether a field that isn't empty is a text of a type, and has no more octets than the type allows characters, so that these
/// need not be counted.
pub(crate) fn is_short_text(ty: &Ty, field: &[u8]) -> bool
    ensures { IsTrue result → IsWrittenText ty.now field.now field.now }
{
    let Ty::Varchar { length } = ty else {
        return false;
    };
    if field.is_empty() || field.len() > usize::from(*length) {
        return false;
    }
    std::str::from_utf8(field).is_ok()
}

/// The text of so many characters at most that a field is.
fn text_cell<'a>(length: u16, field: &'a [u8]) -> Result<Cell<'a>, CellFault>
    ensures { MatchResult result (λ cell. IsTypedFieldOf (Varchar length) field.now (val_of cell)) (IsTypedFault (Varchar length) field.now) }
{
    match std::str::from_utf8(field) {
        Err(_) => Err(CellFault::NotUtf8),
        Ok(text) if is_longer(text, usize::from(length)) => Err(CellFault::TextTooLong),
        Ok(_) => Ok(Cell::Text(field)),
    }
}

/// Whether a text has more characters than this. Where it has no more octets, they need not be counted.
fn is_longer(text: &str, limit: usize) -> bool
    ensures { IsTrue result ↔ (limit < length (chars text.now)) }
{
    text.len() > limit && characters(text) > limit
}

/// How many characters a text has: Unicode scalar values.
fn characters(text: &str) -> usize
    ensures { result ≡ length (chars text.now) }
{
    text.chars().count()
}
