//! Lines of fields (RFC 4180), a field at a time.

ghost use Rattle.std.specs.Prelude.{◌≡◌, ◌≤◌, ◌<◌, ◌-◌, ◌^◌, ◌++◌, ◌∷◌, [], List, ℕ, length, map, OnOk};
ghost use Rattle.std.specs.String.{string_bytes};
ghost use Rattle.qw_sink.specs.Sink.{date_text, kind_scale, line_of, printed, with_digit, with_two};
ghost use Rattle.qw_sink.specs.Inner.Cells.{val_of};
ghost use Rattle.qw_sink.specs.Inner.Sink.{HasBegun, HasWritten};

use crate::cells::Cell;
use crate::sink::Head;
use csv::Writer;
use qw_types::number_text::push_decimal;
use qw_types::{Kind, NoMemory};
use std::alloc::AllocError;

/// Writes a line of the names of the columns.
pub(crate) fn write_names(writer: &mut Writer<Vec<u8>>, header: &[Head]) -> Result<(), NoMemory>
    ensures { OnOk result ((text : List ℕ) → HasWritten writer.old text
        → HasWritten writer.new (text ++ line_of (map (λ h. h.name) header.now))) }
{
    for head in header {
        write_field(writer, head.name.as_str().as_bytes())?;
    }
    end_line(writer)
}

/// Writes a field of the text of a value of a kind, at the end of the line that has begun. Numbers and dates stand in `digits` for a
/// while, texts are written from where they lie, so that a value takes no memory.
pub(crate) fn write_cell(
    writer: &mut Writer<Vec<u8>>,
    digits: &mut String,
    kind: Kind,
    cell: Cell<'_>,
) -> Result<(), NoMemory>
    ensures { OnOk result ((text : List ℕ) (fields : List (List ℕ)) → length fields < 2 ^ 64 - 1 → HasBegun writer.old text fields
        → HasBegun writer.new text (fields ++ printed kind (val_of cell.entry) ∷ [])) }
{
    digits.clear();
    match cell {
        Cell::Null => {}
        Cell::Number(number) => push_decimal(digits, number, scale_of(kind))?,
        Cell::Date(day) => print_date(digits, day.unsigned_abs())?,
        Cell::Text(octets) => return write_field(writer, octets),
    }
    write_field(writer, digits.as_bytes())
}

/// The digits after the point of a kind's numbers.
fn scale_of(kind: Kind) -> u8
    ensures { result ≡ kind_scale kind }
{
    match kind {
        Kind::Number(scale) => scale,
        Kind::Date | Kind::Text => 0,
    }
}

/// Adds a date that is kept as one number, as YYYY-MM-DD, to an empty text.
fn print_date(text: &mut String, day: u32) -> Result<(), AllocError>
    requires { string_bytes text.old ≡ [] }
    ensures { OnOk result (string_bytes text.new ≡ date_text day) }
{
    print_two(text, day, 1_000_000)?;
    print_two(text, day, 10_000)?;
    text.push_str("-")?;
    print_two(text, day, 100)?;
    text.push_str("-")?;
    print_two(text, day, 1)
}

/// Adds two digits of a number, of which the second is that of this power of ten.
fn print_two(text: &mut String, number: u32, power: u32) -> Result<(), AllocError>
    requires { (1 ≤ power) × (power ≤ 1000000) }
    ensures { OnOk result (string_bytes text.new ≡ with_two (string_bytes text.old) number power) }
{
    print_digit(text, number, 10 * power)?;
    print_digit(text, number, power)
}

/// Adds the digit of a power of ten.
fn print_digit(text: &mut String, number: u32, power: u32) -> Result<(), AllocError>
    requires { 1 ≤ power }
    ensures { OnOk result (string_bytes text.new ≡ with_digit (string_bytes text.old) number power) }
{
    let digit = number / power % 10;
    write!(text, "{digit}")
}

/// Writes a field at the end of the line that has begun.
fn write_field(writer: &mut Writer<Vec<u8>>, field: &[u8]) -> Result<(), NoMemory>
    ensures { OnOk result ((text : List ℕ) (fields : List (List ℕ)) → length fields < 2 ^ 64 - 1 → HasBegun writer.old text fields
        → HasBegun writer.new text (fields ++ field.now ∷ [])) }
{
    match writer.write_field(field) {
        Ok(()) => Ok(()),
        Err(_) => Err(NoMemory),
    }
}

/// Ends the line that has begun.
pub(crate) fn end_line(writer: &mut Writer<Vec<u8>>) -> Result<(), NoMemory>
    ensures { OnOk result ((text : List ℕ) (fields : List (List ℕ)) → HasBegun writer.old text fields
        → HasWritten writer.new (text ++ line_of fields)) }
{
    match writer.end_record() {
        Ok(()) => Ok(()),
        Err(_) => Err(NoMemory),
    }
}
