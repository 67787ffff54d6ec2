//! The values of one column, as they are kept: an INTEGER or a DATE takes four octets, a DECIMAL eight, a text its octets
//! and four more, and a column that may be null an octet a row beside.

ghost use Rattle.std.specs.Prelude.{◌≡◌, ◌≤◌, ◌-◌, ◌++◌, ◌<◌, ℕ, suc, take, drop, Bool, true, ◌↔◌, IsTrue, [], ◌∷◌, length, Some, IfOk, MatchResult, OnOk, slice_get};
ghost use Rattle.std.specs.Bool.{MatchBool};
ghost use Rattle.qw_types.specs.Value.{IsOfTypeOrNull, IsSized};
ghost use Rattle.qw_types.specs.declared.value.Ty.{Ty};
ghost use Rattle.qw_types.specs.declared.value.Ty.TheVariants as ty;
ghost use Rattle.qw_types.specs.declared.value.Ty.TheVariants.{Decimal, Integer, Varchar};
ghost use Rattle.qw_types.specs.declared.value.Val.{Val};
ghost use Rattle.qw_types.specs.declared.value.Val.TheVariants as val;
ghost use Rattle.qw_types.specs.declared.value.Val.TheVariants.{Num};
ghost use Rattle.qw_types.specs.Contents.{column_type};
ghost use Rattle.qw_csv.specs.Cells.{AreCellsFor};
ghost use Rattle.qw_csv.specs.Contents.{integer_column};
ghost use Rattle.qw_types.specs.declared.schema.ColumnType.{ColumnType};
ghost use Rattle.qw_csv.specs.Field.{IsFieldFault, IsFieldOf, lent, val_of};
ghost use Rattle.qw_csv.specs.Inner.Storage.{AreCellsOf, AreEnds, AreKept, IsLiteralOf, is_null, placed, plain_values, texts_from, values_in};

use crate::cell::{Cell, CellFault, cell_of, is_marked, is_short_text};
use crate::column_cells::ColumnCells;
use qw_types::date_text::read_date;
use qw_types::numeral::{read_integer, read_number};
use qw_types::{Column, ColumnType, NoMemory, Ty};
use std::alloc::Global;

/// A column without its name.
pub(crate) fn column_type(column: &Column) -> ColumnType
    ensures { result ≡ column_type column.now }
{
    ColumnType {
        ty: column.ty,
        not_null: column.not_null,
    }
}

/// The values of one column, in the order of the rows.
#[derive(Debug, Drop)]
pub(crate) struct Values {
    cells: Cells,
    /// Whether each value is null; none where the column is NOT NULL.
    nulls: Vec<bool>,
}

/// The values of a column, 0 or the empty text in place of nulls.
#[derive(Debug, Drop)]
enum Cells {
    Integers(Vec<i32>),
    Decimals(Vec<i64>),
    Dates(Vec<i32>),
    Texts(Texts),
}

/// Texts one after another.
#[derive(Debug, Drop)]
struct Texts {
    /// Where each one ends in the octets.
    ends: Vec<u32>,
    octets: Vec<u8>,
}

impl Texts {
    /// Puts a text behind the others. Want of memory, too, where all together had 2^32 octets: a million texts of 4,000 octets have
    /// fewer.
    fn push(&mut self, text: &[u8]) -> Result<(), NoMemory>
        requires { AreEnds 0 self.old.ends.items (length self.old.octets.items) }
        ensures texts { OnOk result (texts_from 0 self.new.ends.items self.new.octets.items
            ≡ texts_from 0 self.old.ends.items self.old.octets.items ++ text.now ∷ []) }
        ensures ends { OnOk result (AreEnds 0 self.new.ends.items (length self.new.octets.items)) }
    {
        self.octets.extend_from_slice(text)?;
        let Ok(end) = u32::try_from(self.octets.len()) else {
            return Err(NoMemory);
        };
        self.ends.push(end)?;
        Ok(())
    }
}

impl Texts {
    /// The text of a row.
    fn get(&self, row: usize) -> &[u8]
        requires ends { AreEnds 0 self.now.ends.items (length self.now.octets.items) }
        requires row { row < length self.now.ends.items }
        ensures { slice_get (texts_from 0 self.now.ends.items self.now.octets.items) row ≡ Some result.now }
    {
        let octets = self.octets.as_slice();
        let start = self.start(row);
        let end = self.ends[row] as usize;
        part(octets, start, end)
    }

    /// Where the text of a row starts: at the end of the one before.
    fn start(&self, row: usize) -> usize
        requires row { row < length self.now.ends.items }
        ensures first { row ≡ 0 → result ≡ 0 }
        ensures later { (before : ℕ) → row ≡ suc before → slice_get self.now.ends.items before ≡ Some result }
    {
        if row == 0 {
            return 0;
        }
        self.ends[row - 1] as usize
    }
}

impl Cells {
    /// No cells.
    fn new(alloc: Global, ty: Ty) -> Self
        ensures form { AreCellsOf ty result }
        ensures none { plain_values result ≡ [] }
    {
        match ty {
            Ty::Integer => Cells::Integers(Vec::new(alloc)),
            Ty::Decimal { .. } => Cells::Decimals(Vec::new(alloc)),
            Ty::Date => Cells::Dates(Vec::new(alloc)),
            Ty::Varchar { .. } => Cells::Texts(Texts {
                ends: Vec::new(alloc),
                octets: Vec::new(alloc),
            }),
        }
    }

    /// Puts a value of the column behind the others; 0 or the empty text for null.
    fn push(&mut self, column: ColumnType, cell: Cell<'_>) -> Result<(), NoMemory>
        requires form { AreCellsOf column.ty self.old }
        requires typed { IsOfTypeOrNull column.ty column.not_null (val_of cell) }
        ensures form { OnOk result (AreCellsOf column.ty self.new) }
        ensures pushed { OnOk result (plain_values self.new ≡ plain_values self.old ++ placed column.ty (val_of cell.entry) ∷ []) }
    {
        match self {
            Cells::Integers(numbers) => numbers.push(integer_in(cell))?,
            Cells::Decimals(numbers) => numbers.push(number_in(cell))?,
            Cells::Dates(dates) => dates.push(date_in(cell))?,
            Cells::Texts(texts) => texts.push(text_in(cell))?,
        }
        Ok(())
    }
}

impl Cells {
    /// Puts the number or date that a field of the column shows behind the others, or the short text that it is. Where it is none of
    /// these, nothing is put, and the answer is false.
    fn push_literal(&mut self, column: &Column, field: &[u8]) -> Result<bool, NoMemory>
        requires form { AreCellsOf column.now.ty self.old }
        requires sized { IsSized column.now.ty }
        ensures { IfOk result (λ put. MatchBool put
            ((value : Val) × IsLiteralOf column.now.ty field.now value × AreCellsOf column.now.ty self.new × (plain_values self.new ≡ plain_values self.old ++ value ∷ []))
            (self.new ≡ self.old)) }
    {
        match self {
            Cells::Integers(numbers) => match read_integer(field) {
                Ok(number) => numbers.push(number)?,
                Err(_) => return Ok(false),
            },
            Cells::Decimals(numbers) => match read_number(field, &column.ty) {
                Ok(number) => numbers.push(number)?,
                Err(_) => return Ok(false),
            },
            Cells::Dates(dates) => match read_date(field) {
                Ok(date) => dates.push(date)?,
                Err(_) => return Ok(false),
            },
            Cells::Texts(texts) if is_short_text(&column.ty, field) => texts.push(field)?,
            Cells::Texts(_) => return Ok(false),
        }
        Ok(true)
    }
}

impl Cells {
    /// What stands in the place of a row's value.
    fn get(&self, row: usize) -> Cell<'_>
        requires form { (ty : Ty) × AreCellsOf ty self.now }
        requires row { row < length (plain_values self.now) }
        ensures { slice_get (plain_values self.now) row ≡ Some (val_of result) }
    {
        match self {
            Cells::Integers(numbers) => Cell::Num(i64::from(numbers[row])),
            Cells::Decimals(numbers) => Cell::Num(numbers[row]),
            Cells::Dates(dates) => Cell::Date(dates[row]),
            Cells::Texts(texts) => Cell::Text(texts.get(row)),
        }
    }
}

impl Values {
    /// The value of a row.
    pub(crate) fn get(&self, row: usize) -> Cell<'_>
        requires kept { (column : ColumnType) × AreKept column self.now }
        requires row { row < length (values_in self.now) }
        ensures { slice_get (values_in self.now) row ≡ Some (val_of result) }
    {
        if is_flagged(self.nulls.as_slice(), row) {
            return Cell::Null;
        }
        self.cells.get(row)
    }
}

impl Values {
    /// All values, as they are kept.
    pub(crate) fn cells(&self) -> ColumnCells<'_>
        ensures { (type : ColumnType) → AreKept type self.now → AreCellsFor type.ty result (values_in self.now) }
    {
        match &self.cells {
            Cells::Integers(numbers) => ColumnCells::Short(numbers.as_slice()),
            Cells::Decimals(numbers) => ColumnCells::Long(numbers.as_slice()),
            Cells::Dates(dates) => ColumnCells::Short(dates.as_slice()),
            Cells::Texts(texts) => ColumnCells::Texts {
                ends: texts.ends.as_slice(),
                octets: texts.octets.as_slice(),
            },
        }
    }
}

impl Values {
    /// No values.
    pub(crate) fn new(alloc: Global, column: ColumnType) -> Self
        ensures kept { AreKept column result }
        ensures none { values_in result ≡ [] }
    {
        Values {
            cells: Cells::new(alloc, column.ty),
            nulls: Vec::new(alloc),
        }
    }

    /// Puts a value of the column behind the others.
    pub(crate) fn push(&mut self, column: ColumnType, cell: Cell<'_>) -> Result<(), NoMemory>
        requires kept { AreKept column self.old }
        requires typed { IsOfTypeOrNull column.ty column.not_null (val_of cell) }
        ensures kept { OnOk result (AreKept column self.new) }
        ensures pushed { OnOk result (values_in self.new ≡ values_in self.old ++ val_of cell.entry ∷ []) }
    {
        self.cells.push(column, cell)?;
        if !column.not_null {
            self.nulls.push(is_null(cell))?;
        }
        Ok(())
    }
}

impl Values {
    /// Puts the number or date that a field of the column shows behind the others, or the short text that it is. Where it is none of
    /// these, nothing is put, and the answer is false.
    fn push_literal(&mut self, column: &Column, field: &[u8]) -> Result<bool, NoMemory>
        requires kept { AreKept (column_type column.now) self.old }
        requires sized { IsSized column.now.ty }
        ensures { IfOk result (λ put. MatchBool put
            ((value : Val) × IsLiteralOf column.now.ty field.now value × AreKept (column_type column.now) self.new × (values_in self.new ≡ values_in self.old ++ value ∷ []))
            (self.new ≡ self.old)) }
    {
        if !self.cells.push_literal(column, field)? {
            return Ok(false);
        }
        if !column.not_null {
            self.nulls.push(false)?;
        }
        Ok(true)
    }
}

impl Values {
    /// Puts the value that a field of the column stands for behind the others, or tells why it stands for none. Where `null` is given, the
    /// field that is this text stands for null, else the empty one.
    pub(crate) fn push_field(
        &mut self,
        column: &Column,
        null: Option<&[u8]>,
        field: &[u8],
    ) -> Result<Result<(), CellFault>, NoMemory>
        requires kept { AreKept (column_type column.now) self.old }
        requires sized { IsSized column.now.ty }
        ensures { IfOk result (λ put. MatchResult put
            (λ _. (value : Val) × IsFieldOf (lent null.entry) column.now field.now value × AreKept (column_type column.now) self.new × (values_in self.new ≡ values_in self.old ++ value ∷ []))
            (IsFieldFault (lent null.entry) column.now field.now)) }
    {
        if is_marked(null, field) {
            return self.push_other(column, null, field);
        }
        if self.push_literal(column, field)? {
            return Ok(Ok(()));
        }
        self.push_other(column, null, field)
    }

    /// As [`Values::push_field`], of a field in any form.
    #[cold]
    #[inline(never)]
    fn push_other(
        &mut self,
        column: &Column,
        null: Option<&[u8]>,
        field: &[u8],
    ) -> Result<Result<(), CellFault>, NoMemory>
        requires kept { AreKept (column_type column.now) self.old }
        requires sized { IsSized column.now.ty }
        ensures { IfOk result (λ put. MatchResult put
            (λ _. (value : Val) × IsFieldOf (lent null.entry) column.now field.now value × AreKept (column_type column.now) self.new × (values_in self.new ≡ values_in self.old ++ value ∷ []))
            (IsFieldFault (lent null.entry) column.now field.now)) }
    {
        match cell_of(column, null, field) {
            Ok(cell) => {
                self.push(column_type(column), cell)?;
                Ok(Ok(()))
            }
            Err(fault) => Ok(Err(fault)),
        }
    }
}

impl Values {
    /// The value of a row of an INTEGER NOT NULL column.
    pub(crate) fn integer(&self, row: usize) -> i32
        requires kept { AreKept integer_column self.now }
        requires row { row < length (values_in self.now) }
        ensures { slice_get (values_in self.now) row ≡ Some (Num result) }
    {
        match &self.cells {
            Cells::Integers(numbers) => numbers[row],
            _ => unreachable!(),
        }
    }
}

/// Whether the flag of a row is set, where it has one.
fn is_flagged(flags: &[bool], row: usize) -> bool
    ensures { IsTrue result ↔ (slice_get flags.now row ≡ Some true) }
{
    matches!(flags.get(row), Some(true))
}

/// The octets from one place to another.
fn part(octets: &[u8], start: usize, end: usize) -> &[u8]
    requires { (start ≤ end) × (end ≤ length octets.now) }
    ensures { result.now ≡ take (end - start) (drop start octets.now) }
{
    &octets[start..end]
}

/// Whether a value is null.
fn is_null(cell: Cell<'_>) -> bool
    ensures { result ≡ is_null (val_of cell.entry) }
{
    matches!(cell, Cell::Null)
}

/// The number of an INTEGER's value, 0 for null.
fn integer_in(cell: Cell<'_>) -> i32
    requires { (not_null : Bool) × IsOfTypeOrNull Integer not_null (val_of cell) }
    ensures { placed Integer (val_of cell.entry) ≡ Num result }
{
    match cell {
        Cell::Num(number) => number as i32,
        _ => 0,
    }
}

/// The number of a DECIMAL's value, 0 for null.
fn number_in(cell: Cell<'_>) -> i64
    ensures { (precision scale : ℕ) (not_null : Bool) → IsOfTypeOrNull (Decimal precision scale) not_null (val_of cell.entry)
        → placed (Decimal precision scale) (val_of cell.entry) ≡ Num result }
{
    match cell {
        Cell::Num(number) => number,
        _ => 0,
    }
}

/// The number of a DATE's value, 0 for null.
fn date_in(cell: Cell<'_>) -> i32
    ensures { (not_null : Bool) → IsOfTypeOrNull ty.Date not_null (val_of cell.entry) → placed ty.Date (val_of cell.entry) ≡ val.Date result }
{
    match cell {
        Cell::Date(date) => date,
        _ => 0,
    }
}

/// The octets of a text, none for null.
fn text_in<'a>(cell: Cell<'a>) -> &'a [u8]
    ensures { (limit : ℕ) (not_null : Bool) → IsOfTypeOrNull (Varchar limit) not_null (val_of cell.entry)
        → placed (Varchar limit) (val_of cell.entry) ≡ val.Text result.now }
{
    match cell {
        Cell::Text(text) => text,
        _ => &[],
    }
}
