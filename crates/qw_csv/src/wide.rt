//! A record with more fields than there are columns, of which more may come.

ghost use Rattle.std.specs.Prelude.{ℕ, List, [], IsTrue, IfOk};
ghost use Rattle.csv.specs.Reading.{strip_bom};
ghost use Rattle.qw_csv.specs.Inner.Loading.{HasRead};
ghost use Rattle.qw_csv.specs.Inner.Wide.{BeginsWide, IsTooWide};

use crate::loading::{LoadFault, Taken, next_record, number_behind, reader_of};
use csv::{ByteRecord, Reader};
use qw_types::NoMemory;
use qw_types::schema::MAX_ROWS;
use std::alloc::Global;

/// The fault of a record with more fields than there are columns, behind the records that were taken.
pub(crate) fn too_wide(taken: &Taken) -> LoadFault
    ensures { IsTooWide taken.now.named taken.now.before taken.now.loaded.rows result }
{
    if !taken.named {
        return LoadFault::BadHeader;
    }
    let rows = taken.loaded.len();
    if rows < MAX_ROWS {
        let row = number_behind(taken.before, rows);
        return LoadFault::FieldCount { row };
    }
    LoadFault::TooManyRows
}

/// Whether the first record of a text has more than so many fields. It is read only where as many have been counted.
pub(crate) fn is_wide(
    alloc: Global,
    text: &[u8],
    ended: Option<usize>,
    most: usize,
) -> Result<bool, NoMemory>
    ensures { IfOk result (λ wide. IsTrue wide → BeginsWide (strip_bom text.now) most) }
{
    match ended {
        Some(ended) if most <= ended => begins_wide(alloc, text, most),
        _ => Ok(false),
    }
}

/// The same, where it is read.
fn begins_wide(alloc: Global, text: &[u8], most: usize) -> Result<bool, NoMemory>
    ensures { IfOk result (λ wide. IsTrue wide → BeginsWide (strip_bom text.now) most) }
{
    let mut reader = reader_of(alloc, text);
    let mut row = ByteRecord::new(alloc);
    is_next_wide(&mut reader, &mut row, most)
}

/// The same of what a reader gives. It works through a reference, so that no return leaves a reader behind.
fn is_next_wide(
    reader: &mut Reader<&[u8]>,
    row: &mut ByteRecord,
    most: usize,
) -> Result<bool, NoMemory>
    ensures { IfOk result (λ wide. IsTrue wide → (text : List ℕ) → HasRead reader.old text [] → BeginsWide text most) }
{
    if !next_record(reader, row)? {
        return Ok(false);
    }
    Ok(most < row.len())
}
