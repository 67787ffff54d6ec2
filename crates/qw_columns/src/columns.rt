//! `place`: the columns of loaded tables, put into the linear memory.

ghost use Rattle.std.specs.Prelude.{◌≡◌, ◌≤◌, ◌<◌, ◌*◌, ◌↔◌, ℕ, List, Err, length, map, IfErr, IfOk};
ghost use Rattle.std.specs.List.{AllByRecursion};
ghost use Rattle.qw_types.specs.Contents.{AreLoaded, Contents};
ghost use Rattle.qw_types.specs.Limits.{most_tables};
ghost use Rattle.qw_linear.specs.Memory.{AreOctets, most_pages, page};
ghost use Rattle.qw_map.specs.Columns.{Holds, column_pages, map_of, tables_end, columns_start};
ghost use Rattle.qw_columns.specs.Inner.Writing.{AreColumnsOf, GrowsFrom};
ghost use Rattle.qw_columns.specs.declared.columns.PlaceFault.TheVariants.{TooManyPages};

use crate::column_map::{ColumnMap, map_of};
use crate::room::pages_needed;
use crate::writing::{grow_to, write_table};
use qw_csv::{Loaded, LoadedColumn};
use qw_linear::linear::Linear;
use qw_map::layout::COLUMNS_START;
use qw_types::NoMemory;
use std::alloc::Global;
use thiserror::Error;

/// Why columns aren't placed.
#[derive(Clone, Copy, Debug, PartialEq, Eq, Error)]
pub enum PlaceFault {
    /// The columns take more pages than the memory may grow to: so many.
    #[error("{need} pages needed")]
    TooManyPages { need: u64 },
    #[error("want of memory")]
    NoMemory,
}

impl From<NoMemory> for PlaceFault {
    ghost use Rattle.qw_columns.specs.declared.columns.PlaceFault.TheVariants.{NoMemory};

    ghost from_gives = { λ _ fault. fault ≡ NoMemory };

    fn from(_e: NoMemory) -> PlaceFault {
        PlaceFault::NoMemory
    }
}

/// Writes the columns of loaded tables into an empty memory, which grows column by column. A column is freed as soon as it stands there,
/// so that no more than one of them stands twice. Answers where they stand.
///
/// # Errors
///
/// [`PlaceFault::TooManyPages`] where the memory may not grow to the pages of the columns. At any error the memory is as it was.
pub fn place(
    alloc: Global,
    loaded: Vec<Loaded>,
    memory: &mut Linear,
) -> Result<ColumnMap, PlaceFault>
    requires tables { length loaded.items ≤ most_tables }
    requires empty { length memory.old.octets ≡ 0 }
    ensures loaded { AllByRecursion AreLoaded loaded.items }
    ensures too_many { (need : ℕ) → (result ≡ Err (TooManyPages need)) ↔ ((need ≡ column_pages loaded.items) × (memory.old.reserved < need)) }
    ensures unchanged { IfErr result (λ e. memory.new ≡ memory.old) }
    ensures placed { IfOk result (λ m. m.placed ≡ map_of loaded.items) }
    ensures columns { IfOk result (λ m. m.columns ≡ map (λ (table : Contents). table.columns) loaded.items) }
    ensures holds { IfOk result (λ m. Holds (map_of loaded.items) memory.new.octets loaded.items) }
    ensures octets { IfOk result (λ m. AreOctets memory.new.octets) }
    ensures len { IfOk result (λ m. length memory.new.octets ≡ column_pages loaded.items * page) }
    ensures reserved { IfOk result (λ m. memory.new.reserved ≡ memory.old.reserved) }
{
    let need = pages_needed(loaded.as_slice());
    if u64::from(memory.reserved()) < need {
        return Err(PlaceFault::TooManyPages { need });
    }
    let map = map_of(alloc, loaded.as_slice())?;
    let tables = columns_of(alloc, loaded)?;
    write_tables(tables, &map, memory);
    Ok(map)
}

/// The columns of tables, table by table.
fn columns_of(alloc: Global, loaded: Vec<Loaded>) -> Result<Vec<Vec<LoadedColumn>>, NoMemory>
    ensures { IfOk result (λ tables. AreColumnsOf tables.items loaded.items) }
{
    let mut tables = Vec::with_capacity(alloc, loaded.len())?;
    for table in loaded {
        let columns = table.into_columns(alloc)?;
        tables.push(columns)?;
    }
    Ok(tables)
}

/// Writes the columns of tables where the map says, one after another.
fn write_tables(tables: Vec<Vec<LoadedColumn>>, map: &ColumnMap, memory: &mut Linear)
    requires empty { length memory.old.octets ≡ 0 }
    requires room { (loaded : List Contents) × AreColumnsOf tables.items loaded × (map.now.placed ≡ map_of loaded)
        × (tables_end columns_start loaded ≤ memory.old.reserved * page) }
    requires limit { memory.old.reserved ≤ most_pages }
    ensures holds { (loaded : List Contents) → AreColumnsOf tables.items loaded → map.now.placed ≡ map_of loaded
        → Holds (map_of loaded) memory.new.octets loaded }
    ensures grows { GrowsFrom memory.old memory.new columns_start }
    ensures len { (loaded : List Contents) → AreColumnsOf tables.items loaded → map.now.placed ≡ map_of loaded
        → length memory.new.octets ≡ column_pages loaded * page }
{
    grow_to(memory, COLUMNS_START as u64);
    let mut index = 0;
    for columns in tables {
        write_table(columns, map.table(index), memory);
        index += 1;
    }
}
