//! The text that tells a host of a compiled statement.

ghost use Rattle.std.specs.Prelude.{◌≡◌, IfOk};
ghost use Rattle.std.specs.String.{string_bytes};
ghost use Rattle.serde_json.specs.View.{view};
ghost use Rattle.serde_json.specs.Written.{compact_text};
ghost use Rattle.qw_describe.specs.Description.{told};

use crate::tell::tell_all;
use qw_map::layout::Layout;
use qw_module::module::Import;
use qw_order::SortKey;
use qw_sink::sink::Head;
use qw_types::NoMemory;
use qw_types::schema::Table;
use serde_json::{Value, json};
use std::alloc::{AllocError, Global};

/// The description of a module with these imports and this layout, over tables, whose result has this header and is sorted by
/// these keys: one object in JSON, without spaces or line ends.
///
/// # Errors
///
/// [`NoMemory`] where memory does not suffice.
pub fn description(
    alloc: Global,
    tables: &[Table],
    imports: &[Import],
    layout: &Layout,
    header: &[Head],
    keys: &[SortKey],
) -> Result<String, NoMemory>
    ensures { IfOk result (λ text. string_bytes text ≡ compact_text (told tables.now imports.now layout.now header.now keys.now)) }
{
    let value = tell(alloc, tables, imports, layout, header, keys)?;
    Ok(value.to_string(alloc)?)
}

/// The description as a value.
#[tactic(auto, unfolding(crate::specs::Description::told))]
fn tell(
    alloc: Global,
    tables: &[Table],
    imports: &[Import],
    layout: &Layout,
    header: &[Head],
    keys: &[SortKey],
) -> Result<Value, AllocError>
    ensures { IfOk result (λ value. view value ≡ told tables.now imports.now layout.now header.now keys.now) }
{
    let tables = tell_all(alloc, tables)?;
    let imports = tell_all(alloc, imports)?;
    let columns = tell_all(alloc, layout.columns())?;
    let literals = tell_all(alloc, layout.literals())?;
    let results = tell_all(alloc, header)?;
    let order = tell_all(alloc, keys)?;
    json!(in alloc; {
        "tables": tables,
        "imports": imports,
        "columns": columns,
        "literals": literals,
        "results": results,
        "order": order,
    })
}
