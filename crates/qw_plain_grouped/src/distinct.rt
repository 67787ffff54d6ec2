//! Rows without those that aren't distinct from an earlier one (ISO/IEC 9075:1992, 3.1, 7.9).

ghost use Rattle.std.specs.Prelude.{◌≡◌, [], ◌∷◌, ◌++◌, IfOk, OnOk, not};
ghost use Rattle.std.specs.List.{filter};
ghost use Rattle.qw_types.specs.ValueOrder.{is_same_row};
ghost use Rattle.qw_grouped.specs.Groups as meaning;

use crate::order::is_same;
use crate::rows::copied;
use qw_types::{NoMemory, Row};
use std::alloc::Global;

/// Of rows that aren't distinct the first.
pub(crate) fn once(alloc: Global, rows: &[Row]) -> Result<Vec<Row>, NoMemory>
    ensures { IfOk result (λ all. all.items ≡ meaning.once rows.now) }
{
    let mut all = Vec::new(alloc);
    let mut at = rows.len();
    while at > 0 {
        at -= 1;
        all = with_first(alloc, &rows[at], all)?;
    }
    Ok(all)
}

/// A row, and behind it the others that are distinct from it.
fn with_first(alloc: Global, row: &Row, others: Vec<Row>) -> Result<Vec<Row>, NoMemory>
    ensures { IfOk result (λ all. all.items ≡ row.now ∷ filter (λ other. not (is_same_row row.now other)) others.items) }
{
    let mut all = vec![in alloc; copied(alloc, row)?]?;
    for other in others {
        add_unless_same(row, other, &mut all)?;
    }
    Ok(all)
}

/// Adds a row that is distinct from another.
fn add_unless_same(row: &Row, other: Row, all: &mut Vec<Row>) -> Result<(), NoMemory>
    ensures { OnOk result (all.new.items ≡ all.old.items ++ filter (λ o. not (is_same_row row.now o)) (other ∷ [])) }
{
    if !is_same(row, &other) {
        all.push(other)?;
    }
    Ok(())
}
