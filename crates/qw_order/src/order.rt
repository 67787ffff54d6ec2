//! Rows sorted by keys, by the stable sort of `std`.

ghost use Rattle.std.specs.Prelude.{◌≡◌, ◌≤◌, IfOk, IsOk, vec_len};
ghost use Rattle.qw_types.specs.ValueOrder.{value_order};
ghost use Rattle.qw_order.specs.Order.{AreSorted, directed, key_order, key_value};

use crate::sort_key::SortKey;
use qw_types::{NoMemory, Row, Val, text_order};
use std::cmp::Ordering;

/// Rows in the order of keys.
///
/// # Errors
///
/// [`NoMemory`] where the memory that the sort takes beside the rows isn't there; of 20 rows or fewer it takes none.
pub fn order(mut rows: Vec<Row>, keys: &[SortKey]) -> Result<Vec<Row>, NoMemory>
    ensures sorted { IfOk result (λ sorted. AreSorted keys.now rows.items sorted.items) }
    ensures few { vec_len rows ≤ 20 → IsOk result }
{
    rows.sort_by(|row, other| by_keys(keys, row, other))?;
    Ok(rows)
}

/// How two rows stand by keys, the first key first.
fn by_keys(keys: &[SortKey], row: &Row, other: &Row) -> Ordering
    ensures { result ≡ key_order keys.now row.now other.now }
{
    for key in keys {
        let found = by_key(*key, row, other);
        if found != Ordering::Equal {
            return found;
        }
    }
    Ordering::Equal
}

/// How two rows stand by one key.
fn by_key(key: SortKey, row: &Row, other: &Row) -> Ordering
    ensures { result ≡ directed key.is_descending (value_order (key_value key row.now) (key_value key other.now)) }
{
    let found = match (
        row.values().get(key.position),
        other.values().get(key.position),
    ) {
        (Some(value), Some(other)) => by_value(value, other),
        (Some(value), None) => by_value(value, &Val::Null),
        (None, Some(other)) => by_value(&Val::Null, other),
        (None, None) => Ordering::Equal,
    };
    if key.is_descending {
        found.reverse()
    } else {
        found
    }
}

/// How two values compare, nulls below all others.
fn by_value(value: &Val, other: &Val) -> Ordering
    ensures { result ≡ value_order value.now other.now }
{
    match (value, other) {
        (Val::Null, Val::Null) => Ordering::Equal,
        (Val::Null, _) => Ordering::Less,
        (_, Val::Null) => Ordering::Greater,
        (Val::Num(number), Val::Num(other)) => number.cmp(other),
        (Val::Date(day), Val::Date(other)) => day.cmp(other),
        (Val::Text(text), Val::Text(other)) => text_order::compare(text, other),
        (Val::Num(_), _) | (Val::Date(_), Val::Text(_)) => Ordering::Less,
        (Val::Date(_) | Val::Text(_), _) => Ordering::Greater,
    }
}
