//! How values compare, and whether two rows are distinct (ISO/IEC 9075:1992, 8.2, 3.1).

ghost use Rattle.std.specs.Prelude.{◌≡◌};
ghost use Rattle.qw_types.specs.ValueOrder as meaning;

use qw_types::{Row, Val, text_order};
use std::cmp::Ordering;

/// The order of two values, nulls below all.
pub(crate) fn value_order(value: &Val, other: &Val) -> Ordering
    ensures { result ≡ meaning.value_order value.now other.now }
{
    match (value, other) {
        (Val::Null, Val::Null) => Ordering::Equal,
        (Val::Null, Val::Num(_) | Val::Date(_) | Val::Text(_)) => Ordering::Less,
        (Val::Num(_) | Val::Date(_) | Val::Text(_), Val::Null) => Ordering::Greater,
        (Val::Num(a), Val::Num(b)) => a.cmp(b),
        (Val::Num(_), Val::Date(_) | Val::Text(_)) => Ordering::Less,
        (Val::Date(_) | Val::Text(_), Val::Num(_)) => Ordering::Greater,
        (Val::Date(a), Val::Date(b)) => a.cmp(b),
        (Val::Date(_), Val::Text(_)) => Ordering::Less,
        (Val::Text(_), Val::Date(_)) => Ordering::Greater,
        (Val::Text(a), Val::Text(b)) => text_order::compare(a, b),
    }
}

/// Whether two rows aren't distinct.
pub(crate) fn is_same(row: &Row, other: &Row) -> bool
    ensures { result ≡ meaning.is_same_row row.now other.now }
{
    are_same(row.values(), other.values())
}

/// Whether values are equal, or null both, one by one.
#[tactic(auto, using(crate::proofs::Orders::first_same, crate::proofs::Orders::first_differs, crate::proofs::Orders::shorter))]
fn are_same(values: &[Val], others: &[Val]) -> bool
    ensures { result ≡ meaning.is_same_row values.now others.now }
{
    match (values, others) {
        ([], []) => true,
        ([], [_, ..]) | ([_, ..], []) => false,
        ([value, values @ ..], [other, others @ ..]) => {
            if value_order(value, other).is_eq() {
                are_same(values, others)
            } else {
                false
            }
        }
    }
}
