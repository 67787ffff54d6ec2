//! How many of the columns that a scan reads are read where an expression is evaluated: it names no column behind them.

ghost use Rattle.std.specs.Prelude.{◌≡◌, ◌≤◌, length, take};
ghost use Rattle.std.specs.List.{AllByRecursion, list_any};
ghost use Rattle.qw_leaves.specs.declared.leaf.Leaf as leaves;
ghost use Rattle.qw_operator.specs.Needed.{IsWithin, names};

use qw_leaves::leaf::Leaf;
use qw_read::reader::Reader;

/// Whether a leaf is this column.
fn is_column(leaf: &Leaf, column: usize) -> bool
    ensures { result ≡ names column leaf.now }
{
    match leaf {
        Leaf::Column(index, _) => *index == column,
        Leaf::Number(_, _) | Leaf::Date(_) | Leaf::Text(_) => false,
    }
}

/// Whether one of these leaves is this column.
fn is_named(leaves: &[Leaf], column: usize) -> bool
    ensures { result ≡ list_any (names column) leaves.now }
{
    leaves.iter().any(|leaf| is_column(leaf, column))
}

/// How many of the columns, in the order in which they are read, are read where these leaves are evaluated: at least those that are read
/// already.
pub fn needed_for(readers: &[Reader], leaves: &[Leaf], done: usize) -> usize
    requires { done ≤ length readers.now }
    ensures ahead { done ≤ result }
    ensures within { result ≤ length readers.now }
    ensures all { AllByRecursion (IsWithin readers.now result) leaves.now }
{
    let mut needed = done;
    for (index, reader) in readers.iter().enumerate() {
        if index >= done && is_named(leaves, reader.column) {
            needed = index + 1;
        }
    }
    needed
}
