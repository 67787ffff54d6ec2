//! Where the value of an expression is.

use qw_low::cell::Cell;
use qw_types::Kind;

/// The value of an expression: its locals, its kind (none where it is always null), its scale,
/// and of a number the greatest magnitude that it may have.
#[derive(Clone, Copy, Debug, PartialEq, Eq)]
pub struct Operand {
    pub cell: Cell,
    pub kind: Option<Kind>,
    pub scale: u8,
    pub most: u64,
}
