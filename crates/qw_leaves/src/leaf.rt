//! What an expression takes from outside.

use qw_types::{Text, Ty};

/// A column or a literal (ISO/IEC 9075:1992, 5.3, 6.4). NULL is no literal.
#[derive(Debug, Drop)]
pub enum Leaf {
    /// A column of the row, counted from 0, and its type.
    Column(usize, Ty),
    /// A number literal and its scale.
    Number(i64, u8),
    /// A date literal, as year * 10000 + month * 100 + day.
    Date(i32),
    /// A text literal.
    Text(Text),
}
