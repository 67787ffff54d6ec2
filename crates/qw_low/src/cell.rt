//! The locals in which blocks keep values.

/// A local, by its index.
pub type Local = u32;

/// The locals of one value: of a number or a date an i64; of a text its address and its length, both i32; of a truth an i32.
#[derive(Clone, Copy, Debug, PartialEq, Eq)]
pub struct Cell {
    /// The value, or a text's address.
    pub value: Local,
    /// A text's octets are so many. Of no other value is it used.
    pub length: Local,
    /// Holds 1 where the value is null, or a truth unknown, and else 0. Without it the value is never null.
    pub null: Option<Local>,
}
