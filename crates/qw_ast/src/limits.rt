//! `MAX_ITEMS`: the most items of a select list, as they are written.

/// The most items of a select list, as they are written.
pub const MAX_ITEMS: usize = 64;
