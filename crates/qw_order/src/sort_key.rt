//! A key of ORDER BY.

/// A key of ORDER BY: a result column and a direction (ISO/IEC 9075:1992, 13.1 "sort specification").
#[derive(Clone, Copy, Debug, PartialEq, Eq)]
pub struct SortKey {
    /// The column of the result, counted from 0.
    pub position: usize,
    /// Whether the greatest value comes first: DESC, and not ASC.
    pub is_descending: bool,
}
