//! What may be asked of two values.

/// A question about two values: a comparison (ISO/IEC 9075:1992, 8.2 "comp op"), or whether a text matches a pattern (8.5 "like predicate").
#[derive(Clone, Copy, Debug, PartialEq, Eq)]
pub enum Comparison {
    Equal,
    NotEqual,
    Less,
    LessOrEqual,
    Greater,
    GreaterOrEqual,
    /// The left text as a whole matches the pattern that the right one is (8.5).
    Like,
    /// It doesn't.
    NotLike,
}
