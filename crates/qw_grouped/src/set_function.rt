//! The set functions.

use qw_scalar::expression::Expr;

/// What a set function reckons over the rows of a group (ISO/IEC 9075:1992, 6.5 "set function specification").
#[derive(Clone, Copy, Debug, PartialEq, Eq)]
pub enum SetFunctionKind {
    /// `COUNT(*)`: how many rows there are.
    CountRows,
    /// `COUNT(x)`: at how many of them the argument isn't null.
    Count,
    /// `SUM(x)`: the sum of the values that aren't null, at the argument's scale; null where there are none.
    Sum,
    /// `AVG(x)`: that sum over their number, with four digits more behind the point; null where there are none.
    Avg,
    /// `MIN(x)`: the least of them; null where there are none.
    Min,
    /// `MAX(x)`: the greatest of them; null where there are none.
    Max,
}

/// A set function of an argument, which is over the columns of FROM. `COUNT(*)` has none, and the number 1 stands in its place.
#[derive(Drop)]
pub struct SetFunction {
    pub kind: SetFunctionKind,
    pub argument: Expr,
}
