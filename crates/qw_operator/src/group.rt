//! A table of groups, as the sink of a pipeline.

use qw_grouped::set_function::SetFunctionKind;
use qw_scalar::expression::Expr;

/// A table of groups that the rows of a pipeline go into.
#[derive(Drop)]
pub struct Group {
    /// The pipeline that fills it, counted from 0.
    pub table: usize,
    /// How many grouped columns there are: the first values of a row are theirs.
    pub columns: usize,
    pub functions: Vec<SetFunctionKind>,
    /// The grouped columns, and behind them an argument for each set function: the number 1 where it is `COUNT(*)`.
    pub values: Vec<Expr>,
}

/// Where rows are put.
#[derive(Clone, Copy, Debug, PartialEq, Eq)]
pub enum Place {
    /// Into a table of groups.
    Table,
    /// Into the areas of the one group of all rows, as without GROUP BY (ISO/IEC 9075:1992, 7.8).
    OneGroup,
}
