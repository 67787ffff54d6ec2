//! A query as it is asked: grouped or not, with DISTINCT or without.

use crate::query::GroupedQuery;
use qw_meaning::query::Query;

/// A query but for its DISTINCT.
#[derive(Drop)]
pub enum Body {
    /// Neither GROUP BY nor HAVING, nor a set function.
    Plain(Query),
    /// With one of them.
    Grouped(GroupedQuery),
}

/// A query specification (ISO/IEC 9075:1992, 7.9), and whether it gives each row once. What it comes to is `whole_outcome`.
#[derive(Drop)]
pub struct WholeQuery {
    pub body: Body,
    pub distinct: bool,
}
