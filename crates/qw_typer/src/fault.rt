//! Why a query has no meaning over a schema.

use qw_types::Text;
use thiserror::Error;

/// What is wrong with a construct of a query.
#[derive(Clone, Copy, Debug, PartialEq, Eq)]
pub enum FaultKind {
    /// A name in FROM that is no table of the schema, or a qualifier that is no entry in reach (ISO/IEC 9075:1992, 6.3, 6.4).
    UnknownTable,
    /// A name that is no column of the entries in reach (6.4), or a sort key that is no result column (13.1).
    UnknownColumn,
    /// A name without a qualifier that is a column of two entries in reach or more (6.4); a sort key that is two result columns or more
    /// (13.1).
    Ambiguous,
    /// A name that two entries of FROM have (6.3).
    DuplicateAlias,
    /// Operands or results of kinds that don't go together (6.6, 6.9, 6.12, 8.2), or an argument that a set function doesn't take (6.5).
    Clash,
    /// A product or a quotient whose operands have more than 18 digits behind their points, together (6.12), or an average of more than 14
    /// (6.5).
    ScaleTooLarge,
    /// A number of more than 18 digits (5.3).
    LiteralTooLong,
    /// A string that is no day of the years 1 to 9999, an interval that isn't 1 to 7 digits, or a sum out of these years (5.3, 6.14).
    BadDate,
    /// A sort key that is no position of a result column: 0, or more than there are (13.1).
    BadOrdinal,
    /// A column of FROM in the select list or HAVING of a grouped query, outside set functions, that isn't a column of GROUP BY (7.9).
    NotGrouped,
    /// A set function in ON, in WHERE or in the argument of another (6.5, 7.6).
    NestedAggregate,
    /// More than 128 set functions in one query.
    TooManyFunctions,
}

/// Why a script has no meaning over a schema.
#[derive(Debug, Drop, Error)]
pub enum TypeFault {
    /// The first statement with a fault, counted from 1; one of its faults; and a token of the construct at fault, a name as it
    /// is kept and a literal as it is written.
    #[error("statement {statement}: {kind:?}")]
    Fault {
        statement: usize,
        kind: FaultKind,
        name: Text,
    },
    #[error("want of memory")]
    NoMemory,
}
