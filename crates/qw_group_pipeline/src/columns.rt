//! Where the columns of the grouped table come from (ISO/IEC 9075:1992, 7.7): the key of a group, and the values of its set functions.

use qw_grouped::set_function::SetFunctionKind;
use qw_physical::ReadColumn;
use qw_types::{Kind, Ty};

/// A column of the grouped table that has the values of a set function.
#[derive(Clone, Copy, Debug, PartialEq, Eq)]
pub struct ValueColumn {
    /// Its number in the rows of the grouped table.
    pub number: usize,
    /// The type of its values.
    pub ty: Ty,
    pub function: SetFunctionKind,
    /// The kind of the function's argument.
    pub argument: Kind,
}

/// The columns of the grouped table, as an entry of a table of groups has them.
#[derive(Drop)]
pub struct GroupColumns {
    /// Those of the key, in the order of its cells.
    pub key: Vec<ReadColumn>,
    /// And the values of the set functions, in the order of their areas.
    pub values: Vec<ValueColumn>,
}
