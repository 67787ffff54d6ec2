ghost use Rattle.std.specs.Prelude.{◌≡◌};

use crate::value::Val;
use std::marker::Model;

/// The values of one row, in the order of its columns. Contracts see it as their list.
#[derive(Debug, Drop)]
pub struct Row {
    values: Vec<Val>,
}

impl Model for Row {
    ghost use Rattle.std.specs.Prelude.{List};
    ghost use Rattle.qw_types.specs.declared.value.Val.{Val};

    ghost Value = { List Val };

    ghost view = { λ a. a.values.items };
}

impl Row {
    /// Takes the values as they are: that each is of its column's type is the caller's to keep.
    pub fn new(values: Vec<Val>) -> Self
        ensures { result ≡ values.items }
    {
        Row { values }
    }

    /// The values, the first column's first.
    pub fn values(&self) -> &[Val]
        ensures { result.now ≡ self.now }
    {
        self.values.as_slice()
    }
}
