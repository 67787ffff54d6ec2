//! Tables and their columns in JSON.

use crate::tell::{Tell, tell_all};
use qw_types::Ty;
use qw_types::schema::{Column, Table};
use serde_json::{Value, json};
use std::alloc::{AllocError, Global};

impl Tell for Ty {
    ghost use Rattle.qw_describe.specs.Description.{told_type};

    ghost told = { told_type };

    fn tell(&self, alloc: Global) -> Result<Value, AllocError> {
        match self {
            Ty::Integer => json!(in alloc; {"name": "INTEGER"}),
            Ty::Decimal { precision, scale } => {
                json!(in alloc; {"name": "DECIMAL", "precision": *precision, "scale": *scale})
            }
            Ty::Date => json!(in alloc; {"name": "DATE"}),
            Ty::Varchar { length } => json!(in alloc; {"name": "VARCHAR", "length": *length}),
        }
    }
}

impl Tell for Column {
    ghost use Rattle.qw_describe.specs.Description.{told_column};

    ghost told = { told_column };

    fn tell(&self, alloc: Global) -> Result<Value, AllocError> {
        let ty = self.ty.tell(alloc)?;
        json!(in alloc; {"name": self.name.as_str(), "type": ty, "null": !self.not_null})
    }
}

impl Tell for Table {
    ghost use Rattle.qw_describe.specs.Description.{told_table};

    ghost told = { told_table };

    fn tell(&self, alloc: Global) -> Result<Value, AllocError> {
        let columns = tell_all(alloc, self.columns.as_slice())?;
        json!(in alloc; {"name": self.name.as_str(), "columns": columns})
    }
}
