//! What a module imports, and what it reads, in JSON.

use crate::tell::Tell;
use qw_map::layout::Used;
use qw_module::module::Import;
use serde_json::{Value, json};
use std::alloc::{AllocError, Global};

impl Tell for Import {
    ghost use Rattle.qw_describe.specs.Description.{told_import};

    ghost told = { told_import };

    fn tell(&self, alloc: Global) -> Result<Value, AllocError> {
        match self {
            Import::Memory(limits) => {
                json!(in alloc; {"module": "q", "name": "memory", "kind": "memory", "min": limits.min, "max": limits.max})
            }
            Import::Raise(_) =>
                json!(in alloc; {"module": "q", "name": "raise", "kind": "function"}),
            Import::Pages(_) =>
                json!(in alloc; {"module": "q", "name": "pages", "kind": "function"}),
        }
    }
}

impl Tell for Used {
    ghost use Rattle.qw_describe.specs.Description.{told_used};

    ghost told = { told_used };

    fn tell(&self, alloc: Global) -> Result<Value, AllocError> {
        json!(in alloc; {"table": self.table, "column": self.column})
    }
}

impl Tell for u8 {
    ghost use Rattle.qw_describe.specs.Description.{told_number};

    ghost told = { told_number };

    fn tell(&self, _alloc: Global) -> Result<Value, AllocError> {
        Ok(Value::from(*self))
    }
}
