//! The columns of a result, and the keys of their order, in JSON.

use crate::tell::Tell;
use qw_order::SortKey;
use qw_sink::sink::Head;
use qw_types::Kind;
use serde_json::{Value, json};
use std::alloc::{AllocError, Global};

impl Tell for Kind {
    ghost use Rattle.qw_describe.specs.Description.{told_kind};

    ghost told = { told_kind };

    fn tell(&self, alloc: Global) -> Result<Value, AllocError> {
        match self {
            Kind::Number(scale) => json!(in alloc; {"name": "NUMBER", "scale": *scale}),
            Kind::Date => json!(in alloc; {"name": "DATE"}),
            Kind::Text => json!(in alloc; {"name": "TEXT"}),
        }
    }
}

impl Tell for Head {
    ghost use Rattle.qw_describe.specs.Description.{told_head};

    ghost told = { told_head };

    fn tell(&self, alloc: Global) -> Result<Value, AllocError> {
        let kind = self.kind.tell(alloc)?;
        json!(in alloc; {"name": self.name.as_str(), "kind": kind})
    }
}

impl Tell for SortKey {
    ghost use Rattle.qw_describe.specs.Description.{told_key};

    ghost told = { told_key };

    fn tell(&self, alloc: Global) -> Result<Value, AllocError> {
        json!(in alloc; {"position": self.position, "descending": self.is_descending})
    }
}
