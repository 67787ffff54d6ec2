//! What can be told in JSON.

ghost use Rattle.std.specs.Prelude.{◌≡◌, map, IfOk};
ghost use Rattle.serde_json.specs.Data.{Data};
ghost use Rattle.serde_json.specs.View.{view};
ghost use Rattle.qw_describe.specs.Description.{list_of};

use serde_json::Value;
use std::alloc::{AllocError, Global};

/// What can be told in JSON.
pub(crate) trait Tell {
    /// What is told of it.
    ghost told: { Self → Data };

    /// It in JSON.
    ///
    /// # Errors
    ///
    /// Want of memory.
    fn tell(&self, alloc: Global) -> Result<Value, AllocError>
        ensures { IfOk result (λ value. view value ≡ told self.now) };
}

/// All in an array, in their order.
pub(crate) fn tell_all<T: Tell>(alloc: Global, all: &[T]) -> Result<Value, AllocError>
    ensures { IfOk result (λ value. view value ≡ list_of (map T.Tell.told all.now)) }
{
    let mut values = Vec::new(alloc);
    for one in all {
        values.push(one.tell(alloc)?)?;
    }
    Ok(Value::Array(values))
}
