ghost use Rattle.std.specs.Prelude.{◌≡◌, IfOk, map};
ghost use Rattle.serde_json.specs.Data.{Data};
ghost use Rattle.serde_json.specs.View.{view};

pub mod error;
mod fields;
pub mod message;
pub mod page;
pub mod resource;
mod subscription;
mod time;

use ps_base::OutOfMemory;
use serde_json::Value;
use std::alloc::Global;

/// What replies show as JSON.
pub trait Shown {
    /// What it is shown as.
    ghost shown_as: { Self → Data };

    /// The value that shows it. Fails only if out of memory.
    fn to_value(&self, alloc: Global) -> Result<Value, OutOfMemory>
        ensures { IfOk result (λ value. view value ≡ shown_as self.now) };
}

/// The values that show these, in their order.
pub fn values<T: Shown>(alloc: Global, items: &[T]) -> Result<Vec<Value>, OutOfMemory>
    ensures { IfOk result (λ values. map view values.items ≡ map T.shown_as items.now) }
{
    let mut values = Vec::new(alloc);
    for item in items {
        values.push(item.to_value(alloc)?)?;
    }
    Ok(values)
}
