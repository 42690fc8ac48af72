// What the bytes of a body stand for.
ghost use Rattle.std.specs.Prelude.{◌≡◌, IfOk};
ghost use Rattle.serde_json.specs.View.{view};
ghost use Rattle.ps_rest.specs.Bodies.{body_in, json_in};

use ps_base::OutOfMemory;
use serde_json::{Map, Value};
use std::alloc::Global;

/// The value of a body: `{}` if it has no bytes, and null if they aren't JSON.
pub fn read_body(alloc: Global, bytes: &[u8]) -> Result<Value, OutOfMemory>
    ensures { IfOk result (λ value. view value ≡ body_in bytes.now) }
{
    if bytes.is_empty() {
        return Ok(Value::Object(Map::new(alloc)));
    }
    read_json(alloc, bytes)
}

fn read_json(alloc: Global, bytes: &[u8]) -> Result<Value, OutOfMemory>
    ensures { IfOk result (λ value. view value ≡ json_in bytes.now) }
{
    match Value::from_slice(alloc, bytes) {
        Ok(value) => Ok(value),
        Err(error) => {
            if error.is_memory() {
                return Err(OutOfMemory);
            }
            Ok(Value::Null)
        }
    }
}
