// A line of a batch as a JSON object.
ghost use Rattle.std.specs.Prelude.{◌≡◌, codes, option_map, option_and_then, IfOk};
ghost use Rattle.serde_json.specs.Find.{as_object, get_member};
ghost use Rattle.serde_json.specs.View.{view, members_view};
ghost use Rattle.ps_fields.specs.Fields.{all_names};
ghost use Rattle.ps_json.specs.Line.{body_or_empty, is_line_field, line_of, line_of_members};
ghost use Rattle.ps_json.specs.Shown.{shown};

use ps_base::OutOfMemory;
use ps_fields::{take, take_text, take_whole};
use serde_json::{Map, Value};
use std::alloc::Global;

/// The fields of a line.
#[derive(Drop)]
pub struct BatchLine {
    /// The moment of the call, in milliseconds since 1970.
    pub at: u64,
    pub verb: String,
    pub path: String,
    /// `{}` if the line has none.
    pub body: Value,
}

/// The line that these bytes are. None if they are no line.
pub fn read_batch_line(alloc: Global, bytes: &[u8]) -> Result<Option<BatchLine>, OutOfMemory>
    ensures { IfOk result (λ line. option_map shown line ≡ line_of bytes.now) }
{
    match Value::from_slice(alloc, bytes) {
        Ok(value) => Ok(from_value(alloc, value)),
        Err(error) => {
            if error.is_memory() {
                return Err(OutOfMemory);
            }
            Ok(None)
        }
    }
}

fn from_value(alloc: Global, value: Value) -> Option<BatchLine>
    ensures { option_map shown result ≡ option_and_then line_of_members (as_object (view value)) }
{
    match value {
        Value::Object(fields) => from_fields(alloc, fields),
        _ => None,
    }
}

fn from_fields(alloc: Global, mut fields: Map<String, Value>) -> Option<BatchLine>
    ensures { option_map shown result ≡ line_of_members (members_view fields.entries) }
{
    if !has_line_fields_only(&fields) {
        return None;
    }
    let at = take_whole(&mut fields, "at")?;
    let verb = take_text(&mut fields, "verb")?;
    let path = take_text(&mut fields, "path")?;
    let body = take_body(alloc, &mut fields);
    Some(BatchLine {
        at,
        verb,
        path,
        body,
    })
}

// The field `body`, or `{}` if it is absent or null.
fn take_body(alloc: Global, fields: &mut Map<String, Value>) -> Value
    ensures { view result
        ≡ body_or_empty (get_member (codes "body") (members_view fields.old.entries)) }
{
    match take(fields, "body") {
        None | Some(Value::Null) => Value::Object(Map::new(alloc)),
        Some(body) => body,
    }
}

fn has_line_fields_only(fields: &Map<String, Value>) -> bool
    ensures { result ≡ all_names is_line_field (members_view fields.now.entries) }
{
    for name in fields.keys() {
        if !is_field_of_line(name.as_str()) {
            return false;
        }
    }
    true
}

fn is_field_of_line(name: &str) -> bool
    ensures { result ≡ is_line_field name.now }
{
    matches!(name, "at" | "body" | "path" | "verb")
}
