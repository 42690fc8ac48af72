// The fields of objects that replies show.
ghost use Rattle.std.specs.Prelude.{◌≡◌, map, option_map, IfOk, OnOk};
ghost use Rattle.serde_json.specs.View.{view, members_view};
ghost use Rattle.ps_json.specs.Objects.{with_field, filled_text, filled_list, filled_labels, label_members};
ghost use Rattle.ps_json.specs.Objects as spec;

use ps_base::{Labels, OutOfMemory, Text};
use serde_json::{Map, Value};
use std::alloc::Global;

/// Adds the field if it has a value. Fails only if out of memory.
pub fn put_field(
    fields: &mut Map<String, Value>,
    alloc: Global,
    name: &str,
    value: Option<Value>,
) -> Result<(), OutOfMemory>
    ensures { OnOk result (members_view fields.new.entries
        ≡ with_field name.now (option_map view value) (members_view fields.old.entries)) }
{
    if let Some(value) = value {
        serde_json::put(fields, alloc, name, value)?;
    }
    Ok(())
}

/// The text, if it isn't empty.
pub fn filled_text(alloc: Global, text: &str) -> Result<Option<Value>, OutOfMemory>
    ensures { IfOk result (λ value. option_map view value ≡ filled_text text.now) }
{
    if text.is_empty() {
        return Ok(None);
    }
    Ok(Some(Value::try_from_str(alloc, text)?))
}

/// The flag, if it is set.
pub fn flag(set: bool) -> Option<Value>
    ensures { option_map view result ≡ spec.flag set }
{
    if set { Some(Value::Bool(true)) } else { None }
}

/// The list, if it isn't empty.
pub fn filled_list(items: Vec<Value>) -> Option<Value>
    ensures { option_map view result ≡ filled_list (map view items.items) }
{
    if items.is_empty() {
        None
    } else {
        Some(Value::Array(items))
    }
}

/// The labels, if there are any.
pub fn filled_labels(alloc: Global, labels: &Labels) -> Result<Option<Value>, OutOfMemory>
    ensures { IfOk result (λ value. option_map view value ≡ filled_labels labels.now) }
{
    let pairs = labels.as_slice();
    if pairs.is_empty() {
        return Ok(None);
    }
    Ok(Some(Value::Object(label_members(alloc, pairs)?)))
}

fn label_members(alloc: Global, pairs: &[(Text, Text)]) -> Result<Map<String, Value>, OutOfMemory>
    ensures { IfOk result (λ fields. members_view fields.entries ≡ label_members pairs.now) }
{
    let mut fields = Map::new(alloc);
    for pair in pairs {
        let text = Value::try_from_str(alloc, pair.1.as_str())?;
        serde_json::put(&mut fields, alloc, pair.0.as_str(), text)?;
    }
    Ok(fields)
}
