// The fields of a JSON object.
ghost use Rattle.std.specs.Prelude.{◌≡◌, option_map, string_bytes};
ghost use Rattle.serde_json.specs.Find.{get_member};
ghost use Rattle.serde_json.specs.View.{view, members_view};
ghost use Rattle.ps_fields.specs.Fields.{without, whole_field, text_field};
ghost use Rattle.ps_fields.specs.Fields as spec;

use serde_json::{Map, Value};

/// The field's value.
pub fn field<'a>(fields: &'a Map<String, Value>, name: &str) -> Option<&'a Value>
    ensures { option_map (λ value. view value.now) result
        ≡ get_member name.now (members_view fields.now.entries) }
{
    fields.get(name)
}

/// Takes the field out, whatever its value.
pub fn take(fields: &mut Map<String, Value>, name: &str) -> Option<Value>
    ensures value { option_map view result ≡ get_member name.now (members_view fields.old.entries) }
    ensures rest { members_view fields.new.entries
        ≡ without name.now (members_view fields.old.entries) }
{
    fields.remove(name)
}

/// Takes the field out, and gives its number if it is one that fits.
pub fn take_whole(fields: &mut Map<String, Value>, name: &str) -> Option<u64>
    ensures value { result ≡ whole_field name.now (members_view fields.old.entries) }
    ensures rest { members_view fields.new.entries
        ≡ without name.now (members_view fields.old.entries) }
{
    let value = take(fields, name)?;
    value.as_u64()
}

/// Takes the field out, and gives its text if it is one.
pub fn take_text(fields: &mut Map<String, Value>, name: &str) -> Option<String>
    ensures value { option_map string_bytes result
        ≡ text_field name.now (members_view fields.old.entries) }
    ensures rest { members_view fields.new.entries
        ≡ without name.now (members_view fields.old.entries) }
{
    match take(fields, name) {
        Some(Value::String(text)) => Some(text),
        _ => None,
    }
}

/// The fields of the object in a field, if it is one.
pub fn object_in<'a>(fields: &'a Map<String, Value>, name: &str) -> Option<&'a Map<String, Value>>
    ensures { option_map (λ inner. members_view inner.now.entries) result
        ≡ spec.object_in name.now (members_view fields.now.entries) }
{
    field(fields, name)?.as_object()
}

/// The value is not null, false, 0, an empty text, an empty list or an empty object.
pub fn is_filled(value: &Value) -> bool
    ensures { result ≡ spec.is_filled (view value.now) }
{
    match value {
        Value::Null => false,
        Value::Bool(b) => *b,
        Value::Number(n) => n.as_u64() != Some(0),
        Value::String(text) => !text.is_empty(),
        Value::Array(items) => !items.is_empty(),
        Value::Object(fields) => !fields.is_empty(),
    }
}
