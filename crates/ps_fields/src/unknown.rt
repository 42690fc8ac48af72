// The fields of an object that its table doesn't list, and those of the objects in it.
ghost use Rattle.std.specs.Prelude.{◌≡◌, IfOk, fold, map};
ghost use Rattle.serde_json.specs.View.{view, members_view};
ghost use Rattle.ps_fields.specs.Paths.{lesser};
ghost use Rattle.ps_fields.specs.Unknown as spec;

use crate::paths::{item_into, lesser, path_in, path_into};
use crate::rows::{Kind, Object};
use ps_base::{OutOfMemory, Text};
use serde_json::{Map, Value};
use std::alloc::Global;

/// The least of a path and the paths of the unknown fields, in byte order. The path of the object itself is what stands
/// before the names of its fields; `deep` is how deep objects with listed fields are looked at.
#[cycle(unknown)]
pub fn least_unknown(
    alloc: Global,
    deep: u32,
    object: Object,
    at: &str,
    fields: &Map<String, Value>,
    least: Option<Text>,
) -> Result<Option<Text>, OutOfMemory>
    ensures { IfOk result (λ path. path
        ≡ fold lesser least (spec.unknown_paths deep object at.now (members_view fields.now.entries))) }
{
    if deep == 0 {
        return Ok(least);
    }
    let mut least = least;
    for (name, value) in fields.iter() {
        let name = name.as_str();
        least = with_field(alloc, deep - 1, at, name, object.kind(name), value, least)?;
    }
    Ok(least)
}

/// The least of a path and those of a field: its own if it isn't listed, or those of the unknown fields in it.
#[cycle(unknown)]
fn with_field(
    alloc: Global,
    deep: u32,
    at: &str,
    name: &str,
    kind: Option<Kind>,
    value: &Value,
    least: Option<Text>,
) -> Result<Option<Text>, OutOfMemory>
    ensures { IfOk result (λ path. path
        ≡ fold lesser least (spec.unknown_at (spec.unknown_paths deep) at.now kind (name.now, view value.now))) }
{
    match (kind, value) {
        (None, Value::Null) => Ok(least),
        (None, _) => Ok(Some(lesser(least, path_in(alloc, at, name)?))),
        (Some(Kind::Listed(inner)), Value::Object(fields)) => {
            let at = path_into(alloc, at, name)?;
            least_unknown(alloc, deep, inner, at.as_str(), fields, least)
        }
        (Some(Kind::Items(inner)), Value::Array(items)) => {
            let list = path_in(alloc, at, name)?;
            with_items(alloc, deep, inner, list.as_str(), items.as_slice(), least)
        }
        _ => Ok(least),
    }
}

/// The least of a path and those of the unknown fields in the items of the list at this path.
#[cycle(unknown)]
fn with_items(
    alloc: Global,
    deep: u32,
    object: Object,
    list: &str,
    items: &[Value],
    least: Option<Text>,
) -> Result<Option<Text>, OutOfMemory>
    ensures { IfOk result (λ path. path
        ≡ fold lesser least (spec.unknown_in_items (spec.unknown_paths deep) object list.now (map view items.now))) }
{
    let mut least = least;
    for (place, item) in items.iter().enumerate() {
        if let Some(fields) = item.as_object() {
            let at = item_into(alloc, list, place)?;
            least = least_unknown(alloc, deep, object, at.as_str(), fields, least)?;
        }
    }
    Ok(least)
}
