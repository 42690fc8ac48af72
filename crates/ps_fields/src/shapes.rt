// The first field of an object whose value is of another kind than its table says.
ghost use Rattle.std.specs.Prelude.{◌≡◌, ◌++◌, IfOk, map, option_map};
ghost use Rattle.std.specs.List.{list_all, position};
ghost use Rattle.serde_json.specs.Find.{get_member};
ghost use Rattle.serde_json.specs.View.{view, members_view};
ghost use Rattle.ps_fields.specs.Fields.{pairs_of};
ghost use Rattle.ps_fields.specs.Kinds.{is_text};
ghost use Rattle.ps_fields.specs.Shapes as spec;

use crate::fields::field;
use crate::kinds::{duration_in, whole_in};
use crate::paths::{item_path, path_in, path_into};
use crate::rows::{Kind, Object};
use ps_base::{OutOfMemory, Text};
use serde_json::{Map, Value};
use std::alloc::Global;

/// The path of the first field of another kind, in the order of the rows and depth first. The path of the object itself
/// is what stands before the names of its fields; `deep` is how deep objects with listed fields are looked at.
#[cycle(shapes)]
pub fn first_wrong(
    alloc: Global,
    deep: u32,
    object: Object,
    at: &str,
    fields: &Map<String, Value>,
) -> Result<Option<Text>, OutOfMemory>
    ensures { IfOk result (λ path. path
        ≡ spec.first_wrong deep object at.now (members_view fields.now.entries)) }
{
    if deep == 0 {
        return Ok(None);
    }
    for (name, kind) in object.rows() {
        let wrong = wrong_field(alloc, deep - 1, at, name, *kind, field(fields, name))?;
        if wrong.is_some() {
            return Ok(wrong);
        }
    }
    Ok(None)
}

/// The path of a field of another kind, or of the first such field in it.
#[cycle(shapes)]
fn wrong_field(
    alloc: Global,
    deep: u32,
    at: &str,
    name: &str,
    kind: Kind,
    value: Option<&Value>,
) -> Result<Option<Text>, OutOfMemory>
    ensures { IfOk result (λ path. path
        ≡ spec.wrong_field (spec.first_wrong deep) at.now (name.now, kind) (option_map (λ v. view v.now) value.entry)) }
{
    match value {
        None | Some(Value::Null) => Ok(None),
        Some(value) if !is_of(kind, value) => Ok(Some(path_in(alloc, at, name)?)),
        Some(value) => wrong_inside(alloc, deep, at, name, kind, value),
    }
}

#[cycle(shapes)]
fn wrong_inside(
    alloc: Global,
    deep: u32,
    at: &str,
    name: &str,
    kind: Kind,
    value: &Value,
) -> Result<Option<Text>, OutOfMemory>
    ensures { IfOk result (λ path. path
        ≡ spec.inside (spec.first_wrong deep) (at.now ++ name.now) kind (view value.now)) }
{
    match (kind, value) {
        (Kind::Listed(object), Value::Object(fields)) => {
            let at = path_into(alloc, at, name)?;
            first_wrong(alloc, deep, object, at.as_str(), fields)
        }
        (Kind::Texts, Value::Array(items)) => wrong_text(alloc, at, name, items.as_slice()),
        _ => Ok(None),
    }
}

/// The path of the first item of this field's list that is no text. Fails only if out of memory.
fn wrong_text(
    alloc: Global,
    at: &str,
    name: &str,
    items: &[Value],
) -> Result<Option<Text>, OutOfMemory>
    ensures { IfOk result (λ path. path ≡ spec.wrong_text (at.now ++ name.now) (map view items.now)) }
{
    let Some(place) = first_without_text(items) else {
        return Ok(None);
    };
    let list = path_in(alloc, at, name)?;
    Ok(Some(item_path(alloc, list.as_str(), place)?))
}

fn first_without_text(items: &[Value]) -> Option<usize>
    ensures { result ≡ position (λ item. spec.is_no_text (view item)) items.now }
{
    items.iter().position(|item| !item.is_string())
}

fn is_of(kind: Kind, value: &Value) -> bool
    ensures { result ≡ spec.is_of kind (view value.now) }
{
    match kind {
        Kind::Text | Kind::Bytes => value.is_string(),
        Kind::Flag => value.is_boolean(),
        Kind::Whole => whole_in(value).is_some(),
        Kind::Duration => duration_in(value).is_some(),
        Kind::Map => is_map(value),
        Kind::Texts | Kind::Items(_) => value.is_array(),
        Kind::Listed(_) | Kind::Open => value.is_object(),
        Kind::Any => true,
    }
}

fn is_map(value: &Value) -> bool
    ensures { result ≡ spec.is_map (view value.now) }
{
    match value {
        Value::Object(texts) => are_texts(texts),
        _ => false,
    }
}

fn are_texts(texts: &Map<String, Value>) -> bool
    ensures { result ≡ list_all is_text (pairs_of (members_view texts.now.entries)) }
{
    for (_, value) in texts.iter() {
        if !value.is_string() {
            return false;
        }
    }
    true
}
