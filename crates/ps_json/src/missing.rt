// Settings of resources that aren't built, or that the service leaves out.
ghost use Rattle.std.specs.Prelude.{◌≡◌, ◌++◌, IfOk, fold, map};
ghost use Rattle.serde_json.specs.View.{view, members_view};
ghost use Rattle.ps_fields.specs.Paths.{least, lesser};
ghost use Rattle.ps_json.specs.Missing as spec;

use ps_base::{OutOfMemory, Text};
use ps_fields::{Object, is_filled, lesser, path_in};
use serde_json::{Map, Value};
use std::alloc::Global;

/// Whether a resource has a setting of this name that isn't built yet. Who builds it takes its name out here.
fn is_unbuilt(object: Object, name: &str) -> bool
    ensures { result ≡ spec.is_unbuilt object name.now }
{
    match object {
        Object::Topic => name == "messageRetentionDuration",
        Object::Subscription => matches!(
            name,
            "messageRetentionDuration" | "retainAckedMessages" | "deadLetterPolicy" | "pushConfig"
        ),
        _ => false,
    }
}

/// Whether a resource has a setting of this name that the service leaves out.
fn is_left_out(object: Object, name: &str) -> bool
    ensures { result ≡ spec.is_left_out object name.now }
{
    match object {
        Object::Topic => matches!(
            name,
            "kmsKeyName"
                | "schemaSettings"
                | "messageStoragePolicy"
                | "ingestionDataSourceSettings"
                | "messageTransforms"
                | "tags"
        ),
        Object::Subscription => matches!(
            name,
            "bigqueryConfig" | "cloudStorageConfig" | "messageTransforms" | "tags"
        ),
        _ => false,
    }
}

/// Whether a value asks for the setting of this name. Push settings do by a field that is filled.
fn is_asked(name: &str, value: &Value) -> bool
    ensures { result ≡ spec.is_asked name.now (view value.now) }
{
    match (name, value) {
        ("pushConfig", Value::Object(fields)) => has_filled(fields),
        ("pushConfig", _) => false,
        _ => is_filled(value),
    }
}

fn has_filled(fields: &Map<String, Value>) -> bool
    ensures { result ≡ spec.has_filled (members_view fields.now.entries) }
{
    for (_, value) in fields.iter() {
        if is_filled(value) {
            return true;
        }
    }
    false
}

/// The least path of what a resource asks for that isn't built, by its fields or by the names in a mask, in byte order.
pub fn least_unbuilt(
    alloc: Global,
    object: Object,
    at: &str,
    fields: &Map<String, Value>,
    mask: &[&str],
) -> Result<Option<Text>, OutOfMemory>
    ensures { IfOk result (λ path. path
        ≡ least (spec.unbuilt_paths object at.now (members_view fields.now.entries) (map (λ name. name.now) mask.now))) }
{
    let least = least_masked(alloc, object, mask)?;
    least_field(alloc, object, at, fields, least)
}

fn least_masked(alloc: Global, object: Object, mask: &[&str]) -> Result<Option<Text>, OutOfMemory>
    ensures { IfOk result (λ path. path
        ≡ least (spec.masked_unbuilt object (map (λ name. name.now) mask.now))) }
{
    let mut least = None;
    for name in mask {
        if is_unbuilt(object, name) {
            least = Some(lesser(least, Text::from_str(alloc, name)?));
        }
    }
    Ok(least)
}

fn least_field(
    alloc: Global,
    object: Object,
    at: &str,
    fields: &Map<String, Value>,
    least: Option<Text>,
) -> Result<Option<Text>, OutOfMemory>
    ensures { IfOk result (λ path. path
        ≡ fold lesser least (spec.asked_unbuilt object at.now (members_view fields.now.entries))) }
{
    let mut least = least;
    for (name, value) in fields.iter() {
        if is_asked_unbuilt(object, name.as_str(), value) {
            least = Some(lesser(least, path_in(alloc, at, name.as_str())?));
        }
    }
    Ok(least)
}

fn is_asked_unbuilt(object: Object, name: &str, value: &Value) -> bool
    ensures { result ≡ spec.is_asked_unbuilt object (name.now, view value.now) }
{
    (is_unbuilt(object, name) || is_left_out(object, name)) && is_asked(name, value)
}
