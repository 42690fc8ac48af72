// The fields of a body: each of its kind, and each listed.
ghost use Rattle.serde_json.specs.View.{members_view};
ghost use Rattle.ps_json.specs.Checks.{Reads};
ghost use Rattle.ps_json.specs.Bodies as spec;

use crate::read_error::{ReadError, refused};
use ps_base::Reason;
use ps_fields::{Object, first_wrong, least_unknown};
use serde_json::{Map, Value};
use std::alloc::Global;

/// How deep a body has objects with listed fields: a resource in an update, and a policy in it.
const DEEPEST: u32 = 3;

/// Refuses a body with a value of another kind or an unknown field.
pub fn check_fields(
    alloc: Global,
    object: Object,
    fields: &Map<String, Value>,
) -> Result<(), ReadError>
    ensures { Reads result (spec.well_formed object (members_view fields.now.entries)) }
{
    if let Some(path) = first_wrong(alloc, DEEPEST, object, "", fields)? {
        return Err(refused(Reason::Shape(path)));
    }
    check_known(alloc, object, fields)
}

/// Refuses a body with an unknown field.
pub fn check_known(
    alloc: Global,
    object: Object,
    fields: &Map<String, Value>,
) -> Result<(), ReadError>
    ensures { Reads result (spec.known object (members_view fields.now.entries)) }
{
    match least_unknown(alloc, DEEPEST, object, "", fields, None)? {
        Some(path) => Err(refused(Reason::UnknownField(path))),
        None => Ok(()),
    }
}
