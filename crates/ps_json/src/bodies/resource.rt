// What calls that create or update a resource have in common.
ghost use Rattle.std.specs.Prelude.{◌≡◌, codes, map};
ghost use Rattle.serde_json.specs.Data.{no_members};
ghost use Rattle.serde_json.specs.Find.{get_member};
ghost use Rattle.serde_json.specs.View.{members_view};
ghost use Rattle.ps_json.specs.Checks.{Reads};
ghost use Rattle.ps_json.specs.Bodies as spec;

use crate::masks::mask_of;
use crate::missing::least_unbuilt;
use crate::read_error::{ReadError, refused};
use ps_base::{Reason, Refusal};
use ps_config::Mask;
use ps_fields::{Object, field, object_in, text};
use serde_json::{Map, Value};
use std::alloc::Global;

/// Refuses what isn't built of what the fields of a resource ask for and a mask names.
pub fn check_built(
    alloc: Global,
    object: Object,
    at: &str,
    fields: &Map<String, Value>,
    names: &[&str],
) -> Result<(), ReadError>
    ensures { Reads result (spec.built object at.now (members_view fields.now.entries)
        (map (λ name. name.now) names.now)) }
{
    match least_unbuilt(alloc, object, at, fields, names)? {
        Some(path) => Err(ReadError::Refused(Refusal::Unimplemented(path))),
        None => Ok(()),
    }
}

/// Refuses a resource whose name is there and isn't the path's.
pub fn check_name(fields: &Map<String, Value>, name: &str) -> Result<(), ReadError>
    ensures { Reads result (spec.own_name name.now (members_view fields.now.entries)) }
{
    if names_another(fields, name) {
        return Err(refused(Reason::Name));
    }
    Ok(())
}

/// Whether the resource's name is there and isn't the path's.
fn names_another(fields: &Map<String, Value>, name: &str) -> bool
    ensures { result ≡ spec.is_another name.now
        (get_member (codes "name") (members_view fields.now.entries)) }
{
    match field(fields, "name") {
        Some(Value::String(text)) => text.as_str() != name,
        _ => false,
    }
}

/// The mask of an update, or the empty text if there is none.
pub fn mask_in(fields: &Map<String, Value>) -> &str
    ensures { result.now ≡ spec.mask_in (members_view fields.now.entries) }
{
    text(fields, "updateMask").unwrap_or("")
}

/// The mask of these names, or a refusal if an update can't change one of them.
pub fn read_mask(object: Object, names: &[&str]) -> Result<Mask, ReadError>
    ensures { Reads result (spec.mask_read object (map (λ name. name.now) names.now)) }
{
    match mask_of(object, names) {
        Some(mask) => Ok(mask),
        None => Err(refused(Reason::UpdateMask)),
    }
}

/// The fields of the resource in an update, or the empty ones if there is none.
pub fn resource_in<'a>(
    fields: &'a Map<String, Value>,
    name: &str,
    empty: &'a Map<String, Value>,
) -> &'a Map<String, Value>
    requires { members_view empty.now.entries ≡ no_members }
    ensures { members_view result.now.entries
        ≡ spec.resource_in name.now (members_view fields.now.entries) }
{
    object_in(fields, name).unwrap_or(empty)
}
