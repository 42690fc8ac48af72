// An acknowledgement.
ghost use Rattle.std.specs.Prelude.{◌≡◌, IfOk, map};
ghost use Rattle.serde_json.specs.View.{view, members_view};
ghost use Rattle.ps_json.specs.AckIds.{ack_id_of};
ghost use Rattle.ps_json.specs.Checks.{Reads};
ghost use Rattle.ps_json.specs.Deliveries as spec;

use crate::bodies::fields::check_fields;
use crate::bodies::subscription::subscription_at;
use crate::read_error::{ReadError, refused};
use ps_base::{AckId, List, OutOfMemory, Reason};
use ps_fields::{Object, list};
use ps_model::Command;
use serde_json::{Map, Value};
use std::alloc::Global;

/// The command that acknowledges on the subscription of this name, or the first check that is broken.
pub fn acknowledge(
    alloc: Global,
    name: &str,
    fields: &Map<String, Value>,
) -> Result<Command, ReadError>
    ensures { Reads result (spec.acknowledge name.now (members_view fields.now.entries)) }
{
    let subscription = subscription_at(alloc, name)?;
    check_fields(alloc, Object::Acknowledge, fields)?;
    let ids = ids_in(alloc, fields)?;
    Ok(Command::Acknowledge { subscription, ids })
}

/// The ids of a request, or a refusal if there is none or an item is none.
pub fn ids_in(alloc: Global, fields: &Map<String, Value>) -> Result<List<AckId>, ReadError>
    ensures { Reads result (spec.ids_asked (members_view fields.now.entries)) }
{
    let items = list(fields, "ackIds").unwrap_or(&[]);
    match read_ids(alloc, items)? {
        Some(ids) => Ok(ids),
        None => Err(refused(Reason::AckIds)),
    }
}

/// The ids that these items are, if there is one and each is one. Fails only if out of memory.
fn read_ids(alloc: Global, items: &[Value]) -> Result<Option<List<AckId>>, OutOfMemory>
    ensures { IfOk result (λ ids. ids ≡ spec.ids_read (map view items.now)) }
{
    if items.is_empty() {
        return Ok(None);
    }
    let mut ids = List::new(alloc);
    for item in items {
        let Some(id) = id_of(item) else {
            return Ok(None);
        };
        ids.push(id)?;
    }
    Ok(Some(ids))
}

/// The id whose text this value is.
fn id_of(item: &Value) -> Option<AckId>
    ensures { result ≡ spec.id_of (view item.now) }
{
    match item {
        Value::String(text) => ack_id(text.as_str()),
        _ => None,
    }
}

fn ack_id(text: &str) -> Option<AckId>
    ensures { result ≡ ack_id_of text.now }
{
    ps_ackid::read(text.as_bytes())
}
