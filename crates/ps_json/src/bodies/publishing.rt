// A publish.
ghost use Rattle.std.specs.Prelude.{◌≡◌, IfOk, map};
ghost use Rattle.serde_json.specs.View.{view, members_view};
ghost use Rattle.ps_base.specs.declared.refusal.Refusal.TheVariants.{InvalidArgument};
ghost use Rattle.ps_base.specs.declared.reason.Reason.TheVariants as reason;
ghost use Rattle.ps_json.specs.declared.read_error.ReadError.TheVariants as error;
ghost use Rattle.ps_json.specs.Checks.{Reads, checked};
ghost use Rattle.ps_json.specs.Publishing as spec;

use crate::bodies::fields::check_known;
use crate::bodies::topic::topic_at;
use crate::read_error::{ReadError, refused, shape};
use ps_base::{List, OutOfMemory, Reason, Text};
use ps_fields::{Object, bytes, item_into, item_path, list, map, path_in, text};
use ps_message::{Message, check_publish};
use ps_model::Command;
use serde_json::{Map, Value};
use std::alloc::Global;

/// The command that publishes to the topic of this name, or the first check that is broken.
pub fn publish(alloc: Global, name: &str, fields: &Map<String, Value>) -> Result<Command, ReadError>
    ensures { Reads result (spec.publish name.now (members_view fields.now.entries)) }
{
    let topic = topic_at(alloc, name)?;
    let messages = messages_in(alloc, fields)?;
    check_known(alloc, Object::Publish, fields)?;
    check_limits(messages.as_slice())?;
    Ok(Command::Publish { topic, messages })
}

/// The messages of a body, or the first field with another kind of value.
fn messages_in(alloc: Global, fields: &Map<String, Value>) -> Result<List<Message>, ReadError>
    ensures { Reads result (spec.messages_in (members_view fields.now.entries)) }
{
    match list(fields, "messages") {
        Some(items) => read_messages(alloc, items),
        None => Err(shape(alloc, "messages")?),
    }
}

/// Refuses messages that break a limit.
fn check_limits(messages: &[Message]) -> Result<(), ReadError>
    ensures { Reads result (spec.within_limits messages.now) }
{
    match check_publish(messages) {
        Ok(()) => Ok(()),
        Err(fault) => Err(refused(fault.reason)),
    }
}

/// The messages that these items are, or the first field with another kind of value.
fn read_messages(alloc: Global, items: &[Value]) -> Result<List<Message>, ReadError>
    ensures { Reads result
        (checked (spec.all_shapes (map view items.now)) (map (λ item. spec.message_of (spec.members_in (view item))) items.now)) }
{
    let mut messages = List::new(alloc);
    for (place, item) in items.iter().enumerate() {
        messages.push(read_message(alloc, place, item)?)?;
    }
    Ok(messages)
}

fn read_message(alloc: Global, place: usize, item: &Value) -> Result<Message, ReadError>
    ensures { Reads result
        (checked (spec.message_shapes (place, view item.now)) (spec.message_of (spec.members_in (view item.now)))) }
{
    let Some(fields) = item.as_object() else {
        return Err(refused(Reason::Shape(item_path(alloc, "messages", place)?)));
    };
    let Some(payload) = bytes(alloc, fields, "data")? else {
        return Err(shape_in_message(alloc, place, "data")?);
    };
    let Some(attributes) = map(alloc, fields, "attributes")? else {
        return Err(shape_in_message(alloc, place, "attributes")?);
    };
    let Some(key) = text(fields, "orderingKey") else {
        return Err(shape_in_message(alloc, place, "orderingKey")?);
    };
    Ok(Message {
        payload,
        attributes,
        key: Text::from_str(alloc, key)?,
    })
}

/// The error of another kind of value in this field of the message at this place. Fails only if out of memory.
fn shape_in_message(alloc: Global, place: usize, name: &str) -> Result<ReadError, OutOfMemory>
    ensures { IfOk result (λ e. e
        ≡ error.Refused (InvalidArgument (reason.Shape (spec.field_path place name.now)))) }
{
    let at = item_into(alloc, "messages", place)?;
    let path = path_in(alloc, at.as_str(), name)?;
    Ok(refused(Reason::Shape(path)))
}
