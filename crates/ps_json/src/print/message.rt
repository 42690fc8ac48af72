// Messages, their numbers and their ack ids.
ghost use Rattle.std.specs.Prelude.{◌≡◌, map, option_map, IfOk};
ghost use Rattle.serde_json.specs.Data.{string};
ghost use Rattle.serde_json.specs.View.{view};
ghost use Rattle.ps_ackid.specs.AckTexts.{ack_text};
ghost use Rattle.ps_json.specs.Messages.{message_id, numbers_from, published_data, payload_data, message_data, received_list_data};

use crate::print::fields::{filled_labels, filled_list, filled_text, put_field};
use crate::print::time::moment;
use crate::print::{Shown, values};
use base64::engine::general_purpose::STANDARD;
use ps_base::{AckId, OutOfMemory};
use ps_model::ReceivedMessage;
use serde_json::{Map, Value};
use std::alloc::Global;

/// The body that says what was published.
pub fn published(alloc: Global, first: u64, number: u32) -> Result<Value, OutOfMemory>
    ensures { IfOk result (λ value. view value ≡ published_data first number) }
{
    let ids = filled_list(message_ids(alloc, first, number)?);
    let mut fields = Map::new(alloc);
    put_field(&mut fields, alloc, "messageIds", ids)?;
    Ok(Value::Object(fields))
}

/// The body that says what was handed out.
pub fn received(alloc: Global, items: &[ReceivedMessage]) -> Result<Value, OutOfMemory>
    ensures { IfOk result (λ value. view value ≡ received_list_data items.now) }
{
    let messages = filled_list(values(alloc, items)?);
    let mut fields = Map::new(alloc);
    put_field(&mut fields, alloc, "receivedMessages", messages)?;
    Ok(Value::Object(fields))
}

/// The text of an ack id.
pub fn ack_id(alloc: Global, id: AckId) -> Result<Value, OutOfMemory>
    ensures { IfOk result (λ value. view value ≡ string (ack_text id)) }
{
    let text = ps_ackid::write(id);
    Ok(Value::String(String::from_utf8_lossy(alloc, &text)?))
}

impl Shown for ReceivedMessage {
    ghost use Rattle.ps_json.specs.Messages.{received_data};

    ghost shown_as = { received_data };

    fn to_value(&self, alloc: Global) -> Result<Value, OutOfMemory> {
        let id = ack_id(alloc, self.id)?;
        let attempt = self.attempt.map(Value::from);
        let message = message(alloc, self)?;
        let mut fields = Map::new(alloc);
        put_field(&mut fields, alloc, "ackId", Some(id))?;
        put_field(&mut fields, alloc, "deliveryAttempt", attempt)?;
        put_field(&mut fields, alloc, "message", Some(message))?;
        Ok(Value::Object(fields))
    }
}

fn message(alloc: Global, received: &ReceivedMessage) -> Result<Value, OutOfMemory>
    ensures { IfOk result (λ value. view value ≡ message_data received.now) }
{
    let message = &received.message;
    let mut fields = Map::new(alloc);
    let attributes = filled_labels(alloc, &message.attributes)?;
    put_field(&mut fields, alloc, "attributes", attributes)?;
    let data = payload(alloc, message.payload.as_slice())?;
    put_field(&mut fields, alloc, "data", data)?;
    let id = message_id(alloc, received.id.message.into())?;
    put_field(&mut fields, alloc, "messageId", Some(id))?;
    let key = filled_text(alloc, message.key.as_str())?;
    put_field(&mut fields, alloc, "orderingKey", key)?;
    let publish = moment(alloc, received.publish)?;
    put_field(&mut fields, alloc, "publishTime", Some(publish))?;
    Ok(Value::Object(fields))
}

// The payload, if it isn't empty.
fn payload(alloc: Global, bytes: &[u8]) -> Result<Option<Value>, OutOfMemory>
    ensures { IfOk result (λ value. option_map view value ≡ payload_data bytes.now) }
{
    if bytes.is_empty() {
        return Ok(None);
    }
    Ok(Some(Value::String(STANDARD.encode(alloc, bytes)?)))
}

// The number of a message as a text. It may pass 64 bits, since a count is added to a first number.
fn message_id(alloc: Global, number: u128) -> Result<Value, OutOfMemory>
    ensures { IfOk result (λ value. view value ≡ message_id number) }
{
    Ok(Value::String(format!(in alloc; "{number}")?))
}

// This many numbers of messages, one after another.
fn message_ids(alloc: Global, first: u64, number: u32) -> Result<Vec<Value>, OutOfMemory>
    ensures { IfOk result (λ ids. map view ids.items ≡ map message_id (numbers_from first number)) }
{
    let mut ids = Vec::new(alloc);
    for place in 0..number {
        ids.push(message_id(alloc, u128::from(first) + u128::from(place))?)?;
    }
    Ok(ids)
}
