ghost use Rattle.std.specs.Prelude.{◌≡◌, ◌≤◌, ◌↔◌, ◌&&◌, ◌||◌, false, Some, None, length, IsOk, IfErr, nat_lt};
ghost use Rattle.std.specs.List.{list_any};
ghost use Rattle.ps_message.specs.Faults.{place_in};
ghost use Rattle.ps_message.specs.Limits.{most_messages};
ghost use Rattle.ps_message.specs.Lists.{is_empty, first_of, total};
ghost use Rattle.ps_message.specs.Messages.{size_of, has_bad_key, has_long_value, message_checks, all_message_checks, publish_fault};

use crate::limits::{
    MOST_ATTRIBUTES, MOST_BYTES, MOST_BYTES_OF_ATTRIBUTE_KEY, MOST_BYTES_OF_ATTRIBUTE_VALUE,
    MOST_BYTES_OF_ORDERING_KEY, MOST_MESSAGES,
};
use crate::message::Message;
use ps_base::{Reason, Text};

/// The first rule of a publish that is broken.
#[derive(Clone, Debug, Drop)]
pub struct PublishFault {
    /// The place of the message, from 0. None if the rule is one of all messages together.
    pub place: Option<u32>,
    pub reason: Reason,
}

/// Whether these messages may be published together: at least one and at most `MOST_MESSAGES`, each with a payload or
/// an attribute, no attribute without a key, and none of the other limits passed by one or by all together. The error
/// names the first rule that is broken. Takes no memory.
pub fn check_publish(messages: &[Message]) -> Result<(), PublishFault>
    ensures ok { IsOk result ↔ (publish_fault messages.now ≡ None) }
    ensures reason { IfErr result (λ fault. publish_fault messages.now ≡ Some fault.reason) }
    ensures place { IfErr result (λ fault. fault.place ≡ place_in fault.reason) }
{
    match first_broken(messages) {
        None => Ok(()),
        Some(reason) => Err(PublishFault {
            place: place_in(&reason),
            reason,
        }),
    }
}

fn first_broken(messages: &[Message]) -> Option<Reason>
    ensures { result ≡ publish_fault messages.now }
{
    if has_wrong_count(messages) {
        return Some(Reason::Messages);
    }
    if let Some(reason) = first_broken_of_one(messages) {
        return Some(reason);
    }
    if total_size(messages) > MOST_BYTES {
        return Some(Reason::RequestSize);
    }
    None
}

/// Whether there are no messages, or too many.
fn has_wrong_count(messages: &[Message]) -> bool
    ensures value { result ≡ (is_empty messages.now || nat_lt most_messages (length messages.now)) }
    ensures few { result ≡ false → length messages.now ≤ most_messages }
{
    messages.is_empty() || messages.len() > MOST_MESSAGES as usize
}

/// The first rule that one of the messages breaks for itself.
fn first_broken_of_one(messages: &[Message]) -> Option<Reason>
    requires { length messages.now ≤ most_messages }
    ensures { result ≡ first_of (all_message_checks 0 messages.now) }
{
    let mut place = 0;
    for message in messages {
        if let Some(reason) = broken_at(place, message) {
            return Some(reason);
        }
        place += 1;
    }
    None
}

/// The first rule that this message breaks, which stands at this place.
fn broken_at(place: u32, message: &Message) -> Option<Reason>
    ensures { result ≡ first_of (message_checks place message.now) }
{
    let attributes = message.attributes.as_slice();
    if is_bare(message) {
        return Some(Reason::MessageEmpty(place));
    }
    if attributes.len() > MOST_ATTRIBUTES {
        return Some(Reason::MessageAttributes(place));
    }
    if any_bad_key(attributes) {
        return Some(Reason::MessageAttributeKey(place));
    }
    if any_long_value(attributes) {
        return Some(Reason::MessageAttributeValue(place));
    }
    if message.key.len() > MOST_BYTES_OF_ORDERING_KEY {
        return Some(Reason::MessageOrderingKey(place));
    }
    None
}

/// Whether the message has neither a payload nor an attribute.
fn is_bare(message: &Message) -> bool
    ensures { result ≡ (is_empty message.now.payload && is_empty message.now.attributes) }
{
    message.payload.as_slice().is_empty() && message.attributes.as_slice().is_empty()
}

/// Whether an attribute has an empty or a too long key.
fn any_bad_key(attributes: &[(Text, Text)]) -> bool
    ensures { result ≡ list_any has_bad_key attributes.now }
{
    attributes.iter().any(has_bad_key)
}

fn has_bad_key(pair: &(Text, Text)) -> bool
    ensures { result ≡ has_bad_key pair.now }
{
    pair.0.len() == 0 || pair.0.len() > MOST_BYTES_OF_ATTRIBUTE_KEY
}

/// Whether an attribute has a too long value.
fn any_long_value(attributes: &[(Text, Text)]) -> bool
    ensures { result ≡ list_any has_long_value attributes.now }
{
    attributes.iter().any(has_long_value)
}

fn has_long_value(pair: &(Text, Text)) -> bool
    ensures { result ≡ has_long_value pair.now }
{
    pair.1.len() > MOST_BYTES_OF_ATTRIBUTE_VALUE
}

/// The bytes of all messages together, each counted with at most 2^40.
fn total_size(messages: &[Message]) -> u64
    requires { length messages.now ≤ most_messages }
    ensures { result ≡ total size_of messages.now }
{
    let mut size = 0;
    for message in messages {
        size += message.size();
    }
    size
}

fn place_in(reason: &Reason) -> Option<u32>
    ensures { result ≡ place_in reason.now }
{
    match reason {
        Reason::MessageEmpty(place)
        | Reason::MessageAttributes(place)
        | Reason::MessageAttributeKey(place)
        | Reason::MessageAttributeValue(place)
        | Reason::MessageOrderingKey(place) => Some(*place),
        _ => None,
    }
}
