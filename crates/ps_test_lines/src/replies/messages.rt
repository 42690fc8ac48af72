// Messages that were published or handed out.
use super::words::{ack_id, labels, number_or_none, text};
use super::{expect_each, line_of};
use ps_base::{List, Octets, OutOfMemory};
use ps_message::Message;
use ps_model::{ReceivedMessage, Reply};
use ps_transcript::{bytes, number};
use std::alloc::Global;
use std::test::Fail;

/// The number of the first message, and how many there are.
pub fn published(alloc: Global, words: &str) -> Result<Octets, Fail> {
    let (first, number_of_messages) = words.split_once(' ').ok_or("no number of messages")?;
    let reply = Reply::Published {
        first: number(first)?,
        number: number_of_messages.parse::<u32>()?,
    };
    Ok(line_of(alloc, reply)?)
}

/// A message's payload, its ordering key or `-` for none, and its attributes.
fn message(alloc: Global, words: &str) -> Result<Message, Fail> {
    let (payload, rest) = words.split_once(' ').ok_or("no ordering key")?;
    let (key, attributes) = rest.split_once(' ').unwrap_or((rest, ""));
    let payload = Octets::from_vec(bytes(alloc, payload)?);
    let attributes = labels(alloc, attributes)?;
    let key = text(alloc, if key == "-" { "" } else { key })?;
    Ok(Message {
        payload,
        attributes,
        key,
    })
}

/// A message's ids, which delivery it is or `-`, when it was published, and what it holds.
fn received_message(alloc: Global, words: &str) -> Result<ReceivedMessage, Fail> {
    let (id, rest) = words.split_once(' ').ok_or("no attempt")?;
    let (attempt, rest) = rest.split_once(' ').ok_or("no moment")?;
    let (publish, rest) = rest.split_once(' ').ok_or("no payload")?;
    let id = ack_id(id)?;
    let attempt = number_or_none(attempt)?;
    let publish = number(publish)?;
    let message = message(alloc, rest)?;
    Ok(ReceivedMessage {
        id,
        attempt,
        publish,
        message,
    })
}

fn handed_out(alloc: Global, items: List<ReceivedMessage>) -> Result<Octets, OutOfMemory> {
    let reply = Reply::Received {
        exactly_once: false,
        ordering: false,
        items,
    };
    line_of(alloc, reply)
}

fn one(alloc: Global, item: ReceivedMessage) -> Result<Octets, OutOfMemory> {
    let mut items = List::new(alloc);
    items.push(item)?;
    handed_out(alloc, items)
}

/// One message, or none.
pub fn received(alloc: Global, words: &str) -> Result<Octets, Fail> {
    if words.is_empty() {
        return Ok(handed_out(alloc, List::new(alloc))?);
    }
    let item = received_message(alloc, words)?;
    Ok(one(alloc, item)?)
}

const PUBLISHED: &str = r#"
> Published 1 1
< {"body":{"messageIds":["1"]},"code":200}
> Published 1 3
< {"body":{"messageIds":["1","2","3"]},"code":200}
> Published 7 0
< {"body":{},"code":200}
> Published 18446744073709551615 2
< {"body":{"messageIds":["18446744073709551615","18446744073709551616"]},"code":200}
"#;

const RECEIVED: &str = r#"
> Received
< {"body":{},"code":200}
> Received 1/1/1 - 1000 "hi" -
< {"body":{"receivedMessages":[{"ackId":"AAAAAAAAAAEAAAAAAAAAAQAAAAAAAAAB","message":{"data":"aGk=","messageId":"1","publishTime":"1970-01-01T00:00:01.000Z"}}]},"code":200}
> Received 1/1/1 1 1700000001000 "one" c1 kind=paid
< {"body":{"receivedMessages":[{"ackId":"AAAAAAAAAAEAAAAAAAAAAQAAAAAAAAAB","deliveryAttempt":1,"message":{"attributes":{"kind":"paid"},"data":"b25l","messageId":"1","orderingKey":"c1","publishTime":"2023-11-14T22:13:21.000Z"}}]},"code":200}
# The last digits of base64.
> Received 1/3/2 2 0 fbefff -
< {"body":{"receivedMessages":[{"ackId":"AAAAAAAAAAEAAAAAAAAAAwAAAAAAAAAC","deliveryAttempt":2,"message":{"data":"++//","messageId":"3","publishTime":"1970-01-01T00:00:00.000Z"}}]},"code":200}
# A dead letter.
> Received 2/2/1 - 52000 "hi" - CloudPubSubDeadLetterSourceDeliveryCount=5 CloudPubSubDeadLetterSourceSubscription=sub CloudPubSubDeadLetterSourceSubscriptionProject=p CloudPubSubDeadLetterSourceTopicPublishTime=1970-01-01T00:00:01.000Z
< {"body":{"receivedMessages":[{"ackId":"AAAAAAAAAAIAAAAAAAAAAgAAAAAAAAAB","message":{"attributes":{"CloudPubSubDeadLetterSourceDeliveryCount":"5","CloudPubSubDeadLetterSourceSubscription":"sub","CloudPubSubDeadLetterSourceSubscriptionProject":"p","CloudPubSubDeadLetterSourceTopicPublishTime":"1970-01-01T00:00:01.000Z"},"data":"aGk=","messageId":"2","publishTime":"1970-01-01T00:00:52.000Z"}}]},"code":200}
"#;

#[test]
fn messages_are_told(rt: HostRuntime) -> Result<(), Fail> {
    let alloc = rt.alloc();
    expect_each(&rt, alloc, PUBLISHED)?;
    expect_each(&rt, alloc, RECEIVED)
}
