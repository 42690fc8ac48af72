// What is told of ack ids: those that are invalid, and behind a `|` those that are before their turn.
use super::words::ack_id;
use super::{expect_each, line_of};
use ps_base::{AckId, List, Octets};
use ps_model::Reply;
use std::alloc::Global;
use std::test::Fail;

fn ack_ids(alloc: Global, words: &str) -> Result<List<AckId>, Fail> {
    let mut ids = List::new(alloc);
    for word in words.split_whitespace() {
        ids.push(ack_id(word)?)?;
    }
    Ok(ids)
}

pub fn acked(alloc: Global, words: &str) -> Result<Octets, Fail> {
    let (invalid, unordered) = words.split_once('|').unwrap_or((words, ""));
    let invalid = ack_ids(alloc, invalid)?;
    let unordered = ack_ids(alloc, unordered)?;
    let reply = Reply::Acked {
        exactly_once: true,
        invalid,
        unordered,
    };
    Ok(line_of(alloc, reply)?)
}

pub fn modified(alloc: Global, words: &str) -> Result<Octets, Fail> {
    let invalid = ack_ids(alloc, words)?;
    let reply = Reply::Modified {
        exactly_once: true,
        invalid,
    };
    Ok(line_of(alloc, reply)?)
}

const IDS: &str = r#"
> Acked
< {"body":{},"code":200}
> Acked 1/1/1
> Modified 1/1/1
< {"body":{"error":{"code":400,"details":[{"ackId":"AAAAAAAAAAEAAAAAAAAAAQAAAAAAAAAB","reason":"PERMANENT_FAILURE_INVALID_ACK_ID"}],"message":"ack ids","status":"FAILED_PRECONDITION"}},"code":400}
> Acked 1/1/1 | 1/3/3
< {"body":{"error":{"code":400,"details":[{"ackId":"AAAAAAAAAAEAAAAAAAAAAQAAAAAAAAAB","reason":"PERMANENT_FAILURE_INVALID_ACK_ID"},{"ackId":"AAAAAAAAAAEAAAAAAAAAAwAAAAAAAAAD","reason":"UNORDERED_ACK_ID"}],"message":"ack ids","status":"FAILED_PRECONDITION"}},"code":400}
"#;

#[test]
fn acknowledgements_are_told(rt: HostRuntime) -> Result<(), Fail> {
    expect_each(&rt, rt.alloc(), IDS)
}
