// The line that answers a call, and its body alone.
ghost use Rattle.std.specs.Prelude.{◌≡◌, false, IfOk};
ghost use Rattle.serde_json.specs.View.{view};
ghost use Rattle.serde_json.specs.Written.{compact_text, has_float};
ghost use Rattle.ps_json.specs.Replies.{body_of, code_of, line_text, refusal_data, reply_data, no_line_text, refusal_text, reply_text};

use crate::print::Shown;
use crate::print::error::{acked, acked_code, error_value, refused};
use crate::print::message::{published, received};
use crate::print::page::page;
use ps_base::{Octets, OutOfMemory, Refusal};
use ps_model::Reply;
use serde_json::{Map, Value, json};
use std::alloc::{AllocError, Global};

/// The body of a reply.
#[tactic(auto, unfolding(crate::specs::Replies::body_of))]
pub fn value(alloc: Global, reply: &Reply) -> Result<Value, OutOfMemory>
    ensures { IfOk result (λ value. view value ≡ body_of reply.now) }
{
    match reply {
        Reply::Empty => Ok(Value::Object(Map::new(alloc))),
        Reply::Topic(topic) => topic.to_value(alloc),
        Reply::Subscription(sub) => sub.to_value(alloc),
        Reply::Snapshot(snap) => snap.to_value(alloc),
        Reply::Page { items, next } => page(alloc, items, next),
        Reply::Published { first, number } => published(alloc, *first, *number),
        Reply::Received { items, .. } => received(alloc, items.as_slice()),
        Reply::Acked {
            invalid,
            unordered,
            ..
        } => acked(alloc, invalid.as_slice(), unordered.as_slice()),
        Reply::Modified { invalid, .. } => acked(alloc, invalid.as_slice(), &[]),
        Reply::Refused(refusal) => refused(alloc, refusal),
    }
}

/// The code of a reply: 200, a refusal's own, or 400 if ack ids did nothing.
pub fn code(reply: &Reply) -> u16
    ensures { result ≡ code_of reply.now }
{
    match reply {
        Reply::Refused(refusal) => refusal.code(),
        Reply::Acked {
            invalid,
            unordered,
            ..
        } => acked_code(invalid.as_slice(), unordered.as_slice()),
        Reply::Modified { invalid, .. } => acked_code(invalid.as_slice(), &[]),
        _ => 200,
    }
}

/// The body of a reply as JSON, without a line feed.
pub fn print_body(alloc: Global, reply: &Reply) -> Result<Octets, OutOfMemory>
    ensures { IfOk result (λ text. text ≡ compact_text (body_of reply.now)) }
{
    let body = value(alloc, reply)?;
    json_text(alloc, &body)
}

/// The body of a refusal as JSON, without a line feed.
pub fn refusal_body(alloc: Global, refusal: &Refusal) -> Result<Octets, OutOfMemory>
    ensures { IfOk result (λ text. text ≡ compact_text (refusal_data refusal.now)) }
{
    let body = refused(alloc, refusal)?;
    json_text(alloc, &body)
}

/// The line, with its line feed, that tells a reply.
pub fn print_reply(alloc: Global, reply: &Reply) -> Result<Octets, OutOfMemory>
    ensures { IfOk result (λ text. text ≡ reply_text reply.now) }
{
    let body = value(alloc, reply)?;
    reply_line(alloc, code(reply), body)
}

/// The line of a refusal.
pub fn refusal_line(alloc: Global, refusal: &Refusal) -> Result<Octets, OutOfMemory>
    ensures { IfOk result (λ text. text ≡ refusal_text refusal.now) }
{
    let body = refused(alloc, refusal)?;
    reply_line(alloc, refusal.code(), body)
}

/// The line that refuses bytes that are no line of a batch.
pub fn no_line(alloc: Global) -> Result<Octets, OutOfMemory>
    ensures { IfOk result (λ text. text ≡ no_line_text) }
{
    let body = error_value(alloc, 400, "line", "INVALID_ARGUMENT")?;
    reply_line(alloc, 400, body)
}

fn reply_line(alloc: Global, code: u16, body: Value) -> Result<Octets, OutOfMemory>
    requires { has_float (view body) ≡ false }
    ensures { IfOk result (λ text. text ≡ line_text (reply_data code (view body))) }
{
    let reply = reply_value(alloc, code, body)?;
    json_line(alloc, &reply)
}

fn json_text(alloc: Global, value: &Value) -> Result<Octets, OutOfMemory>
    requires { has_float (view value.now) ≡ false }
    ensures { IfOk result (λ text. text ≡ compact_text (view value.now)) }
{
    Ok(Octets::from_vec(value.to_vec(alloc)?))
}

// A value as one line of JSON, with its line feed.
fn json_line(alloc: Global, value: &Value) -> Result<Octets, OutOfMemory>
    requires { has_float (view value.now) ≡ false }
    ensures { IfOk result (λ text. text ≡ line_text (view value.now)) }
{
    let mut line = value.to_string(alloc)?;
    line.push('\n')?;
    Ok(Octets::from_vec(line.into_bytes()))
}

fn reply_value(alloc: Global, code: u16, body: Value) -> Result<Value, AllocError>
    ensures { IfOk result (λ value. view value ≡ reply_data code (view body)) }
{
    json!(in alloc; {"body": body, "code": code})
}
