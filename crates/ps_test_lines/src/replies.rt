// How replies are told. A line names a reply and says what it holds. The answer is the line that tells it.
mod acknowledgements;
mod messages;
mod pages;
mod resources;
mod subscriptions;
pub mod words;

use ps_base::{Octets, OutOfMemory, Refusal};
use ps_json::print_reply;
use ps_model::Reply;
use ps_transcript::{Case, cases};
use std::alloc::Global;
use std::process::Abort;
use std::str::from_utf8;
use std::test::Fail;
use words::text;

fn line_of(alloc: Global, reply: Reply) -> Result<Octets, OutOfMemory> {
    let line = print_reply(alloc, &reply);
    drop(reply);
    line
}

fn answer_to(alloc: Global, asked: &str) -> Result<Octets, Fail> {
    let (reply, rest) = asked.split_once(' ').unwrap_or((asked, ""));
    match reply {
        "Empty" => Ok(line_of(alloc, Reply::Empty)?),
        "AlreadyExists" => already_exists(alloc, rest),
        "Exhausted" => Ok(line_of(alloc, Reply::Refused(Refusal::Exhausted))?),
        "Published" => messages::published(alloc, rest),
        "Received" => messages::received(alloc, rest),
        "Acked" => acknowledgements::acked(alloc, rest),
        "Modified" => acknowledgements::modified(alloc, rest),
        "Topic" => resources::topic(alloc, rest),
        "Snapshot" => resources::snapshot(alloc, rest),
        "Subscription" => subscriptions::subscription(alloc, rest),
        "Page" => pages::page(alloc, rest),
        _ => Err(Fail::new("no reply")),
    }
}

/// The name that is taken.
fn already_exists(alloc: Global, name: &str) -> Result<Octets, Fail> {
    let name = text(alloc, name)?;
    Ok(line_of(alloc, Reply::Refused(Refusal::AlreadyExists(name)))?)
}

fn expect(rt: &impl Abort, alloc: Global, case: Case) -> Result<(), Fail> {
    let line = answer_to(alloc, case.asked)?;
    let answer = format!(in alloc; "{}\n", case.answer)?;
    assert_eq!(rt;
        from_utf8(line.as_slice())?,
        answer.as_str(),
        "{}",
        case.asked
    );
    Ok(())
}

fn expect_each(rt: &impl Abort, alloc: Global, transcript: &str) -> Result<(), Fail> {
    for case in cases(alloc, transcript)?.as_slice() {
        expect(rt, alloc, *case)?;
    }
    Ok(())
}

const PLAIN: &str = r#"
> Empty
< {"body":{},"code":200}
> AlreadyExists projects/p/topics/abc
< {"body":{"error":{"code":409,"message":"projects/p/topics/abc","status":"ALREADY_EXISTS"}},"code":409}
> Exhausted
< {"body":{"error":{"code":429,"message":"entries","status":"RESOURCE_EXHAUSTED"}},"code":429}
"#;

#[test]
fn plain_replies_are_told(rt: HostRuntime) -> Result<(), Fail> {
    expect_each(&rt, rt.alloc(), PLAIN)
}
