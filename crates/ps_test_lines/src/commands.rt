// What calls ask. A line names a call, the name that its path gives, perhaps a `?` with the pairs of a query, and a body:
// the path's id is what stands behind the kind of resource, and it is empty for a project. The answer is the command that
// is read, or the code and the message of a refusal.
mod creations;
mod deliveries;
mod lists;
mod names;
mod publishes;
pub mod texts;
mod updates;

use ps_base::{OutOfMemory, Text};
use ps_json::{CallKind, PathNames, Query, command};
use ps_transcript::{Case, cases};
use serde_json::Value;
use std::alloc::Global;
use std::process::Abort;
use std::test::Fail;
use texts::text_of_asked;

/// Every call.
const CALLS: [CallKind; 23] = [
    CallKind::CreateTopic,
    CallKind::UpdateTopic,
    CallKind::GetTopic,
    CallKind::DeleteTopic,
    CallKind::ListTopics,
    CallKind::ListTopicSubscriptions,
    CallKind::ListTopicSnapshots,
    CallKind::Publish,
    CallKind::CreateSubscription,
    CallKind::UpdateSubscription,
    CallKind::GetSubscription,
    CallKind::DeleteSubscription,
    CallKind::ListSubscriptions,
    CallKind::Pull,
    CallKind::Acknowledge,
    CallKind::ModifyAckDeadline,
    CallKind::Seek,
    CallKind::Detach,
    CallKind::CreateSnapshot,
    CallKind::UpdateSnapshot,
    CallKind::GetSnapshot,
    CallKind::DeleteSnapshot,
    CallKind::ListSnapshots,
];

fn call_of(word: &str) -> Option<CallKind> {
    CALLS.iter().copied().find(|call| call.name() == word)
}

fn path_of(alloc: Global, name: &str) -> Result<PathNames, Fail> {
    let behind = name.strip_prefix("projects/").ok_or("no project")?;
    let (project, rest) = behind.split_once('/').unwrap_or((behind, ""));
    let (_, id) = rest.split_once('/').unwrap_or(("", ""));
    Ok(PathNames {
        project: Text::from_str(alloc, project)?,
        id: Text::from_str(alloc, id)?,
    })
}

fn value_in(alloc: Global, pairs: &str, name: &str) -> Result<Option<Text>, OutOfMemory> {
    for pair in pairs.split('&') {
        if let Some((own, value)) = pair.split_once('=') {
            if own == name {
                return Ok(Some(Text::from_str(alloc, value)?));
            }
        }
    }
    Ok(None)
}

fn query_of(alloc: Global, pairs: &str) -> Result<Query, OutOfMemory> {
    Ok(Query {
        page_size: value_in(alloc, pairs, "pageSize")?,
        page_token: value_in(alloc, pairs, "pageToken")?,
    })
}

/// The pairs and the body of what stands behind a name.
fn pairs_and_body(behind: &str) -> (&str, &str) {
    match behind.strip_prefix('?') {
        Some(rest) => rest.split_once(' ').unwrap_or((rest, "")),
        None => ("", behind),
    }
}

fn answer_to(alloc: Global, asked: &str) -> Result<String, Fail> {
    let (call, behind) = asked.split_once(' ').ok_or("no name")?;
    let (name, behind) = behind.split_once(' ').ok_or("no body")?;
    let (pairs, body) = pairs_and_body(behind);
    let call = call_of(call).ok_or("no call")?;
    let path = path_of(alloc, name)?;
    let query = query_of(alloc, pairs)?;
    let body = Value::from_str(alloc, body)?;
    Ok(text_of_asked(alloc, command(alloc, call, &path, &query, &body))?)
}

fn expect(rt: &impl Abort, alloc: Global, case: Case) -> Result<(), Fail> {
    let answer = answer_to(alloc, case.asked)?;
    assert_eq!(rt; answer.as_str(), case.answer, "{}", case.asked);
    Ok(())
}

fn expect_each(rt: &impl Abort, alloc: Global, transcript: &str) -> Result<(), Fail> {
    for case in cases(alloc, transcript)?.as_slice() {
        expect(rt, alloc, *case)?;
    }
    Ok(())
}

fn expect_all(rt: &impl Abort, alloc: Global, transcripts: &[&str]) -> Result<(), Fail> {
    for transcript in transcripts {
        expect_each(rt, alloc, transcript)?;
    }
    Ok(())
}

/// A body is an object, which is looked at before anything else.
const BODIES: &str = r#"
> CreateTopic projects/p/topics/x null
> CreateTopic projects/p/topics/x true
> CreateTopic projects/p/topics/x 7
> CreateTopic projects/p/topics/x "x"
> CreateTopic projects/p/topics/x []
> CreateSubscription projects/p/subscriptions/x null
> CreateSubscription projects/p/subscriptions/x true
> CreateSubscription projects/p/subscriptions/x 7
> CreateSubscription projects/p/subscriptions/x "x"
> CreateSubscription projects/p/subscriptions/x []
> UpdateTopic projects/p/topics/x null
> UpdateTopic projects/p/topics/x true
> UpdateTopic projects/p/topics/x 7
> UpdateTopic projects/p/topics/x "x"
> UpdateTopic projects/p/topics/x []
> UpdateSubscription projects/p/subscriptions/x null
> UpdateSubscription projects/p/subscriptions/x true
> UpdateSubscription projects/p/subscriptions/x 7
> UpdateSubscription projects/p/subscriptions/x "x"
> UpdateSubscription projects/p/subscriptions/x []
> Publish projects/p/topics/x null
> Publish projects/p/topics/x true
> Publish projects/p/topics/x 7
> Publish projects/p/topics/x "x"
> Publish projects/p/topics/x []
> Pull projects/p/subscriptions/x null
> Pull projects/p/subscriptions/x true
> Pull projects/p/subscriptions/x 7
> Pull projects/p/subscriptions/x "x"
> Pull projects/p/subscriptions/x []
> Acknowledge projects/p/subscriptions/x null
> Acknowledge projects/p/subscriptions/x true
> Acknowledge projects/p/subscriptions/x 7
> Acknowledge projects/p/subscriptions/x "x"
> Acknowledge projects/p/subscriptions/x []
> Detach projects/p/subscriptions/x null
> Detach projects/p/subscriptions/x true
> Detach projects/p/subscriptions/x 7
> Detach projects/p/subscriptions/x "x"
> Detach projects/p/subscriptions/x []
< 400 body
"#;

#[test]
fn bodies_are_objects(rt: HostRuntime) -> Result<(), Fail> {
    expect_all(&rt, rt.alloc(), &[BODIES])
}
