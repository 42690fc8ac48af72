// What requests ask. A line names a method, a target and, behind them, the bytes of a body: hexadecimal digits, or text in
// quotes. The answer is the command that is read, or the code and the message of a refusal.
use crate::commands::texts::text_of_asked;
use ps_rest::route;
use ps_transcript::{Case, bytes, cases};
use std::alloc::Global;
use std::process::Abort;
use std::test::Fail;

fn answer_to(alloc: Global, asked: &str) -> Result<String, Fail> {
    let (method, behind) = asked.split_once(' ').ok_or("no target")?;
    let (target, body) = behind.split_once(' ').unwrap_or((behind, ""));
    let body = bytes(alloc, body)?;
    Ok(text_of_asked(alloc, route(alloc, method, target, body.as_slice()))?)
}

fn expect(rt: &impl Abort, alloc: Global, case: Case) -> Result<(), Fail> {
    let answer = answer_to(alloc, case.asked)?;
    assert_eq!(rt; answer.as_str(), case.answer, "{}", case.asked);
    Ok(())
}

fn expect_each(rt: &impl Abort, alloc: Global, transcript: &str) -> Result<(), Fail> {
    for case in cases(alloc, transcript)?.as_slice() {
        expect(rt, alloc, *case)?;
    }
    Ok(())
}

fn expect_all(rt: &impl Abort, alloc: Global, transcripts: &[&str]) -> Result<(), Fail> {
    for transcript in transcripts {
        expect_each(rt, alloc, transcript)?;
    }
    Ok(())
}

/// A body without bytes is `{}`.
const EMPTY: &str = r#"
> PUT /v1/projects/p/topics/abc
> PUT /v1/projects/p/topics/abc "{}"
> PUT /v1/projects/p/topics/abc?alt=json 20 "{}" 0d0a
< projects/p/topics/abc {} None
> PUT /v1/projects/p/topics/abc "{"labels":{"k":"v"}}"
< projects/p/topics/abc {k=v;} None
> PATCH /v1/projects/p/topics/abc
> PATCH /v1/projects/p/topics/abc "{}"
< 400 updateMask
> POST /v1/projects/p/topics/abc:publish
> POST /v1/projects/p/topics/abc:publish "{}"
< 400 messages
> POST /v1/projects/p/subscriptions/sub:pull
< 400 maxMessages
> POST /v1/projects/p/subscriptions/sub:pull "{"maxMessages":7}"
< projects/p/subscriptions/sub 7 10000000 None
> POST /v1/projects/p/subscriptions/sub:detach
< Detach projects/p/subscriptions/sub
"#;

/// Another value, and bytes that are no JSON or no UTF-8.
const NO_OBJECTS: &str = r#"
> PUT /v1/projects/p/topics/abc "[]"
> PUT /v1/projects/p/topics/abc "null"
> PUT /v1/projects/p/topics/abc "7"
> PUT /v1/projects/p/topics/abc "{"
> PUT /v1/projects/p/topics/abc "{}{}"
> PUT /v1/projects/p/topics/abc 00
> PUT /v1/projects/p/topics/abc 20
> PUT /v1/projects/p/topics/abc ff
> PUT /v1/projects/p/topics/abc efbbbf "{}"
> PUT /v1/projects/p/topics/abc "{"labels":{"k":"" ff ""}}"
> PUT /v1/projects/p/subscriptions/sub "null"
> PATCH /v1/projects/p/topics/abc "[]"
> PATCH /v1/projects/p/topics/abc "null"
> PATCH /v1/projects/p/topics/abc "7"
> PATCH /v1/projects/p/topics/abc "{"
> PATCH /v1/projects/p/topics/abc ff
> POST /v1/projects/p/topics/abc:publish "[]"
> POST /v1/projects/p/topics/abc:publish "null"
> POST /v1/projects/p/topics/abc:publish "7"
> POST /v1/projects/p/topics/abc:publish "{"
> POST /v1/projects/p/topics/abc:publish ff
> POST /v1/projects/p/subscriptions/sub:detach "null"
< 400 body
"#;

/// The path is looked at before the body, and the body before the name.
const ORDER: &str = r#"
> PUT /v1/projects/p/topics/%ff "[]"
> PATCH /v1/projects/p/topics/%ff "7"
> POST /v1/projects/p/topics/%ff:publish ff
< 400 path
> PUT /v1/projects/p/things/abc ff
< 404 /v1/projects/p/things/abc
> POST /v1/projects/p/subscriptions/sub:seek ff
< 501 Seek
> PUT /v1/projects/p/topics/ab "[]"
> PATCH /v1/projects/P/topics/abc "null"
> POST /v1/projects/p/subscriptions/ab:pull ff
< 400 body
> PUT /v1/projects/p/topics/ab
> PATCH /v1/projects/P/topics/abc
> POST /v1/projects/p/subscriptions/ab:pull
< 400 name
"#;

/// A body of a GET or a DELETE is ignored.
const IGNORED: &str = r#"
> GET /v1/projects/p/topics/abc
> GET /v1/projects/p/topics/abc "[]"
> GET /v1/projects/p/topics/abc "null"
> GET /v1/projects/p/topics/abc "{"
> GET /v1/projects/p/topics/abc?alt=json ff
< GetTopic projects/p/topics/abc
> GET /v1/projects/p/topics?pageSize=7 ff
< ListTopics p 7 ""
> DELETE /v1/projects/p/topics/abc
> DELETE /v1/projects/p/topics/abc "[]"
> DELETE /v1/projects/p/topics/abc "null"
> DELETE /v1/projects/p/topics/abc "{"
> DELETE /v1/projects/p/topics/abc ff
< DeleteTopic projects/p/topics/abc
> GET /v1/projects/p/topics/ab ff
> DELETE /v1/projects/p/subscriptions/ab "7"
< 400 name
"#;

#[test]
fn bodies_are_read_from_bytes(rt: HostRuntime) -> Result<(), Fail> {
    expect_all(&rt, rt.alloc(), &[EMPTY, NO_OBJECTS, ORDER, IGNORED])
}
