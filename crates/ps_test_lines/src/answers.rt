// What answers calls over HTTP. A line names a reply, a fault, a request that is refused, or the code of an answer to bytes
// that are no request. The answer is the code and the body.
use crate::replies::words::{ack_id, text};
use ps_base::{List, Octets, OutOfMemory, Refusal};
use ps_book::{Answer, CallError};
use ps_json::ReadError;
use ps_model::{Command, Reply};
use ps_rest::{answer_text, framing_text, memory_text, refusal_answer, route};
use ps_transcript::{Case, cases, number};
use std::alloc::Global;
use std::process::Abort;
use std::str::from_utf8;
use std::test::Fail;

fn text_of(alloc: Global, code: u16, body: &[u8]) -> Result<String, Fail> {
    Ok(format!(in alloc; "{code} {}", from_utf8(body)?)?)
}

fn answered(alloc: Global, reply: Reply) -> Result<(u16, Octets), OutOfMemory> {
    let answer = Ok(Answer {
        reply,
        place: 1,
        recorded: true,
    });
    let told = answer_text(alloc, &answer);
    drop(answer);
    told
}

fn reply_of(alloc: Global, words: &str) -> Result<Reply, Fail> {
    let (reply, rest) = words.split_once(' ').unwrap_or((words, ""));
    match reply {
        "Empty" => Ok(Reply::Empty),
        "Published" => Ok(Reply::Published {
            first: number(rest)?,
            number: 2,
        }),
        "Modified" => modified(alloc, rest),
        "NotFound" => Ok(Reply::Refused(Refusal::NotFound(text(alloc, rest)?))),
        "Exhausted" => Ok(Reply::Refused(Refusal::Exhausted)),
        _ => Err(Fail::new("no reply")),
    }
}

/// One id that did nothing.
fn modified(alloc: Global, word: &str) -> Result<Reply, Fail> {
    let mut invalid = List::new(alloc);
    invalid.push(ack_id(word)?)?;
    Ok(Reply::Modified {
        exactly_once: true,
        invalid,
    })
}

fn fault_of(words: &str) -> Result<CallError, Fail> {
    let (fault, rest) = words.split_once(' ').unwrap_or((words, ""));
    match fault {
        "StoreFault" => Ok(CallError::StoreFault),
        "BadRow" => Ok(CallError::BadRow { seq: number(rest)? }),
        "OutOfMemory" => Ok(CallError::OutOfMemory),
        _ => Err(Fail::new("no fault")),
    }
}

fn refused(
    alloc: Global,
    asked: Result<Command, ReadError>,
) -> Result<Option<(u16, Octets)>, OutOfMemory> {
    match asked {
        Err(ReadError::Refused(refusal)) => Ok(Some(refusal_answer(alloc, &refusal)?)),
        _ => Ok(None),
    }
}

/// The answer to a request without a body.
fn refusal_of(alloc: Global, words: &str) -> Result<(u16, Octets), Fail> {
    let (method, target) = words.split_once(' ').ok_or("no target")?;
    let answer = refused(alloc, route(alloc, method, target, &[]))?;
    Ok(answer.ok_or("not refused")?)
}

fn framing_answer(alloc: Global, word: &str) -> Result<String, Fail> {
    match word {
        "400" => text_of(alloc, 400, framing_text(400)),
        "413" => text_of(alloc, 413, framing_text(413)),
        "415" => text_of(alloc, 415, framing_text(415)),
        "431" => text_of(alloc, 431, framing_text(431)),
        "501" => text_of(alloc, 501, framing_text(501)),
        _ => Err(Fail::new("no code")),
    }
}

fn answer_of(alloc: Global, kind: &str, words: &str) -> Result<(u16, Octets), Fail> {
    match kind {
        "Reply" => Ok(answered(alloc, reply_of(alloc, words)?)?),
        "Fault" => Ok(answer_text(alloc, &Err(fault_of(words)?))?),
        "Request" => refusal_of(alloc, words),
        _ => Err(Fail::new("no answer")),
    }
}

fn answer_to(alloc: Global, asked: &str) -> Result<String, Fail> {
    let (kind, words) = asked.split_once(' ').unwrap_or((asked, ""));
    match kind {
        "Framing" => framing_answer(alloc, words),
        "Memory" => text_of(alloc, 507, memory_text()),
        _ => {
            let (code, body) = answer_of(alloc, kind, words)?;
            text_of(alloc, code, body.as_slice())
        }
    }
}

fn expect(rt: &impl Abort, alloc: Global, case: Case) -> Result<(), Fail> {
    let answer = answer_to(alloc, case.asked)?;
    assert_eq!(rt; answer.as_str(), case.answer, "{}", case.asked);
    Ok(())
}

fn expect_each(rt: &impl Abort, alloc: Global, transcript: &str) -> Result<(), Fail> {
    for case in cases(alloc, transcript)?.as_slice() {
        expect(rt, alloc, *case)?;
    }
    Ok(())
}

const ANSWERS: &str = r#"
> Reply Empty
< 200 {}
> Reply Published 7
< 200 {"messageIds":["7","8"]}
> Reply Modified 1/1/1
< 400 {"error":{"code":400,"details":[{"ackId":"AAAAAAAAAAEAAAAAAAAAAQAAAAAAAAAB","reason":"PERMANENT_FAILURE_INVALID_ACK_ID"}],"message":"ack ids","status":"FAILED_PRECONDITION"}}
> Reply NotFound projects/p/topics/abc
< 404 {"error":{"code":404,"message":"projects/p/topics/abc","status":"NOT_FOUND"}}
> Reply Exhausted
< 429 {"error":{"code":429,"message":"entries","status":"RESOURCE_EXHAUSTED"}}
"#;

const FAULTS: &str = r#"
> Fault StoreFault
< 503 {"error":{"code":503,"message":"store fault","status":"UNAVAILABLE"}}
> Fault BadRow 7
< 500 {"error":{"code":500,"message":"bad row 7","status":"INTERNAL"}}
> Fault BadRow 18446744073709551615
< 500 {"error":{"code":500,"message":"bad row 18446744073709551615","status":"INTERNAL"}}
> Fault OutOfMemory
> Memory
< 507 {"error":{"code":507,"message":"out of memory","status":"OUT_OF_MEMORY"}}
"#;

const REFUSALS: &str = r#"
> Request GET /v1/projects/p/topics/%ff
< 400 {"error":{"code":400,"message":"path","status":"INVALID_ARGUMENT"}}
> Request POST /v1/projects/p/subscriptions/sub:pull
< 400 {"error":{"code":400,"message":"maxMessages","status":"INVALID_ARGUMENT"}}
> Request GET /v2/%22x?y
< 404 {"error":{"code":404,"message":"/v2/%22x","status":"NOT_FOUND"}}
> Request GET /"x
< 404 {"error":{"code":404,"message":"/\"x","status":"NOT_FOUND"}}
> Request POST /v1/projects/p/subscriptions/sub:seek
< 501 {"error":{"code":501,"message":"Seek","status":"UNIMPLEMENTED"}}
"#;

/// Answers to bytes that are no request.
const FRAMING: &str = r#"
> Framing 400
< 400 {"error":{"code":400,"message":"http","status":"INVALID_ARGUMENT"}}
> Framing 413
< 413 {"error":{"code":413,"message":"http","status":"TOO_LARGE"}}
> Framing 415
< 415 {"error":{"code":415,"message":"http","status":"UNSUPPORTED_MEDIA_TYPE"}}
> Framing 431
< 431 {"error":{"code":431,"message":"http","status":"HEADERS_TOO_LARGE"}}
> Framing 501
< 501 {"error":{"code":501,"message":"http","status":"UNIMPLEMENTED"}}
"#;

#[test]
fn answers_have_codes_and_bodies(rt: HostRuntime) -> Result<(), Fail> {
    expect_each(&rt, rt.alloc(), ANSWERS)?;
    expect_each(&rt, rt.alloc(), FAULTS)
}

#[test]
fn refusals_have_codes_and_bodies(rt: HostRuntime) -> Result<(), Fail> {
    expect_each(&rt, rt.alloc(), REFUSALS)?;
    expect_each(&rt, rt.alloc(), FRAMING)
}
