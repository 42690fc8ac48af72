//! Whole connections, each over a log of its own at the moment 1000.

use crate::links::{bytes_of, cut_link, link_of, written};
use crate::stores::keeper_of;
use ps_book::Book;
use ps_core::Core;
use ps_edge::{MemoryClock, MemoryLink};
use ps_keeper::MemoryKeeper;
use ps_server::{ConnEnd, HttpProtocol, serve_conn};
use ps_transcript::cases;
use std::alloc::Global;
use std::sync::Wait;
use std::test::Fail;

/// What a client sends on one connection, and all that it is answered, where `|` is CRLF; last how the connection ended.
const CONNECTIONS: &str = r#"
# A topic is made, by a body with a length, in chunks, and after the answer 100.
> PUT /v1/projects/p/topics/abc HTTP/1.1|Host: localhost|Content-Length: 2||{}
< HTTP/1.1 200 OK|content-type: application/json|content-length: 32||{"name":"projects/p/topics/abc"} ended
> PUT /v1/projects/p/topics/abc HTTP/1.1|Host: localhost|Transfer-Encoding: chunked||2|{}|0||
< HTTP/1.1 200 OK|content-type: application/json|content-length: 32||{"name":"projects/p/topics/abc"} ended
> PUT /v1/projects/p/topics/abc HTTP/1.1|Host: localhost|Expect: 100-continue|Content-Length: 2||{}
< HTTP/1.1 100 Continue||HTTP/1.1 200 OK|content-type: application/json|content-length: 32||{"name":"projects/p/topics/abc"} ended

# Two requests in one piece are answered in their order.
> PUT /v1/projects/p/topics/abc HTTP/1.1|Host: x||GET /v1/projects/p/topics/abd HTTP/1.1|Host: x||
< HTTP/1.1 200 OK|content-type: application/json|content-length: 32||{"name":"projects/p/topics/abc"}HTTP/1.1 404 Not Found|content-type: application/json|content-length: 77||{"error":{"code":404,"message":"projects/p/topics/abd","status":"NOT_FOUND"}} ended

# A request of HTTP/1.0 closes, and what follows isn't read.
> PUT /v1/projects/p/topics/abc HTTP/1.0||PUT /v1/projects/p/topics/abd HTTP/1.0||
< HTTP/1.1 200 OK|content-type: application/json|content-length: 32|connection: close||{"name":"projects/p/topics/abc"} closed

# Bytes that are no request, and a body that is no JSON.
> OPTIONS /v1/projects/p/topics/abc HTTP/1.1|Host: x||
< HTTP/1.1 501 Not Implemented|content-type: application/json|content-length: 64|connection: close||{"error":{"code":501,"message":"http","status":"UNIMPLEMENTED"}} refused 501
> PUT /v1/projects/p/topics/abc HTTP/1.1|Host: x|Content-Length: 1||[
< HTTP/1.1 400 Bad Request|content-type: application/json|content-length: 67||{"error":{"code":400,"message":"body","status":"INVALID_ARGUMENT"}} ended

# Nothing, and a part of a request.
> |
< ended
> PUT
< torn 3
"#;

/// The same, with the faults of the connection.
const FAULTS: &str = r#"
# A read fails: the first, in a request, and after an answer.
> !
< read fault
> PUT /v1/projects/p/topics/abc HTTP/1.1|Host: x|Content-Length: 2||{^~^!^}
< read fault
> PUT /v1/projects/p/topics/abc HTTP/1.1|Host: x||^!
< HTTP/1.1 200 OK|content-type: application/json|content-length: 32||{"name":"projects/p/topics/abc"} read fault

# A write fails: that of an answer, the second one, that of an answer that closes, of a refusal, and of the answer 100.
> #1^PUT /v1/projects/p/topics/abc HTTP/1.1|Host: x||
< write fault
> #2^PUT /v1/projects/p/topics/abc HTTP/1.1|Host: x||GET /v1/projects/p/topics/abc HTTP/1.1|Host: x||
< HTTP/1.1 200 OK|content-type: application/json|content-length: 32||{"name":"projects/p/topics/abc"} write fault
> #1^PUT /v1/projects/p/topics/abc HTTP/1.0||
> #1^OPTIONS /v1/projects/p/topics/abc HTTP/1.1|Host: x||
> #1^PUT /v1/projects/p/topics/abc HTTP/1.1|Host: x|Expect: 100-continue|Content-Length: 2||{}
< write fault
"#;

/// The same over a log with the faults of the first word. Call 1 reads the empty log, and call 2 appends what the first
/// request records. After a fault the next request reads the log again, by one call if it is empty, else by two.
const STORE_FAULTS: &str = r#"
# The connection goes on to the next request, which finds what was stored.
> 2:before PUT /v1/projects/p/topics/abc HTTP/1.1|Host: x||PUT /v1/projects/p/topics/abc HTTP/1.1|Host: x||
< HTTP/1.1 503 Service Unavailable|content-type: application/json|content-length: 69||{"error":{"code":503,"message":"store fault","status":"UNAVAILABLE"}}HTTP/1.1 200 OK|content-type: application/json|content-length: 32||{"name":"projects/p/topics/abc"} ended
> 2:after PUT /v1/projects/p/topics/abc HTTP/1.1|Host: x||PUT /v1/projects/p/topics/abc HTTP/1.1|Host: x||
< HTTP/1.1 503 Service Unavailable|content-type: application/json|content-length: 69||{"error":{"code":503,"message":"store fault","status":"UNAVAILABLE"}}HTTP/1.1 409 Conflict|content-type: application/json|content-length: 82||{"error":{"code":409,"message":"projects/p/topics/abc","status":"ALREADY_EXISTS"}} ended

# So it does if the log can't be read again.
> 2:before,3:before PUT /v1/projects/p/topics/abc HTTP/1.1|Host: x||PUT /v1/projects/p/topics/abc HTTP/1.1|Host: x||PUT /v1/projects/p/topics/abc HTTP/1.1|Host: x||
< HTTP/1.1 503 Service Unavailable|content-type: application/json|content-length: 69||{"error":{"code":503,"message":"store fault","status":"UNAVAILABLE"}}HTTP/1.1 503 Service Unavailable|content-type: application/json|content-length: 69||{"error":{"code":503,"message":"store fault","status":"UNAVAILABLE"}}HTTP/1.1 200 OK|content-type: application/json|content-length: 32||{"name":"projects/p/topics/abc"} ended

# What was answered before stands.
> 3:before PUT /v1/projects/p/topics/abc HTTP/1.1|Host: x||PUT /v1/projects/p/topics/abd HTTP/1.1|Host: x||GET /v1/projects/p/topics/abc HTTP/1.1|Host: x||
< HTTP/1.1 200 OK|content-type: application/json|content-length: 32||{"name":"projects/p/topics/abc"}HTTP/1.1 503 Service Unavailable|content-type: application/json|content-length: 69||{"error":{"code":503,"message":"store fault","status":"UNAVAILABLE"}}HTTP/1.1 200 OK|content-type: application/json|content-length: 32||{"name":"projects/p/topics/abc"} ended

# A request that asks to close is answered so too.
> 2:before PUT /v1/projects/p/topics/abc HTTP/1.0||
< HTTP/1.1 503 Service Unavailable|content-type: application/json|content-length: 69|connection: close||{"error":{"code":503,"message":"store fault","status":"UNAVAILABLE"}} closed
> 2:before PUT /v1/projects/p/topics/abc HTTP/1.1|Host: x||PUT /v1/projects/p/topics/abc HTTP/1.0||
< HTTP/1.1 503 Service Unavailable|content-type: application/json|content-length: 69||{"error":{"code":503,"message":"store fault","status":"UNAVAILABLE"}}HTTP/1.1 200 OK|content-type: application/json|content-length: 32|connection: close||{"name":"projects/p/topics/abc"} closed
"#;

/// How a connection ended.
fn shown(alloc: Global, end: ConnEnd) -> Result<String, Fail> {
    match end {
        ConnEnd::Ended => Ok(format!(in alloc; "ended")?),
        ConnEnd::Torn { bytes } => Ok(format!(in alloc; "torn {bytes}")?),
        ConnEnd::ReadFault => Ok(format!(in alloc; "read fault")?),
        ConnEnd::WriteFault => Ok(format!(in alloc; "write fault")?),
        ConnEnd::Refused(code) => Ok(format!(in alloc; "refused {code}")?),
        ConnEnd::Closed => Ok(format!(in alloc; "closed")?),
        ConnEnd::OutOfMemory => Err(Fail::new("no memory")),
    }
}

/// Serves a connection over the log of a keeper.
fn serve<M: HttpProtocol, R: Wait>(
    rt: &R,
    alloc: Global,
    link: &mut MemoryLink,
    keeper: MemoryKeeper,
) -> Result<ConnEnd, Fail> {
    let machine = M::fresh(alloc)?;
    match Book::begin(alloc, machine, keeper) {
        Ok(mut book) => Ok(serve_conn(rt, alloc, link, &mut book, &MemoryClock::new(1000))),
        Err(_) => Err(Fail::new("the log can't be read")),
    }
}

/// What is answered over the log of a keeper, and how the connection ends.
fn answered<R: Wait>(
    rt: &R,
    alloc: Global,
    mut link: MemoryLink,
    keeper: MemoryKeeper,
) -> Result<String, Fail> {
    let end = serve::<Core, R>(rt, alloc, &mut link, keeper)?;
    let text = written(alloc, &link)?;
    let end = shown(alloc, end)?;
    if text.is_empty() {
        return Ok(end);
    }
    Ok(format!(in alloc; "{text} {end}")?)
}

fn expect(text: String, answer: &str, asked: &str) -> Result<(), Fail> {
    if text.as_str() == answer {
        return Ok(());
    }
    Err(Fail::new(format_args!("{text} in place of {answer}: {asked}")))
}

/// Whether a client is answered so if its bytes come in two pieces that are cut at a place.
fn expect_cut(
    rt: &impl Wait,
    alloc: Global,
    bytes: &[u8],
    cut: usize,
    answer: &str,
) -> Result<(), Fail> {
    let link = cut_link(alloc, bytes, cut)?;
    let text = answered(rt, alloc, link, MemoryKeeper::new(alloc))?;
    if text.as_str() == answer {
        return Ok(());
    }
    Err(Fail::new(format_args!("{text} in place of {answer}, cut at {cut}")))
}

fn expect_cuts(rt: &impl Wait, alloc: Global, line: &str, answer: &str) -> Result<(), Fail> {
    let bytes = bytes_of(alloc, line)?;
    for cut in 0..bytes.len() {
        expect_cut(rt, alloc, bytes.as_slice(), cut, answer)?;
    }
    Ok(())
}

#[test]
fn connections_are_served_at_every_cut(rt: HostRuntime) -> Result<(), Fail> {
    let alloc = rt.alloc();
    for case in &cases(alloc, CONNECTIONS)? {
        expect_cuts(&rt, alloc, case.asked, case.answer)?;
    }
    Ok(())
}

/// Whether nothing is answered if so many bytes come in two halves.
fn expect_torn(rt: &impl Wait, alloc: Global, bytes: &[u8]) -> Result<(), Fail> {
    let count = bytes.len();
    let end = format!(in alloc; "torn {count}")?;
    expect_cut(rt, alloc, bytes, count / 2, end.as_str())
}

/// A request of 80 bytes.
const REQUEST: &[u8] =
    b"PUT /v1/projects/p/topics/abc HTTP/1.1\r\nHost: localhost\r\nContent-Length: 2\r\n\r\n{}";

#[test]
fn a_request_is_torn_if_it_ends_early(rt: HostRuntime) -> Result<(), Fail> {
    let alloc = rt.alloc();
    expect_cut(&rt, alloc, b"", 0, "ended")?;
    for count in 1..REQUEST.len() {
        expect_torn(&rt, alloc, &REQUEST[..count])?;
    }
    Ok(())
}

fn expect_answer(rt: &impl Wait, alloc: Global, asked: &str, answer: &str) -> Result<(), Fail> {
    let link = link_of(alloc, asked)?;
    let text = answered(rt, alloc, link, MemoryKeeper::new(alloc))?;
    expect(text, answer, asked)
}

#[test]
fn a_fault_of_a_connection_ends_it(rt: HostRuntime) -> Result<(), Fail> {
    let alloc = rt.alloc();
    for case in &cases(alloc, FAULTS)? {
        expect_answer(&rt, alloc, case.asked, case.answer)?;
    }
    Ok(())
}

/// Whether a client is answered so over a log with these faults.
fn expect_over(
    rt: &impl Wait,
    alloc: Global,
    faults: &str,
    asked: &str,
    answer: &str,
) -> Result<(), Fail> {
    let link = link_of(alloc, asked)?;
    let text = answered(rt, alloc, link, keeper_of(alloc, faults)?)?;
    expect(text, answer, asked)
}

fn expect_store_fault(rt: &impl Wait, alloc: Global, line: &str, answer: &str) -> Result<(), Fail> {
    let (faults, asked) = line.split_once(' ').ok_or("the first word is faults")?;
    expect_over(rt, alloc, faults, asked, answer)
}

#[test]
fn a_connection_goes_on_after_a_fault_of_the_store(rt: HostRuntime) -> Result<(), Fail> {
    let alloc = rt.alloc();
    for case in &cases(alloc, STORE_FAULTS)? {
        expect_store_fault(&rt, alloc, case.asked, case.answer)?;
    }
    Ok(())
}
