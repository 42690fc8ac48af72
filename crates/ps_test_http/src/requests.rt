use crate::links::{bytes_of, cut_link, link_of};
use ps_edge::MemoryLink;
use ps_http::{Exchange, Kept, next};
use ps_transcript::cases;
use std::alloc::{AllocError, Global};
use std::test::Fail;

/// What a client sends, where `|` is CRLF, and what is read of it: requests with their bodies, and the end. `100` tells
/// that the answer 100 was written so far.
const REQUESTS: &str = "
> GET /v1/a HTTP/1.1|Host: x||
< GET /v1/a () ended

# Two requests in one piece, after empty lines.
> ||PUT /a HTTP/1.1|Host: x|Content-Length: 3||abcGET /b HTTP/1.1|Host: x||
< PUT /a (abc) GET /b () ended

> GET /a HTTP/1.0||
< GET /a () close ended
> GET /a HTTP/1.1|host: x|connection: a, CLOSE||
< GET /a () close ended

> POST /a HTTP/1.1|Host: x|Transfer-Encoding: Chunked||3|abc|2;x=y|de|0|T: 1||GET /b HTTP/1.1|Host: x||
< POST /a (abcde) GET /b () ended
> POST /a HTTP/1.1|Host: x|Transfer-Encoding: chunked||3|abcd|0||
< refused 400
> POST /a HTTP/1.1|Host: x|Transfer-Encoding: chunked||zz|
< refused 400
> POST /a HTTP/1.1|Host: x|Transfer-Encoding: chunked||1000001|
< refused 413

# A size counts as its line is judged: 16777216 bytes in all, and one more.
> POST /a HTTP/1.1|Host: x|Transfer-Encoding: chunked||3|abc|fffffd|
< torn 73
> POST /a HTTP/1.1|Host: x|Transfer-Encoding: chunked||3|abc|fffffe|
< refused 413

> PUT /a HTTP/1.1|Host: x|Expect: 100-Continue|Content-Length: 2||{}
< 100 PUT /a ({}) ended
> PUT /a HTTP/1.1|Host: x|Expect: 100-continue|Content-Length: 0||
< PUT /a () ended
> PUT /a HTTP/1.1|Host: x|Expect: 100-continue|Content-Length: 2||{
< 100 torn 70
> PUT /a HTTP/1.1|Host: x|Expect: 100-continue|Content-Length: 16777217||
< refused 413

# One rule after the other, the first of two that are broken.
> OPTIONS /a HTTP/1.1||
< refused 400
> OPTIONS /a HTTP/1.1|Host: x||
< refused 501
> GET /a HTTP/1.1|Host: x|Host: x||
< refused 400
> PUT /a HTTP/1.1|Host: x|Content-Length: 1|Content-Length: 2||
< refused 400
> PUT /a HTTP/1.1|Host: x|Content-Length: 1|content-length: 1||a
< PUT /a (a) ended
> PUT /a HTTP/1.1|Host: x|Content-Length: +1||
< refused 400
> PUT /a HTTP/1.1|Host: x|Content-Length: 1|Transfer-Encoding: chunked||
< refused 400
> PUT /a HTTP/1.1|Host: x|Transfer-Encoding: gzip||
< refused 501
> PUT /a HTTP/1.1|Host: x|Content-Encoding: gzip|Content-Length: 16777217||
< refused 415
> PUT /a HTTP/1.1|Host: x|Content-Encoding: Identity|Content-Length: 16777217||
< refused 413
> PUT /a HTTP/1.1|Host: x|Content-Length: 16777217||abc
< refused 413
> PUT /a HTTP/1.1|Host: x|Content-Length: 16777216||abc
< torn 57
> GET /a HTTP/1.1|Host : x||
< refused 400

> ||
< ended
> GE
< torn 2
";

/// What a client sends, read by read, and the faults of its connection.
const READS: &str = "
# The answer 100 is written once, whenever the body comes.
> PUT /a HTTP/1.1|Host: x|Expect: 100-continue|Content-Length: 2||^~^~^{^~^}
< 100 PUT /a ({}) ended
> ~^PUT /a HTTP/1.1|Host: x|Expect: 100-continue|Transfer-Encoding: chunked|^~^|^~^2|{^!^}|^~^0||
< 100 read fault PUT /a ({}) ended

# After a fault the same request goes on.
> !^GET /a HT^!^TP/1.1|Host: x||
< read fault read fault GET /a () ended
> PUT /a HTTP/1.1|Host: x|Content-Length: 2||{^!^}
< read fault PUT /a ({}) ended

# A body that is too long isn't read.
> PUT /a HTTP/1.1|Host: x|Content-Length: 16777217||^!
< refused 413

# The write of the answer 100 may fail.
> #1^PUT /a HTTP/1.1|Host: x|Expect: 100-continue|Content-Length: 2||{}
< write fault
";

/// What one exchange gives, and whether it was the last.
fn shown(alloc: Global, exchange: Exchange) -> Result<(String, bool), Fail> {
    match exchange {
        Exchange::Request {
            method,
            target,
            body,
            close,
        } => {
            let body = str::from_utf8(body.as_slice()).map_err(|_| Fail::new(format_args!(
                "no text"
            )))?;
            let end = if close { " close" } else { "" };
            Ok((
                format!(in alloc; "{method} {target} ({body}){end} ")?,
                false,
            ))
        }
        Exchange::Ended => Ok((format!(in alloc; "ended")?, true)),
        Exchange::Torn { bytes } => Ok((format!(in alloc; "torn {bytes}")?, true)),
        Exchange::Refused(code) => Ok((format!(in alloc; "refused {code}")?, true)),
        Exchange::NotYet => Ok((String::new(alloc), false)),
        Exchange::ReadFault => Ok((format!(in alloc; "read fault ")?, false)),
        Exchange::WriteFault => Ok((format!(in alloc; "write fault")?, true)),
        Exchange::OutOfMemory => Err(Fail::new(format_args!("no memory"))),
    }
}

/// All exchanges over a link, to the last one.
fn told(alloc: Global, link: &mut MemoryLink) -> Result<String, Fail> {
    let mut kept = Kept::new(alloc);
    let mut text = String::new(alloc);
    for _ in 0..16 {
        let (one, last) = shown(alloc, next(alloc, link, &mut kept))?;
        text.push_str(one.as_str())?;
        if last {
            break;
        }
    }
    if link.written() == b"HTTP/1.1 100 Continue\r\n\r\n".as_slice() {
        return Ok(format!(in alloc; "100 {text}")?);
    }
    if !link.written().is_empty() {
        return Err(Fail::new(format_args!("more was written")));
    }
    Ok(text)
}

/// Whether these bytes are read so, in two pieces that are cut at a place.
fn expect_cut(alloc: Global, bytes: &[u8], cut: usize, answer: &str) -> Result<(), Fail> {
    let mut link = cut_link(alloc, bytes, cut)?;
    let text = told(alloc, &mut link)?;
    if text.as_str() == answer {
        return Ok(());
    }
    Err(Fail::new(format_args!("{text} in place of {answer}, cut at {cut}")))
}

fn expect_reads(alloc: Global, line: &str, answer: &str) -> Result<(), Fail> {
    let mut link = link_of(alloc, line)?;
    let text = told(alloc, &mut link)?;
    if text.as_str() == answer {
        return Ok(());
    }
    Err(Fail::new(format_args!("{text} in place of {answer}: {line}")))
}

fn expect_cuts(alloc: Global, line: &str, answer: &str) -> Result<(), Fail> {
    let bytes = bytes_of(alloc, line)?;
    for cut in 0..bytes.len() {
        expect_cut(alloc, bytes.as_slice(), cut, answer)?;
    }
    Ok(())
}

#[test]
fn requests_are_read_at_every_cut(rt: HostRuntime) -> Result<(), Fail> {
    let alloc = rt.alloc();
    for case in &cases(alloc, REQUESTS)? {
        expect_cuts(alloc, case.asked, case.answer)?;
    }
    Ok(())
}

#[test]
fn reads_may_wait_and_fail(rt: HostRuntime) -> Result<(), Fail> {
    let alloc = rt.alloc();
    for case in &cases(alloc, READS)? {
        expect_reads(alloc, case.asked, case.answer)?;
    }
    Ok(())
}

/// These bytes, so many equal lines, and an empty line.
fn with_lines(alloc: Global, first: &[u8], count: usize) -> Result<Vec<u8>, AllocError> {
    let mut bytes = Vec::from_slice(alloc, first)?;
    for _ in 0..count {
        bytes.extend_from_slice(b"A: b\r\n")?;
    }
    bytes.extend_from_slice(b"\r\n")?;
    Ok(bytes)
}

/// These bytes and so many letters.
fn with_letters(alloc: Global, first: &[u8], count: usize) -> Result<Vec<u8>, AllocError> {
    let mut bytes = Vec::from_slice(alloc, first)?;
    for _ in 0..count {
        bytes.push(b'a')?;
    }
    Ok(bytes)
}

#[test]
fn a_head_has_its_limits(rt: HostRuntime) -> Result<(), Fail> {
    let alloc = rt.alloc();
    let head = b"GET /a HTTP/1.1\r\nHost: x\r\n".as_slice();
    let fits = with_lines(alloc, head, 99)?;
    expect_cut(alloc, fits.as_slice(), 5000, "GET /a () ended")?;
    let over = with_lines(alloc, head, 100)?;
    expect_cut(alloc, over.as_slice(), 5000, "refused 431")?;
    let most = with_letters(alloc, b"", 65536)?;
    expect_cut(alloc, most.as_slice(), 5, "refused 431")?;
    let less = with_letters(alloc, b"", 65535)?;
    expect_cut(alloc, less.as_slice(), 5, "torn 65535")
}

/// What comes before the first chunk, in 56 bytes.
const CHUNKED: &[u8] = b"PUT /a HTTP/1.1\r\nHost: x\r\nTransfer-Encoding: chunked\r\n\r\n";

/// The same, and a chunk line that ends the body, in 59 bytes.
const LAST: &[u8] = b"PUT /a HTTP/1.1\r\nHost: x\r\nTransfer-Encoding: chunked\r\n\r\n0\r\n";

#[test]
fn a_trailer_has_its_limits(rt: HostRuntime) -> Result<(), Fail> {
    let alloc = rt.alloc();
    let fits = with_lines(alloc, LAST, 100)?;
    expect_cut(alloc, fits.as_slice(), 70, "PUT /a () ended")?;
    let over = with_lines(alloc, LAST, 101)?;
    expect_cut(alloc, over.as_slice(), 70, "refused 431")?;
    let most = with_letters(alloc, LAST, 65536)?;
    expect_cut(alloc, most.as_slice(), 70, "refused 431")?;
    let less = with_letters(alloc, LAST, 65535)?;
    expect_cut(alloc, less.as_slice(), 70, "torn 65594")
}

#[test]
fn a_chunk_line_has_its_limit(rt: HostRuntime) -> Result<(), Fail> {
    let alloc = rt.alloc();
    let most = with_letters(alloc, CHUNKED, 1024)?;
    expect_cut(alloc, most.as_slice(), 70, "refused 400")?;
    let less = with_letters(alloc, CHUNKED, 1023)?;
    expect_cut(alloc, less.as_slice(), 70, "torn 1079")
}
