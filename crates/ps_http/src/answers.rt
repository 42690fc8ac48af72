ghost use Rattle.std.specs.Prelude.{◌≡◌, true, IfOk};
ghost use Rattle.ps_http.specs.Answers.{answer_text, body_lines, close_line, head_text, has_phrase, phrase, status_line};

use itoa::Buffer;
use ps_base::{Octets, OutOfMemory};
use std::alloc::Global;

/// The phrase that goes with a status code, and no text for a code that this server doesn't use.
fn phrase(code: u16) -> &'static str
    ensures { result.now ≡ phrase code }
{
    match code {
        200 => "OK",
        400 => "Bad Request",
        404 => "Not Found",
        409 => "Conflict",
        413 => "Content Too Large",
        415 => "Unsupported Media Type",
        429 => "Too Many Requests",
        431 => "Request Header Fields Too Large",
        500 => "Internal Server Error",
        501 => "Not Implemented",
        503 => "Service Unavailable",
        507 => "Insufficient Storage",
        _ => "",
    }
}

/// The line by which an answer tells that the connection closes.
fn close_line(close: bool) -> &'static str
    ensures { result.now ≡ close_line close }
{
    if close { "connection: close\r\n" } else { "" }
}

/// The first line of an answer.
fn status_line(alloc: Global, code: u16) -> Result<Vec<u8>, OutOfMemory>
    ensures { IfOk result (λ line. line.items ≡ status_line code) }
{
    let mut number = Buffer::new();
    let mut line = Vec::from_slice(alloc, b"HTTP/1.1 ")?;
    line.extend_from_slice(number.format(code).as_bytes())?;
    line.extend_from_slice(b" ")?;
    line.extend_from_slice(phrase(code).as_bytes())?;
    line.extend_from_slice(b"\r\n")?;
    Ok(line)
}

/// The lines on the body of an answer, which has so many bytes.
fn body_lines(alloc: Global, length: usize) -> Result<Vec<u8>, OutOfMemory>
    ensures { IfOk result (λ lines. lines.items ≡ body_lines length) }
{
    let mut number = Buffer::new();
    let mut lines = Vec::from_slice(alloc, b"content-type: application/json\r\ncontent-length: ")?;
    lines.extend_from_slice(number.format(length).as_bytes())?;
    lines.extend_from_slice(b"\r\n")?;
    Ok(lines)
}

/// The head of an answer whose body has so many bytes.
fn head(alloc: Global, code: u16, length: usize, close: bool) -> Result<Vec<u8>, OutOfMemory>
    ensures { IfOk result (λ head. head.items ≡ head_text code length close) }
{
    let mut head = status_line(alloc, code)?;
    let lines = body_lines(alloc, length)?;
    head.extend_from_slice(lines.as_slice())?;
    head.extend_from_slice(close_line(close).as_bytes())?;
    head.extend_from_slice(b"\r\n")?;
    Ok(head)
}

/// An answer as it is written: its head and its body of JSON. If `close`, the head tells the client that the connection
/// closes. Fails only if out of memory.
pub fn answer(alloc: Global, code: u16, body: &[u8], close: bool) -> Result<Octets, OutOfMemory>
    requires known { has_phrase code ≡ true }
    ensures { IfOk result (λ text. text ≡ answer_text code body.now close) }
{
    let mut text = head(alloc, code, body.len(), close)?;
    text.extend_from_slice(body)?;
    Ok(Octets::from_vec(text))
}
