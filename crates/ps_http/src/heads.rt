// The head of a request: what it says of the body and of the connection, and why it is refused.
ghost use Rattle.std.specs.Prelude.{◌≡◌, ◌≤◌, length, map, is_some, take, All, IfSome, IfOk, false};
ghost use Rattle.std.specs.List.{list_any};
ghost use Rattle.httparse.specs.Grammar.{RequestHead};
ghost use Rattle.httparse.specs.Spans.{IsHeaderWithin, IsRequestAt, IsRequestWithin, header_bytes};
ghost use Rattle.ps_http.specs.Heads.{HeadSays, UnlessMemory, body_follows, is_encoding, is_method, is_too_long, judged, length_of, refusal_of};

use crate::limits;
use http1::fields::{ContentLength, KnownFields, TransferEncoding};
use http1::text::eq_ignore_case;
use httparse::Status;
use httparse::spans::{HeaderSpan, RequestSpans, Span, parse_request};
use ps_base::{OutOfMemory, Text};
use std::alloc::Global;

/// How long a body is.
#[derive(Clone, Copy, PartialEq, Eq)]
pub(crate) enum Length {
    Fixed(u64),
    Chunked,
}

/// What a head asks for, if it isn't refused.
#[derive(Drop)]
pub(crate) struct Head {
    pub(crate) method: Text,
    pub(crate) target: Text,
    pub(crate) length: Length,
    /// The connection closes after the answer.
    pub(crate) close: bool,
    /// The client waits for the answer 100 before it sends the body.
    pub(crate) waits: bool,
}

/// Why a request isn't read: it is refused with a status code, or there is no memory left.
#[derive(Clone, Copy, PartialEq, Eq)]
pub(crate) enum Stop {
    Refused(u16),
    OutOfMemory,
}

impl From<OutOfMemory> for Stop {
    ghost use Rattle.std.specs.Prelude.{◌≡◌};
    ghost use Rattle.ps_http.specs.declared.heads.Stop.TheVariants.{OutOfMemory as Wanting};

    ghost from_gives = { λ _ stop. stop ≡ Wanting };

    fn from(_e: OutOfMemory) -> Stop {
        Stop::OutOfMemory
    }
}

/// The method as a text, if this server knows it.
fn method_name(method: &[u8]) -> Option<&'static str>
    ensures known { is_some result ≡ is_method method.now }
    ensures same { IfSome result (λ name. name.now ≡ method.now) }
{
    if method == b"GET".as_slice() {
        Some("GET")
    } else if method == b"PUT".as_slice() {
        Some("PUT")
    } else if method == b"POST".as_slice() {
        Some("POST")
    } else if method == b"DELETE".as_slice() {
        Some("DELETE")
    } else if method == b"PATCH".as_slice() {
        Some("PATCH")
    } else {
        None
    }
}

/// Whether a field tells that the body is encoded.
fn is_encoding(name: &[u8], value: &[u8]) -> bool
    ensures { result ≡ is_encoding (name.now, value.now) }
{
    eq_ignore_case(name, b"content-encoding") && !eq_ignore_case(value, b"identity")
}

/// Whether one of the fields does.
fn has_encoding(head: &[u8], headers: &[HeaderSpan]) -> bool
    requires { All (IsHeaderWithin (length head.now)) headers.now }
    ensures { result ≡ list_any is_encoding (map (header_bytes head.now) headers.now) }
{
    let mut found = false;
    for header in headers {
        found |= is_encoding(header.name.of(head), header.value.of(head));
    }
    found
}

/// How long the body is by the fields.
fn length_of(known: &KnownFields) -> Length
    ensures { result ≡ length_of known.now }
{
    match (known.transfer_encoding, known.content_length) {
        (TransferEncoding::Absent, ContentLength::Value(length)) => Length::Fixed(length),
        (TransferEncoding::Absent, _) => Length::Fixed(0),
        _ => Length::Chunked,
    }
}

/// Whether a body follows.
fn body_follows(length: Length) -> bool
    ensures { result ≡ body_follows length }
{
    match length {
        Length::Fixed(length) => length > 0,
        Length::Chunked => true,
    }
}

/// The code of the first rule that a head breaks.
fn refusal_of(minor: u8, is_method: bool, known: &KnownFields, encoded: bool) -> Option<u16>
    ensures { result ≡ refusal_of minor is_method known.now encoded }
{
    let has_coding = known.transfer_encoding != TransferEncoding::Absent;
    if minor == 1 && known.hosts != 1 {
        return Some(400);
    }
    if known.content_length == ContentLength::Invalid {
        return Some(400);
    }
    if known.content_length != ContentLength::Absent && has_coding {
        return Some(400);
    }
    if !is_method {
        return Some(501);
    }
    if has_coding && (known.transfer_encoding != TransferEncoding::Chunked || known.other_coding) {
        return Some(501);
    }
    if encoded {
        return Some(415);
    }
    match length_of(known) {
        Length::Fixed(length) if length > limits::BODY => Some(413),
        _ => None,
    }
}

/// What a well-formed head says, from the places of its parts.
fn judge(
    alloc: Global,
    head: &[u8],
    headers: &[HeaderSpan],
    spans: RequestSpans,
) -> Result<Head, Stop>
    requires within { IsRequestWithin head.now headers.now spans }
    requires count { spans.headers ≡ length headers.now }
    requires whole { spans.len ≡ length head.now }
    ensures judged { (h : RequestHead) → IsRequestAt head.now headers.now spans h → UnlessMemory result (result ≡ judged h) }
    ensures fits { IfOk result (λ taken. is_too_long taken.length ≡ false) }
{
    let method = method_name(spans.method.of(head));
    let known = KnownFields::from_spans(head, headers);
    let encoded = has_encoding(head, headers);
    if let Some(code) = refusal_of(spans.version, method.is_some(), &known, encoded) {
        return Err(Stop::Refused(code));
    }
    let (Some(method), Ok(target)) = (method, str::from_utf8(spans.path.of(head))) else {
        return Err(Stop::Refused(400));
    };
    let length = length_of(&known);
    Ok(Head {
        method: Text::from_str(alloc, method)?,
        target: Text::from_str(alloc, target)?,
        length,
        close: spans.version == 0 || known.close,
        waits: known.expect_continue && body_follows(length),
    })
}

/// Reads bytes that should be one whole head.
pub(crate) fn read_head(alloc: Global, head: &[u8]) -> Result<Head, Stop>
    ensures says { UnlessMemory result (HeadSays head.now result) }
    ensures fits { IfOk result (λ taken. is_too_long taken.length ≡ false) }
{
    let mut headers = [HeaderSpan::default(); limits::FIELDS];
    match parse_request(head, &mut headers) {
        Ok(Status::Complete(spans)) if spans.len == head.len() => {
            judge(alloc, head, &headers[..spans.headers], spans)
        }
        _ => Err(Stop::Refused(400)),
    }
}
