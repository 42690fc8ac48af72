// The parts of a chunked body: chunk lines, chunks and the trailer.
ghost use Rattle.std.specs.Prelude.{◌≡◌, ◌<◌, ◌≤◌, ◌+◌, [], length, IfSome, IfNone};
ghost use Rattle.httparse.specs.Grammar.{ChunkLine, ReadsChunkLine, chunk_size};
ghost use Rattle.ps_http.specs.Chunks.{LineSays, StepSays, WholeLineSays, line_end, sized_step, IfSized, IsStepWithin};
ghost use Rattle.ps_http.specs.Limits.{most_body, most_line};

use crate::limits;
use crate::sections::{Section, find_section, front};
use httparse::{Status, parse_chunk_size};

/// How far a chunk line has come: its end isn't there yet, it isn't one, or it has so many bytes and gives a size.
#[derive(Clone, Copy, PartialEq, Eq)]
pub(crate) enum Line {
    Waits,
    Malformed,
    Size(usize, u64),
}

/// How far the next part of a chunked body has come: it isn't there yet, it is refused, a chunk line of so many bytes and
/// a chunk of so many are there, or so many bytes end the body.
#[derive(Clone, Copy, PartialEq, Eq)]
pub(crate) enum Step {
    Waits,
    Refused(u16),
    Chunk(usize, usize),
    Last(usize),
}

/// The size of the chunk, if the bytes are a chunk line and nothing more.
fn size_of_line(line: &[u8]) -> Option<u64>
    ensures some { IfSome result (λ size. (l : ChunkLine) × ReadsChunkLine line.now l [] × (size ≡ chunk_size l)) }
    ensures none { IfNone result ((l : ChunkLine) → ReadsChunkLine line.now l [] → ⊥) }
{
    match parse_chunk_size(line) {
        Ok(Status::Complete((len, size))) => if len == line.len() { Some(size) } else { None },
        _ => None,
    }
}

/// The number of bytes up to the first line feed, and with it.
fn line_end(bytes: &[u8]) -> Option<usize>
    ensures value { result ≡ line_end bytes.now }
    ensures within { IfSome result (λ end. end ≤ length bytes.now) }
{
    for at in 0..bytes.len() {
        if bytes[at] == b'\n' {
            return Some(at + 1);
        }
    }
    None
}

/// What a line comes to that should be a chunk line.
fn whole_line(line: &[u8]) -> Line
    ensures { WholeLineSays line.now (length line.now) result }
{
    match size_of_line(line) {
        Some(size) => Line::Size(line.len(), size),
        None => Line::Malformed,
    }
}

/// How far a chunk line has come.
fn chunk_line(bytes: &[u8]) -> Line
    ensures says { LineSays bytes.now result }
    ensures within { IfSized result (λ len. (len ≤ length bytes.now) × (len ≤ most_line)) }
    ensures short { result ≡ Line.Waits → length bytes.now < most_line }
{
    match line_end(front(bytes, limits::CHUNK_LINE)) {
        Some(end) => whole_line(&bytes[..end]),
        None => {
            if bytes.len() < limits::CHUNK_LINE {
                Line::Waits
            } else {
                Line::Malformed
            }
        }
    }
}

/// How far the next part has come, after a chunk line of so many bytes that gives a size.
fn sized_step(had: usize, len: usize, size: u64, rest: &[u8]) -> Step
    requires had { had ≤ most_body }
    requires len { len ≤ most_line }
    ensures value { result ≡ sized_step had len size rest.now }
    ensures within { IsStepWithin had (len + length rest.now) result }
{
    if size > limits::BODY - had as u64 {
        return Step::Refused(413);
    }
    let size = size as usize;
    if size == 0 {
        return match find_section(limits::TRAILER_LINES, rest) {
            Section::Waits => Step::Waits,
            Section::Over => Step::Refused(431),
            Section::Ends(end) => Step::Last(len + end),
        };
    }
    if rest.len() < size + 2 {
        return Step::Waits;
    }
    if front(&rest[size..], 2) == b"\r\n".as_slice() {
        Step::Chunk(len, size)
    } else {
        Step::Refused(400)
    }
}

/// How far the next part of a chunked body has come, of which so many bytes were there before.
pub(crate) fn chunk_step(had: usize, bytes: &[u8]) -> Step
    requires had { had ≤ most_body }
    ensures says { StepSays had bytes.now result }
    ensures within { IsStepWithin had (length bytes.now) result }
{
    match chunk_line(bytes) {
        Line::Waits => Step::Waits,
        Line::Malformed => Step::Refused(400),
        Line::Size(len, size) => sized_step(had, len, size, &bytes[len..]),
    }
}
