// The body of a request, as many bytes as a length field tells or in chunks.
ghost use Rattle.std.specs.Prelude.{◌≡◌, ◌≢◌, ◌<◌, ◌≤◌, ◌+◌, ℕ, [], false, length, take, drop, IfOk, OnOk, IfErr};
ghost use Rattle.ps_http.specs.Chunks.{StepSays, IsStepWithin};
ghost use Rattle.ps_http.specs.Reading.{HasPaused, OnPause, Reads};
ghost use Rattle.ps_http.specs.Requests.{Chunks, Body, BodySays, EndsWithin, IsRefusalOf, TakesBody, body_of};
ghost use Rattle.ps_http.specs.Heads.{is_too_long};
ghost use Rattle.ps_http.specs.Limits.{most_body};

use crate::chunks::{Step, chunk_step};
use crate::heads::{Length, Stop};
use crate::reading::{Pause, fill_to, read_more};
use ps_edge::Link;
use std::alloc::{AllocError, Global};
use std::mem;

/// A body that was read: it is refused, or it is so many bytes of the buffer, or these are its bytes, and it takes so many
/// of the buffer.
#[derive(Drop)]
pub(crate) enum Arrived {
    Refused(u16),
    InPlace(usize),
    Joined(Vec<u8>, usize),
}

/// Reads until the next part of a chunked body is there or refused, which begins at a place of the buffer.
fn read_step<L: Link>(
    link: &mut L,
    bytes: &mut Vec<u8>,
    at: usize,
    had: usize,
) -> Result<Step, Pause>
    requires had { had ≤ most_body }
    requires at { at ≤ length bytes.old.items }
    ensures reads { Reads L.Link link.old link.new bytes.old.items bytes.new.items result }
    ensures paused { IfErr result (HasPaused L.Link link.old link.new) }
    ensures says { IfOk result (StepSays had (drop at bytes.new.items)) }
    ensures waits { OnPause result (StepSays had (drop at bytes.new.items) Step.Waits) }
    ensures ready { IfOk result (λ step. step ≢ Step.Waits) }
    ensures within { IfOk result (IsStepWithin had (length (drop at bytes.new.items))) }
{
    loop {
        match chunk_step(had, &bytes[at..]) {
            Step::Waits => {
                if let Err(pause) = read_more(link, bytes) {
                    return Err(pause);
                }
            }
            step => return Ok(step),
        }
    }
}

/// Reads until a chunked body is whole or refused, which begins at a place of the buffer.
pub(crate) fn read_chunks<L: Link>(
    alloc: Global,
    link: &mut L,
    bytes: &mut Vec<u8>,
    at: usize,
) -> Result<Arrived, Pause>
    requires at { at ≤ length bytes.old.items }
    ensures reads { Reads L.Link link.old link.new bytes.old.items bytes.new.items result }
    ensures paused { IfErr result (HasPaused L.Link link.old link.new) }
    ensures says { IfOk result (λ body. Chunks 0 (drop at bytes.new.items) (body_of (drop at bytes.new.items) body)) }
    ensures within { IfOk result (λ body. EndsWithin (length (drop at bytes.new.items)) (body_of (drop at bytes.new.items) body)) }
    ensures waits { OnPause result (Chunks 0 (drop at bytes.new.items) Body.waits) }
{
    let mut body = Vec::new(alloc);
    let mut next = at;
    loop {
        match read_step(link, bytes, next, body.len()) {
            Ok(Step::Chunk(len, size)) => {
                let begin = next + len;
                body.extend_from_slice(&bytes[begin..begin + size])?;
                next = begin + size + 2;
            }
            Ok(Step::Last(len)) => return Ok(Arrived::Joined(body, next - at + len)),
            Ok(Step::Refused(code)) => return Ok(Arrived::Refused(code)),
            Ok(Step::Waits) => unreachable!(),
            Err(pause) => return Err(pause),
        }
    }
}

/// Reads until the body is whole or refused, which begins at a place of the buffer.
pub(crate) fn read_body<L: Link>(
    alloc: Global,
    link: &mut L,
    bytes: &mut Vec<u8>,
    at: usize,
    framing: Length,
) -> Result<Arrived, Pause>
    requires at { at ≤ length bytes.old.items }
    requires fits { is_too_long framing ≡ false }
    ensures reads { Reads L.Link link.old link.new bytes.old.items bytes.new.items result }
    ensures paused { IfErr result (HasPaused L.Link link.old link.new) }
    ensures says { IfOk result (λ body. BodySays framing (drop at bytes.new.items) (body_of (drop at bytes.new.items) body)) }
    ensures within { IfOk result (λ body. EndsWithin (length (drop at bytes.new.items)) (body_of (drop at bytes.new.items) body)) }
    ensures waits { OnPause result (BodySays framing (drop at bytes.new.items) Body.waits) }
{
    match framing {
        Length::Fixed(size) => {
            fill_to(link, bytes, at + size as usize)?;
            Ok(Arrived::InPlace(size as usize))
        }
        Length::Chunked => read_chunks(alloc, link, bytes, at),
    }
}

/// Moves a body to the front of its buffer, and what follows it to another one, which takes the buffer's place.
fn cut_body(bytes: &mut Vec<u8>, at: usize, size: usize) -> Result<Vec<u8>, AllocError>
    requires { at + size ≤ length bytes.old.items }
    ensures body { IfOk result (λ body. body.items ≡ take size (drop at bytes.old.items)) }
    ensures rest { OnOk result (bytes.new.items ≡ drop (at + size) bytes.old.items) }
{
    let rest = bytes.split_off(at + size)?;
    let mut body = mem::replace(bytes, rest);
    body.as_mut_slice().copy_within(at.., 0);
    body.truncate(size);
    Ok(body)
}

/// Takes the body out of the buffer, with all bytes before it.
pub(crate) fn take_body(bytes: &mut Vec<u8>, at: usize, arrived: Arrived) -> Result<Vec<u8>, Stop>
    requires at { at ≤ length bytes.old.items }
    requires within { EndsWithin (length (drop at bytes.old.items)) (body_of (drop at bytes.old.items) arrived) }
    ensures body { IfOk result (λ body. TakesBody at bytes.old.items bytes.new.items (body_of (drop at bytes.old.items) arrived) body.items) }
    ensures refused { IfErr result (IsRefusalOf (body_of (drop at bytes.old.items) arrived)) }
{
    match arrived {
        Arrived::Refused(code) => Err(Stop::Refused(code)),
        Arrived::InPlace(size) => match cut_body(bytes, at, size) {
            Ok(body) => Ok(body),
            Err(_) => Err(Stop::OutOfMemory),
        },
        Arrived::Joined(body, len) => match bytes.split_off(at + len) {
            Ok(rest) => {
                *bytes = rest;
                Ok(body)
            }
            Err(_) => Err(Stop::OutOfMemory),
        },
    }
}
