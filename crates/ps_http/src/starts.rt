// The start of a request: its head, whole or in part.
ghost use Rattle.std.specs.Prelude.{◌≡◌, ◌≢◌, length, IfOk, OnOk, IfErr};
ghost use Rattle.ps_http.specs.Reading.{HasPaused, OnPause, Reads};
ghost use Rattle.ps_http.specs.Requests.{StartSays, IsShort};

use crate::heads::{Head, Stop, read_head};
use crate::limits;
use crate::reading::{Pause, read_more};
use crate::sections::{Section, blank_len, find_section};
use ps_base::OutOfMemory;
use ps_edge::Link;
use std::alloc::Global;

/// How far a head has come: its end isn't there yet, it is refused, or it is read and ends after so many bytes.
#[derive(Drop)]
pub(crate) enum Start {
    Waits,
    Refused(u16),
    Read(Head, usize),
}

/// How far the head has come, from all bytes so far.
fn start_of(alloc: Global, bytes: &[u8]) -> Result<Start, OutOfMemory>
    ensures says { IfOk result (StartSays bytes.now) }
    ensures short { IfOk result (IsShort (length bytes.now)) }
{
    let skip = blank_len(bytes);
    if skip > limits::HEAD {
        return Ok(Start::Refused(431));
    }
    let rest = &bytes[skip..];
    match find_section(limits::HEAD_LINES, rest) {
        Section::Waits => Ok(Start::Waits),
        Section::Over => Ok(Start::Refused(431)),
        Section::Ends(end) => match read_head(alloc, &rest[..end]) {
            Ok(head) => Ok(Start::Read(head, skip + end)),
            Err(Stop::Refused(code)) => Ok(Start::Refused(code)),
            Err(Stop::OutOfMemory) => Err(OutOfMemory),
        },
    }
}

/// Reads until the head is whole or refused.
pub(crate) fn read_start<L: Link>(
    alloc: Global,
    link: &mut L,
    bytes: &mut Vec<u8>,
) -> Result<Start, Pause>
    ensures reads { Reads L.Link link.old link.new bytes.old.items bytes.new.items result }
    ensures paused { IfErr result (HasPaused L.Link link.old link.new) }
    ensures says { IfOk result (StartSays bytes.new.items) }
    ensures waits { OnPause result (StartSays bytes.new.items Start.Waits) }
    ensures ready { IfOk result (λ start. start ≢ Start.Waits) }
    ensures within { IfOk result (IsShort (length bytes.new.items)) }
{
    loop {
        match start_of(alloc, bytes.as_slice())? {
            Start::Waits => read_more(link, bytes)?,
            start => return Ok(start),
        }
    }
}
