// One exchange of a connection: the next request, or why there is none.
ghost use Rattle.std.specs.Prelude.{◌≡◌, ◌≢◌, ◌≤◌, [], true, false, ◌&&◌, ◌||◌, not, length, MatchResult, OnOk};
ghost use Rattle.ps_http.specs.Exchanges.{Exchanges, Sends, PausesWith, continue_text, request_of, stopped};
ghost use Rattle.ps_http.specs.Heads.{is_too_long};
ghost use Rattle.ps_http.specs.Requests.{StartSays};

use crate::bodies::{read_body, take_body};
use crate::heads::{Head, Stop};
use crate::reading::Pause;
use crate::sections::blank_len;
use crate::starts::{Start, read_start};
use ps_base::{Octets, Text};
use ps_edge::{Failed, Link, send_all};
use std::alloc::Global;
use std::marker::Model;

const CONTINUE: &[u8] = b"HTTP/1.1 100 Continue\r\n\r\n";

/// What was read from a connection and isn't used yet, and whether the answer 100 to the request that begins there was
/// written.
#[derive(Drop)]
pub struct Kept {
    bytes: Vec<u8>,
    continued: bool,
}

impl Model for Kept {
    ghost use Rattle.ps_http.specs.Exchanges.{Rest};

    ghost Value = { Rest };

    ghost view = { λ k. record { bytes = k.bytes.items; continued = k.continued } };
}

impl Kept {
    /// Nothing was read. Allocates nothing.
    pub fn new(alloc: Global) -> Kept
        ensures { result ≡ record { bytes = []; continued = false } }
    {
        Kept {
            bytes: Vec::new(alloc),
            continued: false,
        }
    }
}

/// The next request of a connection, or why there is none.
#[derive(Drop)]
pub enum Exchange {
    /// A request. If `close`, the connection closes after its answer.
    Request {
        method: Text,
        target: Text,
        body: Octets,
        close: bool,
    },
    /// The connection ended before a request began.
    Ended,
    /// It ended inside a request, of which so many bytes came.
    Torn {
        bytes: u64,
    },
    /// Nothing more came so far. The call may be made again.
    NotYet,
    /// A read failed. The call may be made again.
    ReadFault,
    /// A write of the answer 100 failed.
    WriteFault,
    /// The request is refused with this status code, and the connection closes.
    Refused(u16),
    /// There is no memory left. Of the answer 100 a front may be written, if it was due, and nothing else. The connection
    /// is of no more use.
    OutOfMemory,
}

/// The answer to a pause, from all bytes so far.
fn paused(pause: Pause, bytes: &[u8]) -> Exchange
    ensures { PausesWith bytes.now pause result }
{
    match pause {
        Pause::Ended => {
            let begun = bytes.len() - blank_len(bytes);
            if begun == 0 {
                Exchange::Ended
            } else {
                Exchange::Torn {
                    bytes: begun as u64,
                }
            }
        }
        Pause::NotYet => Exchange::NotYet,
        Pause::ReadFault => Exchange::ReadFault,
        Pause::OutOfMemory => Exchange::OutOfMemory,
    }
}

impl Kept {
    /// Writes the answer 100 if the client waits for it and it isn't written yet.
    fn send_continue<L: Link>(&mut self, link: &mut L, waits: bool) -> Result<(), Failed>
        ensures sends { Sends L.Link link.old link.new (continue_text (waits && not self.old.continued)) result }
        ensures bytes { self.new.bytes ≡ self.old.bytes }
        ensures continued { OnOk result (self.new.continued ≡ (self.old.continued || waits)) }
    {
        if waits && !self.continued {
            send_all(link, CONTINUE)?;
            self.continued = true;
        }
        Ok(())
    }
}

/// The answer to a request whose body was taken out of the buffer.
fn request(head: Head, body: Result<Vec<u8>, Stop>) -> Exchange
    ensures { MatchResult body (λ taken. result ≡ request_of head taken.items) (λ stop. result ≡ stopped stop) }
{
    match body {
        Ok(body) => Exchange::Request {
            method: head.method,
            target: head.target,
            body: Octets::from_vec(body),
            close: head.close,
        },
        Err(Stop::Refused(code)) => Exchange::Refused(code),
        Err(Stop::OutOfMemory) => Exchange::OutOfMemory,
    }
}

/// Reads the rest of a request, whose head is read and ends at a place of the buffer.
fn read_rest<L: Link>(
    alloc: Global,
    link: &mut L,
    kept: &mut Kept,
    head: Head,
    at: usize,
) -> Exchange
    requires says { StartSays kept.old.bytes (Start.Read head at) }
    requires at { at ≤ length kept.old.bytes }
    requires fits { is_too_long head.length ≡ false }
    ensures { Exchanges L.Link link.old link.new kept.old kept.new result }
{
    if let Err(_) = kept.send_continue(link, head.waits) {
        return Exchange::WriteFault;
    }
    match read_body(alloc, link, &mut kept.bytes, at, head.length) {
        Ok(arrived) => {
            kept.continued = false;
            let body = take_body(&mut kept.bytes, at, arrived);
            request(head, body)
        }
        Err(pause) => paused(pause, kept.bytes.as_slice()),
    }
}

/// Reads the next request of a connection, whatever pieces its bytes come in. If the client waits for the answer 100, that
/// is written before the body is read.
pub fn next<L: Link>(alloc: Global, link: &mut L, kept: &mut Kept) -> Exchange
    ensures { Exchanges L.Link link.old link.new kept.old kept.new result }
{
    match read_start(alloc, link, &mut kept.bytes) {
        Ok(Start::Read(head, at)) => read_rest(alloc, link, kept, head, at),
        Ok(Start::Refused(code)) => Exchange::Refused(code),
        Ok(Start::Waits) => unreachable!(),
        Err(pause) => paused(pause, kept.bytes.as_slice()),
    }
}
