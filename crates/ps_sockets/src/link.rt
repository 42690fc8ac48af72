ghost use Rattle.std.specs.Prelude.{◌≡◌, None};
ghost use Rattle.std.specs.Io.{ReadsAtMost, WritesAtMost};

use ps_edge::{Failed, Link, LinkGot};
use std::io;
use std::io::{ErrorKind, Read, Write};
use std::net::{OpenStream, Shutdown};

/// How often a call is made again if it was interrupted.
pub(crate) const RETRIES: u32 = 16;

/// A TCP connection as a link. Which bytes come and go isn't known.
#[derive(Drop)]
pub struct TcpLink<S> {
    stream: S,
    faults: u64,
    waits: u64,
}

impl<S> TcpLink<S> {
    pub fn new(stream: S) -> TcpLink<S>
        ensures { result ≡ record { stream = stream; faults = 0; waits = 0 } }
    {
        TcpLink {
            stream,
            faults: 0,
            waits: 0,
        }
    }
}

impl<S: OpenStream + Drop> TcpLink<S> {
    /// Tells the other side that nothing more comes, and closes the connection.
    pub(crate) fn close(self) {
        // A connection that the other side has closed can't be told, and needn't be.
        let _ = self.stream.shutdown(Shutdown::Write);
    }
}

fn is_interrupted(outcome: &io::Result<usize>) -> bool {
    match outcome {
        Ok(_) => false,
        Err(error) => error.kind() == ErrorKind::Interrupted,
    }
}

/// One read, which is made again if it was interrupted.
fn read_once<S: Read>(stream: &mut S, room: &mut [u8]) -> io::Result<usize>
    ensures { ReadsAtMost result room.new }
{
    for _ in 0..RETRIES {
        let outcome = stream.read(room);
        if !is_interrupted(&outcome) {
            return outcome;
        }
    }
    stream.read(room)
}

/// One write of the whole piece, which is made again if it was interrupted.
fn write_once<S: Write>(stream: &mut S, piece: &[u8]) -> io::Result<usize>
    ensures { WritesAtMost result piece.now }
{
    for _ in 0..RETRIES {
        let outcome = stream.write(piece);
        if !is_interrupted(&outcome) {
            return outcome;
        }
    }
    stream.write(piece)
}

impl<S: Read + Write> Link for TcpLink<S> {
    ghost left = { λ _. None };

    ghost received = { λ _. None };

    ghost holds = { λ _. None };

    ghost faults = { λ l. l.faults };

    ghost waits = { λ l. l.waits };

    fn read(&mut self, room: &mut [u8]) -> LinkGot {
        match read_once(&mut self.stream, room) {
            Ok(0) => LinkGot::End,
            Ok(count) => LinkGot::Bytes(count),
            Err(error) => {
                if error.kind() == ErrorKind::WouldBlock {
                    self.waits = self.waits.saturating_add(1);
                    return LinkGot::NotYet;
                }
                self.faults = self.faults.saturating_add(1);
                LinkGot::Failed
            }
        }
    }

    fn write(&mut self, piece: &[u8]) -> Result<usize, Failed> {
        if let Ok(count) = write_once(&mut self.stream, piece)
            && count > 0
        {
            return Ok(count);
        }
        self.faults = self.faults.saturating_add(1);
        Err(Failed)
    }
}
