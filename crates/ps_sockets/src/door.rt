ghost use Rattle.std.specs.Prelude.{◌≡◌, ◌-◌, ◌^◌, false, None, min, sum_by};

use crate::link::{RETRIES, TcpLink};
use ps_edge::{Accepted, Door};
use std::io;
use std::io::{ErrorKind, Read, Write};
use std::net::{OpenListener, OpenStream};

/// A TCP listener as a door. It never closes.
#[derive(Drop)]
pub struct TcpDoor<L> {
    listener: L,
    faults: u64,
}

impl<L> TcpDoor<L> {
    pub fn new(listener: L) -> TcpDoor<L>
        ensures { result ≡ record { listener = listener; faults = 0 } }
    {
        TcpDoor {
            listener,
            faults: 0,
        }
    }
}

/// Whether an accept may go well right after it failed so.
fn is_passing(kind: ErrorKind) -> bool {
    kind == ErrorKind::ConnectionAborted || kind == ErrorKind::Interrupted
}

/// Waits for the next connection. One that was given up before it could be taken is passed over.
fn accept_stream<L: OpenListener>(listener: &L) -> io::Result<L::Stream> {
    for _ in 0..RETRIES {
        match listener.accept() {
            Ok((stream, _)) => return Ok(stream),
            Err(error) => {
                if !is_passing(error.kind()) {
                    return Err(error);
                }
            }
        }
    }
    let (stream, _) = listener.accept()?;
    Ok(stream)
}

impl<L: OpenListener> Door for TcpDoor<L>
where
    L::Stream: Read + Write + OpenStream,
{
    type L = TcpLink<L::Stream>;

    ghost closed = { λ _. false };

    ghost served = { λ _. None };

    ghost faults = { λ d. d.faults };

    fn accept(&mut self) -> Accepted<TcpLink<L::Stream>> {
        match accept_stream(&self.listener) {
            Ok(stream) => {
                // Without this a short answer may come later, but it comes.
                let _ = stream.set_nodelay(true);
                Accepted::Link(TcpLink::new(stream))
            }
            Err(_) => {
                self.faults = self.faults.saturating_add(1);
                Accepted::Failed
            }
        }
    }

    fn done(&mut self, link: TcpLink<L::Stream>) {
        link.close();
    }
}

/// The faults of these doors together, at most the end of the type.
pub(crate) fn faults_of<L>(doors: &[TcpDoor<L>]) -> u64
    ensures { result ≡ min (sum_by (λ d. d.faults) doors.now) (2 ^ 64 - 1) }
{
    let mut faults: u64 = 0;
    for door in doors {
        faults = faults.saturating_add(door.faults);
    }
    faults
}
