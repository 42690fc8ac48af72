ghost use Rattle.std.specs.Prelude.{◌≡◌, ◌≤◌, ◌+◌, ◌-◌, ◌^◌, false, None, min, length, All, IfOk, count_by, sum_by};

use crate::door::{TcpDoor, faults_of};
use ps_base::{List, OutOfMemory};
use ps_edge::{Net, NetError, Port, Sink, write_all};
use std::alloc::Global;
use std::net;
use std::net::{IpAddr, OpenListener, SocketAddr};

/// The ports of one address of the machine. Each port that it opens is told on the output, as a line like
/// `http 127.0.0.1:8085`. Which ports were asked for isn't known.
#[derive(Drop)]
pub struct TcpNet<R, O> {
    rt: R,
    alloc: Global,
    address: IpAddr,
    output: O,
    out: u64,
    faults: u64,
}

impl<R, O> TcpNet<R, O> {
    pub fn new(rt: R, alloc: Global, address: IpAddr, output: O) -> TcpNet<R, O>
        ensures { result ≡ record { rt = rt; alloc = alloc; address = address; output = output; out = 0; faults = 0 } }
    {
        TcpNet {
            rt,
            alloc,
            address,
            output,
            out: 0,
            faults: 0,
        }
    }
}

/// The number of a port, whatever is spoken on it.
fn number_of(port: Port) -> u16 {
    match port {
        Port::Http(number) | Port::Stream(number) => number,
    }
}

/// The line that tells that a port of an address is open.
fn line_of(alloc: Global, port: Port, address: SocketAddr) -> Result<String, OutOfMemory> {
    let line = match port {
        Port::Http(_) => format!(in alloc; "http {address}\n"),
        Port::Stream(_) => format!(in alloc; "stream {address}\n"),
    };
    line.map_err(|_| OutOfMemory)
}

/// Gives so many doors of a listener. The first of them is the listener, and each other one a handle of its socket.
fn share<L: OpenListener + Drop>(
    alloc: Global,
    listener: L,
    number: u32,
) -> Result<List<TcpDoor<L>>, NetError>
    ensures number { IfOk result (λ doors. length doors ≡ number) }
    ensures unfailed { IfOk result (All (λ d. d.faults ≡ 0)) }
{
    let mut doors = List::new(alloc);
    if number == 0 {
        return Ok(doors);
    }
    for _ in 1..number {
        let Ok(other) = listener.try_clone() else {
            return Err(NetError::Failed);
        };
        doors.push(TcpDoor::new(other))?;
    }
    doors.push(TcpDoor::new(listener))?;
    Ok(doors)
}

/// Opens a port of an address, and gives so many doors of it.
fn open<R: net::Net>(
    rt: &R,
    alloc: Global,
    address: SocketAddr,
    number: u32,
) -> Result<List<TcpDoor<R::Listener>>, NetError>
    ensures number { IfOk result (λ doors. length doors ≡ number) }
    ensures unfailed { IfOk result (All (λ d. d.faults ≡ 0)) }
{
    match rt.bind(address) {
        Ok(listener) => share(alloc, listener, number),
        Err(_) => Err(NetError::Failed),
    }
}

impl<R: net::Net, O: Sink> Net for TcpNet<R, O> {
    type D = TcpDoor<R::Listener>;

    ghost asked = { λ _. None };

    ghost out = { λ n. n.out };

    ghost faults = { λ n. n.faults };

    fn doors(&mut self, port: Port, number: u32) -> Result<List<TcpDoor<R::Listener>>, NetError> {
        let address = SocketAddr::new(self.address, number_of(port));
        let line = line_of(self.alloc, port, address)?;
        match open(&self.rt, self.alloc, address, number) {
            Ok(doors) => {
                // If the port can't be told, it is open all the same.
                let _ = write_all(&mut self.output, line.as_bytes());
                self.out = self.out.saturating_add(u64::from(number));
                Ok(doors)
            }
            Err(NetError::Failed) => {
                self.faults = self.faults.saturating_add(1);
                Err(NetError::Failed)
            }
            Err(NetError::OutOfMemory) => Err(NetError::OutOfMemory),
        }
    }

    fn back(&mut self, doors: List<TcpDoor<R::Listener>>)
        ensures out { self.new.out ≡ self.old.out - count_by (λ _. false) doors }
        ensures faults { self.new.faults ≡ min (self.old.faults + sum_by (λ d. d.faults) doors) (2 ^ 64 - 1) }
        ensures later { self.old.faults ≤ self.new.faults }
    {
        self.faults = self.faults.saturating_add(faults_of(doors.as_slice()));
    }
}
