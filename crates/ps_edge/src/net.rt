ghost use Rattle.std.specs.Prelude.{◌≡◌, ◌≤◌, ◌+◌, ◌-◌, ◌^◌, ◌||◌, ℕ, min, List as Items, length, Option, Bool, IfOk, is_ok, if◌then◌else◌, count_by, sum_by};
ghost use Rattle.ps_edge.specs.Nets.{AreNew, Exchange, GivesUnused, HasAcceptCause, HasAskedFor, HasNetCause, HasServed, exchange, is_closed};
ghost use Rattle.ps_edge.specs.declared.net.Port.{Port as PortValue};

use crate::link::Link;
use ps_base::{List, OutOfMemory};

/// A port, and what is spoken on it.
#[derive(Clone, Copy, Debug, PartialEq, Eq)]
pub enum Port {
    Http(u16),
    Stream(u16),
}

/// Why a port wasn't opened.
#[derive(Clone, Copy, Debug, PartialEq, Eq)]
pub enum NetError {
    /// The net failed.
    Failed,
    /// There was no memory.
    OutOfMemory,
}

impl From<OutOfMemory> for NetError {
    ghost use Rattle.ps_edge.specs.declared.net.NetError.TheVariants.{OutOfMemory};

    ghost from_gives = { λ _ e. e ≡ OutOfMemory };

    fn from(_: OutOfMemory) -> NetError {
        NetError::OutOfMemory
    }
}

/// What a door gives: a connection, its end, or a fault.
#[derive(Drop)]
pub enum Accepted<L> {
    Link(L),
    Closed,
    Failed,
}

/// A door of a port: connections come through it, one after another.
pub trait Door {
    type L: Link + Drop;

    /// Whether it is closed, so that no connection comes any more.
    ghost closed: { Self → Bool };

    /// What came of the links that came back, in order, if that is known.
    ghost served: { Self → Option (Items Exchange) };

    /// How often an accept failed.
    ghost faults: { Self → ℕ };

    /// Waits for the next connection. After a fault it may be called again.
    fn accept(&mut self) -> Accepted<Self::L>
        ensures unused { GivesUnused Self.L.received Self.L.holds result }
        ensures closed { closed self.new ≡ (is_closed result || closed self.old) }
        ensures served { served self.new ≡ served self.old }
        ensures cause { HasAcceptCause (faults self.old) (faults self.new) result };

    /// Takes a link back that was served.
    fn done(&mut self, link: Self::L)
        ensures served { HasServed (exchange (Self.L.received link) (Self.L.holds link)) (served self.old) (served self.new) }
        ensures closed { closed self.new ≡ closed self.old }
        ensures faults { faults self.new ≡ faults self.old };
}

/// A net: it opens ports, and takes their doors back.
pub trait Net {
    type D: Door + Drop;

    /// The ports that it was asked for, each with the number of doors, in order, if that is known.
    ghost asked: { Self → Option (Items (PortValue × ℕ)) };

    /// How many of its doors haven't come back closed. It stays at the end of its type.
    ghost out: { Self → ℕ };

    /// How often the net has failed, and the doors that came back to it. It stays at the end of its type.
    ghost faults: { Self → ℕ };

    /// Opens a port, and gives so many doors of it.
    fn doors(&mut self, port: Port, number: u32) -> Result<List<Self::D>, NetError>
        ensures asked { HasAskedFor port number (asked self.old) (asked self.new) }
        ensures number { IfOk result (λ doors. length doors ≡ number) }
        ensures unused { IfOk result (AreNew Self.D.closed Self.D.served Self.D.faults) }
        ensures out { out self.new ≡ (if is_ok result then min (out self.old + number) (2 ^ 64 - 1) else out self.old) }
        ensures cause { HasNetCause (faults self.old) (faults self.new) result };

    /// Takes doors back.
    fn back(&mut self, doors: List<Self::D>)
        ensures asked { asked self.new ≡ asked self.old }
        ensures out { out self.new ≡ out self.old - count_by Self.D.closed doors }
        ensures faults { faults self.new ≡ min (faults self.old + sum_by Self.D.faults doors) (2 ^ 64 - 1) }
        ensures later { faults self.old ≤ faults self.new };
}
