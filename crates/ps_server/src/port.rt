// One port: its connections are served over the log under a path.
ghost use Rattle.std.specs.Prelude.{◌≡◌, ◌≤◌, ◌||◌, true, OnOk};
ghost use Rattle.ps_book.specs.Books.{GoesOn, MeansSome, StaysKnown};
ghost use Rattle.ps_edge.specs.Edge.{HasWriteCause};
ghost use Rattle.ps_edge.specs.Nets.{HasAcceptCause, HasAskedFor, HasNetCause, is_closed};
ghost use Rattle.ps_run.specs.Files.{AsksOnlyFor};
ghost use Rattle.ps_server.specs.Ports.{Leads, ServesFile, ServesKeeper, UsesNet, port_status};

use crate::conn::serve_conn;
use crate::protocol::HttpProtocol;
use ps_base::List;
use ps_book::{Book, Unbegun};
use ps_edge::{Accepted, Cabinet, Clock, Door, Failed, Net, NetError, Port};
use ps_keeper::{Keeper, KeeperError};
use ps_run::{Ended, Status, status_of_begin};
use std::alloc::Global;
use std::sync::Wait;

/// How often an accept that failed is made again, as it may if too many files were open.
const RETRIES: u32 = 100;

/// Milliseconds before it is made again.
const RETRY_PAUSE: u64 = 100;

/// Takes the next connection of a door. An accept that fails is made again after a while, unless it has failed too often.
fn next_link<D: Door, C: Clock>(door: &mut D, clock: &C) -> Accepted<D::L>
    ensures closed { D.closed door.new ≡ (is_closed result || D.closed door.old) }
    ensures cause { HasAcceptCause (D.faults door.old) (D.faults door.new) result }
{
    for _ in 0..RETRIES {
        match door.accept() {
            Accepted::Link(link) => return Accepted::Link(link),
            Accepted::Closed => return Accepted::Closed,
            Accepted::Failed => clock.nap(RETRY_PAUSE),
        }
    }
    door.accept()
}

/// Serves the connections of a door, one after another, until it closes. Fails if none can be taken any more.
fn serve_door<M: HttpProtocol, K: Keeper, D: Door, C: Clock, R: Wait>(
    rt: &R,
    alloc: Global,
    door: &mut D,
    book: &mut Book<M, K>,
    clock: &C,
) -> Result<(), Failed>
    requires { MeansSome M.Machine K.Keeper book.old }
    ensures led { Leads M.Machine M.HttpProtocol.own C.Clock K.Keeper clock.now book.old book.new }
    ensures goes { GoesOn M.Machine K.Keeper book.old book.new }
    ensures closed { OnOk result (D.closed door.new ≡ true) }
    ensures cause { HasWriteCause (D.faults door.old) (D.faults door.new) result }
{
    for _ in rt.forever() {
        match next_link(door, clock) {
            Accepted::Link(mut link) => {
                // However it ended, the next one is served.
                let _ = serve_conn(rt, alloc, &mut link, book, clock);
                door.done(link);
            }
            Accepted::Closed => return Ok(()),
            Accepted::Failed => return Err(Failed),
        }
    }
    unreachable!()
}

/// Opens a port, and serves its connections over a book until its door closes. The door is given back.
fn serve_port<M: HttpProtocol, K: Keeper, N: Net, C: Clock, R: Wait>(
    rt: &R,
    alloc: Global,
    port: Port,
    net: &mut N,
    book: &mut Book<M, K>,
    clock: &C,
) -> Result<(), NetError>
    requires { MeansSome M.Machine K.Keeper book.old }
    ensures led { Leads M.Machine M.HttpProtocol.own C.Clock K.Keeper clock.now book.old book.new }
    ensures goes { GoesOn M.Machine K.Keeper book.old book.new }
    ensures asked { HasAskedFor port 1 (N.asked net.old) (N.asked net.new) }
    ensures closed { OnOk result (N.out net.new ≤ N.out net.old) }
    ensures cause { HasNetCause (N.faults net.old) (N.faults net.new) result }
{
    let mut doors = net.doors(port, 1)?.into_vec();
    let served = serve_door(rt, alloc, &mut doors[0], book, clock);
    net.back(List::from_vec(doors));
    match served {
        Ok(()) => Ok(()),
        Err(_) => Err(NetError::Failed),
    }
}

/// The status of a port that was served.
fn status_of_port(served: Result<(), NetError>) -> Status
    ensures { result ≡ port_status served }
{
    match served {
        Ok(()) => Status::Done,
        Err(NetError::Failed) => Status::AcceptFault,
        Err(NetError::OutOfMemory) => Status::OutOfMemory,
    }
}

/// Opens a keeper's log, serves a port over it, and gives the keeper back.
fn serve_keeper<M: HttpProtocol, K: Keeper, N: Net, C: Clock, R: Wait>(
    rt: &R,
    alloc: Global,
    keeper: K,
    port: Port,
    net: &mut N,
    clock: &C,
) -> Ended<K>
    ensures served { ServesKeeper M.Machine M.HttpProtocol.own C.Clock K.Keeper clock.now keeper result }
    ensures net { UsesNet N.Net port net.old net.new result.status }
    ensures still_known { StaysKnown K.Keeper keeper result.keeper }
    ensures later { K.faults keeper ≤ K.faults result.keeper }
{
    let Ok(machine) = M::fresh(alloc) else {
        return Ended {
            status: Status::OutOfMemory,
            keeper,
        };
    };
    match Book::begin(alloc, machine, keeper) {
        Ok(mut book) => {
            let served = serve_port(rt, alloc, port, net, &mut book, clock);
            Ended {
                status: status_of_port(served),
                keeper: book.close(),
            }
        }
        Err(Unbegun { keeper, error }) => Ended {
            status: status_of_begin(error),
            keeper,
        },
    }
}

/// Opens the log under a path, then a port, and serves the connections of this port over the log, one after another, until
/// its door closes. It ends as `Done`, `StoreFault`, `BadRow`, `OutOfMemory` or `AcceptFault`.
pub fn serve_file<M: HttpProtocol, N: Net, S: Cabinet, C: Clock, R: Wait>(
    rt: &R,
    alloc: Global,
    file: &str,
    port: Port,
    net: &mut N,
    cabinet: &mut S,
    clock: &C,
) -> Status
    ensures served { ServesFile M.Machine M.HttpProtocol.own C.Clock S.Cabinet file.now clock.now cabinet.old cabinet.new result }
    ensures net { UsesNet N.Net port net.old net.new result }
    ensures asked { AsksOnlyFor S.Cabinet file.now cabinet.old cabinet.new }
{
    match cabinet.keeper(file) {
        Ok(keeper) => {
            let Ended { status, keeper } = serve_keeper::<M, S::K, N, C, R>(
                rt, alloc, keeper, port, net, clock,
            );
            cabinet.back(file, keeper);
            status
        }
        Err(KeeperError::Failed) => Status::StoreFault,
        Err(KeeperError::OutOfMemory) => Status::OutOfMemory,
    }
}
