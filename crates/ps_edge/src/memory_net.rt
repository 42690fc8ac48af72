ghost use Rattle.std.specs.Prelude.{◌≡◌, ◌≤◌, ◌<◌, ◌+◌, ◌-◌, ◌^◌, ◌==◌, ◌∷◌, ◌++◌, [], ◌↔◌, min, length, Err, true, false, IsTrue, IfOk, OnOk, OnErr, is_ok, replicate, if◌then◌else◌};
ghost use Rattle.std.specs.VecDeque.{deque_capacity};
ghost use Rattle.ps_edge.specs.Memory.{after_call, fails_next, unread};
ghost use Rattle.ps_edge.specs.Nets.{AreNew, HasAskedFor, HasNetCause};
ghost use Rattle.ps_edge.specs.MemoryNets.{all_room, all_unused, closed_among, dealt, entrance, goes_to, links_of, next_turn, opened, others, ports, served_by, with_faults_of};

use crate::memory::Script;
use crate::memory_door::{MemoryDoor, closed_among, faults_of};
use crate::memory_link::MemoryLink;
use crate::net::{Net, NetError, Port};
use ps_base::{List, OutOfMemory};
use std::alloc::Global;
use std::collections::VecDeque;
use std::marker::Model;
use std::mem;

/// A net in memory. The doors of a port get its links in turn: of `n` doors, link `i` goes to door `i` modulo `n`. Each door
/// gives its links and is closed then. The calls that the script names fail, and no others, unless memory runs out: the
/// calls of `doors` are counted from 1, and each door counts its accepts on from the call that gave it.
#[derive(Drop)]
pub struct MemoryNet {
    alloc: Global,
    links: VecDeque<(Port, MemoryLink)>,
    script: Script,
    asked: Option<List<(Port, u32)>>,
    out: u64,
    returned: Vec<List<MemoryDoor>>,
}

impl Model for MemoryNet {
    ghost use Rattle.std.specs.Prelude.{◌≡◌, ◌-◌, true, length, vec_capacity};
    ghost use Rattle.ps_edge.specs.MemoryNets.{Ports, all_unused};

    ghost Value = { Ports };

    ghost view = { λ n. record { links = n.links.items; script = n.script; asked = n.asked; out = n.out; returned = n.returned.items; room = vec_capacity n.returned - length n.returned.items } };

    ghost invariant = { λ n. all_unused n.links.items ≡ true };
}

impl MemoryNet {
    /// A net with these links, which are as `MemoryLink::new` makes them. The script names the calls that fail.
    pub fn new(
        alloc: Global,
        links: List<(Port, MemoryLink)>,
        failing: List<u64>,
    ) -> Result<MemoryNet, OutOfMemory>
        requires unused { all_unused links ≡ true }
        ensures { IfOk result (λ net. net ≡ ports links (unread failing)) }
    {
        Ok(MemoryNet {
            alloc,
            links: VecDeque::from_vec(links.into_vec()),
            script: Script::new(failing),
            asked: Some(List::new(alloc)),
            out: 0,
            returned: Vec::with_capacity(alloc, 1)?,
        })
    }

    /// The doors that came back, by calls of `back`. There is room for as many of these as there were calls that gave doors,
    /// and one more; what comes beyond that is dropped.
    pub fn returned(&self) -> &[List<MemoryDoor>]
        ensures { result.now ≡ self.now.returned }
    {
        self.returned.as_slice()
    }

    /// Gives the links of a port to new doors. If out of memory, they stay with the net.
    fn open(&mut self, port: Port, number: u32) -> Result<List<MemoryDoor>, OutOfMemory>
        ensures gives { IfOk result (λ doors. doors ≡ opened port number self.old.script self.old.links) }
        ensures ok { OnOk result (self.new ≡ record self.old { links = others port number self.old.links; room = self.old.room + 1 }) }
        ensures err { OnErr result (self.new ≡ self.old) }
    {
        let count = self.links.len();
        let mut doors = new_doors(self.alloc, number, count, &self.script)?;
        let mut rest = VecDeque::with_capacity(self.alloc, count)?;
        let spare = self.returned.capacity() - self.returned.len();
        self.returned.reserve_exact(spare + 1)?;
        let links = mem::replace(&mut self.links, VecDeque::new(self.alloc));
        deal(links, port, &mut doors, &mut rest);
        self.links = rest;
        Ok(List::from_vec(doors))
    }
}

/// Doors without links, each with memory for so many.
fn new_doors(
    alloc: Global,
    number: u32,
    capacity: usize,
    script: &Script,
) -> Result<Vec<MemoryDoor>, OutOfMemory>
    ensures { IfOk result (λ doors. doors.items ≡ replicate number (entrance capacity script.now)) }
{
    let mut doors = Vec::new(alloc);
    for _ in 0..number {
        doors.push(MemoryDoor::new(alloc, capacity, script)?)?;
    }
    Ok(doors)
}

/// Whether a link is dealt to the doors of a port.
fn goes_to(port: Port, number: usize, item: &(Port, MemoryLink)) -> bool
    ensures { result ≡ goes_to port number item.now }
{
    number > 0 && item.0 == port
}

/// The place whose turn it is next.
fn next_turn(number: usize, at: usize) -> usize
    requires { at < number }
    ensures value { result ≡ next_turn number at }
    ensures within { result < number }
{
    if at + 1 == number { 0 } else { at + 1 }
}

/// Deals the links of a port to its doors in turn, and puts the others into the rest.
fn deal(
    mut links: VecDeque<(Port, MemoryLink)>,
    port: Port,
    doors: &mut Vec<MemoryDoor>,
    rest: &mut VecDeque<(Port, MemoryLink)>,
)
    requires unused { all_unused links.items ≡ true }
    requires room { all_room (length links.items) doors.old.items ≡ true }
    requires places { length rest.old.items + length links.items ≤ deque_capacity rest.old }
    ensures doors { doors.new.items ≡ dealt 0 (links_of port (length doors.old.items) links.items) doors.old.items }
    ensures rest { rest.new.items ≡ rest.old.items ++ others port (length doors.old.items) links.items }
{
    let mut at = 0;
    while let Some(item) = links.pop_front() {
        if goes_to(port, doors.len(), &item) {
            let door = &mut doors[at];
            door.give(item.1);
            at = next_turn(doors.len(), at);
        } else {
            rest.push_back_reserved(item);
        }
    }
}

/// The list of ports asked for with one more, or `None` if there is no memory for it.
fn noted(asked: Option<List<(Port, u32)>>, port: Port, number: u32) -> Option<List<(Port, u32)>>
    ensures { HasAskedFor port number asked result }
{
    let mut asked = asked?;
    asked.push((port, number)).ok()?;
    Some(asked)
}

impl Net for MemoryNet {
    type D = MemoryDoor;

    ghost asked = { λ n. n.asked };

    ghost out = { λ n. n.out };

    ghost faults = { λ n. n.script.faults };

    fn doors(&mut self, port: Port, number: u32) -> Result<List<MemoryDoor>, NetError>
        ensures fails { (result ≡ Err NetError.Failed) ↔ IsTrue (fails_next self.old.script) }
        ensures number { IfOk result (λ doors. length doors ≡ number) }
        ensures unused { IfOk result (AreNew (λ d. d.closed) served_by (λ d. d.script.faults)) }
        ensures cause { HasNetCause self.old.script.faults self.new.script.faults result }
        ensures gives { IfOk result (λ doors. doors ≡ opened port number (after_call self.old.script false) self.old.links) }
        ensures links { self.new.links ≡ (if is_ok result then others port number self.old.links else self.old.links) }
        ensures asked { HasAskedFor port number self.old.asked self.new.asked }
        ensures out { self.new.out ≡ (if is_ok result then min (self.old.out + number) (2 ^ 64 - 1) else self.old.out) }
        ensures counted { self.new.script ≡ after_call self.old.script (fails_next self.old.script) }
        ensures returned { self.new.returned ≡ self.old.returned }
        ensures room { self.new.room ≡ (if is_ok result then self.old.room + 1 else self.old.room) }
    {
        self.asked = noted(self.asked.take(), port, number);
        let fails = self.script.fails_next();
        self.script.count(fails);
        if fails {
            return Err(NetError::Failed);
        }
        let doors = self.open(port, number)?;
        self.out = self.out.saturating_add(u64::from(number));
        Ok(doors)
    }

    fn back(&mut self, doors: List<MemoryDoor>)
        ensures links { self.new.links ≡ self.old.links }
        ensures asked { self.new.asked ≡ self.old.asked }
        ensures out { self.new.out ≡ self.old.out - closed_among doors }
        ensures script { self.new.script ≡ record self.old.script { faults = with_faults_of doors self.old.script.faults } }
        ensures later { self.old.script.faults ≤ self.new.script.faults }
        ensures returned { self.new.returned ≡ (if self.old.room == 0 then self.old.returned else self.old.returned ++ doors ∷ []) }
        ensures room { self.new.room ≡ self.old.room - 1 }
    {
        self.out = self
            .out
            .saturating_sub(closed_among(doors.as_slice()) as u64);
        self.script.add_faults(faults_of(doors.as_slice()));
        if self.returned.len() < self.returned.capacity() {
            self.returned.push_reserved(doors);
        }
    }
}
