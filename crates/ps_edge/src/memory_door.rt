ghost use Rattle.std.specs.Prelude.{◌≡◌, ◌<◌, ◌-◌, ◌^◌, ◌∷◌, ◌++◌, [], ◌↔◌, min, length, true, IsTrue, IfOk, Some, ◌||◌, sum_by};
ghost use Rattle.ps_edge.specs.Memory.{after_call, fails_next};
ghost use Rattle.ps_edge.specs.Nets.{GivesUnused, HasAcceptCause, HasServed, is_closed};
ghost use Rattle.ps_edge.specs.MemoryNets.{accepted, after_done, closed_among, entrance, exchanged, is_unused, served_by, waiting_after};

use crate::link::Link;
use crate::memory::Script;
use crate::memory_link::MemoryLink;
use crate::net::{Accepted, Door};
use ps_base::OutOfMemory;
use std::alloc::Global;
use std::collections::VecDeque;
use std::marker::Model;

/// A door in memory. It gives its links one after another, and then it is closed. The accepts that its script names fail,
/// and no others. It keeps the links that come back. It has room for as many as its net had when it was opened, and drops
/// what comes beyond that.
#[derive(Drop)]
pub struct MemoryDoor {
    waiting: VecDeque<MemoryLink>,
    served: Vec<MemoryLink>,
    script: Script,
    closed: bool,
    lost: bool,
}

impl Model for MemoryDoor {
    ghost use Rattle.std.specs.Prelude.{◌≡◌, true, vec_capacity};
    ghost use Rattle.std.specs.List.{list_all};
    ghost use Rattle.std.specs.VecDeque.{deque_capacity};
    ghost use Rattle.ps_edge.specs.MemoryNets.{Entrance, is_unused};

    ghost Value = { Entrance };

    ghost view = { λ d. record { waiting = d.waiting.items; served = d.served.items; capacity = vec_capacity d.served; script = d.script; closed = d.closed; lost = d.lost } };

    ghost invariant = { λ d. (list_all is_unused d.waiting.items ≡ true) × (deque_capacity d.waiting ≡ vec_capacity d.served) };
}

impl MemoryDoor {
    /// A door without links, which has memory for so many. Its accepts are counted from the calls of this script on.
    pub(crate) fn new(
        alloc: Global,
        capacity: usize,
        script: &Script,
    ) -> Result<MemoryDoor, OutOfMemory>
        ensures { IfOk result (λ door. door ≡ entrance capacity script.now) }
    {
        Ok(MemoryDoor {
            waiting: VecDeque::with_capacity(alloc, capacity)?,
            served: Vec::with_capacity(alloc, capacity)?,
            script: script.resumed(alloc)?,
            closed: false,
            lost: false,
        })
    }

    /// Adds a link to come.
    pub(crate) fn give(&mut self, link: MemoryLink)
        requires unused { is_unused link ≡ true }
        requires room { length self.old.waiting < self.old.capacity }
        ensures { self.new ≡ record self.old { waiting = self.old.waiting ++ link ∷ [] } }
    {
        self.waiting.push_back_reserved(link);
    }

    /// The links that came back, in order.
    pub fn served(&self) -> &[MemoryLink]
        ensures { result.now ≡ self.now.served }
    {
        self.served.as_slice()
    }

    /// Whether no link comes any more.
    pub fn is_closed(&self) -> bool
        ensures { result ≡ self.now.closed }
    {
        self.closed
    }

    fn faults(&self) -> u64
        ensures { result ≡ self.now.script.faults }
    {
        self.script.faults()
    }
}

impl Door for MemoryDoor {
    type L = MemoryLink;

    ghost use Rattle.ps_edge.specs.MemoryNets.{served_by};

    ghost closed = { λ d. d.closed };

    ghost served = { served_by };

    ghost faults = { λ d. d.script.faults };

    fn accept(&mut self) -> Accepted<MemoryLink>
        ensures fails { (result ≡ Accepted.Failed) ↔ IsTrue (fails_next self.old.script) }
        ensures gives { result ≡ accepted self.old }
        ensures waiting { self.new.waiting ≡ waiting_after self.old }
        ensures counted { self.new.script ≡ after_call self.old.script (fails_next self.old.script) }
        ensures closed { self.new.closed ≡ (is_closed result || self.old.closed) }
        ensures served { self.new.served ≡ self.old.served }
        ensures capacity { self.new.capacity ≡ self.old.capacity }
        ensures lost { self.new.lost ≡ self.old.lost }
        ensures unused { GivesUnused ⟦<MemoryLink as Link>⟧.received ⟦<MemoryLink as Link>⟧.holds result }
        ensures cause { HasAcceptCause self.old.script.faults self.new.script.faults result }
    {
        let fails = self.script.fails_next();
        self.script.count(fails);
        if fails {
            return Accepted::Failed;
        }
        match self.waiting.pop_front() {
            Some(link) => Accepted::Link(link),
            None => {
                self.closed = true;
                Accepted::Closed
            }
        }
    }

    fn done(&mut self, link: MemoryLink)
        ensures kept { self.new ≡ after_done link self.old }
        ensures served { HasServed (Some (exchanged link)) (served_by self.old) (served_by self.new) }
    {
        if self.served.len() < self.served.capacity() {
            self.served.push_reserved(link);
        } else {
            self.lost = true;
        }
    }
}

/// How many of these doors are closed.
pub(crate) fn closed_among(doors: &[MemoryDoor]) -> usize
    ensures { result ≡ closed_among doors.now }
{
    let mut number = 0;
    for door in doors {
        if door.is_closed() {
            number += 1;
        }
    }
    number
}

/// The faults of these doors together.
pub(crate) fn faults_of(doors: &[MemoryDoor]) -> u64
    ensures { result ≡ min (sum_by (λ d. d.script.faults) doors.now) (2 ^ 64 - 1) }
{
    let mut faults = 0u64;
    for door in doors {
        faults = faults.saturating_add(door.faults());
    }
    faults
}
