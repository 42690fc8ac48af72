ghost use Rattle.std.specs.Prelude.{◌≡◌, ◌<◌, ◌≤◌, ◌+◌, ◌-◌, ◌^◌, min, ◌⊎◌, ◌↔◌, [], length, Some, IsTrue, IsErr, is_err, IfOk, MatchResult, OnErr};
ghost use Rattle.ps_keeper.specs.Cause.{Rose};
ghost use Rattle.ps_edge.specs.Edge.{Takes, Adds, HasReadCause, HasWriteCause};
ghost use Rattle.ps_edge.specs.Memory.{after_call, fails_next, got, resumed, unread};

use crate::edge::{Failed, Got, Sink, Source};
use ps_base as base;
use std::alloc::Global;
use std::marker::Model;

/// The numbers of the calls that fail, from 1, and how many calls there were.
#[derive(Drop)]
pub(crate) struct Script {
    failing: base::List<u64>,
    calls: u64,
    faults: u64,
}

impl Model for Script {
    ghost use Rattle.ps_edge.specs.Memory.{Script as Seen};

    ghost Value = { Seen };

    ghost view = { λ s. record { failing = s.failing; calls = s.calls; faults = s.faults } };
}

impl Script {
    pub(crate) fn new(failing: base::List<u64>) -> Script
        ensures { result ≡ unread failing }
    {
        Script {
            failing,
            calls: 0,
            faults: 0,
        }
    }

    /// Whether the next call is one that fails.
    pub(crate) fn fails_next(&self) -> bool
        ensures { result ≡ fails_next self.now }
    {
        let call = self.calls.saturating_add(1);
        self.failing.as_slice().iter().any(|n| *n == call)
    }

    /// Counts a call, and its fault.
    pub(crate) fn count(&mut self, failed: bool)
        ensures counted { self.new ≡ after_call self.old failed }
        ensures later { self.old.faults ≤ self.new.faults }
        ensures rose { IsTrue failed → Rose self.old.faults self.new.faults }
    {
        self.calls = self.calls.saturating_add(1);
        if failed {
            self.faults = self.faults.saturating_add(1);
        }
    }

    /// The same script, which counts on from here, without faults.
    pub(crate) fn resumed(&self, alloc: Global) -> Result<Script, base::OutOfMemory>
        ensures { IfOk result (λ script. script ≡ resumed self.now) }
    {
        Ok(Script {
            failing: base::List::copy_of(alloc, self.failing.as_slice())?,
            calls: self.calls,
            faults: 0,
        })
    }

    /// How many calls failed.
    pub(crate) fn faults(&self) -> u64
        ensures { result ≡ self.now.faults }
    {
        self.faults
    }

    /// Counts faults of others.
    pub(crate) fn add_faults(&mut self, faults: u64)
        ensures counted { self.new ≡ record self.old { faults = min (self.old.faults + faults) (2 ^ 64 - 1) } }
        ensures later { self.old.faults ≤ self.new.faults }
    {
        self.faults = self.faults.saturating_add(faults);
    }
}

/// An input in memory. Its reads are counted from 1, and those that its script names fail, and no others.
#[derive(Drop)]
pub struct MemorySource {
    bytes: base::Octets,
    taken: usize,
    script: Script,
}

impl Model for MemorySource {
    ghost use Rattle.std.specs.Prelude.{◌≤◌, length, drop};
    ghost use Rattle.ps_edge.specs.Memory.{Input};

    ghost Value = { Input };

    ghost view = { λ s. record { left = drop s.taken s.bytes; script = s.script } };

    ghost invariant = { λ s. s.taken ≤ length s.bytes };
}

impl MemorySource {
    pub fn new(bytes: base::Octets, failing: base::List<u64>) -> MemorySource
        ensures { result ≡ record { left = bytes; script = unread failing } }
    {
        MemorySource {
            bytes,
            taken: 0,
            script: Script::new(failing),
        }
    }
}

impl Source for MemorySource {
    ghost left = { λ s. Some s.left };

    ghost faults = { λ s. s.script.faults };

    fn read(&mut self, room: &mut [u8]) -> Got
        requires { 0 < length room.old }
        ensures bytes { Takes (Some self.old.left) (Some self.new.left) room.new result }
        ensures cause { HasReadCause self.old.script.faults self.new.script.faults result }
        ensures fails { (result ≡ Got.Failed) ↔ IsTrue (fails_next self.old.script) }
        ensures gives { result ≡ got self.old (length room.old) }
        ensures counted { self.new.script ≡ after_call self.old.script (fails_next self.old.script) }
    {
        let fails = self.script.fails_next();
        self.script.count(fails);
        if fails {
            return Got::Failed;
        }
        let rest = &self.bytes.as_slice()[self.taken..];
        let count = rest.len().min(room.len());
        if count == 0 {
            return Got::End;
        }
        room[..count].copy_from_slice(&rest[..count]);
        self.taken += count;
        Got::Bytes(count)
    }
}

/// An output in memory. Its writes are counted from 1, and those that its script names fail. Any other write fails only
/// if it runs out of memory.
#[derive(Drop)]
pub struct MemorySink {
    bytes: Vec<u8>,
    script: Script,
}

impl Model for MemorySink {
    ghost use Rattle.std.specs.Prelude.{vec_capacity};
    ghost use Rattle.ps_edge.specs.Memory.{Output};

    ghost Value = { Output };

    ghost view = { λ s. record { bytes = s.bytes.items; capacity = vec_capacity s.bytes; script = s.script } };
}

impl MemorySink {
    pub fn new(alloc: Global, failing: base::List<u64>) -> MemorySink
        ensures bytes { result.bytes ≡ [] }
        ensures script { result.script ≡ unread failing }
    {
        MemorySink {
            bytes: Vec::new(alloc),
            script: Script::new(failing),
        }
    }

    pub fn bytes(&self) -> &[u8]
        ensures { result.now ≡ self.now.bytes }
    {
        self.bytes.as_slice()
    }
}

impl Sink for MemorySink {
    ghost holds = { λ s. Some s.bytes };

    ghost faults = { λ s. s.script.faults };

    fn write(&mut self, piece: &[u8]) -> Result<usize, Failed>
        requires { 0 < length piece.now }
        ensures took { IfOk result (λ n. n ≡ length piece.now) }
        ensures bytes { MatchResult result (λ n. Adds (Some self.old.bytes) (Some self.new.bytes) piece.now n) (λ _. Some self.new.bytes ≡ Some self.old.bytes) }
        ensures cause { HasWriteCause self.old.script.faults self.new.script.faults result }
        ensures scripted { IsTrue (fails_next self.old.script) → IsErr result }
        // it fails by the script, or because it needs more memory than it has
        ensures fails { IsErr result → IsTrue (fails_next self.old.script) ⊎ (self.old.capacity < length self.old.bytes + length piece.now) }
        ensures capacity { self.old.capacity ≤ self.new.capacity }
        ensures counted { self.new.script ≡ after_call self.old.script (is_err result) }
    {
        let fails = self.script.fails_next() || self.bytes.extend_from_slice(piece).is_err();
        self.script.count(fails);
        if fails { Err(Failed) } else { Ok(piece.len()) }
    }
}
