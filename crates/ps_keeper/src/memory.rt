ghost use Rattle.std.specs.Prelude.{◌≡◌, ◌==◌, ◌<◌, ◌≤◌, ◌+◌, ◌^◌, [], ◌∷◌, ◌++◌, length, Some, None, true, Err, ◌↔◌, IsTrue, IfOk, IfSome, if◌then◌else◌, is_some, OnOk, OnErr, OnSome, find, option_map, take, drop};
ghost use Rattle.ps_keeper.specs.Log.{Log, Changes, Keeps, appended, replaced};
ghost use Rattle.ps_keeper.specs.Cause.{HasCause, Rose};
ghost use Rattle.ps_keeper.specs.Rows.{page, numbered_from};
ghost use Rattle.ps_keeper.specs.Memory.{Counts, FailsBy, StoresBy, fate, fresh, log_after, up};

use crate::keeper::{Keeper, KeeperError, Row};
use ps_base as base;
use std::alloc::Global;
use std::marker::Model;

/// Whether a call that fails has stored first.
#[derive(Clone, Copy, Debug, PartialEq, Eq)]
pub enum When {
    /// It fails and changes nothing.
    Before,
    /// It makes its change and then fails. If memory runs out it changes nothing, and says so.
    After,
}

/// A log in memory, which fails at the calls of its script. The number of a row is its place, from 1.
#[derive(Drop)]
pub struct MemoryKeeper {
    alloc: Global,
    bodies: base::List<base::Octets>,
    script: base::List<(u64, When)>,
    calls: u64,
    faults: u64,
}

impl Model for MemoryKeeper {
    ghost use Rattle.ps_keeper.specs.Memory.{Memory};

    ghost Value = { Memory };

    ghost view = { λ k. record { log = k.bodies; script = k.script; calls = k.calls; faults = k.faults } };
}

fn fate_of(script: &[(u64, When)], call: u64) -> Option<When>
    ensures { result ≡ option_map (λ e. e.1) (find (λ e. e.0 == call) script.now) }
{
    script.iter().find(|e| e.0 == call).map(|e| e.1)
}

fn page_of(
    alloc: Global,
    bodies: &[base::Octets],
    after: u64,
    most: u32,
) -> Result<base::List<Row>, base::OutOfMemory>
    requires { after ≤ 2 ^ 62 }
    ensures rows { IfOk result (λ rows. rows ≡ page after most bodies.now) }
    ensures most { IfOk result (λ rows. length rows ≤ most) }
{
    let mut rows = base::List::new(alloc);
    let from = (after as usize).min(bodies.len());
    let rest = &bodies[from..];
    let part = &rest[..(most as usize).min(rest.len())];
    let mut seq = after;
    for body in part {
        seq += 1;
        rows.push(Row {
            seq,
            body: base::Octets::from_slice(alloc, body.as_slice())?,
        })?;
    }
    Ok(rows)
}

impl MemoryKeeper {
    /// An empty log that never fails.
    pub fn new(alloc: Global) -> MemoryKeeper
        ensures { result ≡ fresh [] }
    {
        MemoryKeeper {
            alloc,
            bodies: base::List::new(alloc),
            script: base::List::new(alloc),
            calls: 0,
            faults: 0,
        }
    }

    /// An empty log. Its calls of `append`, `replace` and `rows` are counted together from 1, and those with
    /// these numbers fail.
    pub fn failing(alloc: Global, script: base::List<(u64, When)>) -> MemoryKeeper
        ensures { result ≡ record { log = []; script = script; calls = 0; faults = 0 } }
    {
        MemoryKeeper {
            alloc,
            bodies: base::List::new(alloc),
            script,
            calls: 0,
            faults: 0,
        }
    }

    /// Returns the bodies, oldest first. It isn't counted as a call.
    pub fn log(&self) -> &[base::Octets]
        ensures { result.now ≡ self.now.log }
    {
        self.bodies.as_slice()
    }

    /// The same log in a keeper that never fails, as if made by `new`.
    pub fn reopened(self) -> MemoryKeeper
        ensures { result ≡ fresh self.log }
    {
        let MemoryKeeper {
            alloc,
            bodies,
            script: _,
            calls: _,
            faults: _,
        } = self;
        MemoryKeeper {
            alloc,
            bodies,
            script: base::List::new(alloc),
            calls: 0,
            faults: 0,
        }
    }

    /// Returns how often a call failed by the script.
    pub fn faults(&self) -> u64
        ensures { result ≡ self.now.faults }
    {
        self.faults
    }

    /// Counts a call, and returns what the script says of it.
    fn next_fate(&mut self) -> Option<When>
        ensures fate { result ≡ fate self.old }
        ensures counted { self.new ≡ record self.old { calls = up self.old.calls } }
    {
        self.calls = self.calls.saturating_add(1);
        fate_of(self.script.as_slice(), self.calls)
    }

    /// Counts a failure.
    fn fail(&mut self) -> KeeperError
        ensures error { result ≡ KeeperError.Failed }
        ensures counted { self.new ≡ record self.old { faults = up self.old.faults } }
        ensures later { self.old.faults ≤ self.new.faults }
    {
        self.faults = self.faults.saturating_add(1);
        KeeperError::Failed
    }

    /// Stores one more body.
    fn store(&mut self, body: &[u8]) -> Result<(), base::OutOfMemory>
        ensures ok { OnOk result (self.new ≡ record self.old { log = appended body.now self.old.log }) }
        ensures err { OnErr result (self.new ≡ self.old) }
    {
        let body = base::Octets::from_slice(self.alloc, body)?;
        self.bodies.push(body)
    }

    /// Replaces the log by these bodies.
    fn store_all(&mut self, rows: &[base::Octets]) -> Result<(), base::OutOfMemory>
        ensures ok { OnOk result (self.new ≡ record self.old { log = rows.now }) }
        ensures err { OnErr result (self.new ≡ self.old) }
    {
        self.bodies = base::List::copy_of(self.alloc, rows)?;
        Ok(())
    }
}

impl Keeper for MemoryKeeper {
    ghost known = { λ _. true };

    ghost log = { λ k. Some k.log };

    ghost may_leave = { λ k left. left ≡ k.log };

    ghost faults = { λ k. k.faults };

    fn append(&mut self, seq: u64, body: &[u8]) -> Result<(), KeeperError>
        requires { seq ≤ 2 ^ 62 }
        ensures fails { StoresBy (fate self.old) result }
        ensures stored { self.new.log ≡ log_after (appended body.now) (fate self.old) result self.old.log }
        ensures counted { Counts self.old self.new result }
        ensures known { IsTrue (⟦<MemoryKeeper as Keeper>⟧.known self.new) }
        ensures change { Changes (appended body.now) (Some self.old.log) (Some self.new.log) (λ left. left ≡ self.old.log) (λ left. left ≡ self.new.log) result }
        ensures cause { HasCause self.old.faults self.new.faults result }
    {
        let _ = seq;
        match self.next_fate() {
            Some(When::Before) => Err(self.fail()),
            Some(When::After) => {
                self.store(body)?;
                Err(self.fail())
            }
            None => Ok(self.store(body)?),
        }
    }

    fn replace(&mut self, rows: &[base::Octets]) -> Result<(), KeeperError>
        ensures fails { StoresBy (fate self.old) result }
        ensures stored { self.new.log ≡ log_after (replaced rows.now) (fate self.old) result self.old.log }
        ensures counted { Counts self.old self.new result }
        ensures known { IsTrue (⟦<MemoryKeeper as Keeper>⟧.known self.new) }
        ensures change { Changes (replaced rows.now) (Some self.old.log) (Some self.new.log) (λ left. left ≡ self.old.log) (λ left. left ≡ self.new.log) result }
        ensures cause { HasCause self.old.faults self.new.faults result }
    {
        match self.next_fate() {
            Some(When::Before) => Err(self.fail()),
            Some(When::After) => {
                self.store_all(rows)?;
                Err(self.fail())
            }
            None => Ok(self.store_all(rows)?),
        }
    }

    fn rows(&mut self, alloc: Global, after: u64, most: u32) -> Result<base::List<Row>, KeeperError>
        requires number { after ≤ 2 ^ 62 }
        requires some { 0 < most }
        ensures fails { FailsBy (fate self.old) result }
        ensures log { self.new.log ≡ self.old.log }
        ensures counted { Counts self.old self.new result }
        ensures known { IsTrue (⟦<MemoryKeeper as Keeper>⟧.known self.new) }
        ensures rows { IfOk result (λ rows. rows ≡ page after most self.old.log) }
        ensures most { IfOk result (λ rows. length rows ≤ most) }
        ensures cause { HasCause self.old.faults self.new.faults result }
    {
        if self.next_fate().is_some() {
            return Err(self.fail());
        }
        Ok(page_of(alloc, self.bodies.as_slice(), after, most)?)
    }
}
