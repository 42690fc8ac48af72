ghost use Rattle.std.specs.Prelude.{◌≡◌, ◌≢◌, ◌+◌, ◌-◌, ◌^◌, ℕ, List, min, [], Err, IsTrue, is_ok, Option, Some, None, true, false, IfOk, OnOk, OnErr, option_map, IfSome, IsSomeAnd, ◌++◌, ◌∷◌, if◌then◌else◌, position};
ghost use Rattle.std.specs.Str.{bytes_eq};
ghost use Rattle.ps_keeper.specs.Cause.{HasCause};
ghost use Rattle.ps_edge.specs.Files.{HasAsked, dash};
ghost use Rattle.ps_keeper.specs.Memory.{fresh};
ghost use Rattle.ps_edge.specs.PathLogs.{is_out_of, is_unfailed, kept, slot_at, stored};
ghost use Rattle.ps_edge.specs.MemoryLogs.{handed};

use crate::cabinet::Cabinet;
use crate::path_log::{PathLog, noted, put_back, put_in, take_out};
use ps_base::{List, OutOfMemory, Text};
use ps_keeper::{KeeperError, MemoryKeeper};
use std::alloc::Global;
use std::marker::Model;

/// A directory of logs in memory. It fails only if it runs out of memory.
#[derive(Drop)]
pub struct MemoryCabinet {
    alloc: Global,
    slots: Vec<PathLog<MemoryKeeper>>,
    asked: Option<List<Text>>,
    faults: u64,
}

impl Model for MemoryCabinet {
    ghost use Rattle.std.specs.Prelude.{◌≡◌, true};
    ghost use Rattle.ps_edge.specs.MemoryLogs.{Files};
    ghost use Rattle.ps_edge.specs.PathLogs.{all_unfailed};

    ghost Value = { Files };

    ghost view = { λ c. record { slots = c.slots.items; asked = c.asked; faults = c.faults } };

    ghost invariant = { λ c. all_unfailed (λ m. m.faults) c.slots.items ≡ true };
}

/// The keeper that is handed out of a slot.
fn handed(alloc: Global, path: &str, keeper: Option<MemoryKeeper>) -> MemoryKeeper
    requires { is_unfailed (λ m. m.faults) keeper ≡ true }
    ensures keeper { result ≡ handed (bytes_eq path.now dash) keeper }
    ensures unfailed { result.faults ≡ 0 }
{
    match keeper {
        Some(keeper) => {
            if path == "-" && !keeper.log().is_empty() {
                return MemoryKeeper::new(alloc);
            }
            keeper
        }
        None => MemoryKeeper::new(alloc),
    }
}

impl MemoryCabinet {
    /// A cabinet without logs.
    pub fn new(alloc: Global) -> MemoryCabinet
        ensures { result ≡ record { slots = []; asked = Some []; faults = 0 } }
    {
        MemoryCabinet {
            alloc,
            slots: Vec::new(alloc),
            asked: Some(List::new(alloc)),
            faults: 0,
        }
    }

    /// Puts a keeper under a path, in place of an older one. It fails only for a new path, if it runs out of memory.
    pub fn put(&mut self, path: &str, keeper: MemoryKeeper) -> Result<(), OutOfMemory>
        requires unfailed { keeper.faults ≡ 0 }
        requires empty { path.now ≡ dash → keeper.log ≡ [] }
        ensures ok { OnOk result (self.new ≡ record self.old { slots = stored path.now (Some keeper) self.old.slots }) }
        ensures err { OnErr result (self.new ≡ self.old) }
        ensures fails { OnErr result (slot_at path.now self.old.slots ≡ None) }
    {
        put_in(self.alloc, &mut self.slots, path, keeper)
    }
}

impl Cabinet for MemoryCabinet {
    type K = MemoryKeeper;

    ghost use Rattle.std.specs.Prelude.{◌≡◌, Some, true};
    ghost use Rattle.ps_edge.specs.MemoryLogs.{log_under};
    ghost use Rattle.ps_edge.specs.PathLogs.{is_out_of};

    ghost known = { λ _ _. true };

    ghost log = { λ c path. Some (log_under path c.slots) };

    ghost may_leave = { λ c path left. left ≡ log_under path c.slots };

    ghost is_out = { λ c path. is_out_of path c.slots };

    ghost asked = { λ c. c.asked };

    ghost faults = { λ c. c.faults };

    fn keeper(&mut self, path: &str) -> Result<MemoryKeeper, KeeperError>
        // it fails only if it has no slot for this path, and no memory to make one
        ensures fails { OnErr result (slot_at path.now self.old.slots ≡ None) }
        ensures memory { result ≢ Err KeeperError.Failed }
        ensures gives { IfOk result (λ keeper. keeper ≡ handed (bytes_eq path.now dash) (kept path.now self.old.slots)) }
        ensures unfailed { IfOk result (λ keeper. keeper.faults ≡ 0) }
        ensures taken { OnOk result (slot_at path.now self.new.slots ≡ Some None) }
        ensures refused { OnErr result (self.new.slots ≡ self.old.slots) }
        ensures others { (other : List ℕ) → other ≢ path.now → slot_at other self.new.slots ≡ slot_at other self.old.slots }
        ensures asked { HasAsked path.now self.old.asked self.new.asked }
        ensures faults { self.new.faults ≡ self.old.faults }
        ensures known { (any : List ℕ) → IsTrue (⟦<MemoryCabinet as Cabinet>⟧.known self.new any) }
    {
        self.asked = noted(self.alloc, self.asked.take(), path);
        let keeper = take_out(self.alloc, &mut self.slots, path)?;
        Ok(handed(self.alloc, path, keeper))
    }

    fn back(&mut self, path: &str, keeper: MemoryKeeper)
        ensures out { is_out_of path.now self.new.slots ≡ false }
        ensures kept { IsTrue (is_out_of path.now self.old.slots) → slot_at path.now self.new.slots ≡ Some (Some (fresh keeper.log)) }
        ensures dropped { is_out_of path.now self.old.slots ≡ false → self.new.slots ≡ self.old.slots }
        ensures others { (other : List ℕ) → other ≢ path.now → slot_at other self.new.slots ≡ slot_at other self.old.slots }
        ensures asked { self.new.asked ≡ self.old.asked }
        ensures faults { self.new.faults ≡ min (self.old.faults + keeper.faults) (2 ^ 64 - 1) }
        ensures known { (any : List ℕ) → IsTrue (⟦<MemoryCabinet as Cabinet>⟧.known self.new any) }
    {
        self.faults = self.faults.saturating_add(keeper.faults());
        put_back(&mut self.slots, path, keeper.reopened());
    }
}
