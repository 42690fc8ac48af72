ghost use Rattle.std.specs.Prelude.{◌≡◌, ◌^◌, ◌≤◌, [], None, List, ℕ};
ghost use Rattle.std.specs.BTreeMap.{get_by_text};
ghost use Rattle.ps_model.specs.Commands.{is_full};
ghost use Rattle.ps_model.specs.Step as rules;

mod acknowledging;
mod applying;
mod counting;
mod creating;
mod deleting;
mod delivering;
mod due;
mod judging;
mod listing;
mod looking;
mod outcome;
mod publishing;
mod settling;
mod updating;

use ps_base::{Moment, OutOfMemory};
use ps_tables::Tables;
use std::alloc::Global;
use std::marker::Model;

/// How many entries the log can number.
const MOST_ENTRIES: u64 = 1 << 50;

/// The whole state of the service between two calls. After `OutOfMemory`, drop the core: its state is unspecified.
#[derive(Drop)]
pub struct Core {
    /// The moment of the last entry, in milliseconds since 1970.
    clock: u64,
    count: u64,
    next_topic: u64,
    next_sub: u64,
    next_message: u64,
    /// No lease ends before this moment, so settling before it has nothing to do.
    next_end: u64,
    tables: Tables,
}

impl Model for Core {
    ghost use Rattle.ps_core.specs.State.{State};
    ghost use Rattle.ps_core.specs.Keeping.{state_of, IsKept};

    ghost Value = { State };

    ghost view = { λ it. state_of it.clock it.count it.next_topic it.next_sub it.next_message it.tables };

    ghost invariant = { λ it. IsKept (state_of it.clock it.count it.next_topic it.next_sub it.next_message it.tables) it.next_end it.tables };
}

impl Core {
    ghost use Rattle.ps_core.specs.State.{seen, empty_state};
    ghost use Rattle.ps_core.specs.Steady.{IsSteady};
    ghost use Rattle.ps_core.specs.Carrying.{CanRecord};
    ghost use Rattle.ps_core.specs.Effects.{recorded_at};

    /// A core before its first entry. Allocates nothing.
    pub fn new(alloc: Global) -> Core
        ensures { result ≡ empty_state }
    {
        Core {
            clock: 0,
            count: 0,
            next_topic: 1,
            next_sub: 1,
            next_message: 1,
            next_end: 0,
            tables: Tables::new(alloc),
        }
    }

    /// How many entries were recorded, at most 2^50.
    pub fn entries(&self) -> u64
        ensures count { result ≡ self.now.count }
        ensures most { result ≤ 2 ^ 50 }
    {
        self.count
    }

    /// The moment of a call that comes `now` milliseconds after 1970 began. It is never before the last entry.
    fn moment(&self, now: u64) -> Moment
        ensures value { result ≡ rules.moment (seen self.now) now }
        ensures later { self.now.now ≤ result }
        ensures steady { IsSteady self.now }
    {
        Moment::of(now.max(self.clock))
    }

    /// Whether the log has as many entries as it can number.
    fn is_full(&self) -> bool
        ensures { result ≡ is_full (seen self.now) }
    {
        self.count == MOST_ENTRIES
    }

    /// Counts one more entry, at this moment.
    fn record(&mut self, at: Moment)
        requires can { CanRecord at self.old }
        ensures { self.new ≡ recorded_at at self.old }
    {
        self.clock = at.milliseconds();
        self.count += 1;
    }
}

/// Empties the tables of a core for which there was no memory to change them, and returns the error.
fn give_up(tables: &mut Tables, alloc: Global, error: OutOfMemory) -> OutOfMemory
    ensures topics { tables.new.topics.entries ≡ [] }
    ensures topic_numbers { (name : List ℕ) → get_by_text tables.new.topic_numbers.numbers name ≡ None }
    ensures subscriptions { tables.new.subscriptions.entries ≡ [] }
    ensures subscription_numbers { (name : List ℕ) → get_by_text tables.new.subscription_numbers.numbers name ≡ None }
    ensures messages { tables.new.messages.entries ≡ [] }
{
    *tables = Tables::new(alloc);
    error
}
