ghost use Rattle.std.specs.Prelude.{◌≡◌, ◌<◌, ◌≤◌, ◌+◌, ◌^◌, ℕ, List, length, Option, Bool, IsTrue, IfOk, IfSome, take};
ghost use Rattle.ps_keeper.specs.Log.{Changes, Keeps, appended, replaced};
ghost use Rattle.ps_keeper.specs.Cause.{HasCause};
ghost use Rattle.ps_keeper.specs.Rows.{page};

use ps_base as base;
use std::alloc::Global;

/// A row of the log, numbered from 1.
#[derive(Debug, Drop)]
pub struct Row {
    /// Its number, from 1.
    pub seq: u64,
    /// Its bytes.
    pub body: base::Octets,
}

/// Why a call of a keeper failed.
#[derive(Clone, Copy, Debug, PartialEq, Eq)]
pub enum KeeperError {
    /// The store failed. It may have made the change before that.
    Failed,
    /// There was no memory.
    OutOfMemory,
}

/// A log: a list of bodies, numbered from 1.
pub trait Keeper {
    /// Whether the log is known, so that the other members may be relied on. Once false, it stays false.
    ghost known: { Self → Bool };

    /// The bodies, oldest first, if the log can be read.
    ghost log: { Self → Option (List (List ℕ)) };

    /// The logs that a crash now may leave.
    ghost may_leave: { Self → List (List ℕ) → Type 0 };

    /// How often the store has failed.
    ghost faults: { Self → ℕ };

    /// Adds a body at the end, under the next number. After an error the body may be in the log or not; `rows`
    /// shows which.
    fn append(&mut self, seq: u64, body: &[u8]) -> Result<(), KeeperError>
        requires number { seq ≤ 2 ^ 62 }
        requires next { IsTrue (known self.old) → IfSome (log self.old) (λ was. seq ≡ length was + 1) }
        ensures still_known { IsTrue (known self.new) → IsTrue (known self.old) }
        ensures change { IsTrue (known self.new) → Changes (appended body.now) (log self.old) (log self.new) (may_leave self.old) (may_leave self.new) result }
        ensures cause { HasCause (faults self.old) (faults self.new) result };

    /// Replaces the log by these bodies, numbered from 1. After an error the log is the old one or the new one.
    fn replace(&mut self, rows: &[base::Octets]) -> Result<(), KeeperError>
        ensures still_known { IsTrue (known self.new) → IsTrue (known self.old) }
        ensures change { IsTrue (known self.new) → Changes (replaced rows.now) (log self.old) (log self.new) (may_leave self.old) (may_leave self.new) result }
        ensures cause { HasCause (faults self.old) (faults self.new) result };

    /// Returns at most `most` rows with numbers above `after`, in order; none if the log ends there. It changes
    /// nothing.
    fn rows(&mut self, alloc: Global, after: u64, most: u32) -> Result<base::List<Row>, KeeperError>
        requires number { after ≤ 2 ^ 62 }
        requires some { 0 < most }
        ensures still_known { IsTrue (known self.new) → IsTrue (known self.old) }
        ensures change { IsTrue (known self.new) → Keeps (log self.old) (log self.new) (may_leave self.old) (may_leave self.new) result }
        ensures rows { IfOk result (λ rows. IsTrue (known self.new) → IfSome (log self.new) (λ bodies. rows ≡ page after most bodies)) }
        ensures most { IfOk result (λ rows. length rows ≤ most) }
        ensures cause { HasCause (faults self.old) (faults self.new) result };
}

impl From<base::OutOfMemory> for KeeperError {
    ghost use Rattle.ps_keeper.specs.declared.keeper.KeeperError.TheVariants.{OutOfMemory};
    ghost use Rattle.std.specs.Prelude.{◌≡◌};

    ghost from_gives = { λ _ e. e ≡ OutOfMemory };

    fn from(_: base::OutOfMemory) -> KeeperError {
        KeeperError::OutOfMemory
    }
}
