ghost use Rattle.std.specs.Prelude.{◌≡◌, ◌≢◌, ◌≤◌, ◌+◌, ◌-◌, ◌^◌, ◌||◌, min, ℕ, List, [], Option, Bool, IsTrue, true, false, IfOk, OnErr, is_ok, codes};
ghost use Rattle.ps_keeper.specs.Log.{Log};
ghost use Rattle.ps_keeper.specs.Cause.{HasCause};
ghost use Rattle.ps_edge.specs.Files.{HasAsked, GivesKeeper, KeepsKeeper, KeepsLog};

use ps_keeper::{Keeper, KeeperError};

/// A directory of logs: it hands out the keeper of the log under a path, and takes it back.
pub trait Cabinet {
    type K: Keeper + Drop;

    /// Whether the log under a path is known, so that the other members may be relied on there.
    ghost known: { Self → List ℕ → Bool };

    /// The log under a path, if it can be read. The next keeper of this path begins with it.
    ghost log: { Self → List ℕ → Option (List (List ℕ)) };

    /// The logs that a crash now may leave under a path.
    ghost may_leave: { Self → List ℕ → List (List ℕ) → Type 0 };

    /// Whether a keeper is out for a path.
    ghost is_out: { Self → List ℕ → Bool };

    /// The paths that keepers were asked for, in order, if that is known.
    ghost asked: { Self → Option (List (List ℕ)) };

    /// How often the cabinet has failed, and the keepers that came back to it.
    ghost faults: { Self → ℕ };

    /// Hands out the keeper of the log under a path. For `-` the log is empty.
    fn keeper(&mut self, path: &str) -> Result<Self::K, KeeperError>
        ensures asked { HasAsked path.now (asked self.old) (asked self.new) }
        ensures out { is_out self.new path.now ≡ (is_ok result || is_out self.old path.now) }
        ensures unfailed { IfOk result (λ keeper. Self.K.faults keeper ≡ 0) }
        ensures begins { IfOk result (GivesKeeper known log may_leave Self.K.known Self.K.log Self.K.may_leave self.old path.now) }
        ensures refused { OnErr result (KeepsLog known log may_leave self.old self.new path.now) }
        ensures others { (other : List ℕ) → other ≢ path.now → KeepsLog known log may_leave self.old self.new other }
        ensures others_out { (other : List ℕ) → other ≢ path.now → is_out self.new other ≡ is_out self.old other }
        ensures cause { HasCause (faults self.old) (faults self.new) result };

    /// Takes a keeper back, with its log. If none is out for this path, the keeper is dropped.
    fn back(&mut self, path: &str, keeper: Self::K)
        ensures asked { asked self.new ≡ asked self.old }
        ensures out { is_out self.new path.now ≡ false }
        ensures kept { IsTrue (is_out self.old path.now) → KeepsKeeper known log may_leave Self.K.known Self.K.log Self.K.may_leave self.new path.now keeper }
        ensures others { (other : List ℕ) → other ≢ path.now → KeepsLog known log may_leave self.old self.new other }
        ensures others_out { (other : List ℕ) → other ≢ path.now → is_out self.new other ≡ is_out self.old other }
        ensures faults { faults self.new ≡ min (faults self.old + Self.K.faults keeper) (2 ^ 64 - 1) };
}
