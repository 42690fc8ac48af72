ghost use Rattle.std.specs.Prelude.{◌≡◌, ℕ};

use std::marker::Model;

/// A clock. Moments are in milliseconds since 1970.
pub trait Clock {
    /// The moments that it may give.
    ghost may_give: { Self → ℕ → Type 0 };

    /// The moment that it shows now.
    fn now(&self) -> u64
        ensures { may_give self.now result };

    /// Waits so many milliseconds. How long that takes isn't promised.
    fn nap(&self, ms: u64);
}

/// A clock in memory. It shows one moment, and naps without waiting.
#[derive(Drop)]
pub struct MemoryClock {
    moment: u64,
}

impl Model for MemoryClock {
    ghost use Rattle.std.specs.Prelude.{ℕ};

    ghost Value = { ℕ };

    ghost view = { λ c. c.moment };
}

impl MemoryClock {
    pub fn new(moment: u64) -> MemoryClock
        ensures { result ≡ moment }
    {
        MemoryClock { moment }
    }
}

impl Clock for MemoryClock {
    ghost use Rattle.std.specs.Prelude.{◌≡◌};

    ghost may_give = { λ c moment. moment ≡ c };

    fn now(&self) -> u64
        ensures { result ≡ self.now }
    {
        self.moment
    }

    fn nap(&self, _ms: u64) {}
}
