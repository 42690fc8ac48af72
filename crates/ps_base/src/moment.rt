ghost use Rattle.std.specs.Prelude.{◌≡◌, ◌≤◌, min};
ghost use Rattle.ps_base.specs.Moments.{last_moment};

use std::marker::Model;

/// The last moment that a timestamp can show, 9999-12-31T23:59:59.999Z.
const LAST: u64 = 253402300799999;

/// A moment in whole milliseconds since 1970, at most the last one of the year 9999.
#[derive(Clone, Copy, Debug, PartialEq, Eq, PartialOrd, Ord)]
pub struct Moment {
    milliseconds: u64,
}

impl Model for Moment {
    ghost use Rattle.std.specs.Prelude.{ℕ, ◌≤◌};
    ghost use Rattle.ps_base.specs.Moments.{last_moment};

    ghost Value = { ℕ };

    ghost view = { λ m. m.milliseconds };

    ghost invariant = { λ m. m.milliseconds ≤ last_moment };

    ghost inverse = { λ n. record { milliseconds = n } };
}

impl Moment {
    /// The moment this many milliseconds after the start of 1970, or the last moment if that would be later.
    pub fn of(milliseconds: u64) -> Moment
        ensures { result ≡ min milliseconds last_moment }
    {
        Moment {
            milliseconds: milliseconds.min(LAST),
        }
    }

    /// The whole milliseconds since the start of 1970.
    pub fn milliseconds(self) -> u64
        ensures value { result ≡ self }
        ensures within { result ≤ last_moment }
    {
        self.milliseconds
    }
}
