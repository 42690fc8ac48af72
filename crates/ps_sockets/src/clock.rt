ghost use Rattle.std.specs.Prelude.{◌≡◌};

use ps_edge::Clock;
use std::time::{Duration, SystemTime};
use std::{rt, thread};

/// The clock of the machine. It may show any moment, and may go back.
#[derive(Drop)]
pub struct SystemClock<R> {
    rt: R,
}

impl<R> SystemClock<R> {
    pub fn new(rt: R) -> SystemClock<R>
        ensures { result ≡ record { rt = rt } }
    {
        SystemClock { rt }
    }
}

impl<R: rt::Clock> Clock for SystemClock<R> {
    ghost use Rattle.std.specs.Prelude.{⊤};

    ghost may_give = { λ _ _. ⊤ };

    /// The moment that the machine shows, and 0 if that can't be read or is before 1970.
    fn now(&self) -> u64 {
        let Ok(time) = SystemTime::now(&self.rt) else {
            return 0;
        };
        let Ok(since) = time.duration_since(SystemTime::UNIX_EPOCH) else {
            return 0;
        };
        u64::try_from(since.as_millis()).unwrap_or(u64::MAX)
    }

    fn nap(&self, ms: u64) {
        thread::sleep(&self.rt, Duration::from_millis(ms));
    }
}
