ghost use Rattle.std.specs.Prelude.{◌≡◌, ◌<◌, ℕ, false, not};
ghost use Rattle.std.specs.BTreeMap.{values};
ghost use Rattle.std.specs.List.{list_any};
ghost use Rattle.ps_model.specs.Same.{same_world};
ghost use Rattle.ps_model.specs.Step as rules;
ghost use Rattle.ps_core.specs.Settling.{has_due};

use crate::service::Core;
use ps_base::Moment;
use ps_tables::KeptSubscription;
use std::collections::BTreeMap;

impl Core {
    ghost use Rattle.ps_core.specs.State.{seen};
    ghost use Rattle.ps_core.specs.Effects.{is_any_due};

    /// Whether anything is due at this moment, so that settling would change the state. Allocates nothing.
    pub fn is_due(&self, now: u64) -> bool
        ensures { let w = seen self.now in result ≡ not (same_world w (rules.settled (rules.moment w now) w)) }
    {
        !self.is_full() && self.is_any_due(self.moment(now))
    }

    /// Whether a lease is over. Before `next_end` this is one comparison.
    fn is_any_due(&self, at: Moment) -> bool
        ensures { result ≡ is_any_due at self.now }
    {
        self.next_end <= at.milliseconds()
            && self
                .tables
                .subscriptions
                .values()
                .any(|kept| is_due(at, kept))
    }
}

/// Whether a lease of the subscription is over.
pub(super) fn is_due(at: Moment, subscription: &KeptSubscription) -> bool
    ensures { result ≡ has_due at subscription.now }
{
    subscription
        .sub
        .first_deadline()
        .is_some_and(|deadline| deadline <= at.milliseconds())
}

/// A moment before which no lease ends.
pub(super) fn first_end_of_all(subscriptions: &BTreeMap<u64, KeptSubscription>) -> u64
    ensures { (at : ℕ) → at < result → list_any (has_due at) (values subscriptions.now) ≡ false }
{
    let mut first = u64::MAX;
    for subscription in subscriptions.values() {
        first = first.min(first_end(subscription));
    }
    first
}

/// When the first lease of the subscription ends.
fn first_end(subscription: &KeptSubscription) -> u64
    ensures { (at : ℕ) → at < result → has_due at subscription.now ≡ false }
{
    subscription.sub.first_deadline().unwrap_or(u64::MAX)
}
