ghost use Rattle.std.specs.Prelude.{◌≡◌, ◌+◌};
ghost use Rattle.std.specs.BTreeMap.{values};
ghost use Rattle.ps_model.specs.Counting.{is_acknowledged, is_dead_lettered};
ghost use Rattle.ps_model.specs.Lists.{tally};
ghost use Rattle.ps_model.specs.Slots.{is_backlog, is_leased};
ghost use Rattle.ps_core.specs.State.{flat_marks};
ghost use Rattle.ps_core.specs.Stats.{capped};

use crate::service::Core;
use ps_model::Stat;
use ps_sub::SubCounts;
use ps_tables::KeptSubscription;
use std::collections::BTreeMap;

impl Core {
    ghost use Rattle.ps_core.specs.State.{seen};
    ghost use Rattle.ps_core.specs.Stats.{stat_of};

    /// Ten numbers that describe the world as it is, before anything settles. A sum above the greatest u64 is given as
    /// that. Allocates nothing.
    pub fn stat(&self) -> Stat
        ensures { result ≡ stat_of (seen self.now) }
    {
        let marks = marks_of_all(&self.tables.subscriptions);
        Stat {
            entries: self.count,
            now: self.clock,
            topics: self.tables.topics.len() as u64,
            subscriptions: self.tables.subscriptions.len() as u64,
            snapshots: 0,
            messages: self.tables.messages.len() as u64,
            backlog: marks.backlog,
            leased: marks.leased,
            acknowledged: marks.acknowledged,
            dead_lettered: marks.dead,
        }
    }
}

/// How many marks there are of each kind, over all subscriptions.
fn marks_of_all(subscriptions: &BTreeMap<u64, KeptSubscription>) -> SubCounts
    ensures backlog { result.backlog ≡ capped (tally (λ r. is_backlog r.mark) (flat_marks (values subscriptions.now))) }
    ensures leased { result.leased ≡ capped (tally (λ r. is_leased r.mark) (flat_marks (values subscriptions.now))) }
    ensures acknowledged { result.acknowledged ≡ capped (tally (λ r. is_acknowledged r.mark) (flat_marks (values subscriptions.now))) }
    ensures dead { result.dead ≡ capped (tally (λ r. is_dead_lettered r.mark) (flat_marks (values subscriptions.now))) }
{
    let mut all = SubCounts {
        backlog: 0,
        leased: 0,
        acknowledged: 0,
        dead: 0,
    };
    for subscription in subscriptions.values() {
        all = both(all, subscription.sub.counts());
    }
    all
}

/// The sum of two counts.
fn both(a: SubCounts, b: SubCounts) -> SubCounts
    ensures backlog { result.backlog ≡ capped (a.backlog + b.backlog) }
    ensures leased { result.leased ≡ capped (a.leased + b.leased) }
    ensures acknowledged { result.acknowledged ≡ capped (a.acknowledged + b.acknowledged) }
    ensures dead { result.dead ≡ capped (a.dead + b.dead) }
{
    SubCounts {
        backlog: a.backlog.saturating_add(b.backlog),
        leased: a.leased.saturating_add(b.leased),
        acknowledged: a.acknowledged.saturating_add(b.acknowledged),
        dead: a.dead.saturating_add(b.dead),
    }
}
