ghost use Rattle.std.specs.Prelude.{◌≡◌, ◌<◌, ℕ, false, map, IfOk, OnOk};
ghost use Rattle.std.specs.BTreeMap.{values};
ghost use Rattle.std.specs.List.{list_any};
ghost use Rattle.ps_model.specs.Sound.{Ordered};
ghost use Rattle.ps_core.specs.Effects.{settle_subscription};
ghost use Rattle.ps_tables.specs.Numbers.{IsNumbered};
ghost use Rattle.ps_core.specs.Settling.{due_numbers, has_due, settle_numbered};
ghost use Rattle.ps_tables.specs.Subscriptions.{number_of};

use crate::service::due::{first_end_of_all, is_due};
use crate::service::{Core, give_up};
use ps_base::{Moment, OutOfMemory};
use ps_tables::KeptSubscription;
use std::alloc::Global;
use std::collections::BTreeMap;

/// What settling found: whether a lease was over, and a moment before which no other lease ends.
#[derive(Clone, Copy)]
struct Settled {
    moved: bool,
    next_end: u64,
}

impl Core {
    ghost use Rattle.ps_core.specs.Effects.{settle_state, is_any_due};

    /// Lets the leases that are over at this moment fail, and returns whether there was one. Before `next_end` this is
    /// one comparison.
    pub(super) fn settle(&mut self, alloc: Global, at: Moment) -> Result<bool, OutOfMemory>
        ensures after { OnOk result (self.new ≡ settle_state at self.old) }
        ensures moved { IfOk result (λ moved. moved ≡ is_any_due at self.old) }
    {
        let now = at.milliseconds();
        if now < self.next_end {
            return Ok(false);
        }
        match settle_all(alloc, at, &mut self.tables.subscriptions) {
            Ok(settled) => {
                self.next_end = settled.next_end;
                Ok(settled.moved)
            }
            Err(error) => Err(give_up(&mut self.tables, alloc, error)),
        }
    }
}

fn settle_all(
    alloc: Global,
    at: Moment,
    subscriptions: &mut BTreeMap<u64, KeptSubscription>,
) -> Result<Settled, OutOfMemory>
    requires numbered { IsNumbered number_of subscriptions.old.entries }
    requires order { Ordered (λ a b. a.number < b.number) (values subscriptions.old) }
    ensures numbered { OnOk result (IsNumbered number_of subscriptions.new.entries) }
    ensures after { OnOk result (values subscriptions.new ≡ map (settle_subscription at) (values subscriptions.old)) }
    ensures moved { IfOk result (λ settled. settled.moved ≡ list_any (has_due at) (values subscriptions.old)) }
    ensures next_end { IfOk result (λ settled. (u : ℕ) → u < settled.next_end → list_any (has_due u) (values subscriptions.new) ≡ false) }
{
    let due = due_numbers(alloc, at, subscriptions)?;
    for number in due.as_slice() {
        settle_numbered(alloc, at, *number, subscriptions)?;
    }
    Ok(Settled {
        moved: !due.is_empty(),
        next_end: first_end_of_all(subscriptions),
    })
}

/// The numbers of the subscriptions on which a lease is over.
fn due_numbers(
    alloc: Global,
    at: Moment,
    subscriptions: &BTreeMap<u64, KeptSubscription>,
) -> Result<Vec<u64>, OutOfMemory>
    ensures { IfOk result (λ numbers. numbers.items ≡ due_numbers at (values subscriptions.now)) }
{
    let numbers = subscriptions
        .values()
        .filter(|subscription| is_due(at, subscription))
        .map(|subscription| subscription.number)
        .collect(alloc)?;
    Ok(numbers)
}

/// Settles the subscription with this number, if it is there.
fn settle_numbered(
    alloc: Global,
    at: Moment,
    number: u64,
    subscriptions: &mut BTreeMap<u64, KeptSubscription>,
) -> Result<(), OutOfMemory>
    requires numbered { IsNumbered number_of subscriptions.old.entries }
    requires order { Ordered (λ a b. a.number < b.number) (values subscriptions.old) }
    ensures numbered { OnOk result (IsNumbered number_of subscriptions.new.entries) }
    ensures after { OnOk result (values subscriptions.new ≡ map (settle_numbered at number) (values subscriptions.old)) }
{
    match subscriptions.get_mut(&number) {
        Some(subscription) => settle_one(alloc, at, subscription),
        None => Ok(()),
    }
}

fn settle_one(
    alloc: Global,
    at: Moment,
    subscription: &mut KeptSubscription,
) -> Result<(), OutOfMemory>
    ensures { OnOk result (subscription.new ≡ settle_subscription at subscription.old) }
{
    let _dead_letters = subscription.sub.settle(alloc, at.milliseconds(), false)?;
    Ok(())
}
