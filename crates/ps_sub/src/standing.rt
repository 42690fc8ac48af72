ghost use Rattle.std.specs.Prelude.{◌≡◌, ◌&&◌, not};
ghost use Rattle.ps_message.specs.Lists.{is_empty};
ghost use Rattle.ps_model.specs.Slots.{is_unacked, is_gone, is_done, is_earlier, any_earlier, failures_of};
ghost use Rattle.ps_model.specs.Choice.{is_ready, is_waiting};
ghost use Rattle.ps_model.specs.Failing.{is_due, is_over};

use ps_model::{Mark, Slot};

pub fn is_unacked(mark: Mark) -> bool
    ensures { result ≡ is_unacked mark }
{
    match mark {
        Mark::Backlog { .. } | Mark::Leased { .. } => true,
        Mark::Ahead { .. } | Mark::Done { .. } | Mark::Gone { .. } => false,
    }
}

pub fn is_gone(mark: Mark) -> bool
    ensures { result ≡ is_gone mark }
{
    matches!(mark, Mark::Gone { .. })
}

pub fn is_done(mark: Mark) -> bool
    ensures { result ≡ is_done mark }
{
    matches!(mark, Mark::Done { .. })
}

pub fn failures_of(mark: Mark) -> u32
    ensures { result ≡ failures_of mark }
{
    match mark {
        Mark::Backlog { failures, .. } | Mark::Leased { failures, .. } | Mark::Ahead { failures } =>
            failures,
        Mark::Done { .. } | Mark::Gone { .. } => 0,
    }
}

pub fn is_due(now: u64, slot: &Slot) -> bool
    ensures { result ≡ is_due now slot.now }
{
    match slot.mark {
        Mark::Leased { deadline, .. } => deadline <= now,
        _ => false,
    }
}

/// Whether the subscription hands out this message in the order of its key.
pub fn has_order(ordering: bool, slot: &Slot) -> bool
    ensures { result ≡ (ordering && not (is_empty slot.now.item.key)) }
{
    ordering && slot.item.key.len() != 0
}

/// Whether one is an earlier message of the other's key, on an ordered subscription.
pub fn is_earlier(ordering: bool, earlier: &Slot, slot: &Slot) -> bool
    ensures { result ≡ is_earlier ordering earlier.now slot.now }
{
    ordering
        && earlier.item.number < slot.item.number
        && slot.item.key.len() != 0
        && earlier.item.key.is_same(&slot.item.key)
}

fn is_ready(now: u64, mark: Mark) -> bool
    ensures { result ≡ is_ready now mark }
{
    match mark {
        Mark::Backlog { until, .. } => until <= now,
        _ => false,
    }
}

pub fn is_waiting(now: u64, mark: Mark) -> bool
    ensures { result ≡ is_waiting now mark }
{
    match mark {
        Mark::Backlog { until, .. } => now < until,
        _ => false,
    }
}

/// Whether the message may be handed out. `held_back` says that an earlier message of its key waits for a delay.
pub fn is_deliverable(now: u64, held_back: bool, mark: Mark) -> bool
    ensures { result ≡ (is_ready now mark && not held_back) }
{
    is_ready(now, mark) && !held_back
}
