ghost use Rattle.std.specs.Prelude.{◌≡◌, ◌+◌, ◌<◌, ◌^◌, IfOk, length};
ghost use Rattle.ps_model.specs.Counting.{is_acknowledged, is_dead_lettered};
ghost use Rattle.ps_model.specs.Lists.{tally};
ghost use Rattle.ps_model.specs.Slots.{is_backlog, is_leased};
ghost use Rattle.ps_sub.specs.Showing.{number_of, number_and_mark, unacknowledged, marks, deadline_of, first_deadline, one_if, total_of};
ghost use Rattle.ps_sub.specs.Steady.{IsLive};

use crate::outcome::SubCounts;
use crate::standing::is_unacked;
use ps_base::OutOfMemory;
use ps_model::{DoneCause, Mark, Slot};
use std::alloc::Global;

fn number_of(slot: &Slot) -> u64
    ensures { result ≡ number_of slot.now }
{
    slot.item.number
}

fn number_and_mark(slot: &Slot) -> (u64, Mark)
    ensures { result ≡ number_and_mark slot.now }
{
    (slot.item.number, slot.mark)
}

/// The numbers of the messages that aren't acknowledged yet.
pub fn unacknowledged(alloc: Global, slots: &[Slot]) -> Result<Vec<u64>, OutOfMemory>
    ensures { IfOk result (λ numbers. numbers.items ≡ unacknowledged slots.now) }
{
    let numbers = slots
        .iter()
        .filter(|slot| is_unacked(slot.mark))
        .map(|slot| number_of(slot))
        .collect(alloc)?;
    Ok(numbers)
}

/// The number and the mark of each message.
pub fn marks(alloc: Global, slots: &[Slot]) -> Result<Vec<(u64, Mark)>, OutOfMemory>
    ensures { IfOk result (λ shown. shown.items ≡ marks slots.now) }
{
    let shown = slots
        .iter()
        .map(|slot| number_and_mark(slot))
        .collect(alloc)?;
    Ok(shown)
}

fn deadline_of(slot: &Slot) -> Option<u64>
    ensures { result ≡ deadline_of slot.now.mark }
{
    match slot.mark {
        Mark::Leased { deadline, .. } => Some(deadline),
        _ => None,
    }
}

/// The first deadline of the messages that are out.
pub fn first_deadline(slots: &[Slot]) -> Option<u64>
    ensures { result ≡ first_deadline slots.now }
{
    slots.iter().filter_map(|slot| deadline_of(slot)).min()
}

/// Counts one more message.
fn add(counts: SubCounts, mark: Mark) -> SubCounts
    requires { total_of counts < 2 ^ 63 }
    ensures backlog { result.backlog ≡ counts.backlog + one_if (is_backlog mark) }
    ensures leased { result.leased ≡ counts.leased + one_if (is_leased mark) }
    ensures acknowledged { result.acknowledged ≡ counts.acknowledged + one_if (is_acknowledged mark) }
    ensures dead { result.dead ≡ counts.dead + one_if (is_dead_lettered mark) }
{
    let mut counts = counts;
    match mark {
        Mark::Backlog { .. } => counts.backlog += 1,
        Mark::Leased { .. } => counts.leased += 1,
        Mark::Ahead { .. }
        | Mark::Done {
            cause: DoneCause::Acknowledged,
        } => counts.acknowledged += 1,
        Mark::Done {
            cause: DoneCause::Dead,
        } => counts.dead += 1,
        Mark::Gone { .. } => {}
    }
    counts
}

/// How many of the messages have a mark of each kind.
pub fn counts(slots: &[Slot]) -> SubCounts
    requires { IsLive slots.now }
    ensures backlog { result.backlog ≡ tally (λ s. is_backlog s.mark) slots.now }
    ensures leased { result.leased ≡ tally (λ s. is_leased s.mark) slots.now }
    ensures acknowledged { result.acknowledged ≡ tally (λ s. is_acknowledged s.mark) slots.now }
    ensures dead { result.dead ≡ tally (λ s. is_dead_lettered s.mark) slots.now }
    ensures all { total_of result ≡ length slots.now }
{
    let mut counts = SubCounts {
        backlog: 0,
        leased: 0,
        acknowledged: 0,
        dead: 0,
    };
    for slot in slots {
        counts = add(counts, slot.mark);
    }
    counts
}
