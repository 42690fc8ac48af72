ghost use Rattle.std.specs.Prelude.{◌≡◌, map, IfOk};
ghost use Rattle.std.specs.List.{list_any};
ghost use Rattle.ps_model.specs.Retention.{holds, gone_cause, lapsed, expired_mark, caught_up_as, released_mark};
ghost use Rattle.ps_sub.specs.Expunging.{is_behind, expunged_mark, is_expunged, is_moved, mark_by};
ghost use Rattle.ps_sub.specs.Steady.{IsAscending};

use crate::keys::KeysSoFar;
use crate::marks::is_same;
use crate::standing::{has_order, is_done, is_due, is_earlier, is_unacked};
use ps_base::OutOfMemory;
use ps_model::{DoneCause, GoneCause, Holds, Mark, Slot, SubConfig};
use std::alloc::Global;

/// Whether something still holds the message. As long as retention can't be set, everything is held.
fn is_held(now: u64, config: &SubConfig, held: &Holds, slot: &Slot, mark: Mark) -> bool
    ensures { result ≡ holds now config.now held.now (record { item = slot.now.item; mark = mark }) }
{
    true
}

fn gone_cause(cause: DoneCause) -> GoneCause
    ensures { result ≡ gone_cause cause }
{
    match cause {
        DoneCause::Acknowledged => GoneCause::Acknowledged,
        DoneCause::Dead => GoneCause::Dead,
    }
}

/// What becomes of a mark that nothing holds.
fn lapsed(mark: Mark) -> Mark
    ensures { result ≡ lapsed mark }
{
    let cause = match mark {
        Mark::Backlog { .. } | Mark::Leased { .. } => GoneCause::Expired,
        Mark::Ahead { .. } => GoneCause::Acknowledged,
        Mark::Done { cause } => gone_cause(cause),
        Mark::Gone { cause } => cause,
    };
    Mark::Gone { cause }
}

fn expired_mark(now: u64, config: &SubConfig, held: &Holds, slot: &Slot) -> Mark
    ensures { result ≡ expired_mark now config.now held.now slot.now }
{
    if is_done(slot.mark) || is_held(now, config, held, slot, slot.mark) {
        slot.mark
    } else {
        lapsed(slot.mark)
    }
}

/// Whether an earlier message of its key is held and unacknowledged.
#[tactic(auto, using(crate::proofs::OrderLemmas::any_earlier_none))]
fn is_behind(now: u64, config: &SubConfig, held: &Holds, slots: &[Slot], slot: &Slot) -> bool
    ensures { result ≡ is_behind now config.now held.now slots.now slot.now }
{
    has_order(config.ordering, slot)
        && slots.iter().any(|e| {
            is_earlier(config.ordering, e, slot) && is_unacked(expired_mark(now, config, held, e))
        })
}

/// The mark after the three parts of expunging: what isn't held lapses, what was ahead of no unacknowledged message catches
/// up, and what is done and isn't held lapses.
fn mark_after(now: u64, config: &SubConfig, held: &Holds, behind: bool, slot: &Slot) -> Mark
    ensures { result ≡ mark_by now config.now held.now behind slot.now }
{
    let expired = expired_mark(now, config, held, slot);
    let caught_up = match expired {
        Mark::Ahead { .. } if !behind => Mark::Done {
            cause: DoneCause::Acknowledged,
        },
        _ => expired,
    };
    if is_done(caught_up) && !is_held(now, config, held, slot, caught_up) {
        lapsed(caught_up)
    } else {
        caught_up
    }
}

/// The marks after expunging, found on one walk.
pub fn marks_after(
    alloc: Global,
    now: u64,
    config: &SubConfig,
    held: &Holds,
    slots: &[Slot],
) -> Result<Vec<Mark>, OutOfMemory>
    requires { IsAscending slots.now }
    ensures { IfOk result (λ marks. marks.items ≡ map (expunged_mark now config.now held.now slots.now) slots.now) }
{
    let mut keys = KeysSoFar::new(alloc);
    let mut marks = Vec::with_capacity(alloc, slots.len())?;
    for slot in slots {
        let stays = is_unacked(expired_mark(now, config, held, slot));
        let behind = keys.pass(alloc, config.ordering, slot, stays)?;
        marks.push(mark_after(now, config, held, behind, slot))?;
    }
    Ok(marks)
}

fn is_expunged(now: u64, config: &SubConfig, held: &Holds, slots: &[Slot], slot: &Slot) -> bool
    ensures { result ≡ is_expunged now config.now held.now slots.now slot.now }
{
    let behind = is_behind(now, config, held, slots, slot);
    !is_same(mark_after(now, config, held, behind, slot), slot.mark)
}

/// Whether the moment alone changes a mark.
pub fn any_moved(now: u64, config: &SubConfig, held: &Holds, slots: &[Slot]) -> bool
    ensures { result ≡ list_any (is_moved now config.now held.now slots.now) slots.now }
{
    slots.iter().any(|slot| is_due(now, slot) || is_expunged(now, config, held, slots, slot))
}
