ghost use Rattle.std.specs.Prelude.{◌≡◌, filter, map, true, IfOk, List, if◌then◌else◌};
ghost use Rattle.ps_model.specs.declared.mark.DoneCause.TheVariants.{Acknowledged};
ghost use Rattle.ps_model.specs.declared.mark.Mark.TheVariants.{Ahead, Done};
ghost use Rattle.ps_model.specs.declared.mark.Slot.{Slot};
ghost use Rattle.ps_model.specs.Acknowledging.{acknowledge, is_good, mark_after_ack, invalid, unordered};
ghost use Rattle.ps_model.specs.Slots.{failures_of};
ghost use Rattle.ps_sub.specs.Steady.{IsAscending};

use crate::keys::KeysSoFar;
use crate::standing::{failures_of, is_unacked};
use crate::tickets::{TicketSet, is_living, once};
use ps_base::{List, OutOfMemory};
use ps_model::{DoneCause, Mark, Slot, SubConfig, Ticket};
use std::alloc::Global;

/// The mark of a message after a request. `named` says that one of its tickets may acknowledge the message, `early` that an
/// earlier message of its key stays unacknowledged.
fn mark_after(exactly_once: bool, named: bool, early: bool, mark: Mark) -> Mark
    ensures { result ≡ (if named then (if early then (if exactly_once then mark else Ahead (failures_of mark)) else Done Acknowledged) else mark) }
{
    if !named {
        mark
    } else if !early {
        Mark::Done {
            cause: DoneCause::Acknowledged,
        }
    } else if exactly_once {
        mark
    } else {
        Mark::Ahead {
            failures: failures_of(mark),
        }
    }
}

/// The marks after these tickets are acknowledged together, found on one walk.
pub fn marks_after(
    alloc: Global,
    config: &SubConfig,
    tickets: &[Ticket],
    slots: &[Slot],
) -> Result<Vec<Mark>, OutOfMemory>
    requires { IsAscending slots.now }
    ensures { IfOk result (λ marks. marks.items ≡ map (mark_after_ack config.now tickets.now slots.now) slots.now) }
{
    let set = TicketSet::of(alloc, tickets)?;
    let mut keys = KeysSoFar::new(alloc);
    let mut marks = Vec::with_capacity(alloc, slots.len())?;
    for slot in slots {
        let named = set.names(config.exactly_once, slot);
        let stays = is_unacked(slot.mark) && !named;
        let early = keys.pass(alloc, config.ordering, slot, stays)?;
        marks.push(mark_after(config.exactly_once, named, early, slot.mark))?;
    }
    Ok(marks)
}

/// In exactly-once mode the tickets that don't name a living lease, each once.
pub fn invalid(
    alloc: Global,
    config: &SubConfig,
    slots: &[Slot],
    tickets: &[Ticket],
) -> Result<List<Ticket>, OutOfMemory>
    requires { IsAscending slots.now }
    ensures { IfOk result (λ named. named ≡ invalid config.now slots.now tickets.now) }
{
    if !config.exactly_once {
        return Ok(List::new(alloc));
    }
    let kept = once(alloc, tickets)?;
    let named = kept
        .into_iter()
        .filter(|ticket| !is_living(slots, *ticket))
        .collect(alloc)?;
    Ok(List::from_vec(named))
}

/// Those of the tickets that name a living lease.
fn living(alloc: Global, slots: &[Slot], tickets: Vec<Ticket>) -> Result<List<Ticket>, OutOfMemory>
    requires { IsAscending slots.now }
    ensures { IfOk result (λ named. named ≡ filter (is_good true slots.now) tickets.items) }
{
    let named = tickets
        .into_iter()
        .filter(|ticket| is_living(slots, *ticket))
        .collect(alloc)?;
    Ok(List::from_vec(named))
}

/// In exactly-once mode the tickets of messages whose turn hasn't come, each once: those of the request whose lease still
/// lives after it.
pub fn unordered(
    alloc: Global,
    config: &SubConfig,
    after: &[Slot],
    tickets: &[Ticket],
) -> Result<List<Ticket>, OutOfMemory>
    requires { IsAscending after.now }
    ensures { IfOk result (λ early. (slots : List Slot) → after.now ≡ acknowledge config.now tickets.now slots → early ≡ unordered config.now slots tickets.now) }
{
    if !config.exactly_once {
        return Ok(List::new(alloc));
    }
    living(alloc, after, once(alloc, tickets)?)
}
