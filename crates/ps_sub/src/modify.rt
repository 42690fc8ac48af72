ghost use Rattle.std.specs.Prelude.{◌≡◌, ◌≤◌, filter, filter_map, map, true, IfOk};
ghost use Rattle.ps_base.specs.Moments.{last_moment};
ghost use Rattle.ps_model.specs.Failing.{dead_letter};
ghost use Rattle.ps_model.specs.Modifying.{extended_by, modify_invalid};
ghost use Rattle.ps_sub.specs.Modifying.{HasItems, asked_for, gives_up, modified_mark};
ghost use Rattle.ps_sub.specs.Steady.{HasShortDelays, IsAscending};

use crate::fail;
use crate::keys::KeysSoFar;
use crate::tickets::{ack_lease, is_living, once};
use ps_base::{List, OutOfMemory};
use ps_model::{DeadLetter, Mark, Slot, SubConfig, Ticket};
use std::alloc::Global;
use std::collections::BTreeMap;

/// The seconds that one request asks for, by the numbers of the message and of the lease. Of several items for one lease the
/// last counts.
#[derive(Drop)]
pub struct Asked {
    pub seconds: BTreeMap<(u64, u64), u32>,
}

impl Asked {
    /// What these items ask for.
    pub fn of(alloc: Global, items: &[(Ticket, u32)]) -> Result<Asked, OutOfMemory>
        ensures { IfOk result (λ asked. HasItems items.now asked.seconds) }
    {
        let mut seconds = BTreeMap::new(alloc);
        for (ticket, asked) in items {
            seconds.insert((ticket.number, ticket.lease), *asked)?;
        }
        Ok(Asked { seconds })
    }

    /// The seconds for the lease under which this message is out.
    fn seconds_for(&self, slot: &Slot) -> Option<u32>
        ensures { result ≡ asked_for self.now.seconds slot.now }
    {
        match ack_lease(true, slot.mark) {
            Some(lease) => self.seconds.get(&(slot.item.number, lease)).copied(),
            None => None,
        }
    }

    /// Whether the lease of this message is given up.
    fn gives_up(&self, slot: &Slot) -> bool
        ensures { result ≡ gives_up self.now.seconds slot.now }
    {
        self.seconds_for(slot) == Some(0)
    }
}

/// The mark with the deadline that its lease gets.
fn extended(now: u64, mark: Mark, seconds: Option<u32>) -> Mark
    requires { now ≤ last_moment }
    ensures { result ≡ extended_by now mark seconds }
{
    match (mark, seconds) {
        (
            Mark::Leased {
                failures,
                lease,
                ..
            },
            Some(seconds),
        ) if seconds != 0 => Mark::Leased {
            failures,
            lease,
            deadline: now + 1000 * u64::from(seconds),
        },
        _ => mark,
    }
}

/// The marks after the deadlines are set and the leases that are given up have failed together, found on one walk.
pub fn marks_after(
    alloc: Global,
    now: u64,
    forward: bool,
    config: &SubConfig,
    asked: &Asked,
    slots: &[Slot],
) -> Result<Vec<Mark>, OutOfMemory>
    requires ascending { IsAscending slots.now }
    requires delays { HasShortDelays config.now }
    requires moment { now ≤ last_moment }
    ensures { IfOk result (λ marks. (items : _) → HasItems items asked.now.seconds → marks.items ≡ map (modified_mark now forward config.now items slots.now) slots.now) }
{
    let mut keys = KeysSoFar::new(alloc);
    let mut marks = Vec::with_capacity(alloc, slots.len())?;
    for slot in slots {
        let fails = asked.gives_up(slot);
        let behind = keys.pass(alloc, config.ordering, slot, fails)?;
        let mark = extended(now, slot.mark, asked.seconds_for(slot));
        marks.push(fail::mark_after(now, forward, config, fails, behind, mark))?;
    }
    Ok(marks)
}

/// The messages that have failed as often as the dead-letter policy allows when their leases are given up.
pub fn dead_letters(
    alloc: Global,
    forward: bool,
    config: &SubConfig,
    asked: &Asked,
    slots: &[Slot],
) -> Result<Vec<DeadLetter>, OutOfMemory>
    ensures { IfOk result (λ dead. dead.items ≡ filter_map (λ s. dead_letter (λ _. true) forward config.now s.mark s) (filter (gives_up asked.now.seconds) slots.now)) }
{
    let letters = slots
        .iter()
        .filter(|slot| asked.gives_up(slot))
        .filter_map(|slot| fail::letter_of(forward, config, slot))
        .collect(alloc)?;
    Ok(letters)
}

/// In exactly-once mode the tickets that don't name a living lease, each once.
pub fn invalid(
    alloc: Global,
    config: &SubConfig,
    slots: &[Slot],
    items: &[(Ticket, u32)],
) -> Result<List<Ticket>, OutOfMemory>
    requires { IsAscending slots.now }
    ensures { IfOk result (λ named. named ≡ modify_invalid config.now items.now slots.now) }
{
    if !config.exactly_once {
        return Ok(List::new(alloc));
    }
    let tickets = tickets_of(alloc, items)?;
    let kept = once(alloc, tickets.as_slice())?;
    let named = kept
        .into_iter()
        .filter(|ticket| !is_living(slots, *ticket))
        .collect(alloc)?;
    Ok(List::from_vec(named))
}

/// The tickets of the items, in order.
fn tickets_of(alloc: Global, items: &[(Ticket, u32)]) -> Result<Vec<Ticket>, OutOfMemory>
    ensures { IfOk result (λ tickets. tickets.items ≡ map (λ x. x.0) items.now) }
{
    let tickets = items.iter().map(|item| item.0).collect(alloc)?;
    Ok(tickets)
}
