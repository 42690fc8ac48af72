ghost use Rattle.std.specs.Prelude.{◌≡◌, ◌+◌, ◌<◌, ◌^◌, ◌≤◌, IfOk, length};
ghost use Rattle.ps_model.specs.Choice.{choice, handed};
ghost use Rattle.ps_sub.specs.Steady.{IsAscending};

use crate::keys::KeysSoFar;
use crate::standing::{failures_of, is_deliverable, is_waiting};
use ps_base::{List, OutOfMemory};
use ps_model::{Handed, Slot};
use std::alloc::Global;

/// The first deliverable messages, at most `max`, found on one walk. They end before a message if the bytes chosen so far reach the
/// budget. The leases are numbered from `lease`.
pub fn choose(
    alloc: Global,
    now: u64,
    ordering: bool,
    max: u32,
    budget: u64,
    lease: u64,
    slots: &[Slot],
) -> Result<List<Handed>, OutOfMemory>
    requires ascending { IsAscending slots.now }
    requires leases { lease + max < 2 ^ 64 }
    ensures few { IfOk result (λ given. length given ≤ max) }
    ensures value { IfOk result (λ given. given ≡ handed lease (choice now ordering max budget slots.now)) }
{
    let mut keys = KeysSoFar::new(alloc);
    let mut given = List::new(alloc);
    let mut left = max;
    let mut bytes = budget;
    let mut next = lease;
    for slot in slots {
        if left == 0 || bytes == 0 {
            break;
        }
        let held_back = keys.pass(alloc, ordering, slot, is_waiting(now, slot.mark))?;
        if is_deliverable(now, held_back, slot.mark) {
            given.push(Handed {
                number: slot.item.number,
                lease: next,
                failures: failures_of(slot.mark),
            })?;
            left -= 1;
            next += 1;
            bytes = bytes.saturating_sub(slot.item.size);
        }
    }
    Ok(given)
}
