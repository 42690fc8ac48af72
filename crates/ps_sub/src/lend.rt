ghost use Rattle.std.specs.Prelude.{◌≡◌, true};
ghost use Rattle.ps_model.specs.Choice.{leased_as, lent};
ghost use Rattle.ps_model.specs.Slots.{remark};
ghost use Rattle.ps_sub.specs.Lending.{is_drawn, first_lease, left_after};
ghost use Rattle.ps_sub.specs.Steady.{IsAscending};

use crate::standing::failures_of;
use ps_model::{Handed, Mark, Slot};

/// Leases the message if it is the first of these, and returns the rest of them.
fn lend_first<'a>(deadline: u64, given: &'a [Handed], slot: &mut Slot) -> &'a [Handed]
    ensures after { slot.new ≡ remark slot.old (leased_as deadline slot.old.mark (first_lease given.now slot.old.item.number)) }
    ensures left { result.now ≡ left_after given.now slot.old.item.number }
{
    match given {
        [first, left @ ..] if first.number == slot.item.number => {
            slot.mark = Mark::Leased {
                failures: failures_of(slot.mark),
                lease: first.lease,
                deadline,
            };
            left
        }
        _ => given,
    }
}

/// Leases each message that was handed out until the deadline.
pub fn lend(deadline: u64, given: &[Handed], slots: &mut [Slot])
    requires ascending { IsAscending slots.old }
    requires drawn { is_drawn given.now slots.old ≡ true }
    ensures { slots.new ≡ lent deadline given.now slots.old }
{
    let mut left = given;
    for slot in slots.iter_mut() {
        if left.is_empty() {
            break;
        }
        left = lend_first(deadline, left, slot);
    }
}
