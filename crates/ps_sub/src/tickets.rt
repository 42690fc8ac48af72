ghost use Rattle.std.specs.Prelude.{◌≡◌, ◌&&◌, IfOk, nat_eq, Bool, true, false};
ghost use Rattle.std.specs.List.{list_any};
ghost use Rattle.std.specs.Option.{option_map_or};
ghost use Rattle.ps_model.specs.declared.mark.Slot.{Slot};
ghost use Rattle.ps_model.specs.Acknowledging.{is_good, is_named, same_ticket};
ghost use Rattle.ps_model.specs.Lists.{once};
ghost use Rattle.ps_model.specs.Modifying.{names};
ghost use Rattle.ps_model.specs.Slots.{is_out};
ghost use Rattle.ps_sub.specs.Steady.{IsAscending};
ghost use Rattle.std.specs.BTreeSet.{contains};
ghost use Rattle.ps_sub.specs.Tickets.{HasTickets, ack_lease, pair_cmp, pair_of};

use ps_base::OutOfMemory;
use ps_model::{Mark, Slot, Ticket};
use std::alloc::Global;
use std::collections::BTreeSet;

/// Tickets by their numbers: of the message, then of the lease.
#[derive(Drop)]
pub struct TicketSet {
    pub pairs: BTreeSet<(u64, u64)>,
}

impl TicketSet {
    /// The tickets of one request.
    pub fn of(alloc: Global, tickets: &[Ticket]) -> Result<TicketSet, OutOfMemory>
        ensures { IfOk result (λ set. HasTickets tickets.now set.pairs) }
    {
        let mut pairs = BTreeSet::new(alloc);
        for ticket in tickets {
            pairs.insert((ticket.number, ticket.lease))?;
        }
        Ok(TicketSet { pairs })
    }

    /// Whether this ticket is one of them.
    pub fn has(&self, ticket: Ticket) -> bool
        ensures { result ≡ contains pair_cmp self.now.pairs (pair_of ticket) }
    {
        self.pairs.contains(&(ticket.number, ticket.lease))
    }

    /// Whether a ticket names the lease that may acknowledge this message.
    pub(crate) fn names(&self, exactly_once: bool, slot: &Slot) -> bool
        ensures { (tickets : _) → HasTickets tickets self.now.pairs → result ≡ is_named exactly_once tickets slot.now }
    {
        match ack_lease(exactly_once, slot.mark) {
            Some(lease) => self.pairs.contains(&(slot.item.number, lease)),
            None => false,
        }
    }
}

/// The lease that may acknowledge a message: the one under which it is out, or the last one outside exactly-once mode.
pub fn ack_lease(exactly_once: bool, mark: Mark) -> Option<u64>
    ensures { result ≡ ack_lease exactly_once mark }
{
    match mark {
        Mark::Leased { lease, .. } => Some(lease),
        Mark::Backlog { last, .. } if !exactly_once => last,
        _ => None,
    }
}

/// Each ticket once, at its first place.
pub fn once(alloc: Global, tickets: &[Ticket]) -> Result<Vec<Ticket>, OutOfMemory>
    ensures { IfOk result (λ kept. kept.items ≡ once same_ticket tickets.now) }
{
    let mut seen = BTreeSet::new(alloc);
    let mut kept: Vec<Ticket> = Vec::new(alloc);
    for ticket in tickets {
        if seen.insert((ticket.number, ticket.lease))? {
            kept.push(*ticket)?;
        }
    }
    Ok(kept)
}

/// The message with this number.
pub fn slot_of(slots: &[Slot], number: u64) -> Option<&Slot>
    requires { IsAscending slots.now }
    ensures { (test : Slot → Bool) → list_any (λ s. nat_eq s.item.number number && test s) slots.now ≡ option_map_or (λ s. test s.now) result false }
{
    match slots.binary_search_by_key(&number, |slot| slot.item.number) {
        Ok(at) => Some(&slots[at]),
        Err(_) => None,
    }
}

/// Whether the ticket names a lease under which a message is out.
pub fn is_living(slots: &[Slot], ticket: Ticket) -> bool
    requires { IsAscending slots.now }
    ensures acknowledges { result ≡ is_good true slots.now ticket }
    ensures names { result ≡ list_any (names ticket) slots.now }
{
    match slot_of(slots, ticket.number) {
        Some(slot) => is_out(ticket.lease, slot.mark),
        None => false,
    }
}

/// Whether the message is out under this lease.
fn is_out(lease: u64, mark: Mark) -> bool
    ensures { result ≡ is_out lease mark }
{
    match mark {
        Mark::Leased { lease: held, .. } => held == lease,
        _ => false,
    }
}
