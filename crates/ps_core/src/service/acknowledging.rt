ghost use Rattle.std.specs.Prelude.{◌≡◌, ◌≢◌, [], None, true, false, filter, map, nat_eq, not, ◌||◌, IfOk, OnOk, if◌then◌else◌};
ghost use Rattle.std.specs.BTreeSet.{contains};
ghost use Rattle.std.specs.List.{AllByRecursion};
ghost use Rattle.ps_model.specs.declared.command.Command.TheVariants.{Acknowledge, ModifyAckDeadline};
ghost use Rattle.ps_model.specs.declared.reply.Reply.TheVariants.{Acked, Modified};
ghost use Rattle.ps_model.specs.Answering.{invalid_ids, same_id, ticket_of, unordered_ids};
ghost use Rattle.ps_model.specs.Checks.{argument_fault};
ghost use Rattle.ps_model.specs.Lists.{once};
ghost use Rattle.ps_model.specs.Slots.{is_gone};
ghost use Rattle.ps_sub.specs.Tickets.{pair_cmp, pair_of};
ghost use Rattle.ps_core.specs.Delivering.{NotBefore, is_named, is_unknown, item_of, items_of, modified_ids, tickets_of};
ghost use Rattle.ps_core.specs.Effects.{ack_subscription, caught_up_subscription, modify_subscription};
ghost use Rattle.ps_core.specs.State.{sub_row};
ghost use Rattle.ps_core.specs.Steady.{IsCaughtUp};

use crate::service::outcome::Outcome;
use crate::service::{Core, give_up};
use ps_base::{AckId, List, Moment, OutOfMemory};
use ps_model::{Holds, Reply, Ticket};
use ps_names::SubName;
use ps_sub::TicketSet;
use ps_tables::KeptSubscription;
use std::alloc::Global;
use std::collections::BTreeSet;

/// What became of the ids of one request.
#[derive(Drop)]
struct Returned {
    /// Whether a mark changed.
    changed: bool,
    /// Whether the subscription is in exactly-once mode. Only then the two lists name ids.
    exactly_once: bool,
    invalid: List<AckId>,
    unordered: List<AckId>,
}

impl Core {
    ghost use Rattle.ps_core.specs.Carrying.{CanRecord, IsCarried};

    /// Acknowledges messages of a subscription (API reference, Subscriber.Acknowledge).
    pub(super) fn acknowledge(
        &mut self,
        alloc: Global,
        at: Moment,
        name: &SubName,
        ids: &[AckId],
    ) -> Result<Outcome, OutOfMemory>
        requires can { CanRecord at self.old }
        requires some { ids.now ≢ [] }
        ensures { IfOk result (λ outcome. IsCarried at (Acknowledge name.now ids.now) self.old self.new outcome.reply outcome.changed) }
    {
        let Some(number) = self.tables.subscription_numbers.find(name.text()) else {
            return Outcome::missing(alloc, name.text());
        };
        let Some(subscription) = self.tables.subscriptions.get_mut(&number) else {
            // Never reached: each name has the number of a subscription.
            return Outcome::missing(alloc, name.text());
        };
        let returned = match take_back(alloc, at, ids, subscription) {
            Ok(returned) => returned,
            Err(error) => return Err(give_up(&mut self.tables, alloc, error)),
        };
        let changed = returned.changed;
        if changed {
            self.clock = at.milliseconds();
            self.count += 1;
        }
        Ok(Outcome {
            reply: acked(returned),
            changed,
        })
    }

    /// Changes the deadlines of messages of a subscription, or gives their leases up (API reference,
    /// Subscriber.ModifyAckDeadline).
    pub(super) fn modify(
        &mut self,
        alloc: Global,
        at: Moment,
        name: &SubName,
        items: &[(AckId, u32)],
    ) -> Result<Outcome, OutOfMemory>
        requires can { CanRecord at self.old }
        requires good { argument_fault (ModifyAckDeadline name.now items.now) ≡ None }
        ensures { IfOk result (λ outcome. IsCarried at (ModifyAckDeadline name.now items.now) self.old self.new outcome.reply outcome.changed) }
    {
        let Some(number) = self.tables.subscription_numbers.find(name.text()) else {
            return Outcome::missing(alloc, name.text());
        };
        let Some(subscription) = self.tables.subscriptions.get_mut(&number) else {
            // Never reached: each name has the number of a subscription.
            return Outcome::missing(alloc, name.text());
        };
        let returned = match set_deadlines(alloc, at, items, subscription) {
            Ok(returned) => returned,
            Err(error) => return Err(give_up(&mut self.tables, alloc, error)),
        };
        let changed = returned.changed;
        if changed {
            // Written here and not by `record`, which asks for a state that is already consistent: these deadlines are part
            // of this entry.
            self.clock = at.milliseconds();
            self.count += 1;
            self.next_end = self.next_end.min(first_of(at, items));
        }
        Ok(Outcome {
            reply: modified(returned),
            changed,
        })
    }
}

/// The answer to an acknowledgement.
fn acked(returned: Returned) -> Reply
    ensures { result ≡ Acked returned.exactly_once returned.invalid returned.unordered }
{
    let Returned {
        exactly_once,
        invalid,
        unordered,
        ..
    } = returned;
    Reply::Acked {
        exactly_once,
        invalid,
        unordered,
    }
}

/// The answer to a change of deadlines.
fn modified(returned: Returned) -> Reply
    ensures { result ≡ Modified returned.exactly_once returned.invalid }
{
    let Returned {
        exactly_once,
        invalid,
        ..
    } = returned;
    Reply::Modified {
        exactly_once,
        invalid,
    }
}

/// Acknowledges the leases that the ids name on one subscription, and tells which ids failed.
fn take_back(
    alloc: Global,
    at: Moment,
    ids: &[AckId],
    subscription: &mut KeptSubscription,
) -> Result<Returned, OutOfMemory>
    requires here { AllByRecursion (λ s. is_gone s.mark ≡ false) subscription.old.sub.slots }
    requires caught { IsCaughtUp subscription.old.sub.config.ordering subscription.old.sub.slots }
    ensures after { OnOk result (subscription.new ≡ ack_subscription (tickets_of subscription.old.number ids.now) subscription.old) }
    ensures same { IfOk result (λ returned. returned.changed ≡ false → subscription.new.sub.slots ≡ subscription.old.sub.slots) }
    ensures changed { IfOk result (λ returned. returned.changed ≡ true → subscription.new.sub.slots ≢ subscription.old.sub.slots) }
    ensures mode { IfOk result (λ returned. returned.exactly_once ≡ subscription.old.sub.config.exactly_once) }
    ensures invalid { IfOk result (λ returned. returned.invalid ≡ invalid_ids (sub_row subscription.old) subscription.old.sub.slots ids.now) }
    ensures unordered { IfOk result (λ returned. returned.unordered ≡ unordered_ids (sub_row subscription.old) subscription.old.sub.slots ids.now) }
{
    let number = subscription.number;
    let exactly_once = subscription.sub.config().exactly_once;
    let tickets = tickets_of(alloc, number, ids)?;
    let outcome = subscription.sub.acknowledge(alloc, tickets.as_slice())?;
    if outcome.changed {
        catch_up(alloc, at, subscription)?;
    }
    Ok(Returned {
        changed: outcome.changed,
        exactly_once,
        invalid: unknown_ids(alloc, exactly_once, number, ids, outcome.invalid.as_slice())?,
        unordered: named_ids(
            alloc,
            exactly_once,
            number,
            ids,
            outcome.unordered.as_slice(),
        )?,
    })
}

/// Lets messages that were acknowledged ahead of an earlier one of their key catch up with it. On a subscription that isn't
/// ordered none is ahead.
fn catch_up(
    alloc: Global,
    at: Moment,
    subscription: &mut KeptSubscription,
) -> Result<(), OutOfMemory>
    requires here { AllByRecursion (λ s. is_gone s.mark ≡ false) subscription.old.sub.slots }
    requires caught { subscription.old.sub.config.ordering ≡ false → IsCaughtUp false subscription.old.sub.slots }
    ensures { OnOk result (subscription.new ≡ caught_up_subscription subscription.old) }
{
    if !subscription.sub.config().ordering {
        return Ok(());
    }
    let holds = Holds {
        topic_window: None,
        snapshots: List::new(alloc),
    };
    subscription.sub.expunge(alloc, at.milliseconds(), &holds)
}

/// Sets the deadlines of leases of one subscription or gives them up, and tells which ids failed.
fn set_deadlines(
    alloc: Global,
    at: Moment,
    items: &[(AckId, u32)],
    subscription: &mut KeptSubscription,
) -> Result<Returned, OutOfMemory>
    ensures after { OnOk result (subscription.new ≡ modify_subscription at (items_of subscription.old.number items.now) subscription.old) }
    ensures same { IfOk result (λ returned. returned.changed ≡ false → subscription.new.sub.slots ≡ subscription.old.sub.slots) }
    ensures changed { IfOk result (λ returned. returned.changed ≡ true → subscription.new.sub.slots ≢ subscription.old.sub.slots) }
    ensures mode { IfOk result (λ returned. returned.exactly_once ≡ subscription.old.sub.config.exactly_once) }
    ensures invalid { IfOk result (λ returned. returned.invalid ≡ modified_ids subscription.old items.now) }
{
    let number = subscription.number;
    let exactly_once = subscription.sub.config().exactly_once;
    let own = items_of(alloc, number, items)?;
    let now = at.milliseconds();
    let outcome = subscription.sub.modify(alloc, now, own.as_slice(), false)?;
    let ids = ids_of(alloc, items)?;
    let named = outcome.invalid.as_slice();
    Ok(Returned {
        changed: outcome.changed,
        exactly_once,
        invalid: unknown_ids(alloc, exactly_once, number, ids.as_slice(), named)?,
        unordered: List::new(alloc),
    })
}

/// The leases that the ids name on the subscription with this number, in order.
fn tickets_of(alloc: Global, sub: u64, ids: &[AckId]) -> Result<Vec<Ticket>, OutOfMemory>
    ensures { IfOk result (λ tickets. tickets.items ≡ tickets_of sub ids.now) }
{
    let tickets = ids
        .iter()
        .filter(|id| id.sub == sub)
        .map(|id| ticket_of(id))
        .collect(alloc)?;
    Ok(tickets)
}

fn ticket_of(id: &AckId) -> Ticket
    ensures { result ≡ ticket_of id.now }
{
    Ticket {
        number: id.message,
        lease: id.lease,
    }
}

/// The items for leases of the subscription with this number, in order.
fn items_of(
    alloc: Global,
    sub: u64,
    items: &[(AckId, u32)],
) -> Result<Vec<(Ticket, u32)>, OutOfMemory>
    ensures { IfOk result (λ own. own.items ≡ items_of sub items.now) }
{
    let own = items
        .iter()
        .filter(|item| item.0.sub == sub)
        .map(|item| item_of(item))
        .collect(alloc)?;
    Ok(own)
}

fn item_of(item: &(AckId, u32)) -> (Ticket, u32)
    ensures { result ≡ item_of item.now }
{
    (ticket_of(&item.0), item.1)
}

/// The ids of the items, in order.
fn ids_of(alloc: Global, items: &[(AckId, u32)]) -> Result<Vec<AckId>, OutOfMemory>
    ensures { IfOk result (λ ids. ids.items ≡ map (λ x. x.0) items.now) }
{
    let ids = items.iter().map(|item| item.0).collect(alloc)?;
    Ok(ids)
}

/// In exactly-once mode the ids of other subscriptions and those of these leases, each once.
fn unknown_ids(
    alloc: Global,
    exactly_once: bool,
    sub: u64,
    ids: &[AckId],
    named: &[Ticket],
) -> Result<List<AckId>, OutOfMemory>
    ensures { IfOk result (λ told. told ≡ (if exactly_once then filter (is_unknown sub named.now) (once same_id ids.now) else [])) }
{
    if !exactly_once {
        return Ok(List::new(alloc));
    }
    let set = TicketSet::of(alloc, named)?;
    let told = once(alloc, ids)?
        .into_iter()
        .filter(|id| is_unknown(sub, &set, id))
        .collect(alloc)?;
    Ok(List::from_vec(told))
}

/// Whether the id names another subscription or one of these leases.
fn is_unknown(sub: u64, named: &TicketSet, id: &AckId) -> bool
    ensures { result ≡ (not (nat_eq id.now.sub sub) || contains pair_cmp named.now.pairs (pair_of (ticket_of id.now))) }
{
    id.sub != sub || named.has(ticket_of(id))
}

/// In exactly-once mode the ids of these leases of the subscription with this number, each once.
fn named_ids(
    alloc: Global,
    exactly_once: bool,
    sub: u64,
    ids: &[AckId],
    named: &[Ticket],
) -> Result<List<AckId>, OutOfMemory>
    ensures { IfOk result (λ told. told ≡ (if exactly_once then filter (is_named sub named.now) (once same_id ids.now) else [])) }
{
    if !exactly_once {
        return Ok(List::new(alloc));
    }
    let set = TicketSet::of(alloc, named)?;
    let told = once(alloc, ids)?
        .into_iter()
        .filter(|id| id.sub == sub && set.has(ticket_of(id)))
        .collect(alloc)?;
    Ok(List::from_vec(told))
}

/// Each id once, at its first place.
fn once(alloc: Global, ids: &[AckId]) -> Result<Vec<AckId>, OutOfMemory>
    ensures { IfOk result (λ kept. kept.items ≡ once same_id ids.now) }
{
    let mut seen = BTreeSet::new(alloc);
    let mut kept: Vec<AckId> = Vec::new(alloc);
    for id in ids {
        if seen.insert((id.sub, (id.message, id.lease)))? {
            kept.push(*id)?;
        }
    }
    Ok(kept)
}

/// A moment before which none of the deadlines ends that the items set.
fn first_of(at: Moment, items: &[(AckId, u32)]) -> u64
    ensures { AllByRecursion (NotBefore result at) items.now }
{
    let mut first = u64::MAX;
    for (_, seconds) in items {
        if *seconds != 0 {
            first = first.min(at.milliseconds() + 1000 * u64::from(*seconds));
        }
    }
    first
}
