ghost use Rattle.std.specs.Prelude.{◌≡◌, ◌≢◌, ◌↔◌, ◌+◌, ◌*◌, ◌^◌, ◌<◌, ◌≤◌, ◌++◌, ◌∷◌, [], Bool, true, false, IsTrue, IfOk, OnOk, None, length, nat_le, ℕ};
ghost use Rattle.std.specs.List.{AllByRecursion, list_any};
ghost use Rattle.std.specs.Option.{option_map_or};
ghost use Rattle.ps_base.specs.Moments.{last_moment};
ghost use Rattle.ps_model.specs.Acknowledging.{acknowledge as acknowledged, invalid, unordered};
ghost use Rattle.ps_model.specs.Checks.{new_sub_fault};
ghost use Rattle.ps_model.specs.Choice.{choice, deliverable, handed, lent};
ghost use Rattle.ps_model.specs.Counting.{is_acknowledged, is_dead_lettered};
ghost use Rattle.ps_model.specs.Failing.{fail, dead_letters, is_due};
ghost use Rattle.ps_model.specs.Lists.{tally};
ghost use Rattle.ps_model.specs.Modifying.{modify, modify_dead, modify_invalid};
ghost use Rattle.ps_model.specs.Retention.{expunge};
ghost use Rattle.ps_model.specs.Slots.{is_backlog, is_leased};
ghost use Rattle.ps_sub.specs.Entering.{EndsBy, WasLent, IsInOrder};
ghost use Rattle.ps_sub.specs.Expunging.{settled};
ghost use Rattle.ps_sub.specs.Marks.{live};
ghost use Rattle.ps_sub.specs.Steady.{HasLeasedFirst};
ghost use Rattle.ps_sub.specs.Showing.{unacknowledged, marks, first_deadline, has, total_of};

use crate::choose::choose;
use crate::lend::lend;
use crate::marks::{drop_gone, push_live};
use crate::modify::Asked;
use crate::outcome::{AckOutcome, ModifyOutcome, SubCounts};
use crate::{acknowledge, fail, marks, modify, retention, showing};
use ps_base::{Duplicate, List, OutOfMemory};
use ps_model::{DeadLetter, Handed, Holds, Item, Mark, Slot, SubConfig, Ticket};
use std::alloc::Global;
use std::marker::Model;

/// One subscription: its messages, each with its mark, its settings, and the number of the next lease. It keeps the
/// number, the moment, the key and the size of a message, and never the payload. It keeps no marks that are gone.
///
/// Moments are in milliseconds since 1970. `OutOfMemory` is the only error. After it, drop the subscription: its state
/// is unspecified.
///
/// An acknowledgement, a change of deadlines, failing and expunging are one walk through the messages each, and a look-up of
/// each ticket. On the walk an ordered subscription keeps the keys that it met.
///
/// The core doesn't call `unacknowledged` and `is_due` yet. They are for snapshots and retention.
#[derive(Drop)]
pub struct Sub {
    slots: Vec<Slot>,
    config: SubConfig,
    next_lease: u64,
}

impl Model for Sub {
    ghost use Rattle.ps_sub.specs.SubState.{SubState};
    ghost use Rattle.ps_sub.specs.Steady.{IsSteady};

    ghost Value = { SubState };

    ghost view = { λ it. record { slots = it.slots.items; config = it.config; next_lease = it.next_lease } };

    ghost invariant = { λ it. IsSteady it.slots.items it.config };
}

impl Sub {
    /// A subscription without messages. A new one begins with lease 1, one that is read again with the number that it
    /// had (Pub/Sub documentation, "Create subscriptions").
    pub fn new(alloc: Global, config: &SubConfig, next_lease: u64) -> Result<Sub, OutOfMemory>
        requires settings { new_sub_fault config.now ≡ None }
        requires leases { next_lease ≤ 2 ^ 61 }
        ensures { IfOk result (λ made. made ≡ record { slots = []; config = config.now; next_lease = next_lease }) }
    {
        Ok(Sub {
            slots: Vec::new(alloc),
            config: config.copy(alloc)?,
            next_lease,
        })
    }

    /// Adds a message behind all others, with this mark. A published message waits in the backlog (Pub/Sub
    /// documentation, "Subscription overview"). A message that is gone isn't kept.
    pub fn enter(&mut self, item: Item, mark: Mark) -> Result<(), OutOfMemory>
        requires number { AllByRecursion (λ s. s.item.number < item.number) self.old.slots }
        requires publish { AllByRecursion (λ s. s.item.publish ≤ item.publish) self.old.slots }
        requires moment { item.publish ≤ last_moment }
        requires size { item.size ≤ 2 ^ 40 }
        requires ends { EndsBy (last_moment + 600000) mark }
        requires lent { WasLent self.old.next_lease mark }
        requires order { IsInOrder self.old.config.ordering self.old.slots item mark }
        ensures { OnOk result (self.new ≡ record self.old { slots = self.old.slots ++ live (record { item = item; mark = mark } ∷ []) }) }
    {
        push_live(&mut self.slots, Slot { item, mark })
    }

    /// Hands out the first messages that are deliverable at this moment, in order of number. It hands out at most `max`,
    /// and stops before a message if the bytes so far reach the budget. Each gets the next lease, for so many seconds.
    /// On an ordered subscription a message waits for the earlier ones of its key (Pub/Sub documentation, "Pull
    /// subscriptions", "Lease management" and "Order messages").
    pub fn pull(
        &mut self,
        alloc: Global,
        now: u64,
        max: u32,
        budget: u64,
        seconds: u32,
    ) -> Result<List<Handed>, OutOfMemory>
        requires moment { now ≤ last_moment }
        requires most { max ≤ 1000 }
        requires seconds { seconds ≤ 600 }
        requires leases { self.old.next_lease ≤ 2 ^ 61 }
        ensures given { IfOk result (λ given. given ≡ handed self.old.next_lease (choice now self.old.config.ordering max budget self.old.slots)) }
        ensures empty { IfOk result (λ given. 0 < max → 0 < budget → (given ≡ []) ↔ (deliverable now self.old.config.ordering self.old.slots ≡ [])) }
        ensures after { IfOk result (λ given. self.new ≡ record self.old { slots = lent (now + 1000 * seconds) given self.old.slots; next_lease = self.old.next_lease + length given }) }
    {
        let given = choose(
            alloc,
            now,
            self.config.ordering,
            max,
            budget,
            self.next_lease,
            self.slots.as_slice(),
        )?;
        let deadline = now + 1000 * u64::from(seconds);
        lend(deadline, given.as_slice(), self.slots.as_mut_slice());
        self.next_lease += given.len() as u64;
        Ok(given)
    }

    /// Acknowledges the messages of these tickets together. Outside exactly-once mode the last lease of a message counts
    /// even after its end, and other tickets have no effect. In exactly-once mode only a living lease counts, and the
    /// result names each ticket that failed (Pub/Sub documentation, "Exactly-once delivery" and "Order messages").
    pub fn acknowledge(
        &mut self,
        alloc: Global,
        tickets: &[Ticket],
    ) -> Result<AckOutcome, OutOfMemory>
        ensures after { OnOk result (self.new ≡ record self.old { slots = acknowledged self.old.config tickets.now self.old.slots }) }
        ensures same { IfOk result (λ outcome. outcome.changed ≡ false → self.new.slots ≡ self.old.slots) }
        ensures changed { IfOk result (λ outcome. outcome.changed ≡ true → self.new.slots ≢ self.old.slots) }
        ensures invalid { IfOk result (λ outcome. outcome.invalid ≡ invalid self.old.config self.old.slots tickets.now) }
        ensures unordered { IfOk result (λ outcome. outcome.unordered ≡ unordered self.old.config self.old.slots tickets.now) }
    {
        let slots = self.slots.as_slice();
        let invalid = acknowledge::invalid(alloc, &self.config, slots, tickets)?;
        let made = acknowledge::marks_after(alloc, &self.config, tickets, slots)?;
        let changed = marks::write_marks(self.slots.as_mut_slice(), made.as_slice());
        let after = self.slots.as_slice();
        let unordered = acknowledge::unordered(alloc, &self.config, after, tickets)?;
        Ok(AckOutcome {
            changed,
            invalid,
            unordered,
        })
    }

    /// Changes deadlines together: each lease ends so many seconds from now, and with 0 seconds it fails at once. Of several
    /// items for one lease the last counts. Items for other leases have no effect; in exactly-once mode the result names
    /// them. `forward` is as for `settle` (Pub/Sub documentation, "Lease management"; API reference, ModifyAckDeadline).
    pub fn modify(
        &mut self,
        alloc: Global,
        now: u64,
        items: &[(Ticket, u32)],
        forward: bool,
    ) -> Result<ModifyOutcome, OutOfMemory>
        requires moment { now ≤ last_moment }
        ensures after { OnOk result (self.new ≡ record self.old { slots = modify now forward self.old.config items.now self.old.slots }) }
        ensures same { IfOk result (λ outcome. outcome.changed ≡ false → self.new.slots ≡ self.old.slots) }
        ensures changed { IfOk result (λ outcome. outcome.changed ≡ true → self.new.slots ≢ self.old.slots) }
        ensures invalid { IfOk result (λ outcome. outcome.invalid ≡ modify_invalid self.old.config items.now self.old.slots) }
        ensures dead { IfOk result (λ outcome. outcome.dead ≡ modify_dead now forward self.old.config items.now self.old.slots) }
    {
        let slots = self.slots.as_slice();
        let asked = Asked::of(alloc, items)?;
        let invalid = modify::invalid(alloc, &self.config, slots, items)?;
        let dead = modify::dead_letters(alloc, forward, &self.config, &asked, slots)?;
        let made = modify::marks_after(alloc, now, forward, &self.config, &asked, slots)?;
        let changed = marks::write_marks(self.slots.as_mut_slice(), made.as_slice());
        Ok(ModifyOutcome {
            changed,
            invalid,
            dead: List::from_vec(dead),
        })
    }

    /// Lets the leases that are over at this moment fail together. A message goes back into the backlog, with the delay
    /// of the retry policy. It becomes a dead letter if it has failed as often as the dead-letter policy allows and
    /// `forward` says that the policy's topic exists. Returns the dead letters, in order of number (Pub/Sub
    /// documentation, "Handle message failures" and "Dead-letter topics").
    pub fn settle(
        &mut self,
        alloc: Global,
        now: u64,
        forward: bool,
    ) -> Result<List<DeadLetter>, OutOfMemory>
        requires moment { now ≤ last_moment }
        ensures after { OnOk result (self.new ≡ record self.old { slots = fail (is_due now) now forward self.old.config self.old.slots }) }
        ensures dead { IfOk result (λ dead. dead ≡ dead_letters (is_due now) forward self.old.config self.old.slots) }
    {
        let slots = self.slots.as_slice();
        if !fail::any_due(now, slots) {
            return Ok(List::new(alloc));
        }
        let dead = fail::dead_letters(alloc, now, forward, &self.config, slots)?;
        let made = fail::marks_after(alloc, now, forward, &self.config, slots)?;
        marks::write_marks(self.slots.as_mut_slice(), made.as_slice());
        Ok(List::from_vec(dead))
    }

    /// Removes messages that nothing holds any more. A message that was acknowledged ahead of an earlier one of its key
    /// is done once that one is acknowledged too (Pub/Sub documentation, "Replay and purge messages with Seek" and
    /// "Topic message retention").
    pub fn expunge(&mut self, alloc: Global, now: u64, holds: &Holds) -> Result<(), OutOfMemory>
        ensures { OnOk result (self.new ≡ record self.old { slots = live (expunge now self.old.config holds.now self.old.slots) }) }
    {
        let slots = self.slots.as_slice();
        let made = retention::marks_after(alloc, now, &self.config, holds, slots)?;
        marks::write_marks(self.slots.as_mut_slice(), made.as_slice());
        drop_gone(&mut self.slots);
        Ok(())
    }

    /// The numbers of the messages that aren't acknowledged yet, ascending. A snapshot holds these (Pub/Sub
    /// documentation, "Replay and purge messages with Seek"). On an ordered subscription those of a key that are leased come
    /// before those in the backlog ("Order messages").
    pub fn unacknowledged(&self, alloc: Global) -> Result<List<u64>, OutOfMemory>
        ensures numbers { IfOk result (λ numbers. numbers ≡ unacknowledged self.now.slots) }
        ensures leased_first { HasLeasedFirst self.now.config.ordering self.now.slots }
    {
        let numbers = showing::unacknowledged(alloc, self.slots.as_slice())?;
        Ok(List::from_vec(numbers))
    }

    /// The number and the mark of each message, in order of number.
    pub fn marks(&self, alloc: Global) -> Result<List<(u64, Mark)>, OutOfMemory>
        ensures { IfOk result (λ shown. shown ≡ marks self.now.slots) }
    {
        let shown = showing::marks(alloc, self.slots.as_slice())?;
        Ok(List::from_vec(shown))
    }

    /// Changes the settings, except whether the subscription is ordered (API reference, UpdateSubscription).
    pub fn configure(&mut self, alloc: Global, config: &SubConfig) -> Result<(), OutOfMemory>
        requires settings { new_sub_fault config.now ≡ None }
        requires ordering { config.now.ordering ≡ self.old.config.ordering }
        ensures { OnOk result (self.new ≡ record self.old { config = config.now }) }
    {
        self.config = config.copy(alloc)?;
        Ok(())
    }

    /// Drops all messages, and returns whether there was one (API reference, DetachSubscription).
    pub fn drop_all(&mut self) -> bool
        ensures after { self.new ≡ record self.old { slots = [] } }
        ensures dropped { IsTrue result ↔ (self.old.slots ≢ []) }
    {
        let dropped = !self.slots.is_empty();
        self.slots.clear();
        dropped
    }

    /// Whether the moment alone changes a mark: a lease is over, nothing holds a message any more, or a message that was
    /// acknowledged ahead of its turn has caught up.
    pub fn is_due(&self, now: u64, holds: &Holds) -> bool
        ensures rest { result ≡ false → (forward : Bool) → settled now forward self.now.config holds.now self.now.slots ≡ self.now.slots }
        ensures due { result ≡ true → (forward : Bool) → settled now forward self.now.config holds.now self.now.slots ≢ self.now.slots }
    {
        retention::any_moved(now, &self.config, holds, self.slots.as_slice())
    }

    /// When the first lease ends, or ended if it hasn't failed yet. None if no message is out.
    pub fn first_deadline(&self) -> Option<u64>
        ensures value { result ≡ first_deadline self.now.slots }
        ensures due { (t : ℕ) → list_any (is_due t) self.now.slots ≡ option_map_or (λ deadline. nat_le deadline t) result false }
    {
        showing::first_deadline(self.slots.as_slice())
    }

    /// The settings.
    pub fn config(&self) -> &SubConfig
        ensures { result.now ≡ self.now.config }
    {
        &self.config
    }

    /// The number of the next lease.
    pub fn next_lease(&self) -> u64
        ensures { result ≡ self.now.next_lease }
    {
        self.next_lease
    }

    /// Whether the message has a mark here.
    pub fn has(&self, number: u64) -> bool
        ensures { result ≡ has self.now.slots number }
    {
        self.slots.iter().any(|slot| slot.item.number == number)
    }

    /// How many messages wait, are out, are acknowledged (in turn or ahead of it) and are dead letters.
    pub fn counts(&self) -> SubCounts
        ensures backlog { result.backlog ≡ tally (λ s. is_backlog s.mark) self.now.slots }
        ensures leased { result.leased ≡ tally (λ s. is_leased s.mark) self.now.slots }
        ensures acknowledged { result.acknowledged ≡ tally (λ s. is_acknowledged s.mark) self.now.slots }
        ensures dead { result.dead ≡ tally (λ s. is_dead_lettered s.mark) self.now.slots }
        ensures all { total_of result ≡ length self.now.slots }
    {
        showing::counts(self.slots.as_slice())
    }
}
