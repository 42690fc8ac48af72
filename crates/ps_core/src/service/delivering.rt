ghost use Rattle.std.specs.Prelude.{◌≡◌, ◌≤◌, ◌<◌, ◌+◌, ◌*◌, ◌^◌, ◌≢◌, [], map, IfOk, OnOk};
ghost use Rattle.ps_config.specs.Numbers.{most_ack_seconds};
ghost use Rattle.ps_message.specs.Limits.{most_messages};
ghost use Rattle.ps_model.specs.declared.command.Command.TheVariants.{Pull};
ghost use Rattle.std.specs.BTreeMap.{values};
ghost use Rattle.ps_tables.specs.Numbers.{IsNumbered};
ghost use Rattle.ps_core.specs.Keeping.{the_message};
ghost use Rattle.ps_model.specs.Worlds.{message_at};
ghost use Rattle.ps_model.specs.Checks.{as_read};
ghost use Rattle.ps_core.specs.Delivering.{pulled, received, received_all};
ghost use Rattle.ps_core.specs.Effects.{given_of, lend_subscription};

use crate::service::outcome::Outcome;
use crate::service::{Core, give_up};
use ps_base::{AckId, Duplicate, Labels, List, Moment, Octets, OutOfMemory, Reason, Text};
use ps_message::Message;
use ps_model::{Handed, ReceivedMessage, Reply};
use ps_names::SubName;
use ps_tables::{KeptMessage, KeptSubscription};
use std::alloc::Global;
use std::collections::BTreeMap;

impl Core {
    ghost use Rattle.ps_core.specs.Carrying.{CanRecord, IsCarried};

    /// Hands out messages of a subscription (API reference, Subscriber.Pull).
    pub(super) fn pull(
        &mut self,
        alloc: Global,
        at: Moment,
        name: &SubName,
        max: u32,
        budget: u64,
        seconds: Option<u32>,
    ) -> Result<Outcome, OutOfMemory>
        requires can { CanRecord at self.old }
        requires some { max ≢ 0 }
        requires read { as_read (Pull name.now max budget seconds) ≡ Pull name.now max budget seconds }
        ensures { IfOk result (λ outcome. IsCarried at (Pull name.now max budget seconds) self.old self.new outcome.reply outcome.changed) }
    {
        let Some(number) = self.tables.subscription_numbers.find(name.text()) else {
            return Outcome::missing(alloc, name.text());
        };
        let Some(subscription) = self.tables.subscriptions.get_mut(&number) else {
            // Never reached: each name has the number of a subscription.
            return Outcome::missing(alloc, name.text());
        };
        if subscription.detached {
            return Ok(Outcome::not_allowed(Reason::Detached));
        }
        let config = subscription.sub.config();
        let seconds = seconds.unwrap_or(config.ack_seconds);
        let exactly_once = config.exactly_once;
        let ordering = config.ordering;
        let messages = &self.tables.messages;
        let items = match hand_out(alloc, at, max, budget, seconds, subscription, messages) {
            Ok(items) => items,
            Err(error) => return Err(give_up(&mut self.tables, alloc, error)),
        };
        let changed = items.len() != 0;
        if changed {
            // Written here and not by `record`, which asks for a state that is already consistent: these leases are part
            // of this entry.
            let now = at.milliseconds();
            self.clock = now;
            self.count += 1;
            self.next_end = self.next_end.min(now + 1000 * u64::from(seconds));
        }
        Ok(Outcome {
            reply: Reply::Received {
                exactly_once,
                ordering,
                items,
            },
            changed,
        })
    }
}

/// Leases messages of one subscription for so many seconds, and returns them.
fn hand_out(
    alloc: Global,
    at: Moment,
    max: u32,
    budget: u64,
    seconds: u32,
    subscription: &mut KeptSubscription,
    messages: &BTreeMap<u64, KeptMessage>,
) -> Result<List<ReceivedMessage>, OutOfMemory>
    requires few { max ≤ most_messages }
    requires lease { seconds ≤ most_ack_seconds }
    requires leases { subscription.old.sub.next_lease ≤ 2 ^ 61 }
    requires messages { IsNumbered (λ x. x.row.number) messages.now.entries }
    ensures items { IfOk result (λ items. items ≡ pulled at max budget subscription.old (values messages.now)) }
    ensures after { OnOk result (subscription.new ≡ lend_subscription (at + 1000 * seconds) (given_of at max budget subscription.old) subscription.old) }
{
    let now = at.milliseconds();
    let given = subscription.sub.pull(alloc, now, max, budget, seconds)?;
    received(alloc, subscription.number, given.as_slice(), messages)
}

/// The messages that were handed out, as the caller gets them, in order.
fn received(
    alloc: Global,
    sub: u64,
    given: &[Handed],
    messages: &BTreeMap<u64, KeptMessage>,
) -> Result<List<ReceivedMessage>, OutOfMemory>
    requires { IsNumbered (λ x. x.row.number) messages.now.entries }
    ensures { IfOk result (λ items. items ≡ received_all sub (map the_message (values messages.now)) given.now) }
{
    let mut items = List::new(alloc);
    for handed in given {
        items.push(received_one(alloc, sub, *handed, messages)?)?;
    }
    Ok(items)
}

fn received_one(
    alloc: Global,
    sub: u64,
    handed: Handed,
    messages: &BTreeMap<u64, KeptMessage>,
) -> Result<ReceivedMessage, OutOfMemory>
    requires { IsNumbered (λ x. x.row.number) messages.now.entries }
    ensures { IfOk result (λ shown. shown ≡ received sub handed (message_at (map the_message (values messages.now)) handed.number)) }
{
    let (publish, message) = match messages.get(&handed.number) {
        Some(kept) => (kept.row.publish, kept.row.message.copy(alloc)?),
        // Never reached: each message of a subscription is kept.
        None => (0, no_message(alloc)),
    };
    Ok(ReceivedMessage {
        id: AckId {
            sub,
            message: handed.number,
            lease: handed.lease,
        },
        attempt: None,
        publish,
        message,
    })
}

/// An empty message.
fn no_message(alloc: Global) -> Message
    ensures { result ≡ record { payload = []; attributes = []; key = [] } }
{
    Message {
        payload: Octets::from_vec(Vec::new(alloc)),
        attributes: Labels::new(alloc),
        key: Text::from_string(String::new(alloc)),
    }
}
