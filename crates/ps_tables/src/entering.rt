ghost use Rattle.std.specs.Prelude.{◌≡◌, ℕ, ◌<◌, ◌≤◌, ◌+◌, ◌++◌, ◌^◌, nat_eq, true, [], ◌∷◌, IfOk, OnOk, length, map};
ghost use Rattle.std.specs.BTreeMap.{values};
ghost use Rattle.std.specs.List.{AllByRecursion};
ghost use Rattle.ps_base.specs.Moments.{last_moment};
ghost use Rattle.ps_message.specs.Messages.{size_of};
ghost use Rattle.ps_model.specs.Forwarding.{message_rows};
ghost use Rattle.ps_model.specs.Seeking.{fresh};
ghost use Rattle.ps_model.specs.Sound.{Ordered};
ghost use Rattle.ps_tables.specs.Subscriptions.{filter_of, number_of};
ghost use Rattle.ps_tables.specs.Numbers.{IsNumbered};
ghost use Rattle.ps_tables.specs.Entering.{IsBefore, IsReady, IsDistinct, counted, count_each, count_found, count_from, enter_among, enter_message, enter_numbered, enter_wanted, is_wanted, kept_rows, kept_with, new_row, subscription_with};

use crate::kept_subscription::KeptSubscription;
use crate::tables::KeptMessage;
use ps_base::{Duplicate, Moment, OutOfMemory};
use ps_message::Message;
use ps_model::{Item, Mark, MessageRow};
use std::alloc::Global;
use std::collections::BTreeMap;

/// The messages enter the subscriptions with these numbers that want them, and each one's count in `holders` rises by
/// one for each. After an error, drop the subscriptions.
pub fn enter_each(
    alloc: Global,
    first: u64,
    at: Moment,
    messages: &[Message],
    numbers: &[u64],
    subscriptions: &mut BTreeMap<u64, KeptSubscription>,
    holders: &mut [u64],
) -> Result<(), OutOfMemory>
    requires room { first + length messages.now < 2 ^ 64 }
    requires within { at ≤ last_moment }
    requires distinct { IsDistinct numbers.now }
    requires keys { IsNumbered number_of subscriptions.old.entries }
    requires ordered { Ordered (λ a b. a.number < b.number) (values subscriptions.old) }
    requires ready { AllByRecursion (IsReady first at) (values subscriptions.old) }
    requires nobody { AllByRecursion (λ n. n ≡ 0) holders.old }
    requires each { length holders.old ≡ length messages.now }
    ensures subscriptions { OnOk result (values subscriptions.new ≡ map (enter_among first at messages.now numbers.now) (values subscriptions.old)) }
    ensures keys { OnOk result (IsNumbered number_of subscriptions.new.entries) }
    ensures holders { OnOk result (holders.new ≡ count_each messages.now (values subscriptions.old) numbers.now holders.old) }
{
    for number in numbers {
        enter_numbered(alloc, first, at, messages, *number, subscriptions, holders)?;
    }
    Ok(())
}

/// The messages enter the subscription with this number, if there is one.
fn enter_numbered(
    alloc: Global,
    first: u64,
    at: Moment,
    messages: &[Message],
    number: u64,
    subscriptions: &mut BTreeMap<u64, KeptSubscription>,
    holders: &mut [u64],
) -> Result<(), OutOfMemory>
    requires room { first + length messages.now < 2 ^ 64 }
    requires within { at ≤ last_moment }
    requires keys { IsNumbered number_of subscriptions.old.entries }
    requires ordered { Ordered (λ a b. a.number < b.number) (values subscriptions.old) }
    requires ready { AllByRecursion (λ x. nat_eq x.number number ≡ true → IsReady first at x) (values subscriptions.old) }
    requires few { AllByRecursion (λ n. n + 1 < 2 ^ 64) holders.old }
    requires each { length holders.old ≡ length messages.now }
    ensures subscriptions { OnOk result (values subscriptions.new ≡ map (enter_numbered first at messages.now number) (values subscriptions.old)) }
    ensures keys { OnOk result (IsNumbered number_of subscriptions.new.entries) }
    ensures holders { OnOk result (holders.new ≡ count_found messages.now (subscription_with number (values subscriptions.old)) holders.old) }
{
    match subscriptions.get_mut(&number) {
        Some(subscription) => enter_one(alloc, first, at, messages, subscription, holders),
        None => Ok(()),
    }
}

/// The messages that a subscription wants enter it.
fn enter_one(
    alloc: Global,
    first: u64,
    at: Moment,
    messages: &[Message],
    subscription: &mut KeptSubscription,
    holders: &mut [u64],
) -> Result<(), OutOfMemory>
    requires room { first + length messages.now < 2 ^ 64 }
    requires within { at ≤ last_moment }
    requires ready { IsReady first at subscription.old }
    requires few { AllByRecursion (λ n. n + 1 < 2 ^ 64) holders.old }
    requires each { length holders.old ≡ length messages.now }
    ensures subscription { OnOk result (subscription.new ≡ enter_wanted (message_rows subscription.old.topic first at messages.now) subscription.old) }
    ensures holders { OnOk result (holders.new ≡ count_from 0 subscription.old messages.now holders.old) }
{
    for place in 0..messages.len() {
        let number = first + place as u64;
        enter_message(
            alloc,
            number,
            at,
            &messages[place],
            subscription,
            &mut holders[place],
        )?;
    }
    Ok(())
}

/// The message enters a subscription that wants it.
fn enter_message(
    alloc: Global,
    number: u64,
    at: Moment,
    message: &Message,
    subscription: &mut KeptSubscription,
    holders: &mut u64,
) -> Result<(), OutOfMemory>
    requires within { at ≤ last_moment }
    requires ready { IsReady number at subscription.old }
    requires few { holders.old + 1 < 2 ^ 64 }
    ensures subscription { OnOk result ((topic : ℕ) → subscription.new ≡ enter_message (new_row topic number at message.now) subscription.old) }
    ensures holders { OnOk result (holders.new ≡ counted subscription.old message.now holders.old) }
{
    if wants(subscription, message) {
        let item = item_of(alloc, number, at, message)?;
        subscription.sub.enter(item, fresh())?;
        *holders += 1;
    }
    Ok(())
}

/// Whether a message enters: the subscription has no filter, or the message matches it.
fn wants(subscription: &KeptSubscription, message: &Message) -> bool
    requires { subscription.now.filter ≡ filter_of subscription.now.sub.config.filter }
    ensures { result ≡ is_wanted subscription.now message.now }
{
    match &subscription.filter {
        Some(filter) => filter.matches(&message.attributes),
        None => true,
    }
}

/// What a subscription keeps of a message.
fn item_of(alloc: Global, number: u64, at: Moment, message: &Message) -> Result<Item, OutOfMemory>
    ensures { IfOk result (λ item. item ≡ record { number = number; publish = at; key = message.now.key; size = size_of message.now }) }
{
    Ok(Item {
        number,
        publish: at.milliseconds(),
        key: message.key.copy(alloc)?,
        size: message.size(),
    })
}

/// Keeps the messages that some subscription has. After an error, drop the messages.
pub fn keep_each(
    alloc: Global,
    topic: u64,
    first: u64,
    at: Moment,
    messages: &[Message],
    holders: &[u64],
    kept: &mut BTreeMap<u64, KeptMessage>,
) -> Result<(), OutOfMemory>
    requires room { first + length messages.now < 2 ^ 64 }
    requires each { length holders.now ≡ length messages.now }
    requires keys { IsNumbered (λ x. x.row.number) kept.old.entries }
    requires below { AllByRecursion (λ x. x.row.number < first) (values kept.old) }
    ensures kept { OnOk result (values kept.new ≡ values kept.old ++ kept_rows (message_rows topic first at messages.now) holders.now) }
    ensures keys { OnOk result (IsNumbered (λ x. x.row.number) kept.new.entries) }
{
    for place in 0..messages.len() {
        let number = first + place as u64;
        keep_one(
            alloc,
            topic,
            number,
            at,
            &messages[place],
            holders[place],
            kept,
        )?;
    }
    Ok(())
}

/// Keeps the message if some subscription has it.
fn keep_one(
    alloc: Global,
    topic: u64,
    number: u64,
    at: Moment,
    message: &Message,
    holders: u64,
    kept: &mut BTreeMap<u64, KeptMessage>,
) -> Result<(), OutOfMemory>
    requires keys { IsNumbered (λ x. x.row.number) kept.old.entries }
    requires below { AllByRecursion (λ x. x.row.number < number) (values kept.old) }
    ensures kept { OnOk result (values kept.new ≡ values kept.old ++ kept_rows (message_rows topic number at (message.now ∷ [])) (holders ∷ [])) }
    ensures keys { OnOk result (IsNumbered (λ x. x.row.number) kept.new.entries) }
{
    if holders > 0 {
        let message = kept_message(alloc, topic, number, at, message, holders)?;
        kept.insert(number, message)?;
    }
    Ok(())
}

fn kept_message(
    alloc: Global,
    topic: u64,
    number: u64,
    at: Moment,
    message: &Message,
    holders: u64,
) -> Result<KeptMessage, OutOfMemory>
    ensures { IfOk result (λ kept. kept ≡ kept_with (new_row topic number at message.now) holders) }
{
    Ok(KeptMessage {
        row: MessageRow {
            number,
            topic,
            publish: at.milliseconds(),
            message: message.copy(alloc)?,
            kept: true,
        },
        holders,
    })
}

/// The mark of a message that entered.
fn fresh() -> Mark
    ensures { result ≡ fresh }
{
    Mark::Backlog {
        failures: 0,
        until: 0,
        last: None,
    }
}
