ghost use Rattle.std.specs.Prelude.{◌≡◌, ◌<◌, [], None, List, ℕ, true, OnOk};
ghost use Rattle.std.specs.BTreeMap.{get_by_text, values};
ghost use Rattle.ps_model.specs.Sound.{Ordered};
ghost use Rattle.ps_tables.specs.Numbers.{IsNumbered};
ghost use Rattle.ps_tables.specs.Releasing.{message_number, released, times};

use crate::entering::{enter_each, keep_each};
use crate::kept_subscription::KeptSubscription;
use crate::name_index::NameIndex;
use crate::releasing::release;
use ps_base::{Moment, OutOfMemory};
use ps_message::Message;
use ps_model::{Mark, MessageRow, TopicRow};
use std::alloc::Global;
use std::collections::BTreeMap;

/// A topic as the core keeps it.
#[derive(Drop)]
pub struct KeptTopic {
    pub row: TopicRow,
    /// Its subscriptions that aren't detached.
    pub subs: NameIndex,
}

/// A message that some subscription has.
#[derive(Drop)]
pub struct KeptMessage {
    pub row: MessageRow,
    /// How many subscriptions have it.
    pub holders: u64,
}

/// The topics, subscriptions and messages of a core by number, and the numbers of topics and subscriptions by name.
#[derive(Drop)]
pub struct Tables {
    pub topics: BTreeMap<u64, KeptTopic>,
    pub topic_numbers: NameIndex,
    pub subscriptions: BTreeMap<u64, KeptSubscription>,
    pub subscription_numbers: NameIndex,
    pub messages: BTreeMap<u64, KeptMessage>,
}

impl Tables {
    ghost use Rattle.ps_tables.specs.TableEdits.{PutsName, AddsTopic, AddsSubscription, NamesSubscription, JoinsTopic, LeavesTopic, Detaches};
    ghost use Rattle.ps_tables.specs.Entering.{CanPublish, IsPublished, has_topic};

    /// Empty tables. Allocates nothing.
    pub fn new(alloc: Global) -> Tables
        ensures topics { result.topics.entries ≡ [] }
        ensures topic_numbers { (name : List ℕ) → get_by_text result.topic_numbers.numbers name ≡ None }
        ensures subscriptions { result.subscriptions.entries ≡ [] }
        ensures subscription_numbers { (name : List ℕ) → get_by_text result.subscription_numbers.numbers name ≡ None }
        ensures messages { result.messages.entries ≡ [] }
    {
        Tables {
            topics: BTreeMap::new(alloc),
            topic_numbers: NameIndex::new(alloc),
            subscriptions: BTreeMap::new(alloc),
            subscription_numbers: NameIndex::new(alloc),
            messages: BTreeMap::new(alloc),
        }
    }

    /// Adds a topic without subscriptions. After an error, drop the tables.
    pub fn add_topic(&mut self, alloc: Global, row: TopicRow) -> Result<(), OutOfMemory>
        ensures topics { OnOk result (AddsTopic self.old.topics row self.new.topics) }
        ensures topic_numbers { OnOk result (PutsName self.old.topic_numbers row.name row.number self.new.topic_numbers) }
        ensures subscriptions { OnOk result (self.new.subscriptions ≡ self.old.subscriptions) }
        ensures subscription_numbers { OnOk result (self.new.subscription_numbers ≡ self.old.subscription_numbers) }
        ensures messages { OnOk result (self.new.messages ≡ self.old.messages) }
    {
        let number = row.number;
        self.topic_numbers.put(alloc, row.name.text(), number)?;
        let topic = KeptTopic {
            row,
            subs: NameIndex::new(alloc),
        };
        self.topics.insert(number, topic)?;
        Ok(())
    }

    /// Adds a subscription, which its topic then has too. After an error, drop the tables.
    pub fn add_subscription(
        &mut self,
        alloc: Global,
        subscription: KeptSubscription,
    ) -> Result<(), OutOfMemory>
        ensures topics { OnOk result (JoinsTopic self.old.topics subscription self.new.topics) }
        ensures topic_numbers { OnOk result (self.new.topic_numbers ≡ self.old.topic_numbers) }
        ensures subscriptions { OnOk result (AddsSubscription self.old.subscriptions subscription self.new.subscriptions) }
        ensures subscription_numbers { OnOk result (NamesSubscription self.old.subscription_numbers subscription self.new.subscription_numbers) }
        ensures messages { OnOk result (self.new.messages ≡ self.old.messages) }
    {
        let number = subscription.number;
        self.subscription_numbers
            .put(alloc, subscription.name.text(), number)?;
        if let Some(topic) = self.topics.get_mut(&subscription.topic) {
            topic.subs.put(alloc, subscription.name.text(), number)?;
        }
        self.subscriptions.insert(number, subscription)?;
        Ok(())
    }

    /// The subscription of this name leaves the topic with this number, if it is there, and has none of these messages
    /// any more, which are named by their numbers. A message goes that none has any more.
    pub fn leave(&mut self, topic: u64, name: &str, marks: &[(u64, Mark)])
        requires numbered { IsNumbered message_number self.old.messages.entries }
        requires ordered { Ordered (λ a b. message_number a < message_number b) (values self.old.messages) }
        ensures topics { LeavesTopic self.old.topics topic name.now self.new.topics }
        ensures topic_numbers { self.new.topic_numbers ≡ self.old.topic_numbers }
        ensures subscriptions { self.new.subscriptions ≡ self.old.subscriptions }
        ensures subscription_numbers { self.new.subscription_numbers ≡ self.old.subscription_numbers }
        ensures numbered { IsNumbered message_number self.new.messages.entries }
        ensures messages { values self.new.messages ≡ released (times marks.now) (values self.old.messages) }
    {
        self.leave_topic(topic, name);
        release(&mut self.messages, marks);
    }

    /// The topic with this number, if it is there, has no subscription of this name any more.
    fn leave_topic(&mut self, topic: u64, name: &str)
        ensures topics { LeavesTopic self.old.topics topic name.now self.new.topics }
        ensures topic_numbers { self.new.topic_numbers ≡ self.old.topic_numbers }
        ensures subscriptions { self.new.subscriptions ≡ self.old.subscriptions }
        ensures subscription_numbers { self.new.subscription_numbers ≡ self.old.subscription_numbers }
        ensures messages { self.new.messages ≡ self.old.messages }
    {
        if let Some(topic) = self.topics.get_mut(&topic) {
            topic.subs.remove(name);
        }
    }

    /// The subscription with this number is detached, and has no messages any more.
    pub fn detach(&mut self, number: u64)
        ensures topics { self.new.topics ≡ self.old.topics }
        ensures topic_numbers { self.new.topic_numbers ≡ self.old.topic_numbers }
        ensures subscriptions { Detaches self.old.subscriptions number self.new.subscriptions }
        ensures subscription_numbers { self.new.subscription_numbers ≡ self.old.subscription_numbers }
        ensures messages { self.new.messages ≡ self.old.messages }
    {
        if let Some(subscription) = self.subscriptions.get_mut(&number) {
            subscription.detached = true;
            let _dropped = subscription.sub.drop_all();
        }
    }

    /// The messages enter the subscriptions of their topic, and those that one wants are kept. After an error, drop the
    /// tables.
    pub fn publish(
        &mut self,
        alloc: Global,
        topic: u64,
        first: u64,
        at: Moment,
        messages: &[Message],
    ) -> Result<(), OutOfMemory>
        requires can { CanPublish first at messages.now self.old }
        requires there { has_topic topic self.old ≡ true }
        ensures published { OnOk result (IsPublished first at topic messages.now self.old self.new) }
    {
        let Some(kept) = self.topics.get(&topic) else {
            return Ok(());
        };
        let numbers = kept.subs.all(alloc)?;
        let mut holders = vec![in alloc; 0; messages.len()]?;
        enter_each(
            alloc,
            first,
            at,
            messages,
            numbers.as_slice(),
            &mut self.subscriptions,
            holders.as_mut_slice(),
        )?;
        let holders = holders.as_slice();
        keep_each(
            alloc,
            topic,
            first,
            at,
            messages,
            holders,
            &mut self.messages,
        )
    }
}
