ghost use Rattle.std.specs.Prelude.{◌≡◌, None, Some, IfOk, MatchOption, find};
ghost use Rattle.ps_model.specs.declared.command.Command.TheVariants.{GetSubscription, GetTopic};
ghost use Rattle.ps_model.specs.Showing.{sub_shown, topic_shown};
ghost use Rattle.ps_model.specs.Worlds as world;
ghost use Rattle.ps_tables.specs.Members.{has_name};
ghost use Rattle.ps_core.specs.State.{seen, sub_row};

use crate::service::Core;
use crate::service::outcome::Outcome;
use ps_base::{Duplicate, Moment, OutOfMemory, Text};
use ps_model::{Reply, SubShown, TopicRow, TopicShown};
use ps_names::{SubName, TopicName};
use ps_tables::{KeptSubscription, KeptTopic};
use std::alloc::Global;

impl Core {
    ghost use Rattle.ps_core.specs.Carrying.{CanRecord, IsCarried};

    /// The topic with this name.
    pub(super) fn topic_named(&self, name: &str) -> Option<&KeptTopic>
        ensures { MatchOption result (world.topic_named (seen self.now) name.now ≡ None)
            (λ topic. world.topic_named (seen self.now) name.now ≡ Some topic.now.row) }
    {
        match self.tables.topic_numbers.find(name) {
            Some(number) => self.tables.topics.get(&number),
            None => None,
        }
    }

    /// The topic with this number. None if it was deleted.
    pub(super) fn topic_numbered(&self, number: u64) -> Option<&KeptTopic>
        ensures { MatchOption result (world.topic_numbered (seen self.now) number ≡ None)
            (λ topic. world.topic_numbered (seen self.now) number ≡ Some topic.now.row) }
    {
        self.tables.topics.get(&number)
    }

    /// The subscription with this name.
    pub(super) fn subscription_named(&self, name: &str) -> Option<&KeptSubscription>
        ensures { MatchOption result (find (has_name name.now) self.now.subscriptions ≡ None)
            (λ x. find (has_name name.now) self.now.subscriptions ≡ Some x.now) }
    {
        match self.tables.subscription_numbers.find(name) {
            Some(number) => self.tables.subscriptions.get(&number),
            None => None,
        }
    }

    /// What a reply shows of a subscription: the name of its topic, if it wasn't deleted, and what the topic retains.
    pub(super) fn sub_shown(
        &self,
        alloc: Global,
        subscription: &KeptSubscription,
    ) -> Result<SubShown, OutOfMemory>
        ensures { IfOk result (λ shown. shown ≡ sub_shown (seen self.now) (sub_row subscription.now)) }
    {
        let (topic, topic_retention) = match self.topic_numbered(subscription.topic) {
            Some(topic) => (
                Some(Text::from_str(alloc, topic.row.name.text())?),
                topic.row.config.retention,
            ),
            None => (None, None),
        };
        Ok(SubShown {
            name: Text::from_str(alloc, subscription.name.text())?,
            topic,
            config: subscription.sub.config().copy(alloc)?,
            detached: subscription.detached,
            topic_retention,
        })
    }

    /// Shows a topic (API reference, Publisher.GetTopic).
    pub(super) fn get_topic(
        &self,
        alloc: Global,
        _at: Moment,
        name: &TopicName,
    ) -> Result<Outcome, OutOfMemory>
        requires can { CanRecord _at self.now }
        ensures { IfOk result (λ outcome. IsCarried _at (GetTopic name.now) self.now self.now outcome.reply outcome.changed) }
    {
        match self.topic_named(name.text()) {
            Some(topic) => Ok(Outcome::shows(Reply::Topic(topic_shown(alloc, &topic.row)?))),
            None => Outcome::missing(alloc, name.text()),
        }
    }

    /// Shows a subscription (API reference, Subscriber.GetSubscription).
    pub(super) fn get_subscription(
        &self,
        alloc: Global,
        _at: Moment,
        name: &SubName,
    ) -> Result<Outcome, OutOfMemory>
        requires can { CanRecord _at self.now }
        ensures { IfOk result (λ outcome. IsCarried _at (GetSubscription name.now) self.now self.now outcome.reply outcome.changed) }
    {
        match self.subscription_named(name.text()) {
            Some(subscription) => {
                let shown = self.sub_shown(alloc, subscription)?;
                Ok(Outcome::shows(Reply::Subscription(shown)))
            }
            None => Outcome::missing(alloc, name.text()),
        }
    }
}

/// What a reply shows of a topic.
pub(super) fn topic_shown(alloc: Global, row: &TopicRow) -> Result<TopicShown, OutOfMemory>
    ensures { IfOk result (λ shown. shown ≡ topic_shown row.now) }
{
    Ok(TopicShown {
        name: Text::from_str(alloc, row.name.text())?,
        config: row.config.copy(alloc)?,
    })
}
