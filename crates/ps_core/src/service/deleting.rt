ghost use Rattle.std.specs.Prelude.{◌≡◌, None, IfOk};
ghost use Rattle.ps_model.specs.declared.command.Command.TheVariants.{DeleteSubscription, DeleteTopic, Detach};

use crate::service::Core;
use crate::service::outcome::Outcome;
use ps_base::{Moment, OutOfMemory};
use ps_model::Reply;
use ps_names::{SubName, TopicName};
use std::alloc::Global;

impl Core {
    ghost use Rattle.ps_core.specs.Carrying.{CanRecord, IsCarried};

    /// Deletes a topic; its subscriptions stay (API reference, Publisher.DeleteTopic).
    pub(super) fn delete_topic(
        &mut self,
        alloc: Global,
        at: Moment,
        name: &TopicName,
    ) -> Result<Outcome, OutOfMemory>
        requires can { CanRecord at self.old }
        ensures { IfOk result (λ outcome. IsCarried at (DeleteTopic name.now) self.old self.new outcome.reply outcome.changed) }
    {
        let Some(number) = self.tables.topic_numbers.find(name.text()) else {
            return Outcome::missing(alloc, name.text());
        };
        self.record(at);
        self.tables.topic_numbers.remove(name.text());
        let _topic = self.tables.topics.remove(&number);
        Ok(Outcome::changes(Reply::Empty))
    }

    /// Deletes a subscription with its marks (API reference, Subscriber.DeleteSubscription). The cost is that of the
    /// messages that it has.
    pub(super) fn delete_subscription(
        &mut self,
        alloc: Global,
        at: Moment,
        name: &SubName,
    ) -> Result<Outcome, OutOfMemory>
        requires can { CanRecord at self.old }
        ensures { IfOk result (λ outcome. IsCarried at (DeleteSubscription name.now) self.old self.new outcome.reply outcome.changed) }
    {
        let Some(number) = self.tables.subscription_numbers.find(name.text()) else {
            return Outcome::missing(alloc, name.text());
        };
        let subscription = &self.tables.subscriptions[&number];
        let topic = subscription.topic;
        let marks = subscription.sub.marks(alloc)?;
        self.record(at);
        self.tables.leave(topic, name.text(), marks.as_slice());
        self.tables.subscription_numbers.remove(name.text());
        let _subscription = self.tables.subscriptions.remove(&number);
        Ok(Outcome::changes(Reply::Empty))
    }

    /// Detaches a subscription from its topic: nothing enters any more, and everything that had entered is gone (API
    /// reference, Publisher.DetachSubscription). The cost is that of the messages that it has.
    pub(super) fn detach(
        &mut self,
        alloc: Global,
        at: Moment,
        name: &SubName,
    ) -> Result<Outcome, OutOfMemory>
        requires can { CanRecord at self.old }
        ensures { IfOk result (λ outcome. IsCarried at (Detach name.now) self.old self.new outcome.reply outcome.changed) }
    {
        let Some(number) = self.tables.subscription_numbers.find(name.text()) else {
            return Outcome::missing(alloc, name.text());
        };
        let subscription = &self.tables.subscriptions[&number];
        if subscription.detached {
            return Ok(Outcome::nothing());
        }
        let topic = subscription.topic;
        let marks = subscription.sub.marks(alloc)?;
        self.record(at);
        self.tables.leave(topic, name.text(), marks.as_slice());
        self.tables.detach(number);
        Ok(Outcome::changes(Reply::Empty))
    }
}
