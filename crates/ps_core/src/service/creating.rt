ghost use Rattle.std.specs.Prelude.{◌≡◌, None, IfOk};
ghost use Rattle.ps_config.specs.Limits.{topic_fault};
ghost use Rattle.ps_config.specs.Masks.{whole_mask};
ghost use Rattle.ps_model.specs.Checks.{filter_setting_fault, new_sub_fault};
ghost use Rattle.ps_model.specs.declared.command.Command.TheVariants.{CreateTopic, CreateSubscription};
ghost use Rattle.ps_core.specs.Built.{unbuilt_topic_setting, unbuilt_sub_setting};
ghost use Rattle.ps_tables.specs.Subscriptions.{filter_of};
ghost use Rattle.ps_core.specs.Effects.{new_subscription};

use crate::service::looking::topic_shown;
use crate::service::outcome::Outcome;
use crate::service::{Core, give_up};
use ps_base::{Duplicate, Moment, OutOfMemory};
use ps_filter::Filter;
use ps_model::{Reply, SubConfig, TopicConfig, TopicRow};
use ps_names::{SubName, TopicName};
use ps_sub::Sub;
use ps_tables::KeptSubscription;
use std::alloc::Global;

impl Core {
    ghost use Rattle.ps_core.specs.Carrying.{CanRecord, IsCarried};

    /// Creates a topic (API reference, Publisher.CreateTopic).
    pub(super) fn create_topic(
        &mut self,
        alloc: Global,
        at: Moment,
        name: &TopicName,
        config: &TopicConfig,
    ) -> Result<Outcome, OutOfMemory>
        requires can { CanRecord at self.old }
        requires built { unbuilt_topic_setting config.now ≡ None }
        requires good { topic_fault whole_mask config.now ≡ None }
        ensures { IfOk result (λ outcome. IsCarried at (CreateTopic name.now config.now) self.old self.new outcome.reply outcome.changed) }
    {
        if self.topic_named(name.text()).is_some() {
            return Outcome::taken(alloc, name.text());
        }
        let row = TopicRow {
            number: self.next_topic,
            name: name.copy(alloc)?,
            config: config.copy(alloc)?,
        };
        let shown = topic_shown(alloc, &row)?;
        // Counted first: there are never more topics than entries.
        self.record(at);
        if let Err(error) = self.tables.add_topic(alloc, row) {
            return Err(give_up(&mut self.tables, alloc, error));
        }
        self.next_topic += 1;
        Ok(Outcome::changes(Reply::Topic(shown)))
    }

    /// Creates a subscription, which gets the messages published from now on (API reference,
    /// Subscriber.CreateSubscription).
    pub(super) fn create_subscription(
        &mut self,
        alloc: Global,
        at: Moment,
        name: &SubName,
        topic: &TopicName,
        config: &SubConfig,
    ) -> Result<Outcome, OutOfMemory>
        requires can { CanRecord at self.old }
        requires built { unbuilt_sub_setting config.now ≡ None }
        requires good { new_sub_fault config.now ≡ None }
        ensures { IfOk result (λ outcome. IsCarried at (CreateSubscription name.now topic.now config.now) self.old self.new outcome.reply outcome.changed) }
    {
        let Some(kept) = self.topic_named(topic.text()) else {
            return Outcome::missing(alloc, topic.text());
        };
        if self.subscription_named(name.text()).is_some() {
            return Outcome::taken(alloc, name.text());
        }
        let topic = kept.row.number;
        let subscription = new_subscription(alloc, self.next_sub, name, topic, config)?;
        let shown = self.sub_shown(alloc, &subscription)?;
        // Counted first: there are never more subscriptions than entries.
        self.record(at);
        if let Err(error) = self.tables.add_subscription(alloc, subscription) {
            return Err(give_up(&mut self.tables, alloc, error));
        }
        self.next_sub += 1;
        Ok(Outcome::changes(Reply::Subscription(shown)))
    }
}

/// A subscription before its first message.
fn new_subscription(
    alloc: Global,
    number: u64,
    name: &SubName,
    topic: u64,
    config: &SubConfig,
) -> Result<KeptSubscription, OutOfMemory>
    requires good { new_sub_fault config.now ≡ None }
    ensures { IfOk result (λ x. x ≡ new_subscription number name.now topic config.now) }
{
    Ok(KeptSubscription {
        number,
        name: name.copy(alloc)?,
        topic,
        detached: false,
        filter: kept_filter(alloc, config.filter.as_str())?,
        sub: Sub::new(alloc, config, 1)?,
    })
}

/// What is kept of a filter's text. An empty text lets all messages enter.
fn kept_filter(alloc: Global, text: &str) -> Result<Option<Filter>, OutOfMemory>
    requires good { filter_setting_fault text.now ≡ None }
    ensures { IfOk result (λ filter. filter ≡ filter_of text.now) }
{
    if text.is_empty() {
        return Ok(None);
    }
    match Filter::read(alloc, text) {
        Ok(filter) => Ok(Some(filter)),
        // The text is known to be a filter, so only memory can be missing.
        Err(_fault) => Err(OutOfMemory),
    }
}
