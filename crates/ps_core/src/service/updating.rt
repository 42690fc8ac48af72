ghost use Rattle.std.specs.Prelude.{◌≡◌, ◌<◌, true, nat_eq, None, IfOk, OnOk};
ghost use Rattle.std.specs.BTreeMap.{values};
ghost use Rattle.std.specs.List.{AllByRecursion};
ghost use Rattle.ps_model.specs.Checks.{argument_fault, new_sub_fault};
ghost use Rattle.ps_model.specs.declared.command.Command.TheVariants.{UpdateSubscription, UpdateTopic};
ghost use Rattle.ps_core.specs.Built.{unbuilt_topic_mask, unbuilt_topic_setting, unbuilt_sub_mask};
ghost use Rattle.ps_model.specs.Sound.{Ordered};
ghost use Rattle.ps_core.specs.Changing.{KeepsRest, change_subscription, change_topic, kept_number, with_config, with_settings, with_topic_config};
ghost use Rattle.ps_tables.specs.Numbers.{changed_at, IsNumbered};
ghost use Rattle.ps_tables.specs.Subscriptions.{number_of};
ghost use Rattle.ps_core.specs.Steady.{HasGoodSettings, IsSteady};

use crate::service::looking::topic_shown;
use crate::service::outcome::Outcome;
use crate::service::{Core, give_up};
use ps_base::{Duplicate, Moment, OutOfMemory};
use ps_config::{Mask, SubConfig, TopicConfig, apply_sub, apply_topic};
use ps_model::Reply;
use ps_names::{SubName, TopicName};
use ps_tables::{KeptSubscription, KeptTopic, same_sub_config, same_topic_config};
use std::alloc::Global;
use std::collections::BTreeMap;

impl Core {
    ghost use Rattle.ps_core.specs.Carrying.{CanRecord, IsCarried};

    /// Changes the masked settings of a topic (API reference, Publisher.UpdateTopic). An update that changes nothing is
    /// answered alike.
    pub(super) fn update_topic(
        &mut self,
        alloc: Global,
        at: Moment,
        name: &TopicName,
        mask: Mask,
        config: &TopicConfig,
    ) -> Result<Outcome, OutOfMemory>
        requires can { CanRecord at self.old }
        requires built { unbuilt_topic_mask mask ≡ None }
        requires good { argument_fault (UpdateTopic name.now mask config.now) ≡ None }
        ensures { IfOk result (λ outcome. IsCarried at (UpdateTopic name.now mask config.now) self.old self.new outcome.reply outcome.changed) }
    {
        let Some(number) = self.tables.topic_numbers.find(name.text()) else {
            return Outcome::missing(alloc, name.text());
        };
        let topic = &self.tables.topics[&number];
        let mut new = topic.row.config.copy(alloc)?;
        apply_topic(&mut new, config.copy(alloc)?, mask);
        let changed = !same_topic_config(&new, &topic.row.config);
        let mut shown = topic_shown(alloc, &topic.row)?;
        shown.config = new.copy(alloc)?;
        if !changed {
            return Ok(Outcome::shows(Reply::Topic(shown)));
        }
        self.record(at);
        self.configure_topic(number, new);
        Ok(Outcome::changes(Reply::Topic(shown)))
    }

    /// Changes the masked settings of a subscription (API reference, Subscriber.UpdateSubscription). An update that
    /// changes nothing is answered alike.
    pub(super) fn update_subscription(
        &mut self,
        alloc: Global,
        at: Moment,
        name: &SubName,
        mask: Mask,
        config: &SubConfig,
    ) -> Result<Outcome, OutOfMemory>
        requires can { CanRecord at self.old }
        requires built { unbuilt_sub_mask mask ≡ None }
        requires good { argument_fault (UpdateSubscription name.now mask config.now) ≡ None }
        ensures { IfOk result (λ outcome. IsCarried at (UpdateSubscription name.now mask config.now) self.old self.new outcome.reply outcome.changed) }
    {
        let Some(number) = self.tables.subscription_numbers.find(name.text()) else {
            return Outcome::missing(alloc, name.text());
        };
        let subscription = &self.tables.subscriptions[&number];
        let mut new = subscription.sub.config().copy(alloc)?;
        apply_sub(&mut new, config.copy(alloc)?, mask);
        let changed = !same_sub_config(&new, subscription.sub.config());
        let mut shown = self.sub_shown(alloc, subscription)?;
        shown.config = new.copy(alloc)?;
        if !changed {
            return Ok(Outcome::shows(Reply::Subscription(shown)));
        }
        self.record(at);
        self.configure_subscription(alloc, number, &new)?;
        Ok(Outcome::changes(Reply::Subscription(shown)))
    }

    /// Gives the topic with this number other settings.
    fn configure_topic(&mut self, number: u64, config: TopicConfig)
        requires built { unbuilt_topic_setting config ≡ None }
        ensures changed { self.new ≡ change_topic number (with_config config) self.old }
        ensures steady { IsSteady self.new }
    {
        put_config(&mut self.tables.topics, number, config);
    }

    /// Gives the subscription with this number other settings. After an error, drop the core.
    fn configure_subscription(
        &mut self,
        alloc: Global,
        number: u64,
        config: &SubConfig,
    ) -> Result<(), OutOfMemory>
        requires settings { HasGoodSettings config.now }
        requires rest { AllByRecursion (λ x. nat_eq x.number number ≡ true → KeepsRest config.now x.sub.config) self.old.subscriptions }
        ensures changed { OnOk result (self.new ≡ change_subscription number (with_settings config.now) self.old) }
        ensures steady { OnOk result (IsSteady self.new) }
    {
        if let Err(error) = put_settings(&mut self.tables.subscriptions, alloc, number, config) {
            return Err(give_up(&mut self.tables, alloc, error));
        }
        Ok(())
    }
}

fn put_config(topics: &mut BTreeMap<u64, KeptTopic>, number: u64, config: TopicConfig)
    requires numbered { IsNumbered kept_number topics.old.entries }
    requires ordered { Ordered (λ a b. kept_number a < kept_number b) (values topics.old) }
    ensures numbered { IsNumbered kept_number topics.new.entries }
    ensures values { values topics.new ≡ changed_at kept_number number (with_topic_config config) (values topics.old) }
{
    if let Some(topic) = topics.get_mut(&number) {
        topic.row.config = config;
    }
}

fn put_settings(
    subscriptions: &mut BTreeMap<u64, KeptSubscription>,
    alloc: Global,
    number: u64,
    config: &SubConfig,
) -> Result<(), OutOfMemory>
    requires numbered { IsNumbered number_of subscriptions.old.entries }
    requires ordered { Ordered (λ a b. number_of a < number_of b) (values subscriptions.old) }
    requires good { new_sub_fault config.now ≡ None }
    requires rest { AllByRecursion (λ x. nat_eq x.number number ≡ true → KeepsRest config.now x.sub.config) (values subscriptions.old) }
    ensures numbered { OnOk result (IsNumbered number_of subscriptions.new.entries) }
    ensures values { OnOk result (values subscriptions.new ≡ changed_at number_of number (with_settings config.now) (values subscriptions.old)) }
{
    match subscriptions.get_mut(&number) {
        Some(subscription) => subscription.sub.configure(alloc, config),
        None => Ok(()),
    }
}
