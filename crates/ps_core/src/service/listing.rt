ghost use Rattle.std.specs.Prelude.{◌≡◌, None, Some, true, IfOk, MatchOption, map, string_bytes};
ghost use Rattle.ps_names.specs.Names.{is_project};
ghost use Rattle.ps_model.specs.Listing.{page_size};
ghost use Rattle.ps_model.specs.Worlds.{sub_numbered, topic_named};
ghost use Rattle.ps_model.specs.Showing.{sub_shown, topic_shown};
ghost use Rattle.ps_model.specs.declared.command.Command.TheVariants.{ListSubscriptions, ListTopicSubscriptions, ListTopics};
ghost use Rattle.ps_core.specs.Pages.{HasSubscriptionsOf, front_of, rows_at, sub_name, sub_number};
ghost use Rattle.ps_core.specs.Steady.{IsSteady};
ghost use Rattle.ps_core.specs.State.{seen, sub_row, topic_number};

use crate::service::Core;
use crate::service::looking::topic_shown;
use crate::service::outcome::Outcome;
use ps_base::{List, Moment, OutOfMemory, Text};
use ps_config::{DEFAULT_PAGE, MOST_OF_PAGE};
use ps_model::{PageItems, Paging, Reply, SubShown, TopicShown};
use ps_names::{ProjectName, TopicName};
use ps_tables::{KeptSubscription, NameIndex};
use std::alloc::Global;

impl Core {
    ghost use Rattle.ps_core.specs.Carrying.{CanRecord, IsCarried};

    /// Shows a page of the topics of a project (API reference, Publisher.ListTopics).
    pub(super) fn list_topics(
        &self,
        alloc: Global,
        _at: Moment,
        project: &ProjectName,
        paging: &Paging,
    ) -> Result<Outcome, OutOfMemory>
        requires can { CanRecord _at self.now }
        ensures { IfOk result (λ outcome. IsCarried _at (ListTopics project.now paging.now) self.now self.now outcome.reply outcome.changed) }
    {
        let front = front_of(alloc, project, "topics")?;
        let after = paging.after.as_str();
        let index = &self.tables.topic_numbers;
        let page = index.page(alloc, front.as_str(), after, page_size(paging.size))?;
        let items = self.topics_shown(alloc, page.numbers.as_slice())?;
        Ok(Outcome::shows(Reply::Page {
            items: PageItems::Topics(items),
            next: page.next,
        }))
    }

    /// Shows a page of the subscriptions of a project (API reference, Subscriber.ListSubscriptions).
    pub(super) fn list_subscriptions(
        &self,
        alloc: Global,
        _at: Moment,
        project: &ProjectName,
        paging: &Paging,
    ) -> Result<Outcome, OutOfMemory>
        requires can { CanRecord _at self.now }
        ensures { IfOk result (λ outcome. IsCarried _at (ListSubscriptions project.now paging.now) self.now self.now outcome.reply outcome.changed) }
    {
        let front = front_of(alloc, project, "subscriptions")?;
        let after = paging.after.as_str();
        let index = &self.tables.subscription_numbers;
        let page = index.page(alloc, front.as_str(), after, page_size(paging.size))?;
        let items = self.subscriptions_shown(alloc, page.numbers.as_slice())?;
        Ok(Outcome::shows(Reply::Page {
            items: PageItems::Subscriptions(items),
            next: page.next,
        }))
    }

    /// Shows a page of the names of a topic's subscriptions that aren't detached (API reference,
    /// Publisher.ListTopicSubscriptions).
    pub(super) fn list_topic_subscriptions(
        &self,
        alloc: Global,
        _at: Moment,
        name: &TopicName,
        paging: &Paging,
    ) -> Result<Outcome, OutOfMemory>
        requires can { CanRecord _at self.now }
        ensures { IfOk result (λ outcome. IsCarried _at (ListTopicSubscriptions name.now paging.now) self.now self.now outcome.reply outcome.changed) }
    {
        let Some(subscriptions) = self.subscriptions_of(name.text()) else {
            return Outcome::missing(alloc, name.text());
        };
        let after = paging.after.as_str();
        let page = subscriptions.page(alloc, "", after, page_size(paging.size))?;
        let names = self.subscription_names(alloc, page.numbers.as_slice())?;
        Ok(Outcome::shows(Reply::Page {
            items: PageItems::SubscriptionNames(names),
            next: page.next,
        }))
    }

    /// The attached subscriptions of the topic with this name.
    fn subscriptions_of(&self, name: &str) -> Option<&NameIndex>
        ensures found { MatchOption result (topic_named (seen self.now) name.now ≡ None)
            (λ index. HasSubscriptionsOf self.now name.now index.now) }
        ensures steady { IsSteady self.now }
    {
        let number = self.tables.topic_numbers.find(name)?;
        let topic = self.tables.topics.get(&number)?;
        Some(&topic.subs)
    }

    /// The subscription with this number.
    fn subscription_numbered(&self, number: u64) -> Option<&KeptSubscription>
        ensures { MatchOption result (sub_numbered (seen self.now) number ≡ None)
            (λ x. sub_numbered (seen self.now) number ≡ Some (sub_row x.now)) }
    {
        self.tables.subscriptions.get(&number)
    }

    /// What a page shows of the topics with these numbers.
    fn topics_shown(&self, alloc: Global, numbers: &[u64]) -> Result<List<TopicShown>, OutOfMemory>
        ensures { IfOk result (λ items. items ≡ map topic_shown (rows_at topic_number numbers.now self.now.topics)) }
    {
        let mut items = List::new(alloc);
        for number in numbers {
            if let Some(topic) = self.topic_numbered(*number) {
                items.push(topic_shown(alloc, &topic.row)?)?;
            }
        }
        Ok(items)
    }

    /// What a page shows of the subscriptions with these numbers.
    fn subscriptions_shown(
        &self,
        alloc: Global,
        numbers: &[u64],
    ) -> Result<List<SubShown>, OutOfMemory>
        ensures { IfOk result (λ items. items ≡ map (sub_shown (seen self.now)) (rows_at sub_number numbers.now (seen self.now).subs)) }
    {
        let mut items = List::new(alloc);
        for number in numbers {
            if let Some(subscription) = self.subscription_numbered(*number) {
                items.push(self.sub_shown(alloc, subscription)?)?;
            }
        }
        Ok(items)
    }

    /// The names of the subscriptions with these numbers.
    fn subscription_names(&self, alloc: Global, numbers: &[u64]) -> Result<List<Text>, OutOfMemory>
        ensures { IfOk result (λ names. names ≡ map sub_name (rows_at sub_number numbers.now (seen self.now).subs)) }
    {
        let mut names = List::new(alloc);
        for number in numbers {
            if let Some(subscription) = self.subscription_numbered(*number) {
                names.push(Text::from_str(alloc, subscription.name.text())?)?;
            }
        }
        Ok(names)
    }
}

/// What the names of a project's resources of a kind begin with.
fn front_of(alloc: Global, project: &ProjectName, kind: &str) -> Result<String, OutOfMemory>
    ensures front { IfOk result (λ front. string_bytes front ≡ front_of kind.now project.now) }
    ensures grammar { IfOk result (λ _. is_project project.now ≡ true) }
{
    Ok(format!(in alloc; "projects/{}/{}/", project.text(), kind)?)
}

/// The size of a page for the size that is asked.
fn page_size(size: u32) -> usize
    ensures { result ≡ page_size size }
{
    match size {
        0 => DEFAULT_PAGE as usize,
        size => size.min(MOST_OF_PAGE) as usize,
    }
}
