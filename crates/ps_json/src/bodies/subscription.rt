// Calls on a subscription that read or change its settings.
ghost use Rattle.serde_json.specs.View.{members_view};
ghost use Rattle.ps_names.specs.Names.{is_sub_name};
ghost use Rattle.ps_json.specs.Checks.{Reads, name_read};
ghost use Rattle.ps_json.specs.Creations.{create_subscription, topic_read};
ghost use Rattle.ps_json.specs.Updates.{update_subscription};

use crate::bodies::fields::check_fields;
use crate::bodies::resource::{check_built, check_name, mask_in, read_mask, resource_in};
use crate::masks::names_in;
use crate::read_error::{ReadError, refused};
use crate::settings::{changed_subscription, new_subscription};
use ps_base::Reason;
use ps_fields::{Object, text};
use ps_model::Command;
use ps_names::{SubName, TopicName};
use serde_json::{Map, Value};
use std::alloc::Global;

/// The command that creates the subscription of this name, or the first check that is broken.
pub fn create_subscription(
    alloc: Global,
    name: &str,
    fields: &Map<String, Value>,
) -> Result<Command, ReadError>
    ensures { Reads result (create_subscription name.now (members_view fields.now.entries)) }
{
    check_built(alloc, Object::Subscription, "", fields, &[])?;
    let subscription = subscription_at(alloc, name)?;
    check_fields(alloc, Object::Subscription, fields)?;
    check_name(fields, name)?;
    let topic = topic_of(alloc, fields)?;
    let config = new_subscription(alloc, fields)?;
    Ok(Command::CreateSubscription {
        subscription,
        topic,
        config,
    })
}

/// The command that updates the subscription of this name, or the first check that is broken.
pub fn update_subscription(
    alloc: Global,
    name: &str,
    fields: &Map<String, Value>,
) -> Result<Command, ReadError>
    ensures { Reads result (update_subscription name.now (members_view fields.now.entries)) }
{
    let empty = Map::new(alloc);
    let settings = resource_in(fields, "subscription", &empty);
    let names = names_in(alloc, mask_in(fields))?;
    check_built(
        alloc,
        Object::Subscription,
        "subscription.",
        settings,
        names.as_slice(),
    )?;
    let subscription = subscription_at(alloc, name)?;
    check_fields(alloc, Object::SubscriptionUpdate, fields)?;
    check_name(settings, name)?;
    let mask = read_mask(Object::Subscription, names.as_slice())?;
    let config = changed_subscription(alloc, settings, mask)?;
    Ok(Command::UpdateSubscription {
        subscription,
        mask,
        config,
    })
}

/// The subscription of this name.
pub fn subscription_at(alloc: Global, name: &str) -> Result<SubName, ReadError>
    ensures { Reads result (name_read (is_sub_name name.now) name.now) }
{
    match SubName::read(alloc, name)? {
        Some(subscription) => Ok(subscription),
        None => Err(refused(Reason::Name)),
    }
}

/// The topic that a new subscription is attached to.
fn topic_of(alloc: Global, fields: &Map<String, Value>) -> Result<TopicName, ReadError>
    ensures { Reads result (topic_read (members_view fields.now.entries)) }
{
    match TopicName::read(alloc, text(fields, "topic").unwrap_or(""))? {
        Some(topic) => Ok(topic),
        None => Err(refused(Reason::Topic)),
    }
}
