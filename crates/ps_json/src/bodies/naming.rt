// Calls that ask no more than a name.
ghost use Rattle.std.specs.Prelude.{◌≡◌, Ok, option_map};
ghost use Rattle.serde_json.specs.View.{members_view};
ghost use Rattle.ps_json.specs.Checks.{Reads, and_then, checked};
ghost use Rattle.ps_json.specs.Naming as spec;
ghost use Rattle.ps_model.specs.declared.command.Command.TheVariants as command;

use crate::bodies::subscription::subscription_at;
use crate::bodies::topic::topic_at;
use crate::named::{PathNames, sub_name, topic_name};
use crate::read_error::{ReadError, refused};
use ps_base::{Reason, Text};
use ps_model::Command;
use ps_names::{SubName, TopicName};
use serde_json::{Map, Value};
use std::alloc::Global;

/// The topic that a path names.
pub fn topic_in(alloc: Global, path: &PathNames) -> Result<TopicName, ReadError>
    ensures { Reads result (spec.topic_in path.now) }
{
    let name = topic_name(alloc, path)?;
    topic_at(alloc, name.as_str())
}

/// The subscription that a path names.
fn sub_in(alloc: Global, path: &PathNames) -> Result<SubName, ReadError>
    ensures { Reads result (spec.sub_in path.now) }
{
    let name = sub_name(alloc, path)?;
    subscription_at(alloc, name.as_str())
}

/// The command that shows a topic, or the refusal of its name.
pub fn get_topic(alloc: Global, path: &PathNames) -> Result<Command, ReadError>
    ensures { Reads result (and_then (spec.topic_in path.now) (λ topic. Ok (command.GetTopic topic))) }
{
    let topic = topic_in(alloc, path)?;
    Ok(Command::GetTopic { topic })
}

/// The command that deletes a topic, or the refusal of its name.
pub fn delete_topic(alloc: Global, path: &PathNames) -> Result<Command, ReadError>
    ensures { Reads result (and_then (spec.topic_in path.now) (λ topic. Ok (command.DeleteTopic topic))) }
{
    let topic = topic_in(alloc, path)?;
    Ok(Command::DeleteTopic { topic })
}

/// The command that shows a subscription, or the refusal of its name.
pub fn get_subscription(alloc: Global, path: &PathNames) -> Result<Command, ReadError>
    ensures { Reads result (and_then (spec.sub_in path.now) (λ subscription. Ok (command.GetSubscription subscription))) }
{
    let subscription = sub_in(alloc, path)?;
    Ok(Command::GetSubscription { subscription })
}

/// The command that deletes a subscription, or the refusal of its name.
pub fn delete_subscription(alloc: Global, path: &PathNames) -> Result<Command, ReadError>
    ensures { Reads result (and_then (spec.sub_in path.now) (λ subscription. Ok (command.DeleteSubscription subscription))) }
{
    let subscription = sub_in(alloc, path)?;
    Ok(Command::DeleteSubscription { subscription })
}

/// The command that detaches the subscription of this name, or the first check that is broken: no field is known.
pub fn detach(alloc: Global, name: &str, fields: &Map<String, Value>) -> Result<Command, ReadError>
    ensures { Reads result
        (checked (spec.detach_checks name.now (members_view fields.now.entries))
        (command.Detach name.now)) }
{
    let Some(subscription) = SubName::read(alloc, name)? else {
        return Err(refused(Reason::Name));
    };
    if let Some(field) = first_given(fields) {
        let field = Text::from_str(alloc, field)?;
        return Err(refused(Reason::UnknownField(field)));
    }
    Ok(Command::Detach { subscription })
}

/// The least name whose field isn't null.
fn first_given(fields: &Map<String, Value>) -> Option<&str>
    ensures { option_map (λ t. t.now) result ≡ spec.first_given (members_view fields.now.entries) }
{
    for (name, value) in fields.iter() {
        if !value.is_null() {
            return Some(name.as_str());
        }
    }
    None
}
