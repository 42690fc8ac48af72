// The command that a call asks.
ghost use Rattle.std.specs.Prelude.{◌≡◌, Ok, IfOk, IfErr};
ghost use Rattle.serde_json.specs.View.{view, members_view};
ghost use Rattle.ps_json.specs.declared.call.CallKind.TheVariants as kind;
ghost use Rattle.ps_json.specs.declared.named.Query.{Query};
ghost use Rattle.ps_json.specs.declared.read_error.ReadError.TheVariants as error;
ghost use Rattle.ps_json.specs.Checks.{Reads, Refuses};
ghost use Rattle.ps_json.specs.Commands.{command_of, fields_of, unbuilt};
ghost use Rattle.ps_json.specs.Names.{call_name};

use crate::bodies::acknowledging::acknowledge;
use crate::bodies::listing::{list_subscriptions, list_topic_subscriptions, list_topics};
use crate::bodies::modifying::modify;
use crate::bodies::naming::{
    delete_subscription, delete_topic, detach, get_subscription, get_topic,
};
use crate::bodies::publishing::publish;
use crate::bodies::pulling::pull;
use crate::bodies::subscription::{create_subscription, update_subscription};
use crate::bodies::topic::{create_topic, update_topic};
use crate::named::{PathNames, Query, sub_name, topic_name};
use crate::read_error::{ReadError, refused};
use ps_base::{OutOfMemory, Reason, Refusal, Text};
use ps_model::Command;
use serde_json::{Map, Value};
use std::alloc::Global;

/// The calls of the API.
#[derive(Clone, Copy, Debug, PartialEq, Eq)]
pub enum CallKind {
    CreateTopic,
    UpdateTopic,
    GetTopic,
    DeleteTopic,
    ListTopics,
    ListTopicSubscriptions,
    ListTopicSnapshots,
    Publish,
    CreateSubscription,
    UpdateSubscription,
    GetSubscription,
    DeleteSubscription,
    ListSubscriptions,
    Pull,
    Acknowledge,
    ModifyAckDeadline,
    Seek,
    Detach,
    CreateSnapshot,
    UpdateSnapshot,
    GetSnapshot,
    DeleteSnapshot,
    ListSnapshots,
}

impl CallKind {
    /// The name of the call, as a caller reads it.
    pub fn name(self) -> &'static str
        ensures { result.now ≡ call_name self }
    {
        match self {
            CallKind::CreateTopic => "CreateTopic",
            CallKind::UpdateTopic => "UpdateTopic",
            CallKind::GetTopic => "GetTopic",
            CallKind::DeleteTopic => "DeleteTopic",
            CallKind::ListTopics => "ListTopics",
            CallKind::ListTopicSubscriptions => "ListTopicSubscriptions",
            CallKind::ListTopicSnapshots => "ListTopicSnapshots",
            CallKind::Publish => "Publish",
            CallKind::CreateSubscription => "CreateSubscription",
            CallKind::UpdateSubscription => "UpdateSubscription",
            CallKind::GetSubscription => "GetSubscription",
            CallKind::DeleteSubscription => "DeleteSubscription",
            CallKind::ListSubscriptions => "ListSubscriptions",
            CallKind::Pull => "Pull",
            CallKind::Acknowledge => "Acknowledge",
            CallKind::ModifyAckDeadline => "ModifyAckDeadline",
            CallKind::Seek => "Seek",
            CallKind::Detach => "Detach",
            CallKind::CreateSnapshot => "CreateSnapshot",
            CallKind::UpdateSnapshot => "UpdateSnapshot",
            CallKind::GetSnapshot => "GetSnapshot",
            CallKind::DeleteSnapshot => "DeleteSnapshot",
            CallKind::ListSnapshots => "ListSnapshots",
        }
    }
}

/// The command that a call asks by the names in its path, its query and its body, or the first check that is broken. A
/// call without a line here isn't built, and is refused before its body is looked at.
pub fn command(
    alloc: Global,
    call: CallKind,
    path: &PathNames,
    query: &Query,
    body: &Value,
) -> Result<Command, ReadError>
    ensures { Reads result (command_of call path.now query.now (view body.now)) }
{
    match call {
        CallKind::CreateTopic => create_topic_at(alloc, path, body),
        CallKind::UpdateTopic => update_topic_at(alloc, path, body),
        CallKind::GetTopic => get_topic(alloc, path),
        CallKind::DeleteTopic => delete_topic(alloc, path),
        CallKind::ListTopics => list_topics(alloc, path, query),
        CallKind::ListTopicSubscriptions => list_topic_subscriptions(alloc, path, query),
        CallKind::Publish => publish_at(alloc, path, body),
        CallKind::CreateSubscription => create_subscription_at(alloc, path, body),
        CallKind::UpdateSubscription => update_subscription_at(alloc, path, body),
        CallKind::GetSubscription => get_subscription(alloc, path),
        CallKind::DeleteSubscription => delete_subscription(alloc, path),
        CallKind::ListSubscriptions => list_subscriptions(alloc, path, query),
        CallKind::Pull => pull_at(alloc, path, body),
        CallKind::Acknowledge => acknowledge_at(alloc, path, body),
        CallKind::ModifyAckDeadline => modify_at(alloc, path, body),
        CallKind::Detach => detach_at(alloc, path, body),
        _ => Err(unbuilt(alloc, call)?),
    }
}

fn create_topic_at(alloc: Global, path: &PathNames, body: &Value) -> Result<Command, ReadError>
    ensures { (query : Query)
        → Reads result (command_of kind.CreateTopic path.now query (view body.now)) }
{
    let name = topic_name(alloc, path)?;
    create_topic(alloc, name.as_str(), fields_of(body)?)
}

fn update_topic_at(alloc: Global, path: &PathNames, body: &Value) -> Result<Command, ReadError>
    ensures { (query : Query)
        → Reads result (command_of kind.UpdateTopic path.now query (view body.now)) }
{
    let name = topic_name(alloc, path)?;
    update_topic(alloc, name.as_str(), fields_of(body)?)
}

fn publish_at(alloc: Global, path: &PathNames, body: &Value) -> Result<Command, ReadError>
    ensures { (query : Query)
        → Reads result (command_of kind.Publish path.now query (view body.now)) }
{
    let name = topic_name(alloc, path)?;
    publish(alloc, name.as_str(), fields_of(body)?)
}

fn create_subscription_at(
    alloc: Global,
    path: &PathNames,
    body: &Value,
) -> Result<Command, ReadError>
    ensures { (query : Query)
        → Reads result (command_of kind.CreateSubscription path.now query (view body.now)) }
{
    let name = sub_name(alloc, path)?;
    create_subscription(alloc, name.as_str(), fields_of(body)?)
}

fn update_subscription_at(
    alloc: Global,
    path: &PathNames,
    body: &Value,
) -> Result<Command, ReadError>
    ensures { (query : Query)
        → Reads result (command_of kind.UpdateSubscription path.now query (view body.now)) }
{
    let name = sub_name(alloc, path)?;
    update_subscription(alloc, name.as_str(), fields_of(body)?)
}

fn pull_at(alloc: Global, path: &PathNames, body: &Value) -> Result<Command, ReadError>
    ensures { (query : Query)
        → Reads result (command_of kind.Pull path.now query (view body.now)) }
{
    let name = sub_name(alloc, path)?;
    pull(alloc, name.as_str(), fields_of(body)?)
}

fn acknowledge_at(alloc: Global, path: &PathNames, body: &Value) -> Result<Command, ReadError>
    ensures { (query : Query)
        → Reads result (command_of kind.Acknowledge path.now query (view body.now)) }
{
    let name = sub_name(alloc, path)?;
    acknowledge(alloc, name.as_str(), fields_of(body)?)
}

fn modify_at(alloc: Global, path: &PathNames, body: &Value) -> Result<Command, ReadError>
    ensures { (query : Query)
        → Reads result (command_of kind.ModifyAckDeadline path.now query (view body.now)) }
{
    let name = sub_name(alloc, path)?;
    modify(alloc, name.as_str(), fields_of(body)?)
}

fn detach_at(alloc: Global, path: &PathNames, body: &Value) -> Result<Command, ReadError>
    ensures { (query : Query)
        → Reads result (command_of kind.Detach path.now query (view body.now)) }
{
    let name = sub_name(alloc, path)?;
    detach(alloc, name.as_str(), fields_of(body)?)
}

/// The fields of a body.
fn fields_of(body: &Value) -> Result<&Map<String, Value>, ReadError>
    ensures fields { IfOk result (λ fields. fields_of (view body.now) ≡ Ok (members_view fields.now.entries)) }
    ensures refusal { IfErr result (λ e. Refuses e (fields_of (view body.now))) }
{
    match body.as_object() {
        Some(fields) => Ok(fields),
        None => Err(refused(Reason::Body)),
    }
}

/// The error of a call that isn't built. Fails only if out of memory.
fn unbuilt(alloc: Global, call: CallKind) -> Result<ReadError, OutOfMemory>
    ensures { IfOk result (λ e. e ≡ error.Refused (unbuilt call)) }
{
    let name = Text::from_str(alloc, call.name())?;
    Ok(ReadError::Refused(Refusal::Unimplemented(name)))
}
