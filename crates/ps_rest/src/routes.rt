// Which call a line's verb and path name.
ghost use Rattle.std.specs.Prelude.{◌≡◌, Some, IfOk};
ghost use Rattle.ps_base.specs.declared.refusal.Refusal.TheVariants.{NotFound};
ghost use Rattle.ps_json.specs.Checks.{Reads};
ghost use Rattle.ps_json.specs.declared.read_error.ReadError.TheVariants as error;
ghost use Rattle.ps_rest.specs.Routes as spec;

use crate::target::decoded;
use ps_base::{Duplicate, List, OutOfMemory, Reason, Refusal, Text};
use ps_json::{CallKind, PathNames, ReadError};
use ps_names::parts_of;
use std::alloc::Global;

/// A call, and the names in its path.
#[derive(Drop)]
pub struct Route {
    pub call: CallKind,
    pub path: PathNames,
}

/// What a path names in a collection of a project.
#[derive(Clone, Copy)]
enum Subject<'a> {
    /// The whole collection.
    Collection,
    /// A resource.
    Resource,
    /// A resource, and behind a `:` a custom verb.
    Custom(&'a str),
    /// A resource, and behind a `/` a list that belongs to it.
    Sublist(&'a str),
}

/// The call of this verb and path. A part of the path that isn't UTF-8 once it is decoded is refused, and a path that no
/// call has with this verb isn't found.
pub fn route_of(alloc: Global, verb: &str, path: &str) -> Result<Route, ReadError>
    ensures { Reads result (spec.route_of verb.now path.now) }
{
    let Some(rest) = path.strip_prefix("/v1/") else {
        return Err(no_route(alloc, path)?);
    };
    match decoded_parts(alloc, rest)? {
        Some(parts) => known_route(alloc, verb, path, parts.as_slice()),
        None => Err(ReadError::Refused(Refusal::InvalidArgument(Reason::Path))),
    }
}

fn decoded_parts(alloc: Global, rest: &str) -> Result<Option<List<Text>>, OutOfMemory>
    ensures { IfOk result (λ parts. parts ≡ spec.parts_in rest.now) }
{
    let parts = parts_of(alloc, rest)?;
    decoded(alloc, parts.as_slice())
}

/// The route to what these parts name. The path is told if there is none.
fn known_route(alloc: Global, verb: &str, path: &str, parts: &[Text]) -> Result<Route, ReadError>
    ensures { Reads result (spec.known_route path.now (spec.route_at verb.now parts.now)) }
{
    match route_at(alloc, verb, parts)? {
        Some(route) => Ok(route),
        None => Err(no_route(alloc, path)?),
    }
}

/// The error of a path that no call has with its verb. Fails only if out of memory.
fn no_route(alloc: Global, path: &str) -> Result<ReadError, OutOfMemory>
    ensures { IfOk result (λ e. e ≡ error.Refused (NotFound path.now)) }
{
    let path = Text::from_str(alloc, path)?;
    Ok(ReadError::Refused(Refusal::NotFound(path)))
}

fn route_at(alloc: Global, verb: &str, parts: &[Text]) -> Result<Option<Route>, OutOfMemory>
    ensures { IfOk result (λ route. route ≡ spec.route_at verb.now parts.now) }
{
    match parts {
        [projects, rest @ ..] if projects.as_str() == "projects" => route_in(alloc, verb, rest),
        _ => Ok(None),
    }
}

/// The route to what these parts name, which stand behind `projects`.
fn route_in(alloc: Global, verb: &str, parts: &[Text]) -> Result<Option<Route>, OutOfMemory>
    ensures { IfOk result (λ route. route ≡ spec.route_in verb.now parts.now) }
{
    match parts {
        [project, collection] => {
            let call = call_of(verb, collection.as_str(), Subject::Collection);
            route_to(alloc, call, project, "")
        }
        [project, collection, last] => {
            let last = last.as_str();
            let call = call_of(verb, collection.as_str(), subject_of(last));
            route_to(alloc, call, project, id_of(last))
        }
        [project, collection, id, list] => {
            let call = call_of(verb, collection.as_str(), Subject::Sublist(list.as_str()));
            route_to(alloc, call, project, id.as_str())
        }
        _ => Ok(None),
    }
}

fn route_to(
    alloc: Global,
    call: Option<CallKind>,
    project: &Text,
    id: &str,
) -> Result<Option<Route>, OutOfMemory>
    ensures { IfOk result (λ route. route ≡ spec.route_to project.now id.now call) }
{
    let Some(call) = call else {
        return Ok(None);
    };
    let project = project.copy(alloc)?;
    let id = Text::from_str(alloc, id)?;
    let path = PathNames { project, id };
    Ok(Some(Route { call, path }))
}

/// What stands before the first `:` of a path's last part.
fn id_of(last: &str) -> &str
    ensures { result.now ≡ spec.id_of last.now }
{
    match last.split_once(':') {
        Some((id, _)) => id,
        None => last,
    }
}

/// A resource with the custom verb behind the first `:`, if there is one.
fn subject_of(last: &str) -> Subject<'_>
    ensures { spec.subject_in result ≡ spec.subject_of last.now }
{
    match last.split_once(':') {
        Some((_, verb)) => Subject::Custom(verb),
        None => Subject::Resource,
    }
}

/// The call of this verb on a subject in this collection. Each call is a row here.
fn call_of(verb: &str, collection: &str, subject: Subject<'_>) -> Option<CallKind>
    ensures { result ≡ spec.call_of verb.now collection.now (spec.subject_in subject.entry) }
{
    let call = match (verb, collection, subject) {
        ("PUT", "topics", Subject::Resource) => CallKind::CreateTopic,
        ("PATCH", "topics", Subject::Resource) => CallKind::UpdateTopic,
        ("GET", "topics", Subject::Resource) => CallKind::GetTopic,
        ("DELETE", "topics", Subject::Resource) => CallKind::DeleteTopic,
        ("GET", "topics", Subject::Collection) => CallKind::ListTopics,
        ("GET", "topics", Subject::Sublist("subscriptions")) => CallKind::ListTopicSubscriptions,
        ("GET", "topics", Subject::Sublist("snapshots")) => CallKind::ListTopicSnapshots,
        ("POST", "topics", Subject::Custom("publish")) => CallKind::Publish,
        ("PUT", "subscriptions", Subject::Resource) => CallKind::CreateSubscription,
        ("PATCH", "subscriptions", Subject::Resource) => CallKind::UpdateSubscription,
        ("GET", "subscriptions", Subject::Resource) => CallKind::GetSubscription,
        ("DELETE", "subscriptions", Subject::Resource) => CallKind::DeleteSubscription,
        ("GET", "subscriptions", Subject::Collection) => CallKind::ListSubscriptions,
        ("POST", "subscriptions", Subject::Custom("pull")) => CallKind::Pull,
        ("POST", "subscriptions", Subject::Custom("acknowledge")) => CallKind::Acknowledge,
        ("POST", "subscriptions", Subject::Custom("modifyAckDeadline")) =>
            CallKind::ModifyAckDeadline,
        ("POST", "subscriptions", Subject::Custom("seek")) => CallKind::Seek,
        ("POST", "subscriptions", Subject::Custom("detach")) => CallKind::Detach,
        ("PUT", "snapshots", Subject::Resource) => CallKind::CreateSnapshot,
        ("PATCH", "snapshots", Subject::Resource) => CallKind::UpdateSnapshot,
        ("GET", "snapshots", Subject::Resource) => CallKind::GetSnapshot,
        ("DELETE", "snapshots", Subject::Resource) => CallKind::DeleteSnapshot,
        ("GET", "snapshots", Subject::Collection) => CallKind::ListSnapshots,
        _ => return None,
    };
    Some(call)
}
