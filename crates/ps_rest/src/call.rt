// What a verb, a target and a body ask.
ghost use Rattle.serde_json.specs.View.{view};
ghost use Rattle.ps_json.specs.Checks.{Reads};
ghost use Rattle.ps_rest.specs.Calls.{asked_by, routed};

use crate::body::read_body;
use crate::query::read_query;
use crate::routes::route_of;
use crate::target::{path_of, query_of};
use ps_json::{ReadError, command};
use ps_model::Command;
use serde_json::Value;
use std::alloc::Global;

/// The command that this verb, target and body ask, or the first check that they break. A target is a path and, behind
/// its first `?`, a query. A path that no call has with this verb isn't found.
pub fn command_for(
    alloc: Global,
    verb: &str,
    target: &str,
    body: &Value,
) -> Result<Command, ReadError>
    ensures { Reads result (asked_by verb.now target.now (view body.now)) }
{
    let route = route_of(alloc, verb, path_of(target))?;
    let query = read_query(alloc, query_of(target))?;
    command(alloc, route.call, &route.path, &query, body)
}

/// The command that this method, target and body ask, as `command_for`. A body that has no bytes is `{}`, and one that
/// isn't JSON is no object.
pub fn route(alloc: Global, method: &str, target: &str, body: &[u8]) -> Result<Command, ReadError>
    ensures { Reads result (routed method.now target.now body.now) }
{
    let route = route_of(alloc, method, path_of(target))?;
    let query = read_query(alloc, query_of(target))?;
    let body = read_body(alloc, body)?;
    command(alloc, route.call, &route.path, &query, &body)
}
