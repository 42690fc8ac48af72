// A change of deadlines.
ghost use Rattle.std.specs.Prelude.{◌≡◌, IfOk};
ghost use Rattle.serde_json.specs.View.{members_view};
ghost use Rattle.ps_json.specs.Checks.{Reads};
ghost use Rattle.ps_json.specs.Deliveries as spec;

use crate::bodies::acknowledging::ids_in;
use crate::bodies::fields::check_fields;
use crate::bodies::subscription::subscription_at;
use crate::read_error::{ReadError, refused};
use ps_base::{AckId, List, OutOfMemory, Reason};
use ps_config::MOST_ACK_SECONDS;
use ps_fields::{Object, whole};
use ps_model::Command;
use serde_json::{Map, Value};
use std::alloc::Global;

/// The command that sets deadlines on the subscription of this name, or the first check that is broken. All ids get the
/// same seconds, and none if no seconds are named: their messages are given back.
pub fn modify(alloc: Global, name: &str, fields: &Map<String, Value>) -> Result<Command, ReadError>
    ensures { Reads result (spec.modify name.now (members_view fields.now.entries)) }
{
    let subscription = subscription_at(alloc, name)?;
    check_fields(alloc, Object::ModifyAckDeadline, fields)?;
    let ids = ids_in(alloc, fields)?;
    let seconds = seconds_of(whole(fields, "ackDeadlineSeconds").unwrap_or(0))?;
    let items = items_of(alloc, seconds, ids.as_slice())?;
    Ok(Command::ModifyAckDeadline {
        subscription,
        items,
    })
}

/// The seconds, if a lease can have them.
fn seconds_of(seconds: i64) -> Result<u32, ReadError>
    ensures { Reads result (spec.deadline_read seconds) }
{
    match u32::try_from(seconds) {
        Ok(seconds) if seconds <= MOST_ACK_SECONDS => Ok(seconds),
        _ => Err(refused(Reason::AckDeadlineSeconds)),
    }
}

/// Each id with these seconds.
fn items_of(alloc: Global, seconds: u32, ids: &[AckId]) -> Result<List<(AckId, u32)>, OutOfMemory>
    ensures { IfOk result (λ items. items ≡ spec.items_of seconds ids.now) }
{
    let mut items = List::new(alloc);
    for id in ids {
        items.push((*id, seconds))?;
    }
    Ok(items)
}
