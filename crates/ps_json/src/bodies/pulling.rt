// A pull.
ghost use Rattle.std.specs.Prelude.{◌≡◌};
ghost use Rattle.serde_json.specs.View.{members_view};
ghost use Rattle.ps_json.specs.Checks.{Reads};
ghost use Rattle.ps_json.specs.Deliveries as spec;

use crate::bodies::fields::check_fields;
use crate::bodies::subscription::subscription_at;
use crate::read_error::{ReadError, refused};
use ps_base::Reason;
use ps_fields::{Object, whole};
use ps_message::{MOST_BYTES, MOST_MESSAGES};
use ps_model::Command;
use serde_json::{Map, Value};
use std::alloc::Global;

/// The command that pulls from the subscription of this name, or the first check that is broken.
pub fn pull(alloc: Global, name: &str, fields: &Map<String, Value>) -> Result<Command, ReadError>
    ensures { Reads result (spec.pull name.now (members_view fields.now.entries)) }
{
    let subscription = subscription_at(alloc, name)?;
    check_fields(alloc, Object::Pull, fields)?;
    let max = size_of(whole(fields, "maxMessages").unwrap_or(0))?;
    Ok(Command::Pull {
        subscription,
        max,
        budget: MOST_BYTES,
        seconds: None,
    })
}

/// The number, or the most messages of a pull if it is more. A pull asks for one message at least.
fn size_of(max: i64) -> Result<u32, ReadError>
    ensures { Reads result (spec.size_read max) }
{
    if max < 1 {
        return Err(refused(Reason::MaxMessages));
    }
    Ok(pull_size(max))
}

/// The number, or the most messages of a pull if it is more, and 0 if it is negative.
fn pull_size(max: i64) -> u32
    ensures { result ≡ spec.pull_size max }
{
    u32::try_from(max.max(0))
        .unwrap_or(MOST_MESSAGES)
        .min(MOST_MESSAGES)
}
