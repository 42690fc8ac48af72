// The bodies of errors.
ghost use Rattle.std.specs.Prelude.{◌≡◌, ◌++◌, map, IfOk, OnOk};
ghost use Rattle.serde_json.specs.View.{view};
ghost use Rattle.ps_json.specs.Replies.{error_data, refusal_data, detail_data, details_of, details_data, acked_data, acked_code};

use crate::print::message::ack_id;
use ps_base::{AckId, OutOfMemory, Refusal};
use serde_json::{Map, Value, json};
use std::alloc::{AllocError, Global};

/// Why an ack id did nothing.
const INVALID: &str = "PERMANENT_FAILURE_INVALID_ACK_ID";

const UNORDERED: &str = "UNORDERED_ACK_ID";

/// The body of a refusal.
pub fn refused(alloc: Global, refusal: &Refusal) -> Result<Value, OutOfMemory>
    ensures { IfOk result (λ value. view value ≡ refusal_data refusal.now) }
{
    let message = refusal.message(alloc)?;
    Ok(error_value(alloc, refusal.code(), message.as_str(), refusal.status())?)
}

/// The body of an error.
pub fn error_value(
    alloc: Global,
    code: u16,
    message: &str,
    status: &str,
) -> Result<Value, AllocError>
    ensures { IfOk result (λ value. view value ≡ error_data code message.now status.now) }
{
    json!(in alloc; {"error": {"code": code, "message": message, "status": status}})
}

/// The body that says which ack ids did nothing.
pub fn acked(alloc: Global, invalid: &[AckId], unordered: &[AckId]) -> Result<Value, OutOfMemory>
    ensures { IfOk result (λ value. view value ≡ acked_data (details_of invalid.now unordered.now)) }
{
    let mut details = Vec::new(alloc);
    push_details(&mut details, alloc, invalid, INVALID)?;
    push_details(&mut details, alloc, unordered, UNORDERED)?;
    if details.is_empty() {
        return Ok(Value::Object(Map::new(alloc)));
    }
    Ok(details_value(alloc, details)?)
}

/// The code of such an answer.
pub fn acked_code(invalid: &[AckId], unordered: &[AckId]) -> u16
    ensures { result ≡ acked_code (details_of invalid.now unordered.now) }
{
    if invalid.is_empty() && unordered.is_empty() {
        200
    } else {
        400
    }
}

fn push_details(
    details: &mut Vec<Value>,
    alloc: Global,
    ids: &[AckId],
    reason: &str,
) -> Result<(), OutOfMemory>
    ensures { OnOk result (map view details.new.items
        ≡ map view details.old.items ++ map (detail_data reason.now) ids.now) }
{
    for id in ids {
        details.push(detail_value(alloc, *id, reason)?)?;
    }
    Ok(())
}

fn detail_value(alloc: Global, id: AckId, reason: &str) -> Result<Value, OutOfMemory>
    ensures { IfOk result (λ value. view value ≡ detail_data reason.now id) }
{
    let id = ack_id(alloc, id)?;
    Ok(json!(in alloc; {"ackId": id, "reason": reason})?)
}

fn details_value(alloc: Global, details: Vec<Value>) -> Result<Value, AllocError>
    ensures { IfOk result (λ value. view value ≡ details_data (map view details.items)) }
{
    json!(in alloc; {
        "error": {
            "code": 400,
            "details": details,
            "message": "ack ids",
            "status": "FAILED_PRECONDITION"
        }
    })
}
