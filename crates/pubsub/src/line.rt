// A line of a batch: the call that it asks, or the line that refuses it.
ghost use Rattle.std.specs.Prelude.{◌≡◌, ℕ, Err, IfOk};
ghost use Rattle.ps_rest.specs.Calls.{asked_by};
ghost use Rattle.pubsub.specs.Reading.{reading_of, reading_at};
ghost use Rattle.ps_json.specs.Shown.{shown};

use ps_base::{OutOfMemory, Refusal};
use ps_json::{BatchLine, ReadError, no_line, read_batch_line, refusal_line};
use ps_model::Command;
use ps_rest::command_for;
use ps_run::Reading;
use std::alloc::Global;

/// What these bytes, a line without its line feed, ask.
pub fn read_line(alloc: Global, bytes: &[u8]) -> Result<Reading<Command>, OutOfMemory>
    ensures { IfOk result (λ reading. reading ≡ reading_of bytes.now) }
{
    match read_batch_line(alloc, bytes)? {
        Some(line) => read_call(alloc, &line),
        None => Ok(Reading::Refused {
            text: no_line(alloc)?,
        }),
    }
}

fn read_call(alloc: Global, line: &BatchLine) -> Result<Reading<Command>, OutOfMemory>
    ensures { IfOk result (λ reading. reading
        ≡ reading_at (shown line.now).at
        (asked_by (shown line.now).verb (shown line.now).path (shown line.now).body)) }
{
    match command_for(alloc, line.verb.as_str(), line.path.as_str(), &line.body) {
        Ok(command) => Ok(Reading::Call {
            now: line.at,
            command,
        }),
        Err(ReadError::Refused(refusal)) => refuse(alloc, &refusal),
        Err(ReadError::OutOfMemory) => Err(OutOfMemory),
    }
}

fn refuse(alloc: Global, refusal: &Refusal) -> Result<Reading<Command>, OutOfMemory>
    ensures { IfOk result (λ reading. (now : ℕ) → reading ≡ reading_at now (Err refusal.now)) }
{
    Ok(Reading::Refused {
        text: refusal_line(alloc, refusal)?,
    })
}
