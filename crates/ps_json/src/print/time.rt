// Durations and moments as texts.
ghost use Rattle.std.specs.Prelude.{◌≡◌, ◌≤◌, ◌<◌, string_bytes, IfOk};
ghost use Rattle.serde_json.specs.View.{view};
ghost use Rattle.ps_model.specs.Timestamps.{date_of, date_text, time_text, timestamp};
ghost use Rattle.ps_json.specs.Times.{date_with, duration_text, duration_data, moment_data};

use jiff_core::civil;
use ps_base::{Moment, OutOfMemory};
use serde_json::Value;
use std::alloc::{AllocError, Global};

const DAY: u64 = 86_400_000;

/// A duration in milliseconds.
#[tactic(auto, unfolding(crate::specs::Times::duration_data))]
pub fn duration(alloc: Global, ms: u64) -> Result<Value, OutOfMemory>
    ensures { IfOk result (λ value. view value ≡ duration_data ms) }
{
    Ok(Value::String(duration_text(alloc, ms)?))
}

/// A moment in milliseconds since 1970.
#[tactic(auto, unfolding(crate::specs::Times::moment_data))]
pub fn moment(alloc: Global, ms: u64) -> Result<Value, OutOfMemory>
    ensures { IfOk result (λ value. view value ≡ moment_data ms) }
{
    Ok(Value::String(timestamp(alloc, Moment::of(ms))?))
}

fn duration_text(alloc: Global, ms: u64) -> Result<String, AllocError>
    ensures { IfOk result (λ text. string_bytes text ≡ duration_text ms) }
{
    let (seconds, millis) = (ms / 1_000, ms % 1_000);
    if millis == 0 {
        format!(in alloc; "{seconds}s")
    } else {
        format!(in alloc; "{seconds}.{millis:03}s")
    }
}

fn timestamp(alloc: Global, moment: Moment) -> Result<String, AllocError>
    ensures { IfOk result (λ text. string_bytes text ≡ timestamp moment) }
{
    let ms = moment.milliseconds();
    let date = date_text(alloc, date_of((ms / DAY) as u32))?;
    let clock = clock_text(alloc, ms)?;
    format!(in alloc; "{date}T{clock}Z")
}

fn date_text(alloc: Global, date: Day) -> Result<String, AllocError>
    requires year { date.year < 10000 }
    requires month { date.month < 100 }
    requires day { date.day < 100 }
    ensures { IfOk result (λ text. string_bytes text ≡ date_text (date_with date.year date.month date.day)) }
{
    let (year, month, day) = (date.year, date.month, date.day);
    format!(in alloc; "{year:04}-{month:02}-{day:02}")
}

fn clock_text(alloc: Global, ms: u64) -> Result<String, AllocError>
    ensures { IfOk result (λ text. string_bytes text ≡ time_text ms) }
{
    let hour = ms / 3_600_000 % 24;
    let minute = ms / 60_000 % 60;
    let second = ms / 1_000 % 60;
    let milli = ms % 1_000;
    format!(in alloc; "{hour:02}:{minute:02}:{second:02}.{milli:03}")
}

/// A day of the calendar from 1970 to 9999.
#[derive(Clone, Copy)]
struct Day {
    year: u16,
    month: u8,
    day: u8,
}

/// The day this many days after 1 January 1970.
fn date_of(days: u32) -> Day
    requires { days ≤ 2_932_896 }
    ensures date { date_with result.year result.month result.day ≡ date_of days }
    ensures year { result.year < 10000 }
    ensures month { result.month < 100 }
    ensures day { result.day < 100 }
{
    let date = civil::Date::from_unix_epoch_day(days as i64).unwrap();
    Day {
        year: date.year.unsigned_abs(),
        month: date.month,
        day: date.day,
    }
}
