ghost use Rattle.std.specs.Prelude.{◌≡◌, ◌++◌, IfOk, OnOk, string_bytes};
ghost use Rattle.pubsub.specs.Numbers.{number_line, check_text, stat_text};

use ps_base::{Octets, OutOfMemory};
use ps_model::Stat;
use std::alloc::{AllocError, Global};
use std::fmt::Write;

/// Adds a line: a name, and its number.
fn push_line(text: &mut String, name: &str, number: u64) -> Result<(), AllocError>
    ensures { OnOk result (string_bytes text.new ≡ string_bytes text.old ++ number_line name.now number) }
{
    writeln!(text, "{name} {number}")
}

/// The line of `check`, with the number of entries.
pub fn check_text(alloc: Global, count: u64) -> Result<Octets, OutOfMemory>
    ensures { IfOk result (λ text. text ≡ check_text count) }
{
    let mut text = String::new(alloc);
    push_line(&mut text, "ok", count)?;
    Ok(Octets::from_vec(text.into_bytes()))
}

/// The ten lines of `stat`.
pub fn stat_text(alloc: Global, stat: Stat) -> Result<Octets, OutOfMemory>
    ensures { IfOk result (λ text. text ≡ stat_text stat) }
{
    let mut text = String::new(alloc);
    push_line(&mut text, "entries", stat.entries)?;
    push_line(&mut text, "now", stat.now)?;
    push_line(&mut text, "topics", stat.topics)?;
    push_line(&mut text, "subscriptions", stat.subscriptions)?;
    push_line(&mut text, "snapshots", stat.snapshots)?;
    push_line(&mut text, "messages", stat.messages)?;
    push_line(&mut text, "backlog", stat.backlog)?;
    push_line(&mut text, "leased", stat.leased)?;
    push_line(&mut text, "acknowledged", stat.acknowledged)?;
    push_line(&mut text, "dead-lettered", stat.dead_lettered)?;
    Ok(Octets::from_vec(text.into_bytes()))
}
