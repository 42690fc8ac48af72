// Verdicts as texts, and the second core that takes what is recorded.
ghost use Rattle.std.specs.Prelude.{IfSome};
ghost use Rattle.ps_core.specs.Calls.{CanWrite};

use ps_base::OutOfMemory;
use ps_book::{Machine, Verdict};
use ps_core::Core;
use ps_model::{Command, Entry, ReceivedMessage, Reply, Stat};
use std::alloc::Global;

/// What becomes of the entry of a call.
#[derive(Clone, Copy)]
pub enum Recorded {
    Nothing,
    /// The other core doesn't take it.
    Refused,
    /// The other core takes it. This is its moment.
    At(u64),
}

/// What a call comes to.
#[derive(Drop)]
pub struct Answer {
    pub reply: String,
    pub recorded: Recorded,
}

fn text_of_received(alloc: Global, items: &[ReceivedMessage]) -> Result<String, OutOfMemory> {
    match items.last() {
        Some(last) => Ok(format!(in alloc;
            "200, {} received up to lease {}",
            items.len(),
            last.id.lease
        )?),
        None => Ok(String::from_str(alloc, "200, nothing received")?),
    }
}

fn text_of_reply(alloc: Global, reply: Reply) -> Result<String, OutOfMemory> {
    let text = match &reply {
        Reply::Published { first, number } => text_of_published(alloc, *first, *number),
        Reply::Received { items, .. } => text_of_received(alloc, items.as_slice()),
        Reply::Refused(refusal) => text_of_code(alloc, refusal.code()),
        _ => text_of_code(alloc, 200),
    };
    drop(reply);
    text
}

fn text_of_published(alloc: Global, first: u64, number: u32) -> Result<String, OutOfMemory> {
    Ok(format!(in alloc; "200, {number} published from {first}")?)
}

fn text_of_code(alloc: Global, code: u16) -> Result<String, OutOfMemory> {
    Ok(format!(in alloc; "{code}")?)
}

fn taken(copy: &mut Core, alloc: Global, entry: Entry) -> Result<Recorded, OutOfMemory> {
    let now = entry.now;
    let is_taken = copy.apply(alloc, &entry);
    drop(entry);
    Ok(if is_taken? {
        Recorded::At(now)
    } else {
        Recorded::Refused
    })
}

/// Gives a core the entry that a row spells.
pub fn replayed(copy: &mut Core, alloc: Global, row: &[u8]) -> Result<Recorded, OutOfMemory> {
    match Core::read_row(alloc, row) {
        Ok(Some(entry)) => taken(copy, alloc, entry),
        Ok(None) => Ok(Recorded::Refused),
        Err(error) => Err(error),
    }
}

/// Gives a core the row of an entry.
fn record(copy: &mut Core, alloc: Global, entry: Entry) -> Result<Recorded, OutOfMemory>
    requires { CanWrite entry }
{
    let row = Core::write_row(alloc, &entry);
    drop(entry);
    replayed(copy, alloc, row?.as_slice())
}

fn answer_of_verdict(
    copy: &mut Core,
    alloc: Global,
    verdict: Verdict<Reply, Entry>,
) -> Result<Answer, OutOfMemory>
    requires { IfSome verdict.entry CanWrite }
{
    let Verdict { reply, entry } = verdict;
    let reply = text_of_reply(alloc, reply);
    let recorded = match entry {
        Some(entry) => record(copy, alloc, entry),
        None => Ok(Recorded::Nothing),
    };
    Ok(Answer {
        reply: reply?,
        recorded: recorded?,
    })
}

fn judged(
    core: &mut Core,
    copy: &mut Core,
    alloc: Global,
    now: u64,
    command: &Command,
) -> Result<Answer, OutOfMemory> {
    match core.judge(alloc, now, command) {
        Ok(verdict) => answer_of_verdict(copy, alloc, verdict),
        Err(error) => Err(error),
    }
}

fn asked(
    core: &mut Core,
    copy: &mut Core,
    alloc: Global,
    now: u64,
    entry: Entry,
) -> Result<Answer, OutOfMemory> {
    let command = given(entry);
    let answer = judged(core, copy, alloc, now, &command);
    drop(command);
    answer
}

/// The command of a row, and of a pull for 1,000 messages one for all that a number can say, with a lease of 5 seconds.
fn given(entry: Entry) -> Command {
    match entry.command {
        Command::Pull {
            subscription,
            max: 1000,
            ..
        } => Command::Pull {
            subscription,
            max: u32::MAX,
            budget: u64::MAX,
            seconds: Some(5),
        },
        command => command,
    }
}

/// Gives the command of a row to one core, and what that records to the other one. None where it is no row.
pub fn call(
    core: &mut Core,
    copy: &mut Core,
    alloc: Global,
    now: u64,
    row: &[u8],
) -> Result<Option<Answer>, OutOfMemory> {
    match Core::read_row(alloc, row) {
        Ok(Some(entry)) => Ok(Some(asked(core, copy, alloc, now, entry)?)),
        Ok(None) => Ok(None),
        Err(error) => Err(error),
    }
}

pub fn text_of_recorded(alloc: Global, recorded: Recorded) -> Result<String, OutOfMemory> {
    match recorded {
        Recorded::Nothing => Ok(String::from_str(alloc, "not recorded")?),
        Recorded::Refused => Ok(String::from_str(alloc, "refused")?),
        Recorded::At(moment) => Ok(format!(in alloc; "recorded at {moment}")?),
    }
}

fn text_of_resources(alloc: Global, stat: Stat) -> Result<String, OutOfMemory> {
    Ok(format!(in alloc;
        "entries {}, now {}, topics {}, subscriptions {}, snapshots {}",
        stat.entries, stat.now, stat.topics, stat.subscriptions, stat.snapshots
    )?)
}

fn text_of_messages(alloc: Global, stat: Stat) -> Result<String, OutOfMemory> {
    Ok(format!(in alloc;
        "messages {}, backlog {}, leased {}, acknowledged {}, dead lettered {}",
        stat.messages, stat.backlog, stat.leased, stat.acknowledged, stat.dead_lettered
    )?)
}

pub fn text_of_stat(alloc: Global, stat: Stat) -> Result<String, OutOfMemory> {
    let resources = text_of_resources(alloc, stat)?;
    let messages = text_of_messages(alloc, stat)?;
    Ok(format!(in alloc; "{resources}, {messages}")?)
}
