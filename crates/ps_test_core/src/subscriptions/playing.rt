// What is done with a subscription, and what it gives.
use super::begun::begun;
use super::texts::{
    add_tickets, text_of_counts, text_of_dead_letters, text_of_given, text_of_marks,
    text_of_numbers, yes_or_no,
};
use ps_base::{List, OutOfMemory};
use ps_model::{Handed, Holds, Ticket};
use ps_sub::{AckOutcome, ModifyOutcome, Sub};
use ps_transcript::{Case, cases, number};
use std::alloc::Global;
use std::process::Abort;
use std::test::Fail;

const LAST_MOMENT: u64 = 253402300799999;

/// Pulls at most so many messages, within a budget of bytes.
pub fn pulled(
    alloc: Global,
    sub: &mut Sub,
    at: u64,
    max: u32,
    budget: u64,
) -> Result<List<Handed>, Fail> {
    let leases_are_left = sub.next_lease() <= 1 << 61;
    leases_are_left.then_some(()).ok_or("no lease is left")?;
    Ok(sub.pull(alloc, at.min(LAST_MOMENT), max.min(1000), budget, 10)?)
}

/// A number of messages, and maybe `within` a budget. The budget is 10,000,000 otherwise.
fn pull(alloc: Global, sub: &mut Sub, at: u64, words: &str) -> Result<String, Fail> {
    let (max, budget) = words.split_once(" within ").unwrap_or((words, "10000000"));
    let max = max.parse::<u32>()?;
    let budget = number(budget)?;
    let given = pulled(alloc, sub, at, max, budget)?;
    Ok(text_of_given(alloc, given.as_slice())?)
}

fn ticket(word: &str) -> Result<Ticket, Fail> {
    let (message, lease) = word.split_once('.').ok_or("no lease")?;
    Ok(Ticket {
        number: number(message)?,
        lease: number(lease)?,
    })
}

fn tickets(alloc: Global, words: &str) -> Result<Vec<Ticket>, Fail> {
    let mut tickets = Vec::new(alloc);
    for word in words.split_whitespace() {
        tickets.push(ticket(word)?)?;
    }
    Ok(tickets)
}

/// What an acknowledgement did, and the tickets that it refused.
fn text_of_outcome(alloc: Global, outcome: AckOutcome) -> Result<String, OutOfMemory> {
    let word = if outcome.changed { "changed" } else { "same" };
    let mut text = String::from_str(alloc, word)?;
    add_tickets(alloc, &mut text, ", invalid", outcome.invalid.as_slice())?;
    add_tickets(
        alloc,
        &mut text,
        ", unordered",
        outcome.unordered.as_slice(),
    )?;
    Ok(text)
}

fn acknowledge(alloc: Global, sub: &mut Sub, words: &str) -> Result<String, Fail> {
    let tickets = tickets(alloc, words)?;
    let outcome = sub.acknowledge(alloc, tickets.as_slice())?;
    Ok(text_of_outcome(alloc, outcome)?)
}

/// A ticket and seconds.
fn item(word: &str) -> Result<(Ticket, u32), Fail> {
    let (lease, seconds) = word.split_once('=').ok_or("no seconds")?;
    Ok((ticket(lease)?, seconds.parse::<u32>()?))
}

fn items(alloc: Global, words: &str) -> Result<Vec<(Ticket, u32)>, Fail> {
    let mut items = Vec::new(alloc);
    for word in words.split_whitespace() {
        items.push(item(word)?)?;
    }
    Ok(items)
}

/// What a change of deadlines did, the tickets that it refused, and the dead letters that it made.
fn text_of_modified(alloc: Global, outcome: ModifyOutcome) -> Result<String, OutOfMemory> {
    let word = if outcome.changed { "changed" } else { "same" };
    let mut text = text_of_dead_letters(alloc, outcome.dead.as_slice())?;
    text.push_str(word)?;
    add_tickets(alloc, &mut text, ", invalid", outcome.invalid.as_slice())?;
    Ok(text)
}

fn modify(
    alloc: Global,
    sub: &mut Sub,
    forward: bool,
    at: u64,
    words: &str,
) -> Result<String, Fail> {
    let items = items(alloc, words)?;
    let outcome = sub.modify(alloc, at.min(LAST_MOMENT), items.as_slice(), forward)?;
    Ok(text_of_modified(alloc, outcome)?)
}

/// A call, after the leases failed that are over. `forward` says that there is a topic for dead letters.
fn called(
    alloc: Global,
    sub: &mut Sub,
    forward: bool,
    at: u64,
    call: &str,
    words: &str,
) -> Result<String, Fail> {
    let dead = sub.settle(alloc, at.min(LAST_MOMENT), forward)?;
    let dead = text_of_dead_letters(alloc, dead.as_slice())?;
    let did = match call {
        "pull" => pull(alloc, sub, at, words)?,
        "acknowledge" => acknowledge(alloc, sub, words)?,
        "modify" => modify(alloc, sub, forward, at, words)?,
        _ => return Err(Fail::new("no call")),
    };
    Ok(format!(in alloc; "{dead}{did}")?)
}

/// Nothing holds a message but the subscription.
fn no_holds(alloc: Global) -> Holds {
    Holds {
        topic_window: None,
        snapshots: List::new(alloc),
    }
}

fn expunged(alloc: Global, sub: &mut Sub, at: u64) -> Result<String, OutOfMemory> {
    sub.expunge(alloc, at.min(LAST_MOMENT), &no_holds(alloc))?;
    Ok(String::from_str(alloc, "expunged")?)
}

fn unacknowledged(alloc: Global, sub: &Sub) -> Result<String, OutOfMemory> {
    let numbers = sub.unacknowledged(alloc)?;
    text_of_numbers(alloc, numbers.as_slice())
}

fn marks(alloc: Global, sub: &Sub) -> Result<String, OutOfMemory> {
    let marks = sub.marks(alloc)?;
    text_of_marks(alloc, marks.as_slice())
}

fn answer_to(alloc: Global, sub: &mut Sub, forward: bool, asked: &str) -> Result<String, Fail> {
    let (at, rest) = asked.split_once(' ').ok_or("nothing is done")?;
    let at = number(at)?;
    let (what, rest) = rest.split_once(' ').unwrap_or((rest, ""));
    match what {
        "due" => Ok(yes_or_no(alloc, sub.is_due(at, &no_holds(alloc)))?),
        "expunge" => Ok(expunged(alloc, sub, at)?),
        "next-lease" => Ok(text_of_numbers(alloc, &[sub.next_lease()])?),
        "has" => Ok(yes_or_no(alloc, sub.has(number(rest)?))?),
        "counts" => Ok(text_of_counts(alloc, sub.counts())?),
        "unacknowledged" => Ok(unacknowledged(alloc, sub)?),
        "marks" => Ok(marks(alloc, sub)?),
        "drop-all" => Ok(yes_or_no(alloc, sub.drop_all())?),
        call => called(alloc, sub, forward, at, call, rest),
    }
}

fn expect(
    rt: &impl Abort,
    alloc: Global,
    sub: &mut Sub,
    forward: bool,
    case: Case,
) -> Result<(), Fail> {
    let answer = answer_to(alloc, sub, forward, case.asked)?;
    assert_eq!(rt; answer.as_str(), case.answer, "{}", case.asked);
    Ok(())
}

fn expect_each(
    rt: &impl Abort,
    alloc: Global,
    sub: &mut Sub,
    forward: bool,
    transcript: &str,
) -> Result<(), Fail> {
    for case in cases(alloc, transcript)?.as_slice() {
        expect(rt, alloc, sub, forward, *case)?;
    }
    Ok(())
}

/// A subscription of a kind with messages of these sizes. `forwarding` is `lettering` with a topic for dead letters.
fn begun_with(alloc: Global, kind: &str, sizes: &str) -> Result<(Sub, bool), Fail> {
    match kind {
        "forwarding" => Ok((begun(alloc, "lettering", sizes)?, true)),
        _ => Ok((begun(alloc, kind, sizes)?, false)),
    }
}

/// Plays a transcript on a subscription of this kind with messages of these sizes.
pub fn play(
    rt: &impl Abort,
    alloc: Global,
    kind: &str,
    sizes: &str,
    transcript: &str,
) -> Result<(), Fail> {
    let (mut sub, forward) = begun_with(alloc, kind, sizes)?;
    let result = expect_each(rt, alloc, &mut sub, forward, transcript);
    drop(sub);
    result
}

fn expect_alone(
    rt: &impl Abort,
    alloc: Global,
    kind: &str,
    sizes: &str,
    case: Case,
) -> Result<(), Fail> {
    let (mut sub, forward) = begun_with(alloc, kind, sizes)?;
    let result = expect(rt, alloc, &mut sub, forward, case);
    drop(sub);
    result
}

/// Plays each line of a transcript on a subscription of its own.
pub fn play_alone(
    rt: &impl Abort,
    alloc: Global,
    kind: &str,
    sizes: &str,
    transcript: &str,
) -> Result<(), Fail> {
    for case in cases(alloc, transcript)?.as_slice() {
        expect_alone(rt, alloc, kind, sizes, *case)?;
    }
    Ok(())
}
