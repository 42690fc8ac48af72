// What a subscription gives, as texts.
use ps_base::OutOfMemory;
use ps_model::{DeadLetter, Handed, Mark, Ticket};
use ps_sub::SubCounts;
use std::alloc::Global;

pub fn yes_or_no(alloc: Global, is_so: bool) -> Result<String, OutOfMemory> {
    Ok(String::from_str(alloc, if is_so { "yes" } else { "no" })?)
}

pub fn text_of_given(alloc: Global, given: &[Handed]) -> Result<String, OutOfMemory> {
    let mut text = String::from_str(alloc, "given")?;
    for handed in given {
        let (number, lease, failures) = (handed.number, handed.lease, handed.failures);
        let part = format!(in alloc; " {number}.{lease}.{failures}")?;
        text.push_str(part.as_str())?;
    }
    Ok(text)
}

/// Names the tickets behind a word, if there are any.
pub fn add_tickets(
    alloc: Global,
    text: &mut String,
    word: &str,
    tickets: &[Ticket],
) -> Result<(), OutOfMemory> {
    if !tickets.is_empty() {
        text.push_str(word)?;
    }
    for ticket in tickets {
        let (number, lease) = (ticket.number, ticket.lease);
        let part = format!(in alloc; " {number}.{lease}")?;
        text.push_str(part.as_str())?;
    }
    Ok(())
}

pub fn text_of_dead_letters(alloc: Global, dead: &[DeadLetter]) -> Result<String, OutOfMemory> {
    let mut text = String::new(alloc);
    for letter in dead {
        let (number, failures) = (letter.number, letter.failures);
        let part = format!(in alloc; "dead {number}.{failures}, ")?;
        text.push_str(part.as_str())?;
    }
    Ok(text)
}

pub fn text_of_counts(alloc: Global, counts: SubCounts) -> Result<String, OutOfMemory> {
    Ok(format!(in alloc;
        "{} in the backlog, {} leased, {} acknowledged, {} dead",
        counts.backlog, counts.leased, counts.acknowledged, counts.dead
    )?)
}

pub fn text_of_numbers(alloc: Global, numbers: &[u64]) -> Result<String, OutOfMemory> {
    let mut text = String::new(alloc);
    for number in numbers {
        if !text.is_empty() {
            text.push(' ')?;
        }
        let part = format!(in alloc; "{number}")?;
        text.push_str(part.as_str())?;
    }
    Ok(text)
}

fn text_of_mark(alloc: Global, mark: Mark) -> Result<String, OutOfMemory> {
    match mark {
        Mark::Leased { deadline, .. } => Ok(format!(in alloc; "leased until {deadline}")?),
        Mark::Ahead { failures } => Ok(format!(in alloc; "ahead after {failures} failures")?),
        _ => Ok(String::from_str(alloc, "otherwise")?),
    }
}

pub fn text_of_marks(alloc: Global, marks: &[(u64, Mark)]) -> Result<String, OutOfMemory> {
    let mut text = String::new(alloc);
    for (number, mark) in marks {
        if !text.is_empty() {
            text.push_str(", ")?;
        }
        let mark = text_of_mark(alloc, *mark)?;
        let part = format!(in alloc; "{number} {mark}")?;
        text.push_str(part.as_str())?;
    }
    Ok(text)
}
