// Entries as texts: the moment, and the fields of the command.
use ps_base::{AckId, Duplicate, Labels, Octets, OutOfMemory};
use ps_entry::{is_recorded, read, write};
use ps_message::Message;
use ps_model::{Command, Entry, SubConfig, TopicConfig};
use std::alloc::Global;

fn text_of_labels(alloc: Global, labels: &Labels) -> Result<String, OutOfMemory> {
    let mut text = String::from_str(alloc, "{")?;
    for pair in labels.as_slice() {
        let one = format!(in alloc; "{}={};", pair.0, pair.1)?;
        text.push_str(one.as_str())?;
    }
    text.push('}')?;
    Ok(text)
}

fn text_of_topic(alloc: Global, config: &TopicConfig) -> Result<String, OutOfMemory> {
    let labels = text_of_labels(alloc, &config.labels)?;
    Ok(format!(in alloc; "{labels} {:?}", config.retention)?)
}

fn text_of_lifetimes(alloc: Global, config: &SubConfig) -> Result<String, OutOfMemory> {
    let labels = text_of_labels(alloc, &config.labels)?;
    Ok(format!(in alloc;
        "{} {} {} {labels}",
        config.ack_seconds, config.retain_acked, config.retention
    )?)
}

fn text_of_failing(alloc: Global, config: &SubConfig) -> Result<String, OutOfMemory> {
    let dead_letter = match &config.dead_letter {
        Some(policy) => format!(in alloc; "{} {}", policy.topic.text(), policy.attempts)?,
        None => format!(in alloc; "none")?,
    };
    let retry = match &config.retry {
        Some(policy) => format!(in alloc; "{} {}", policy.least, policy.most)?,
        None => format!(in alloc; "none")?,
    };
    Ok(format!(in alloc; "{dead_letter} {retry} {}", config.exactly_once)?)
}

fn text_of_subscription(alloc: Global, config: &SubConfig) -> Result<String, OutOfMemory> {
    let lives = text_of_lifetimes(alloc, config)?;
    let failing = text_of_failing(alloc, config)?;
    let filter = config.filter.as_str();
    Ok(format!(in alloc;
        "{lives} {} {:?} \"{filter}\" {failing}",
        config.ordering, config.expiration
    )?)
}

fn text_of_message(alloc: Global, message: &Message) -> Result<String, OutOfMemory> {
    let attributes = text_of_labels(alloc, &message.attributes)?;
    let payload = message.payload.as_slice();
    Ok(format!(in alloc; " {payload:?} {attributes} \"{}\"", message.key.as_str())?)
}

fn text_of_messages(alloc: Global, messages: &[Message]) -> Result<String, OutOfMemory> {
    let mut text = String::new(alloc);
    for message in messages {
        let one = text_of_message(alloc, message)?;
        text.push_str(one.as_str())?;
    }
    Ok(text)
}

fn text_of_ids(alloc: Global, ids: &[AckId]) -> Result<String, OutOfMemory> {
    let mut text = String::new(alloc);
    for id in ids {
        let one = format!(in alloc; " {}/{}/{}", id.sub, id.message, id.lease)?;
        text.push_str(one.as_str())?;
    }
    Ok(text)
}

fn text_of_items(alloc: Global, items: &[(AckId, u32)]) -> Result<String, OutOfMemory> {
    let mut text = String::new(alloc);
    for (id, seconds) in items {
        let one = format!(in alloc; " {}/{}/{}/{seconds}", id.sub, id.message, id.lease)?;
        text.push_str(one.as_str())?;
    }
    Ok(text)
}

fn text_of_topic_command(alloc: Global, command: &Command) -> Result<String, OutOfMemory> {
    match command {
        Command::CreateTopic { topic, config } => {
            let config = text_of_topic(alloc, config)?;
            Ok(format!(in alloc; "{} {config}", topic.text())?)
        }
        Command::UpdateTopic {
            topic,
            mask,
            config,
        } => {
            let config = text_of_topic(alloc, config)?;
            Ok(format!(in alloc; "{} update {} {config}", topic.text(), mask.0)?)
        }
        Command::DeleteTopic { topic } => Ok(format!(in alloc; "{} delete", topic.text())?),
        Command::Publish { topic, messages } => {
            let messages = text_of_messages(alloc, messages.as_slice())?;
            Ok(format!(in alloc; "{}{messages}", topic.text())?)
        }
        _ => Ok(format!(in alloc; "another")?),
    }
}

fn text_of_subscription_command(alloc: Global, command: &Command) -> Result<String, OutOfMemory> {
    match command {
        Command::CreateSubscription {
            subscription,
            topic,
            config,
        } => {
            let config = text_of_subscription(alloc, config)?;
            Ok(format!(in alloc; "{} {} {config}", subscription.text(), topic.text())?)
        }
        Command::UpdateSubscription {
            subscription,
            mask,
            config,
        } => {
            let config = text_of_subscription(alloc, config)?;
            Ok(format!(in alloc; "{} update {} {config}", subscription.text(), mask.0)?)
        }
        Command::DeleteSubscription { subscription } => {
            Ok(format!(in alloc; "{} delete", subscription.text())?)
        }
        Command::Detach { subscription } => {
            Ok(format!(in alloc; "{} detach", subscription.text())?)
        }
        _ => Ok(format!(in alloc; "another")?),
    }
}

fn text_of_snapshot_command(alloc: Global, command: &Command) -> Result<String, OutOfMemory> {
    match command {
        Command::CreateSnapshot {
            snapshot,
            subscription,
            labels,
        } => {
            let labels = text_of_labels(alloc, labels)?;
            Ok(format!(in alloc; "{} {} {labels}", snapshot.text(), subscription.text())?)
        }
        Command::UpdateSnapshot { snapshot, labels } => {
            let labels = text_of_labels(alloc, labels)?;
            Ok(format!(in alloc; "{} update {labels}", snapshot.text())?)
        }
        Command::DeleteSnapshot { snapshot } => {
            Ok(format!(in alloc; "{} delete", snapshot.text())?)
        }
        _ => Ok(format!(in alloc; "another")?),
    }
}

fn text_of_delivery_command(alloc: Global, command: &Command) -> Result<String, OutOfMemory> {
    match command {
        Command::Pull {
            subscription,
            max,
            budget,
            seconds,
        } => { Ok(format!(in alloc; "{} {max} {budget} {seconds:?}", subscription.text())?) }
        Command::Acknowledge { subscription, ids } => {
            let ids = text_of_ids(alloc, ids.as_slice())?;
            Ok(format!(in alloc; "{}{ids}", subscription.text())?)
        }
        Command::ModifyAckDeadline {
            subscription,
            items,
        } => {
            let items = text_of_items(alloc, items.as_slice())?;
            Ok(format!(in alloc; "{}{items}", subscription.text())?)
        }
        Command::SeekTime { subscription, time } => {
            Ok(format!(in alloc; "{} seek {time}", subscription.text())?)
        }
        Command::SeekSnapshot {
            subscription,
            snapshot,
        } => { Ok(format!(in alloc; "{} seek {}", subscription.text(), snapshot.text())?) }
        _ => Ok(format!(in alloc; "another")?),
    }
}

/// The fields of a command of those that are recorded.
fn text_of_command(alloc: Global, command: &Command) -> Result<String, OutOfMemory> {
    match command {
        Command::Tick => Ok(format!(in alloc; "tick")?),
        Command::CreateTopic { .. }
        | Command::UpdateTopic { .. }
        | Command::DeleteTopic { .. }
        | Command::Publish { .. } => text_of_topic_command(alloc, command),
        Command::CreateSubscription { .. }
        | Command::UpdateSubscription { .. }
        | Command::DeleteSubscription { .. }
        | Command::Detach { .. } => text_of_subscription_command(alloc, command),
        Command::CreateSnapshot { .. }
        | Command::UpdateSnapshot { .. }
        | Command::DeleteSnapshot { .. } => text_of_snapshot_command(alloc, command),
        _ => text_of_delivery_command(alloc, command),
    }
}

fn text_of_entry(alloc: Global, entry: &Entry) -> Result<String, OutOfMemory> {
    let command = text_of_command(alloc, &entry.command)?;
    Ok(format!(in alloc; "{} {command}", entry.now)?)
}

fn text_of(alloc: Global, entry: Entry) -> Result<String, OutOfMemory> {
    let text = text_of_entry(alloc, &entry);
    drop(entry);
    text
}

/// What a copy of the entry is.
fn text_of_copy(alloc: Global, entry: Entry) -> Result<String, OutOfMemory> {
    let copy = entry.copy(alloc);
    drop(entry);
    match copy {
        Ok(copy) => text_of(alloc, copy),
        Err(error) => Err(error),
    }
}

/// The bytes of an entry. None where its command has no spelling.
fn written(alloc: Global, entry: Entry) -> Result<Option<Octets>, OutOfMemory> {
    let bytes = if is_recorded(&entry.command) {
        write(alloc, &entry).map(Some)
    } else {
        Ok(None)
    };
    drop(entry);
    bytes
}

/// What a row spells.
pub fn text_of_row(alloc: Global, row: &[u8]) -> Result<String, OutOfMemory> {
    match read(alloc, row) {
        Ok(Some(entry)) => text_of(alloc, entry),
        Ok(None) => Ok(String::from_str(alloc, "none")?),
        Err(error) => Err(error),
    }
}

/// What the copy of an entry is that a row spells.
pub fn text_of_copied_row(alloc: Global, row: &[u8]) -> Result<String, OutOfMemory> {
    match read(alloc, row) {
        Ok(Some(entry)) => text_of_copy(alloc, entry),
        Ok(None) => Ok(String::from_str(alloc, "none")?),
        Err(error) => Err(error),
    }
}

fn written_again(alloc: Global, row: &[u8]) -> Result<Option<Octets>, OutOfMemory> {
    match read(alloc, row) {
        Ok(Some(entry)) => written(alloc, entry),
        Ok(None) => Ok(None),
        Err(error) => Err(error),
    }
}

/// Whether a row spells an entry whose bytes are that row.
pub fn is_written_again(alloc: Global, row: &[u8]) -> Result<bool, OutOfMemory> {
    match written_again(alloc, row)? {
        Some(bytes) => Ok(bytes.as_slice() == row),
        None => Ok(false),
    }
}

fn is_some(entry: Option<Entry>) -> bool {
    entry.is_some()
}

pub fn is_entry(alloc: Global, row: &[u8]) -> Result<bool, OutOfMemory> {
    match read(alloc, row) {
        Ok(entry) => Ok(is_some(entry)),
        Err(error) => Err(error),
    }
}
