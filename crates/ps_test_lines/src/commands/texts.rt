// Commands and refusals as texts.

use ps_base::{AckId, Labels, OutOfMemory};
use ps_json::ReadError;
use ps_message::Message;
use ps_model::{Command, Paging, SubConfig, TopicConfig};
use ps_names::{SubName, TopicName};
use std::alloc::Global;

fn text_of_labels(alloc: Global, labels: &Labels) -> Result<String, OutOfMemory> {
    let mut text = String::from_str(alloc, "{")?;
    for pair in labels.as_slice() {
        let one = format!(in alloc; "{}={};", pair.0, pair.1)?;
        text.push_str(one.as_str())?;
    }
    text.push('}')?;
    Ok(text)
}

fn text_of_message(alloc: Global, message: &Message) -> Result<String, OutOfMemory> {
    let attributes = text_of_labels(alloc, &message.attributes)?;
    let payload = message.payload.as_slice();
    Ok(format!(in alloc; " {payload:?} {attributes} \"{}\"", message.key.as_str())?)
}

fn text_of_messages(alloc: Global, messages: &[Message]) -> Result<String, OutOfMemory> {
    let mut text = String::new(alloc);
    for message in messages {
        let one = text_of_message(alloc, message)?;
        text.push_str(one.as_str())?;
    }
    Ok(text)
}

fn text_of_ids(alloc: Global, ids: &[AckId]) -> Result<String, OutOfMemory> {
    let mut text = String::new(alloc);
    for id in ids {
        let one = format!(in alloc; " {}/{}/{}", id.sub, id.message, id.lease)?;
        text.push_str(one.as_str())?;
    }
    Ok(text)
}

fn text_of_topic_settings(alloc: Global, config: &TopicConfig) -> Result<String, OutOfMemory> {
    let labels = text_of_labels(alloc, &config.labels)?;
    Ok(format!(in alloc; "{labels} {:?}", config.retention)?)
}

/// What is told of a subscription only if it is set: the modes, and the least and the greatest delay.
fn text_of_modes(alloc: Global, config: &SubConfig) -> Result<String, OutOfMemory> {
    let ordered = if config.ordering { " ordered" } else { "" };
    let once = if config.exactly_once { " once" } else { "" };
    let rests = match config.retry {
        Some(retry) => format!(in alloc; " rests {} to {}", retry.least, retry.most)?,
        None => String::new(alloc),
    };
    Ok(format!(in alloc; "{ordered}{once}{rests}")?)
}

/// The seconds of a lease, the retention, the expiration, the labels, the filter and the modes.
fn text_of_subscription_settings(alloc: Global, config: &SubConfig) -> Result<String, OutOfMemory> {
    let labels = text_of_labels(alloc, &config.labels)?;
    let modes = text_of_modes(alloc, config)?;
    Ok(format!(in alloc;
        "{} {} {:?} {labels} \"{}\"{modes}",
        config.ack_seconds,
        config.retention,
        config.expiration,
        config.filter.as_str()
    )?)
}

fn text_of_new_topic(
    alloc: Global,
    topic: &TopicName,
    config: &TopicConfig,
) -> Result<String, OutOfMemory> {
    let settings = text_of_topic_settings(alloc, config)?;
    Ok(format!(in alloc; "{} {settings}", topic.text())?)
}

fn text_of_changed_topic(
    alloc: Global,
    topic: &TopicName,
    mask: u32,
    config: &TopicConfig,
) -> Result<String, OutOfMemory> {
    let settings = text_of_topic_settings(alloc, config)?;
    Ok(format!(in alloc; "{} mask {mask} {settings}", topic.text())?)
}

fn text_of_new_subscription(
    alloc: Global,
    subscription: &SubName,
    topic: &TopicName,
    config: &SubConfig,
) -> Result<String, OutOfMemory> {
    let settings = text_of_subscription_settings(alloc, config)?;
    Ok(format!(in alloc; "{} {} {settings}", subscription.text(), topic.text())?)
}

fn text_of_changed_subscription(
    alloc: Global,
    subscription: &SubName,
    mask: u32,
    config: &SubConfig,
) -> Result<String, OutOfMemory> {
    let settings = text_of_subscription_settings(alloc, config)?;
    Ok(format!(in alloc; "{} mask {mask} {settings}", subscription.text())?)
}

fn text_of_publish(
    alloc: Global,
    topic: &TopicName,
    messages: &[Message],
) -> Result<String, OutOfMemory> {
    let messages = text_of_messages(alloc, messages)?;
    Ok(format!(in alloc; "{}{messages}", topic.text())?)
}

fn text_of_pull(
    alloc: Global,
    subscription: &SubName,
    max: u32,
    budget: u64,
    seconds: Option<u32>,
) -> Result<String, OutOfMemory> {
    Ok(format!(in alloc; "{} {max} {budget} {seconds:?}", subscription.text())?)
}

fn text_of_acknowledge(
    alloc: Global,
    subscription: &SubName,
    ids: &[AckId],
) -> Result<String, OutOfMemory> {
    let ids = text_of_ids(alloc, ids)?;
    Ok(format!(in alloc; "{}{ids}", subscription.text())?)
}

/// The ids, each with its seconds.
fn text_of_items(alloc: Global, items: &[(AckId, u32)]) -> Result<String, OutOfMemory> {
    let mut text = String::new(alloc);
    for (id, seconds) in items {
        let one = format!(in alloc; " {}/{}/{}={seconds}", id.sub, id.message, id.lease)?;
        text.push_str(one.as_str())?;
    }
    Ok(text)
}

fn text_of_modify(
    alloc: Global,
    subscription: &SubName,
    items: &[(AckId, u32)],
) -> Result<String, OutOfMemory> {
    let items = text_of_items(alloc, items)?;
    Ok(format!(in alloc; "{}{items}", subscription.text())?)
}

fn text_of_list(
    alloc: Global,
    call: &str,
    name: &str,
    paging: &Paging,
) -> Result<String, OutOfMemory> {
    Ok(format!(in alloc; "{call} {name} {} \"{}\"", paging.size, paging.after)?)
}

/// A call that asks no more than a name, or a part of a list.
fn text_of_named(alloc: Global, command: &Command) -> Result<String, OutOfMemory> {
    match command {
        Command::GetTopic { topic } => Ok(format!(in alloc; "GetTopic {}", topic.text())?),
        Command::DeleteTopic { topic } => Ok(format!(in alloc; "DeleteTopic {}", topic.text())?),
        Command::GetSubscription { subscription } => {
            Ok(format!(in alloc; "GetSubscription {}", subscription.text())?)
        }
        Command::DeleteSubscription { subscription } => {
            Ok(format!(in alloc; "DeleteSubscription {}", subscription.text())?)
        }
        Command::Detach { subscription } => {
            Ok(format!(in alloc; "Detach {}", subscription.text())?)
        }
        Command::ListTopics { project, paging } => {
            text_of_list(alloc, "ListTopics", project.text(), paging)
        }
        Command::ListSubscriptions { project, paging } => {
            text_of_list(alloc, "ListSubscriptions", project.text(), paging)
        }
        Command::ListTopicSubscriptions { topic, paging } => {
            text_of_list(alloc, "ListTopicSubscriptions", topic.text(), paging)
        }
        _ => Ok(String::from_str(alloc, "another")?),
    }
}

fn text_of_command(alloc: Global, command: &Command) -> Result<String, OutOfMemory> {
    match command {
        Command::CreateTopic { topic, config } => text_of_new_topic(alloc, topic, config),
        Command::UpdateTopic {
            topic,
            mask,
            config,
        } => text_of_changed_topic(alloc, topic, mask.0, config),
        Command::CreateSubscription {
            subscription,
            topic,
            config,
        } => text_of_new_subscription(alloc, subscription, topic, config),
        Command::UpdateSubscription {
            subscription,
            mask,
            config,
        } => text_of_changed_subscription(alloc, subscription, mask.0, config),
        Command::Publish { topic, messages } => text_of_publish(alloc, topic, messages.as_slice()),
        Command::Pull {
            subscription,
            max,
            budget,
            seconds,
        } => text_of_pull(alloc, subscription, *max, *budget, *seconds),
        Command::Acknowledge { subscription, ids } => text_of_acknowledge(
            alloc,
            subscription,
            ids.as_slice(),
        ),
        Command::ModifyAckDeadline {
            subscription,
            items,
        } => text_of_modify(alloc, subscription, items.as_slice()),
        _ => text_of_named(alloc, command),
    }
}

/// The code and the message of a refusal.
fn text_of_error(alloc: Global, error: &ReadError) -> Result<String, OutOfMemory> {
    match error {
        ReadError::Refused(refusal) => {
            let message = refusal.message(alloc)?;
            Ok(format!(in alloc; "{} {message}", refusal.code())?)
        }
        ReadError::OutOfMemory => Err(OutOfMemory),
    }
}

/// The fields of a command, or the code and the message of its refusal.
pub fn text_of_asked(
    alloc: Global,
    asked: Result<Command, ReadError>,
) -> Result<String, OutOfMemory> {
    let text = match &asked {
        Ok(command) => text_of_command(alloc, command),
        Err(error) => text_of_error(alloc, error),
    };
    drop(asked);
    text
}
