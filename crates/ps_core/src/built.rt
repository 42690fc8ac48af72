ghost use Rattle.std.specs.Prelude.{◌≡◌, ◌∷◌, [], Some, None, IfOk, MatchOption, not, option_map};
ghost use Rattle.ps_base.specs.declared.reason.Reason.TheVariants.{UpdateMask};
ghost use Rattle.std.specs.List.{list_any};
ghost use Rattle.ps_config.specs.Limits.{sub_fault, topic_fault};
ghost use Rattle.ps_message.specs.Lists.{first_of};
ghost use Rattle.ps_message.specs.Messages.{broken};
ghost use Rattle.ps_model.specs.Checks.{argument_fault, as_read, has_long_deadline, lease_seconds};
ghost use Rattle.ps_config.specs.Masks.{default_sub, default_topic, is_mask, masked_sub, masked_topic};
ghost use Rattle.ps_core.specs.Calls.{is_tick};
ghost use Rattle.ps_core.specs.Built.{unbuilt, unbuilt_topic_setting, unbuilt_sub_setting, unbuilt_topic_mask, unbuilt_sub_mask};

use ps_base::{AckId, Duplicate, OutOfMemory, Reason};
use ps_config::{
    DEFAULT_RETENTION, LEAST_ACK_SECONDS, MOST_ACK_SECONDS, Mask, apply_sub, apply_topic,
    check_sub, check_topic,
};
use ps_message::{MOST_BYTES, MOST_MESSAGES, check_publish};
use ps_model::{Command, SubConfig, TopicConfig, check_new_sub};
use std::alloc::Global;

fn unbuilt_topic_setting(config: &TopicConfig) -> Option<&'static str>
    ensures name { MatchOption result (unbuilt_topic_setting config.now ≡ None) (λ name. unbuilt_topic_setting config.now ≡ Some name.now) }
{
    if config.retention.is_some() {
        Some("messageRetentionDuration")
    } else {
        None
    }
}

fn unbuilt_sub_setting(config: &SubConfig) -> Option<&'static str>
    ensures name { MatchOption result (unbuilt_sub_setting config.now ≡ None) (λ name. unbuilt_sub_setting config.now ≡ Some name.now) }
{
    if config.dead_letter.is_some() {
        Some("deadLetterPolicy")
    } else if config.retention != DEFAULT_RETENTION {
        Some("messageRetentionDuration")
    } else if config.retain_acked {
        Some("retainAckedMessages")
    } else {
        None
    }
}

fn unbuilt_topic_mask(mask: Mask) -> Option<&'static str>
    ensures name { MatchOption result (unbuilt_topic_mask mask ≡ None) (λ name. unbuilt_topic_mask mask ≡ Some name.now) }
{
    if mask.has(1) {
        Some("messageRetentionDuration")
    } else {
        None
    }
}

fn unbuilt_sub_mask(mask: Mask) -> Option<&'static str>
    ensures name { MatchOption result (unbuilt_sub_mask mask ≡ None) (λ name. unbuilt_sub_mask mask ≡ Some name.now) }
{
    if mask.has(5) {
        Some("deadLetterPolicy")
    } else if mask.has(2) {
        Some("messageRetentionDuration")
    } else if mask.has(8) {
        Some("pushConfig")
    } else if mask.has(1) {
        Some("retainAckedMessages")
    } else {
        None
    }
}

/// What a command asks for that isn't built yet: the name of a setting, or that of the whole call. Nothing else decides
/// this in the core.
pub fn unbuilt(command: &Command) -> Option<&'static str>
    ensures { MatchOption result (unbuilt command.now ≡ None) (λ name. unbuilt command.now ≡ Some name.now) }
{
    match command {
        Command::Tick
        | Command::GetTopic { .. }
        | Command::DeleteTopic { .. }
        | Command::ListTopics { .. }
        | Command::ListTopicSubscriptions { .. }
        | Command::Publish { .. }
        | Command::GetSubscription { .. }
        | Command::DeleteSubscription { .. }
        | Command::ListSubscriptions { .. }
        | Command::Pull { .. }
        | Command::Acknowledge { .. }
        | Command::ModifyAckDeadline { .. }
        | Command::Detach { .. } => None,
        Command::CreateTopic { config, .. } => unbuilt_topic_setting(config),
        Command::UpdateTopic { mask, .. } => unbuilt_topic_mask(*mask),
        Command::CreateSubscription { config, .. } => unbuilt_sub_setting(config),
        Command::UpdateSubscription { mask, .. } => unbuilt_sub_mask(*mask),
        Command::ListTopicSnapshots { .. } => Some("ListTopicSnapshots"),
        Command::SeekTime { .. } | Command::SeekSnapshot { .. } => Some("Seek"),
        Command::CreateSnapshot { .. } => Some("CreateSnapshot"),
        Command::UpdateSnapshot { .. } => Some("UpdateSnapshot"),
        Command::GetSnapshot { .. } => Some("GetSnapshot"),
        Command::DeleteSnapshot { .. } => Some("DeleteSnapshot"),
        Command::ListSnapshots { .. } => Some("ListSnapshots"),
    }
}

/// The first check that an update of a topic breaks.
fn topic_update_fault(mask: Mask, config: &TopicConfig) -> Option<Reason>
    ensures { result ≡ first_of (broken (not (is_mask 2 mask)) UpdateMask ∷ topic_fault mask config.now ∷ []) }
{
    if !mask.is_of_topic() {
        return Some(Reason::UpdateMask);
    }
    check_topic(config, mask)
}

/// The first check that an update of a subscription breaks.
fn sub_update_fault(mask: Mask, config: &SubConfig) -> Option<Reason>
    ensures { result ≡ first_of (broken (not (is_mask 9 mask)) UpdateMask ∷ sub_fault mask config.now ∷ []) }
{
    if !mask.is_of_sub() {
        return Some(Reason::UpdateMask);
    }
    check_sub(config, mask)
}

/// Whether an item asks for more seconds than a lease may live.
fn has_long_deadline(items: &[(AckId, u32)]) -> bool
    ensures { result ≡ list_any has_long_deadline items.now }
{
    items.iter().any(|item| MOST_ACK_SECONDS < item.1)
}

/// The first check that an argument of the command fails.
pub fn argument_fault(alloc: Global, command: &Command) -> Result<Option<Reason>, OutOfMemory>
    requires { unbuilt command.now ≡ None }
    ensures { IfOk result (λ fault. fault ≡ argument_fault (as_read command.now)) }
{
    match command {
        Command::CreateTopic { config, .. } => Ok(check_topic(config, Mask::WHOLE)),
        Command::UpdateTopic { mask, config, .. } => Ok(topic_update_fault(*mask, config)),
        Command::CreateSubscription { config, .. } => check_new_sub(alloc, config),
        Command::UpdateSubscription { mask, config, .. } => Ok(sub_update_fault(*mask, config)),
        Command::Publish { messages, .. } => match check_publish(messages.as_slice()) {
            Ok(()) => Ok(None),
            Err(fault) => Ok(Some(fault.reason)),
        },
        Command::Pull { max, .. } if *max == 0 => Ok(Some(Reason::MaxMessages)),
        Command::Acknowledge { ids, .. } if ids.len() == 0 => Ok(Some(Reason::AckIds)),
        Command::ModifyAckDeadline { items, .. } if items.len() == 0 => Ok(Some(Reason::AckIds)),
        Command::ModifyAckDeadline { items, .. } if has_long_deadline(items.as_slice()) => {
            Ok(Some(Reason::AckDeadlineSeconds))
        }
        _ => Ok(None),
    }
}

/// The settings of an update with the masked fields, and the others at their defaults.
fn masked_topic(alloc: Global, mask: Mask, config: &TopicConfig) -> Result<TopicConfig, OutOfMemory>
    ensures { IfOk result (λ read. read ≡ masked_topic mask default_topic config.now) }
{
    let mut read = TopicConfig::new(alloc);
    apply_topic(&mut read, config.copy(alloc)?, mask);
    Ok(read)
}

fn masked_sub(alloc: Global, mask: Mask, config: &SubConfig) -> Result<SubConfig, OutOfMemory>
    ensures { IfOk result (λ read. read ≡ masked_sub mask default_sub config.now) }
{
    let mut read = SubConfig::new(alloc);
    apply_sub(&mut read, config.copy(alloc)?, mask);
    Ok(read)
}

/// The form in which a command is carried out and recorded: a pull asks for what one may have, and an update has its
/// masked fields alone.
pub fn as_read(alloc: Global, command: &Command) -> Result<Command, OutOfMemory>
    requires { unbuilt command.now ≡ None }
    ensures { IfOk result (λ read. read ≡ as_read command.now) }
{
    match command {
        Command::UpdateTopic {
            topic,
            mask,
            config,
        } => Ok(Command::UpdateTopic {
            topic: topic.copy(alloc)?,
            mask: *mask,
            config: masked_topic(alloc, *mask, config)?,
        }),
        Command::UpdateSubscription {
            subscription,
            mask,
            config,
        } => Ok(Command::UpdateSubscription {
            subscription: subscription.copy(alloc)?,
            mask: *mask,
            config: masked_sub(alloc, *mask, config)?,
        }),
        Command::Pull {
            subscription,
            max,
            budget,
            seconds,
        } => Ok(Command::Pull {
            subscription: subscription.copy(alloc)?,
            max: (*max).min(MOST_MESSAGES),
            budget: (*budget).min(MOST_BYTES),
            seconds: lease_seconds(*seconds),
        }),
        other => other.copy(alloc),
    }
}

/// The nearest seconds that a lease may live.
fn lease_seconds(seconds: Option<u32>) -> Option<u32>
    ensures { result ≡ option_map lease_seconds seconds }
{
    match seconds {
        Some(seconds) => Some(seconds.min(MOST_ACK_SECONDS).max(LEAST_ACK_SECONDS)),
        None => None,
    }
}

/// Whether a command only asks to settle what is due.
pub fn is_tick(command: &Command) -> bool
    ensures { result ≡ is_tick command.now }
{
    matches!(command, Command::Tick)
}
