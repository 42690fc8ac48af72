// The settings that the fields of a resource ask for.
ghost use Rattle.std.specs.Prelude.{◌≡◌, IfOk, codes, option_and_then};
ghost use Rattle.serde_json.specs.Find.{get_member};
ghost use Rattle.serde_json.specs.View.{members_view};
ghost use Rattle.ps_fields.specs.Fields.{object_in};
ghost use Rattle.ps_fields.specs.Kinds.{duration_value};
ghost use Rattle.ps_json.specs.Checks.{Reads};
ghost use Rattle.ps_json.specs.Settings as spec;

use crate::read_error::{ReadError, refused};
use ps_base::{Labels, OutOfMemory, Text};
use ps_config::{
    DEFAULT_ACK_SECONDS, DEFAULT_EXPIRATION, DEFAULT_LEAST_DELAY, DEFAULT_MOST_DELAY,
    DEFAULT_RETENTION, Mask, RetryPolicy, apply_sub, apply_topic, check_sub, check_topic,
};
use ps_fields::{duration_in, field, flag, map, object_in, text, whole};
use ps_model::{SubConfig, TopicConfig, check_new_sub};
use serde_json::{Map, Value};
use std::alloc::Global;

/// The settings of a new topic, or the first one that breaks a limit.
pub fn new_topic(alloc: Global, fields: &Map<String, Value>) -> Result<TopicConfig, ReadError>
    ensures { Reads result (spec.new_topic (members_view fields.now.entries)) }
{
    let config = topic_in(alloc, fields)?;
    match check_topic(&config, Mask::WHOLE) {
        Some(reason) => Err(refused(reason)),
        None => Ok(config),
    }
}

/// The settings of a topic's update, or the first one that breaks a limit. Those that the mask doesn't name have their
/// defaults.
pub fn changed_topic(
    alloc: Global,
    fields: &Map<String, Value>,
    mask: Mask,
) -> Result<TopicConfig, ReadError>
    ensures { Reads result (spec.changed_topic mask (members_view fields.now.entries)) }
{
    let mut config = TopicConfig::new(alloc);
    apply_topic(&mut config, topic_in(alloc, fields)?, mask);
    match check_topic(&config, mask) {
        Some(reason) => Err(refused(reason)),
        None => Ok(config),
    }
}

/// The settings of a new subscription, or the first one that breaks a limit.
pub fn new_subscription(alloc: Global, fields: &Map<String, Value>) -> Result<SubConfig, ReadError>
    ensures { Reads result (spec.new_subscription (members_view fields.now.entries)) }
{
    let config = subscription_in(alloc, fields)?;
    match check_new_sub(alloc, &config)? {
        Some(reason) => Err(refused(reason)),
        None => Ok(config),
    }
}

/// The settings of a subscription's update, or the first one that breaks a limit. Those that the mask doesn't name have
/// their defaults.
pub fn changed_subscription(
    alloc: Global,
    fields: &Map<String, Value>,
    mask: Mask,
) -> Result<SubConfig, ReadError>
    ensures { Reads result (spec.changed_subscription mask (members_view fields.now.entries)) }
{
    let mut config = SubConfig::new(alloc);
    apply_sub(&mut config, subscription_in(alloc, fields)?, mask);
    match check_sub(&config, mask) {
        Some(reason) => Err(refused(reason)),
        None => Ok(config),
    }
}

fn topic_in(alloc: Global, fields: &Map<String, Value>) -> Result<TopicConfig, OutOfMemory>
    ensures { IfOk result (λ config. config ≡ spec.topic_in (members_view fields.now.entries)) }
{
    Ok(TopicConfig {
        labels: labels_in(alloc, fields)?,
        retention: duration(fields, "messageRetentionDuration"),
    })
}

/// The settings of a subscription, of which dead letters aren't built and have their default.
fn subscription_in(alloc: Global, fields: &Map<String, Value>) -> Result<SubConfig, OutOfMemory>
    ensures { IfOk result (λ config. config
        ≡ spec.subscription_in (members_view fields.now.entries)) }
{
    let retention = duration(fields, "messageRetentionDuration");
    Ok(SubConfig {
        ack_seconds: ack_seconds(whole(fields, "ackDeadlineSeconds").unwrap_or(0)),
        retain_acked: flag(fields, "retainAckedMessages").unwrap_or(false),
        retention: retention.unwrap_or(DEFAULT_RETENTION),
        labels: labels_in(alloc, fields)?,
        ordering: flag(fields, "enableMessageOrdering").unwrap_or(false),
        expiration: expiration(fields),
        filter: Text::from_str(alloc, text(fields, "filter").unwrap_or(""))?,
        dead_letter: None,
        retry: object_in(fields, "retryPolicy").map(retry_of),
        exactly_once: flag(fields, "enableExactlyOnceDelivery").unwrap_or(false),
    })
}

fn labels_in(alloc: Global, fields: &Map<String, Value>) -> Result<Labels, OutOfMemory>
    ensures { IfOk result (λ labels. labels ≡ spec.labels_in (members_view fields.now.entries)) }
{
    match map(alloc, fields, "labels")? {
        Some(labels) => Ok(labels),
        None => Ok(Labels::new(alloc)),
    }
}

/// The seconds of a lease. A number that doesn't fit becomes the nearest one that does, and is outside the limits too.
fn ack_seconds(seconds: i64) -> u32
    ensures { result ≡ spec.ack_seconds seconds }
{
    if seconds == 0 {
        return DEFAULT_ACK_SECONDS;
    }
    u32::try_from(seconds.max(0)).unwrap_or(u32::MAX)
}

/// After how many milliseconds without use a subscription ends. A policy without a duration is never.
fn expiration(fields: &Map<String, Value>) -> Option<u64>
    ensures { result
        ≡ spec.expiration_of (object_in (codes "expirationPolicy") (members_view fields.now.entries)) }
{
    match object_in(fields, "expirationPolicy") {
        Some(policy) => duration(policy, "ttl"),
        None => Some(DEFAULT_EXPIRATION),
    }
}

/// How long a message rests after a failure. Each delay that isn't named has its default.
fn retry_of(fields: &Map<String, Value>) -> RetryPolicy
    ensures { result ≡ spec.retry_of (members_view fields.now.entries) }
{
    RetryPolicy {
        least: duration(fields, "minimumBackoff").unwrap_or(DEFAULT_LEAST_DELAY),
        most: duration(fields, "maximumBackoff").unwrap_or(DEFAULT_MOST_DELAY),
    }
}

fn duration(fields: &Map<String, Value>, name: &str) -> Option<u64>
    ensures { result
        ≡ option_and_then duration_value (get_member name.now (members_view fields.now.entries)) }
{
    duration_in(field(fields, name)?)
}
