// Subscriptions.
ghost use Rattle.std.specs.Prelude.{◌≡◌, IfOk, OnOk, option_map};
ghost use Rattle.serde_json.specs.View.{view, members_view};
ghost use Rattle.ps_json.specs.Objects.{with_fields};
ghost use Rattle.ps_json.specs.Resources.{expiration_data, dead_letter_data, retry_data, setting_fields, flag_fields, policy_fields};

use crate::print::Shown;
use crate::print::fields::{filled_labels, filled_text, flag, put_field};
use crate::print::resource::{set_duration, topic_name};
use crate::print::time::duration;
use ps_base::OutOfMemory;
use ps_model::{DeadLetterPolicy, RetryPolicy, SubShown};
use serde_json::{Map, Value, json};
use std::alloc::{AllocError, Global};

type Fields = Map<String, Value>;

impl Shown for SubShown {
    ghost use Rattle.ps_json.specs.Resources.{subscription_data};

    ghost shown_as = { subscription_data };

    fn to_value(&self, alloc: Global) -> Result<Value, OutOfMemory> {
        let mut fields = Map::new(alloc);
        put_settings(&mut fields, alloc, self)?;
        put_flags(&mut fields, alloc, self)?;
        put_policies(&mut fields, alloc, self)?;
        Ok(Value::Object(fields))
    }
}

/// What each subscription shows.
fn put_settings(fields: &mut Fields, alloc: Global, sub: &SubShown) -> Result<(), OutOfMemory>
    ensures { OnOk result (members_view fields.new.entries
        ≡ with_fields (setting_fields sub.now) (members_view fields.old.entries)) }
{
    let config = &sub.config;
    let ack_seconds = Value::from(config.ack_seconds);
    put_field(fields, alloc, "ackDeadlineSeconds", Some(ack_seconds))?;
    let expiration = expiration(alloc, config.expiration)?;
    put_field(fields, alloc, "expirationPolicy", Some(expiration))?;
    let retention = duration(alloc, config.retention)?;
    put_field(fields, alloc, "messageRetentionDuration", Some(retention))?;
    let name = sub.name.to_value(alloc)?;
    put_field(fields, alloc, "name", Some(name))?;
    let topic = topic_name(alloc, &sub.topic)?;
    put_field(fields, alloc, "topic", Some(topic))
}

/// What it shows if it holds.
fn put_flags(fields: &mut Fields, alloc: Global, sub: &SubShown) -> Result<(), OutOfMemory>
    ensures { OnOk result (members_view fields.new.entries
        ≡ with_fields (flag_fields sub.now) (members_view fields.old.entries)) }
{
    let exactly_once = flag(sub.config.exactly_once);
    let ordering = flag(sub.config.ordering);
    let retain_acked = flag(sub.config.retain_acked);
    put_field(fields, alloc, "detached", flag(sub.detached))?;
    put_field(fields, alloc, "enableExactlyOnceDelivery", exactly_once)?;
    put_field(fields, alloc, "enableMessageOrdering", ordering)?;
    put_field(fields, alloc, "retainAckedMessages", retain_acked)
}

/// What it shows if it is set.
fn put_policies(fields: &mut Fields, alloc: Global, sub: &SubShown) -> Result<(), OutOfMemory>
    ensures { OnOk result (members_view fields.new.entries
        ≡ with_fields (policy_fields sub.now) (members_view fields.old.entries)) }
{
    let config = &sub.config;
    let dead_letter = dead_letter(alloc, &config.dead_letter)?;
    put_field(fields, alloc, "deadLetterPolicy", dead_letter)?;
    let filter = filled_text(alloc, config.filter.as_str())?;
    put_field(fields, alloc, "filter", filter)?;
    let labels = filled_labels(alloc, &config.labels)?;
    put_field(fields, alloc, "labels", labels)?;
    let retry = retry(alloc, config.retry)?;
    put_field(fields, alloc, "retryPolicy", retry)?;
    let window = set_duration(alloc, sub.topic_retention)?;
    put_field(fields, alloc, "topicMessageRetentionDuration", window)
}

fn expiration(alloc: Global, ttl: Option<u64>) -> Result<Value, OutOfMemory>
    ensures { IfOk result (λ value. view value ≡ expiration_data ttl) }
{
    let ttl = set_duration(alloc, ttl)?;
    let mut fields = Map::new(alloc);
    put_field(&mut fields, alloc, "ttl", ttl)?;
    Ok(Value::Object(fields))
}

fn dead_letter(
    alloc: Global,
    policy: &Option<DeadLetterPolicy>,
) -> Result<Option<Value>, OutOfMemory>
    ensures { IfOk result (λ value. option_map view value ≡ option_map dead_letter_data policy.now) }
{
    match policy {
        Some(policy) => Ok(Some(dead_letter_value(alloc, policy)?)),
        None => Ok(None),
    }
}

fn dead_letter_value(alloc: Global, policy: &DeadLetterPolicy) -> Result<Value, AllocError>
    ensures { IfOk result (λ value. view value ≡ dead_letter_data policy.now) }
{
    json!(in alloc; {
        "deadLetterTopic": policy.topic.text(),
        "maxDeliveryAttempts": policy.attempts
    })
}

fn retry(alloc: Global, policy: Option<RetryPolicy>) -> Result<Option<Value>, OutOfMemory>
    ensures { IfOk result (λ value. option_map view value ≡ option_map retry_data policy) }
{
    match policy {
        Some(policy) => Ok(Some(retry_value(alloc, policy)?)),
        None => Ok(None),
    }
}

fn retry_value(alloc: Global, policy: RetryPolicy) -> Result<Value, OutOfMemory>
    ensures { IfOk result (λ value. view value ≡ retry_data policy) }
{
    let most = duration(alloc, policy.most)?;
    let least = duration(alloc, policy.least)?;
    Ok(json!(in alloc; {"maximumBackoff": most, "minimumBackoff": least})?)
}
