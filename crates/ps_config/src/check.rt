ghost use Rattle.std.specs.Prelude.{◌≡◌};
ghost use Rattle.std.specs.List.{list_any};
ghost use Rattle.ps_config.specs.Limits.{is_outside, is_outside_where_set, is_bad_label, has_bad_labels, has_bad_attempts, has_bad_delays, topic_fault, sub_fault, sub_checks_before_filter, sub_checks_behind_filter};
ghost use Rattle.ps_config.specs.Numbers.{least_ack_seconds, most_ack_seconds};
ghost use Rattle.ps_message.specs.Lists.{first_of};

use crate::config::{DeadLetterPolicy, RetryPolicy, SubConfig, TopicConfig};
use crate::limits::{
    LEAST_ACK_SECONDS, LEAST_ATTEMPTS, LEAST_EXPIRATION, LEAST_RETENTION, MOST_ACK_SECONDS,
    MOST_ATTEMPTS, MOST_BYTES_OF_LABEL, MOST_DELAY, MOST_EXPIRATION, MOST_LABELS, MOST_RETENTION,
};
use crate::mask::Mask;
use ps_base::{Labels, Reason, Text};

/// The first check that the masked settings of a topic break, in this order: labels, retention. Takes no memory.
pub fn check_topic(config: &TopicConfig, mask: Mask) -> Option<Reason>
    ensures { result ≡ topic_fault mask config.now }
{
    if mask.has(0) && has_bad_labels(&config.labels) {
        return Some(Reason::Labels);
    }
    let retention = config.retention;
    if mask.has(1) && is_outside_where_set(LEAST_RETENTION, MOST_RETENTION, retention) {
        return Some(Reason::MessageRetentionDuration);
    }
    None
}

/// The first check that the masked settings of a subscription break, in this order: seconds of a lease, retention,
/// labels, expiration, attempts of a dead-letter policy, delays of a retry policy. The filter is of no mask. Takes no
/// memory.
pub fn check_sub(config: &SubConfig, mask: Mask) -> Option<Reason>
    ensures { result ≡ sub_fault mask config.now }
{
    match check_sub_before_filter(config, mask) {
        None => check_sub_behind_filter(config, mask),
        fault => fault,
    }
}

/// The first check that stands before that of the filter and that the masked settings break. Takes no memory.
pub fn check_sub_before_filter(config: &SubConfig, mask: Mask) -> Option<Reason>
    ensures { result ≡ first_of (sub_checks_before_filter mask config.now) }
{
    if mask.has(0) && has_bad_deadline(config.ack_seconds) {
        return Some(Reason::AckDeadlineSeconds);
    }
    if mask.has(2) && is_outside(LEAST_RETENTION, MOST_RETENTION, config.retention) {
        return Some(Reason::MessageRetentionDuration);
    }
    if mask.has(3) && has_bad_labels(&config.labels) {
        return Some(Reason::Labels);
    }
    let expiration = config.expiration;
    if mask.has(4) && is_outside_where_set(LEAST_EXPIRATION, MOST_EXPIRATION, expiration) {
        return Some(Reason::ExpirationPolicy);
    }
    None
}

/// The first check that stands behind that of the filter and that the masked settings break. Takes no memory.
pub fn check_sub_behind_filter(config: &SubConfig, mask: Mask) -> Option<Reason>
    ensures { result ≡ first_of (sub_checks_behind_filter mask config.now) }
{
    if mask.has(5) && has_bad_attempts(&config.dead_letter) {
        return Some(Reason::MaxDeliveryAttempts);
    }
    if mask.has(6) && has_bad_delays(config.retry) {
        return Some(Reason::RetryPolicy);
    }
    None
}

fn is_outside(least: u64, most: u64, number: u64) -> bool
    ensures { result ≡ is_outside least most number }
{
    number < least || most < number
}

fn is_outside_where_set(least: u64, most: u64, number: Option<u64>) -> bool
    ensures { result ≡ is_outside_where_set least most number }
{
    match number {
        Some(number) => is_outside(least, most, number),
        None => false,
    }
}

fn has_bad_deadline(seconds: u32) -> bool
    ensures { result ≡ is_outside least_ack_seconds most_ack_seconds seconds }
{
    seconds < LEAST_ACK_SECONDS || MOST_ACK_SECONDS < seconds
}

/// Whether there are too many labels, or one has no key, or a long key or value.
fn has_bad_labels(labels: &Labels) -> bool
    ensures { result ≡ has_bad_labels labels.now }
{
    let pairs = labels.as_slice();
    pairs.len() > MOST_LABELS || any_bad_label(pairs)
}

fn any_bad_label(pairs: &[(Text, Text)]) -> bool
    ensures { result ≡ list_any is_bad_label pairs.now }
{
    pairs.iter().any(is_bad_label)
}

fn is_bad_label(pair: &(Text, Text)) -> bool
    ensures { result ≡ is_bad_label pair.now }
{
    let key = pair.0.len();
    key < 1 || key > MOST_BYTES_OF_LABEL || pair.1.len() > MOST_BYTES_OF_LABEL
}

fn has_bad_attempts(policy: &Option<DeadLetterPolicy>) -> bool
    ensures { result ≡ has_bad_attempts policy.now }
{
    match policy {
        Some(policy) => policy.attempts < LEAST_ATTEMPTS || MOST_ATTEMPTS < policy.attempts,
        None => false,
    }
}

/// The least delay may be above the greatest one.
fn has_bad_delays(policy: Option<RetryPolicy>) -> bool
    ensures { result ≡ has_bad_delays policy }
{
    match policy {
        Some(policy) => policy.least > MOST_DELAY || policy.most > MOST_DELAY,
        None => false,
    }
}
