use super::*;
use ps_base::{Duplicate, Labels, List, Reason, Text};
use ps_names::TopicName;
use std::alloc::Global;
use std::process::Abort;
use std::test::Fail;

/// Every field that a mask can name.
const ALL: Mask = Mask(511);

/// A text of so many letters.
fn text(alloc: Global, length: usize) -> Result<Text, Fail> {
    let mut text = String::new(alloc);
    for _ in 0..length {
        text.push('a')?;
    }
    Ok(Text::from_string(text))
}

/// So many labels, of which the first has a key and a value of so many letters.
fn labels(alloc: Global, count: usize, key: usize, value: usize) -> Result<Labels, Fail> {
    let mut pairs = List::new(alloc);
    if count > 0 {
        pairs.push((text(alloc, key)?, text(alloc, value)?))?;
    }
    for number in 1..count {
        let key = format!(in alloc; "b{number:03}")?;
        pairs.push((Text::from_string(key), text(alloc, 0)?))?;
    }
    Ok(Labels::of(pairs).ok_or("the keys ascend")?)
}

fn expect(rt: &impl Abort, alloc: Global, fault: Option<Reason>, want: &str) -> Result<(), Fail> {
    let told = match fault {
        None => Text::from_str(alloc, "")?,
        Some(reason) => reason.text(alloc)?,
    };
    assert_eq!(rt; told.as_str(), want);
    Ok(())
}

#[test]
fn labels_have_limits(rt: HostRuntime) -> Result<(), Fail> {
    let alloc = rt.alloc();
    let table = [
        (0, 0, 0, ""),
        (1, 1, 0, ""),
        (1, 0, 1, "labels"),
        (1, 63, 63, ""),
        (1, 64, 0, "labels"),
        (1, 1, 64, "labels"),
        (64, 1, 1, ""),
        (65, 1, 1, "labels"),
    ];
    for (count, key, value, want) in table {
        let mut topic = TopicConfig::new(alloc);
        topic.labels = labels(alloc, count, key, value)?;
        expect(&rt, alloc, check_topic(&topic, ALL), want)?;
        let mut sub = SubConfig::new(alloc);
        sub.labels = labels(alloc, count, key, value)?;
        expect(&rt, alloc, check_sub(&sub, ALL), want)?;
    }
    Ok(())
}

#[test]
fn retentions_have_limits(rt: HostRuntime) -> Result<(), Fail> {
    let alloc = rt.alloc();
    let table = [
        (0, "messageRetentionDuration"),
        (599_999, "messageRetentionDuration"),
        (600_000, ""),
        (2_678_400_000, ""),
        (2_678_400_001, "messageRetentionDuration"),
    ];
    for (retention, want) in table {
        let mut topic = TopicConfig::new(alloc);
        topic.retention = Some(retention);
        expect(&rt, alloc, check_topic(&topic, ALL), want)?;
        expect(&rt, alloc, check_topic(&topic, Mask(1)), "")?;
        let mut sub = SubConfig::new(alloc);
        sub.retention = retention;
        expect(&rt, alloc, check_sub(&sub, ALL), want)?;
        expect(&rt, alloc, check_sub(&sub, Mask(507)), "")?;
    }
    expect(&rt, alloc, check_topic(&TopicConfig::new(alloc), ALL), "")
}

#[test]
fn leases_and_expirations_have_limits(rt: HostRuntime) -> Result<(), Fail> {
    let alloc = rt.alloc();
    let table = [
        (10, Some(86_400_000), ""),
        (600, Some(315_360_000_000), ""),
        (10, None, ""),
        (0, None, "ackDeadlineSeconds"),
        (9, Some(1), "ackDeadlineSeconds"),
        (601, None, "ackDeadlineSeconds"),
        (10, Some(86_399_999), "expirationPolicy"),
        (10, Some(315_360_000_001), "expirationPolicy"),
    ];
    for (seconds, expiration, want) in table {
        let mut sub = SubConfig::new(alloc);
        sub.ack_seconds = seconds;
        sub.expiration = expiration;
        expect(&rt, alloc, check_sub(&sub, ALL), want)?;
    }
    Ok(())
}

fn policy(alloc: Global, attempts: u32) -> Result<DeadLetterPolicy, Fail> {
    let topic = TopicName::read(alloc, "projects/p/topics/abc")?.ok_or("no topic")?;
    Ok(DeadLetterPolicy { topic, attempts })
}

#[test]
fn policies_have_limits(rt: HostRuntime) -> Result<(), Fail> {
    let alloc = rt.alloc();
    let table = [
        (5, 0, 600_000, ""),
        (100, 600_000, 0, ""),
        (0, 0, 0, "maxDeliveryAttempts"),
        (4, 600_001, 0, "maxDeliveryAttempts"),
        (101, 0, 0, "maxDeliveryAttempts"),
        (5, 600_001, 0, "retryPolicy"),
        (5, 0, 600_001, "retryPolicy"),
    ];
    for (attempts, least, most, want) in table {
        let mut sub = SubConfig::new(alloc);
        sub.dead_letter = Some(policy(alloc, attempts)?);
        sub.retry = Some(RetryPolicy { least, most });
        expect(&rt, alloc, check_sub(&sub, ALL), want)?;
    }
    Ok(())
}

/// Settings of which each is outside its limits.
fn bad_sub(alloc: Global) -> Result<SubConfig, Fail> {
    let mut sub = SubConfig::new(alloc);
    sub.ack_seconds = 1;
    sub.retain_acked = true;
    sub.retention = 1;
    sub.labels = labels(alloc, 1, 0, 0)?;
    sub.ordering = true;
    sub.expiration = Some(1);
    sub.filter = text(alloc, 1)?;
    sub.dead_letter = Some(policy(alloc, 1)?);
    sub.retry = Some(RetryPolicy {
        least: 600_001,
        most: 0,
    });
    sub.exactly_once = true;
    Ok(sub)
}

#[test]
fn masked_fields_are_checked_in_order(rt: HostRuntime) -> Result<(), Fail> {
    let alloc = rt.alloc();
    let sub = bad_sub(alloc)?;
    let table = [
        (511, "ackDeadlineSeconds"),
        (510, "messageRetentionDuration"),
        (506, "labels"),
        (498, "expirationPolicy"),
        (482, "maxDeliveryAttempts"),
        (450, "retryPolicy"),
        (386, ""),
        (0, ""),
    ];
    for (mask, want) in table {
        expect(&rt, alloc, check_sub(&sub, Mask(mask)), want)?;
    }
    let mut topic = TopicConfig::new(alloc);
    topic.labels = labels(alloc, 1, 0, 0)?;
    topic.retention = Some(1);
    for (mask, want) in [
        (3, "labels"),
        (1, "labels"),
        (2, "messageRetentionDuration"),
        (0, ""),
    ] {
        expect(&rt, alloc, check_topic(&topic, Mask(mask)), want)?;
    }
    Ok(())
}

/// The bits of the fields that a subscription has from `bad_sub`.
fn replaced(sub: &SubConfig) -> u32 {
    u32::from(sub.ack_seconds == 1)
        + 2 * u32::from(sub.retain_acked)
        + 4 * u32::from(sub.retention == 1)
        + 8 * u32::from(sub.labels.as_slice().len() == 1)
        + 16 * u32::from(sub.expiration == Some(1))
        + 32 * u32::from(sub.dead_letter.is_some())
        + 64 * u32::from(sub.retry.is_some())
        + 128 * u32::from(sub.exactly_once)
}

#[test]
fn masked_fields_of_a_subscription_are_replaced(rt: HostRuntime) -> Result<(), Fail> {
    let alloc = rt.alloc();
    for mask in [0, 1, 2, 4, 8, 16, 32, 64, 128, 256, 511] {
        let mut sub = SubConfig::new(alloc);
        apply_sub(&mut sub, bad_sub(alloc)?, Mask(mask));
        assert_eq!(rt; replaced(&sub), mask % 256);
        assert!(rt; !sub.ordering && sub.filter.len() == 0);
    }
    Ok(())
}

#[test]
fn masked_fields_of_a_topic_are_replaced(rt: HostRuntime) -> Result<(), Fail> {
    let alloc = rt.alloc();
    for mask in [0, 1, 2, 3] {
        let mut topic = TopicConfig::new(alloc);
        let mut new = TopicConfig::new(alloc);
        new.labels = labels(alloc, 1, 1, 1)?;
        new.retention = Some(600_000);
        apply_topic(&mut topic, new, Mask(mask));
        assert_eq!(rt; topic.labels.as_slice().len() == 1, mask % 2 == 1);
        assert_eq!(rt; topic.retention.is_some(), mask / 2 == 1);
    }
    Ok(())
}

#[test]
fn settings_are_copied(rt: HostRuntime) -> Result<(), Fail> {
    let alloc = rt.alloc();
    let sub = bad_sub(alloc)?.copy(alloc)?;
    expect(&rt, alloc, check_sub(&sub, Mask(32)), "maxDeliveryAttempts")?;
    assert_eq!(rt; sub.filter.as_str(), "a");
    let mut topic = TopicConfig::new(alloc);
    topic.retention = Some(1);
    assert_eq!(rt; topic.copy(alloc)?.retention, Some(1));
    assert!(rt; Mask(5).copy(alloc)? == Mask(5));
    Ok(())
}
