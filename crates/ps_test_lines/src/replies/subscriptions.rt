// Subscriptions with the settings of one that asks for none, and with all settings.
use super::words::{labels, text};
use super::{expect_each, line_of};
use ps_base::{Octets, OutOfMemory, Text};
use ps_model::{DeadLetterPolicy, Reply, RetryPolicy, SubConfig, SubShown, TopicName};
use std::alloc::Global;
use std::test::Fail;

const TOPIC: &str = "projects/p/topics/abc";

const SUBSCRIPTION: &str = "projects/p/subscriptions/sub";

fn dead_letter(alloc: Global) -> Result<Option<DeadLetterPolicy>, OutOfMemory> {
    match TopicName::read(alloc, TOPIC)? {
        Some(topic) => Ok(Some(DeadLetterPolicy { topic, attempts: 5 })),
        None => Ok(None),
    }
}

/// Settings of which none is left out.
fn full_config(alloc: Global) -> Result<SubConfig, Fail> {
    let labels = labels(alloc, "env=prod team=a")?;
    let filter = text(alloc, "attributes.kind = \"paid\"")?;
    let dead_letter = dead_letter(alloc)?;
    Ok(SubConfig {
        ack_seconds: 30,
        retain_acked: true,
        retention: 604_800_000,
        labels,
        ordering: true,
        expiration: None,
        filter,
        dead_letter,
        retry: Some(RetryPolicy {
            least: 1_500,
            most: 60_000,
        }),
        exactly_once: true,
    })
}

fn shown(
    alloc: Global,
    topic: Option<Text>,
    config: SubConfig,
    detached: bool,
    topic_retention: Option<u64>,
) -> Result<Octets, OutOfMemory> {
    let name = text(alloc, SUBSCRIPTION)?;
    let subscription = SubShown {
        name,
        topic,
        config,
        detached,
        topic_retention,
    };
    line_of(alloc, Reply::Subscription(subscription))
}

fn plain(alloc: Global) -> Result<Octets, OutOfMemory> {
    let topic = text(alloc, TOPIC)?;
    shown(alloc, Some(topic), SubConfig::new(alloc), false, None)
}

/// Detached, its topic deleted.
fn full(alloc: Global) -> Result<Octets, Fail> {
    let config = full_config(alloc)?;
    Ok(shown(alloc, None, config, true, Some(600_000))?)
}

pub fn subscription(alloc: Global, word: &str) -> Result<Octets, Fail> {
    match word {
        "plain" => Ok(plain(alloc)?),
        "full" => full(alloc),
        _ => Err(Fail::new("no subscription")),
    }
}

const SUBSCRIPTIONS: &str = r#"
> Subscription plain
< {"body":{"ackDeadlineSeconds":10,"expirationPolicy":{"ttl":"2678400s"},"messageRetentionDuration":"604800s","name":"projects/p/subscriptions/sub","topic":"projects/p/topics/abc"},"code":200}
> Subscription full
< {"body":{"ackDeadlineSeconds":30,"deadLetterPolicy":{"deadLetterTopic":"projects/p/topics/abc","maxDeliveryAttempts":5},"detached":true,"enableExactlyOnceDelivery":true,"enableMessageOrdering":true,"expirationPolicy":{},"filter":"attributes.kind = \"paid\"","labels":{"env":"prod","team":"a"},"messageRetentionDuration":"604800s","name":"projects/p/subscriptions/sub","retainAckedMessages":true,"retryPolicy":{"maximumBackoff":"60s","minimumBackoff":"1.500s"},"topic":"_deleted-topic_","topicMessageRetentionDuration":"600s"},"code":200}
"#;

#[test]
fn subscriptions_are_told(rt: HostRuntime) -> Result<(), Fail> {
    expect_each(&rt, rt.alloc(), SUBSCRIPTIONS)
}
