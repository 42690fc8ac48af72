ghost use Rattle.std.specs.Prelude.{◌≡◌};
ghost use Rattle.ps_config.specs.Masks.{default_topic, default_sub};

use crate::limits::{DEFAULT_ACK_SECONDS, DEFAULT_EXPIRATION, DEFAULT_RETENTION};
use ps_base::{Duplicate, Labels, OutOfMemory, Text};
use ps_names::TopicName;
use std::alloc::Global;

/// The settings of a topic.
#[derive(Clone, Drop)]
pub struct TopicConfig {
    pub labels: Labels,
    /// How long the topic keeps its messages, in milliseconds. None keeps none for itself.
    pub retention: Option<u64>,
}

/// Where messages go that failed too often.
#[derive(Clone, Drop)]
pub struct DeadLetterPolicy {
    /// The topic that they are published to.
    pub topic: TopicName,
    /// How many failures make a dead letter.
    pub attempts: u32,
}

/// How long a message rests after a failure, in milliseconds.
#[derive(Clone, Copy, PartialEq, Eq)]
pub struct RetryPolicy {
    pub least: u64,
    pub most: u64,
}

/// The settings of a subscription. Times are in milliseconds, but for `ack_seconds`.
#[derive(Clone, Drop)]
pub struct SubConfig {
    /// How many seconds a lease lives.
    pub ack_seconds: u32,
    /// Whether the retention counts for acknowledged messages too.
    pub retain_acked: bool,
    /// How long the subscription keeps messages.
    pub retention: u64,
    pub labels: Labels,
    /// Whether the messages of one ordering key are handed out in order.
    pub ordering: bool,
    /// After how long without use the subscription ends. None is never.
    pub expiration: Option<u64>,
    /// Which messages enter, in the filter language. Empty lets all enter.
    pub filter: Text,
    pub dead_letter: Option<DeadLetterPolicy>,
    pub retry: Option<RetryPolicy>,
    /// Whether only a living lease acknowledges.
    pub exactly_once: bool,
}

impl TopicConfig {
    /// The settings of a topic that asks for none.
    pub fn new(alloc: Global) -> TopicConfig
        ensures { result ≡ default_topic }
    {
        TopicConfig {
            labels: Labels::new(alloc),
            retention: None,
        }
    }
}

impl SubConfig {
    /// The settings of a subscription that asks for none.
    pub fn new(alloc: Global) -> SubConfig
        ensures { result ≡ default_sub }
    {
        SubConfig {
            ack_seconds: DEFAULT_ACK_SECONDS,
            retain_acked: false,
            retention: DEFAULT_RETENTION,
            labels: Labels::new(alloc),
            ordering: false,
            expiration: Some(DEFAULT_EXPIRATION),
            filter: Text::from_string(String::new(alloc)),
            dead_letter: None,
            retry: None,
            exactly_once: false,
        }
    }
}

impl Duplicate for TopicConfig {
    fn copy(&self, _alloc: Global) -> Result<TopicConfig, OutOfMemory> {
        Ok(self.clone()?)
    }
}

impl Duplicate for DeadLetterPolicy {
    fn copy(&self, _alloc: Global) -> Result<DeadLetterPolicy, OutOfMemory> {
        Ok(self.clone()?)
    }
}

impl Duplicate for RetryPolicy {
    fn copy(&self, _alloc: Global) -> Result<RetryPolicy, OutOfMemory> {
        Ok(*self)
    }
}

impl Duplicate for SubConfig {
    fn copy(&self, _alloc: Global) -> Result<SubConfig, OutOfMemory> {
        Ok(self.clone()?)
    }
}
