use ps_base::{AckId, Labels, List, Refusal, Text};
use ps_config::{SubConfig, TopicConfig};
use ps_message::Message;

/// What a caller is told.
#[derive(Drop)]
pub enum Reply {
    Empty,
    Topic(TopicShown),
    Subscription(SubShown),
    Snapshot(SnapShown),
    Page {
        items: PageItems,
        /// The token of the next page, if more remain.
        next: Option<Text>,
    },
    /// The number of the first message, and how many there are.
    Published {
        first: u64,
        number: u32,
    },
    Received {
        exactly_once: bool,
        ordering: bool,
        items: List<ReceivedMessage>,
    },
    Acked {
        exactly_once: bool,
        invalid: List<AckId>,
        unordered: List<AckId>,
    },
    Modified {
        exactly_once: bool,
        invalid: List<AckId>,
    },
    Refused(Refusal),
}

/// A topic as replies show it.
#[derive(Drop)]
pub struct TopicShown {
    pub name: Text,
    pub config: TopicConfig,
}

/// A subscription as replies show it.
#[derive(Drop)]
pub struct SubShown {
    pub name: Text,
    /// `None` if the topic was deleted.
    pub topic: Option<Text>,
    pub config: SubConfig,
    pub detached: bool,
    /// The retention of the topic in milliseconds, if the topic exists and has one.
    pub topic_retention: Option<u64>,
}

/// A snapshot as replies show it.
#[derive(Drop)]
pub struct SnapShown {
    pub name: Text,
    /// `None` if the topic was deleted.
    pub topic: Option<Text>,
    pub labels: Labels,
    /// When it expires, in milliseconds since 1970.
    pub expiry: u64,
}

/// A message that was delivered.
#[derive(Drop)]
pub struct ReceivedMessage {
    pub id: AckId,
    /// The number of this delivery, from 1, if the subscription has a dead-letter policy.
    pub attempt: Option<u64>,
    /// When it was published, in milliseconds since 1970.
    pub publish: u64,
    pub message: Message,
}

/// What a list shows.
#[derive(Drop)]
pub enum PageItems {
    Topics(List<TopicShown>),
    Subscriptions(List<SubShown>),
    Snapshots(List<SnapShown>),
    SubscriptionNames(List<Text>),
    SnapshotNames(List<Text>),
}
