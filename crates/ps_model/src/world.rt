use crate::mark::Mark;
use ps_base::{Labels, List};
use ps_config::{SubConfig, TopicConfig};
use ps_message::Message;
use ps_names::{SnapName, SubName, TopicName};

/// The whole state of the service.
#[derive(Drop)]
pub struct World {
    /// The moment of the last entry, in milliseconds since 1970.
    pub now: u64,
    /// The number of recorded entries.
    pub count: u64,
    pub next_topic: u64,
    pub next_sub: u64,
    pub next_snap: u64,
    pub next_message: u64,
    pub topics: List<TopicRow>,
    pub subs: List<SubRow>,
    pub snaps: List<SnapRow>,
    pub messages: List<MessageRow>,
    /// One for each pair of a subscription and a message that ever entered it, in order of both.
    pub marks: List<MarkRow>,
}

/// A topic that exists. Its number is never used again; its name may be.
#[derive(Drop)]
pub struct TopicRow {
    pub number: u64,
    pub name: TopicName,
    pub config: TopicConfig,
}

/// A subscription that exists.
#[derive(Drop)]
pub struct SubRow {
    pub number: u64,
    pub name: SubName,
    /// The number of its topic, which may have been deleted.
    pub topic: u64,
    pub config: SubConfig,
    /// Whether nothing enters any more, and everything that had entered is gone.
    pub detached: bool,
    /// The number of the next lease, from 1.
    pub next_lease: u64,
}

/// A snapshot that exists.
#[derive(Drop)]
pub struct SnapRow {
    pub number: u64,
    pub name: SnapName,
    /// The number of its topic, which may have been deleted.
    pub topic: u64,
    pub labels: Labels,
    /// The messages up to `bound` that it holds, by number.
    pub listed: List<u64>,
    /// It also holds all later messages of the topic.
    pub bound: u64,
    /// When it expires, in milliseconds since 1970.
    pub expiry: u64,
}

/// A message that was published.
#[derive(Drop)]
pub struct MessageRow {
    pub number: u64,
    /// The number of its topic, which may have been deleted.
    pub topic: u64,
    /// When it was published, in milliseconds since 1970.
    pub publish: u64,
    pub message: Message,
    /// Whether something still needs it. Once false, it stays false.
    pub kept: bool,
}

/// The mark of a message on a subscription, both by number.
#[derive(Clone, Copy, PartialEq, Eq)]
pub struct MarkRow {
    pub sub: u64,
    pub message: u64,
    pub mark: Mark,
}
