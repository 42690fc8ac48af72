ghost use Rattle.std.specs.Prelude.{◌≡◌, ◌<◌, ◌||◌, if◌then◌else◌};
ghost use Rattle.ps_config.specs.Masks.{has_bit, is_mask, masked_topic, masked_sub, is_masked_topic, is_masked_sub, has_masked_times, has_masked_policies};

use crate::config::{SubConfig, TopicConfig};
use crate::limits::{DEFAULT_ACK_SECONDS, DEFAULT_EXPIRATION, DEFAULT_RETENTION};
use ps_base::{Duplicate, OutOfMemory};
use std::alloc::Global;

/// Which fields an update names: a bit each, from the lowest one on. Of a topic these are its labels and retention; of
/// a subscription the seconds of a lease, whether acknowledged messages are retained, retention, labels, expiration,
/// dead letters, retry, exactly-once mode, and push settings, which aren't kept.
#[derive(Clone, Copy, PartialEq, Eq)]
pub struct Mask(pub u32);

/// Above each mask of a topic, which has 2 fields.
const TOPIC_MASKS_END: u32 = 1 << 2;

/// Above each mask of a subscription, which has 9 fields.
const SUB_MASKS_END: u32 = 1 << 9;

impl Mask {
    /// Every field.
    pub const WHOLE: Mask = Mask(511);

    /// Whether it names a field, and no field that a topic doesn't have.
    pub fn is_of_topic(self) -> bool
        ensures { result ≡ is_mask 2 self }
    {
        self.0 != 0 && self.0 < TOPIC_MASKS_END
    }

    /// Whether it names a field, and no field that a subscription doesn't have.
    pub fn is_of_sub(self) -> bool
        ensures { result ≡ is_mask 9 self }
    {
        self.0 != 0 && self.0 < SUB_MASKS_END
    }

    /// Whether the field of this bit is named.
    pub fn has(self, bit: u32) -> bool
        requires { bit < 32 }
        ensures { result ≡ has_bit self bit }
    {
        (self.0 >> bit) % 2 == 1
    }
}

impl Duplicate for Mask {
    fn copy(&self, _alloc: Global) -> Result<Mask, OutOfMemory> {
        Ok(*self)
    }
}

/// Puts the value in the place of the old one, if that is masked.
fn replace<T: Drop>(old: &mut T, new: T, masked: bool)
    ensures { old.new ≡ (if masked then new else old.old) }
{
    if masked {
        *old = new;
    }
}

/// Gives a topic the masked fields of these settings, and leaves its others. Takes no memory (API reference,
/// UpdateTopic).
pub fn apply_topic(config: &mut TopicConfig, new: TopicConfig, mask: Mask)
    ensures { config.new ≡ masked_topic mask config.old new }
{
    let TopicConfig { labels, retention } = new;
    replace(&mut config.labels, labels, mask.has(0));
    replace(&mut config.retention, retention, mask.has(1));
}

/// Gives a subscription the masked fields of these settings, and leaves its others: ordering and the filter stay
/// always. Takes no memory (API reference, UpdateSubscription).
pub fn apply_sub(config: &mut SubConfig, new: SubConfig, mask: Mask)
    ensures { config.new ≡ masked_sub mask config.old new }
{
    let SubConfig {
        ack_seconds,
        retain_acked,
        retention,
        labels,
        expiration,
        dead_letter,
        retry,
        exactly_once,
        ..
    } = new;
    replace(&mut config.ack_seconds, ack_seconds, mask.has(0));
    replace(&mut config.retain_acked, retain_acked, mask.has(1));
    replace(&mut config.retention, retention, mask.has(2));
    replace(&mut config.labels, labels, mask.has(3));
    replace(&mut config.expiration, expiration, mask.has(4));
    replace(&mut config.dead_letter, dead_letter, mask.has(5));
    replace(&mut config.retry, retry, mask.has(6));
    replace(&mut config.exactly_once, exactly_once, mask.has(7));
}

/// Whether the fields of a topic that the mask doesn't name have their defaults. Takes no memory.
pub fn is_masked_topic(config: &TopicConfig, mask: Mask) -> bool
    ensures { result ≡ is_masked_topic mask config.now }
{
    (mask.has(0) || config.labels.as_slice().is_empty())
        && (mask.has(1) || config.retention.is_none())
}

/// Whether the fields of a subscription that the mask doesn't name have their defaults, and ordering and the filter
/// always. Takes no memory.
pub fn is_masked_sub(config: &SubConfig, mask: Mask) -> bool
    ensures { result ≡ is_masked_sub mask config.now }
{
    !config.ordering
        && config.filter.len() == 0
        && has_masked_times(config, mask)
        && has_masked_policies(config, mask)
}

/// Whether the seconds of a lease, the retention and the expiration are named or their defaults.
fn has_masked_times(config: &SubConfig, mask: Mask) -> bool
    ensures { result ≡ has_masked_times mask config.now }
{
    (mask.has(0) || config.ack_seconds == DEFAULT_ACK_SECONDS)
        && (mask.has(1) || !config.retain_acked)
        && (mask.has(2) || config.retention == DEFAULT_RETENTION)
        && (mask.has(4) || config.expiration == Some(DEFAULT_EXPIRATION))
}

/// Whether the labels, the policies and exactly-once mode are named or their defaults.
fn has_masked_policies(config: &SubConfig, mask: Mask) -> bool
    ensures { result ≡ has_masked_policies mask config.now }
{
    (mask.has(3) || config.labels.as_slice().is_empty())
        && (mask.has(5) || config.dead_letter.is_none())
        && (mask.has(6) || config.retry.is_none())
        && (mask.has(7) || !config.exactly_once)
}
