//! The settings of topics and subscriptions: what they may be, and which of them an update changes.
#![tactic(auto)]

mod check;
mod config;
mod laws;
mod limits;
mod mask;

pub use check::{check_sub, check_sub_before_filter, check_sub_behind_filter, check_topic};
pub use config::{DeadLetterPolicy, RetryPolicy, SubConfig, TopicConfig};
pub use laws::law_masks;
pub use limits::{
    DEFAULT_ACK_SECONDS, DEFAULT_EXPIRATION, DEFAULT_LEAST_DELAY, DEFAULT_MOST_DELAY, DEFAULT_PAGE,
    DEFAULT_RETENTION, LEAST_ACK_SECONDS, LEAST_ATTEMPTS, LEAST_EXPIRATION, LEAST_RETENTION,
    MOST_ACK_SECONDS, MOST_ATTEMPTS, MOST_BYTES_OF_LABEL, MOST_DELAY, MOST_EXPIRATION, MOST_LABELS,
    MOST_OF_PAGE, MOST_RETENTION,
};
pub use mask::{Mask, apply_sub, apply_topic, is_masked_sub, is_masked_topic};

#[cfg(test)]
mod tests;
