//! The tables of the core: topics, subscriptions and messages by number, and numbers by name.
#![tactic(auto)]

mod entering;
mod kept_subscription;
mod name_index;
mod releasing;
mod same;
mod tables;

pub use kept_subscription::KeptSubscription;
pub use name_index::{NameIndex, NamePage};
pub use same::{same_sub_config, same_topic_config};
pub use tables::{KeptMessage, KeptTopic, Tables};
