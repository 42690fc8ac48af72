//! The names of projects, topics, subscriptions and snapshots, and their grammar.
#![tactic(auto)]

mod grammar;
mod names;

pub use grammar::parts_of;
pub use names::{ProjectName, SnapName, SubName, TopicName};

#[cfg(test)]
mod tests;
