//! A log of numbered rows as a trait, and a log in memory that fails by a script.
#![tactic(auto)]

mod keeper;
mod memory;

pub use keeper::{Keeper, KeeperError, Row};
pub use memory::{MemoryKeeper, When};

#[cfg(test)]
mod tests;
