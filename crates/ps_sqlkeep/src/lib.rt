//! A log in a table of an SQLite database.
#![tactic(auto)]

mod adopting;
mod in_order;
mod keeper;
mod reading;
mod replacing;
mod schema;
mod statements;

pub use in_order::InOrder;
pub use keeper::{SqlKeeper, Unadopted, cause_of};
pub use schema::is_unclaimed;

#[cfg(test)]
mod tests;
