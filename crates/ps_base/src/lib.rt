//! Plain values that every crate of the service uses.
#![tactic(auto)]

mod ack_id;
mod labels;
mod list;
mod memory;
mod moment;
mod octets;
mod reason;
mod refusal;
mod text;

pub use ack_id::AckId;
pub use labels::Labels;
pub use list::List;
pub use memory::{Duplicate, OutOfMemory};
pub use moment::Moment;
pub use octets::Octets;
pub use reason::Reason;
pub use refusal::Refusal;
pub use text::Text;

#[cfg(test)]
mod tests;
