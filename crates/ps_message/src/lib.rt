//! Messages, and what a publish may hold.
#![tactic(auto)]

mod limits;
mod message;
mod publish;

pub use limits::{
    MOST_ATTRIBUTES, MOST_BYTES, MOST_BYTES_OF_ATTRIBUTE_KEY, MOST_BYTES_OF_ATTRIBUTE_VALUE,
    MOST_BYTES_OF_ORDERING_KEY, MOST_MESSAGES,
};
pub use message::{Attributes, Message};
pub use publish::{PublishFault, check_publish};

#[cfg(test)]
mod tests;
