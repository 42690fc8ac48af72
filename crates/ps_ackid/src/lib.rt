//! Ack ids as a client sees them: 32 characters of base64.
#![tactic(auto)]

mod laws;
mod text;

pub use laws::texts_differ;
pub use text::{read, write};

#[cfg(test)]
mod tests;
