//! Laws over the logs that the core accepts.
#![tactic(auto)]

mod laws;

pub use laws::{law_accepted, law_count, law_history};
