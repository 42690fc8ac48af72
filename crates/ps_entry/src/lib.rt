//! The bytes of a recorded entry: what was written is read back, and nothing else is read.
#![tactic(auto)]

mod laws;
mod reading;
mod recorded;
mod writing;

pub use laws::law_entries;
pub use reading::read;
pub use recorded::is_recorded;
pub use writing::write;
