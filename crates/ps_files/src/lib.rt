//! Logs in files: the keeper of such a log, and a directory of them.
#![tactic(auto)]

mod beside;
mod cabinet;
mod keeper;
mod opening;

pub use cabinet::FileCabinet;
pub use keeper::{FileKeeper, Store};
