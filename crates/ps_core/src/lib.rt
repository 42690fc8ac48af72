//! The message service as a machine: a book keeps its log, and the machine answers and makes the steps.
#![tactic(auto)]

mod built;
mod machine;
mod service;

pub use service::Core;
