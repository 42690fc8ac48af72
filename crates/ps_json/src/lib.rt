//! Calls and replies as JSON: the fields of a line, what a call's body asks, and the lines that answer.
#![tactic(auto)]

mod batch_line;
mod bodies;
mod call;
mod masks;
mod missing;
mod named;
mod print;
mod read_error;
mod reply;
mod settings;

pub use batch_line::{BatchLine, read_batch_line};
pub use call::{CallKind, command};
pub use named::{PathNames, Query};
pub use read_error::ReadError;
pub use reply::{code, no_line, print_body, print_reply, refusal_body, refusal_line, value};
