//! Calls by verb and target, and the codes and bodies that answer them.
#![tactic(auto)]

mod answer;
mod body;
mod call;
mod query;
mod routes;
mod target;

pub use answer::{answer_text, framing_text, memory_text, refusal_answer};
pub use call::{command_for, route};
