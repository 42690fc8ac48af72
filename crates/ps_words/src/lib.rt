//! The words of the command line, as its parser sees them.
#![tactic(auto)]

mod command;
mod serve;

pub use serve::{ServeWords, WordsError, begins_with_serve, serve_words};
