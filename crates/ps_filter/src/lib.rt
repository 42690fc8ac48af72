//! The filter language: which messages a subscription wants by their attributes.
#![tactic(auto)]

mod cursor;
mod fault;
mod filter;
mod grammar;
mod laws;
mod lexer;
mod token;
mod tree;

pub use fault::FilterError;
pub use filter::Filter;
pub use laws::{law_grammar, law_problems};

#[cfg(test)]
mod tests;
