//! The fields of a record: numbers, flags and bytes, written one after the other and read back.
#![tactic(auto)]

mod fault;
mod laws;
mod reader;
mod writer;

pub use fault::FieldError;
pub use laws::{only_what_is_written_is_read, written_is_read};
pub use reader::FieldReader;
pub use writer::FieldWriter;

#[cfg(test)]
mod tests;
