//! What tests read: transcripts, with lines that ask and the lines that answer them, and bytes in writing.
//!
//! ```text
//! # a remark
//! > what is asked
//! > what is asked, too
//! < what answers both
//! ```
#![tactic(auto)]

mod notation;
mod transcript;

pub use notation::{bytes, named, number};
pub use transcript::{Case, cases};
