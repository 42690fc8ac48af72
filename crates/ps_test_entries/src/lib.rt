//! Tests of how values and entries are spelled as bytes. Most are transcripts, so a case is a line of text.
#![tactic(auto)]

#[cfg(test)]
mod entries;
#[cfg(test)]
mod forms;
