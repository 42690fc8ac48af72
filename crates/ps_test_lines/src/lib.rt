//! Tests of calls and their answers: what lines and requests ask, and how replies are told. Each is a transcript, so a case
//! is a line of text.
#![tactic(auto)]

#[cfg(test)]
mod answers;
#[cfg(test)]
mod commands;
#[cfg(test)]
mod replies;
#[cfg(test)]
mod requests;
