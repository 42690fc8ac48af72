//! Tests of HTTP as transcripts: what a client sends, what the server reads of it, what it answers over a log, and how the
//! connections of a port are served, one after another.
#![tactic(auto)]

#[cfg(test)]
mod connections;
#[cfg(test)]
mod links;
#[cfg(test)]
mod ports;
#[cfg(test)]
mod requests;
#[cfg(test)]
mod stores;
