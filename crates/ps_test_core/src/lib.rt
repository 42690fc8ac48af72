//! Tests of one subscription, and of the core's calls and their replay. Most are transcripts, so a case is a line of text.
#![tactic(auto)]

#[cfg(test)]
mod calls;
#[cfg(test)]
mod subscriptions;
