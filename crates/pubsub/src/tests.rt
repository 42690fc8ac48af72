//! Tests of the whole program: what it prints, against texts that were written by hand from the rules.

mod faults;
mod filters;
mod limits;
mod lines;
mod pages;
mod pieces;
mod reports;
mod returning;
mod runs;
mod serving;
mod sessions;
mod subscriptions;
mod topics;
mod transcripts;
