//! One subscription: its messages, each with its mark.
#![tactic(auto)]

mod acknowledge;
mod choose;
mod fail;
mod keys;
mod lend;
mod marks;
mod modify;
mod outcome;
mod retention;
mod showing;
mod standing;
mod sub;
mod tickets;

pub use outcome::{AckOutcome, ModifyOutcome, SubCounts};
pub use sub::Sub;
pub use tickets::TicketSet;
