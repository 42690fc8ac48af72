//! The sockets and the clock of the machine, as the traits of `ps_edge`. What a socket carries isn't known to any clause.
#![tactic(auto)]

mod clock;
mod door;
mod link;
mod net;

pub use clock::SystemClock;
pub use door::TcpDoor;
pub use link::TcpLink;
pub use net::TcpNet;
