//! The outside world as traits: an input, an output, a connection, a directory of logs, a clock, a net of ports and a gate
//! between workers. Each of them also stands in memory, those that may fail with a script of their faults.
#![tactic(auto)]

mod cabinet;
mod clock;
mod edge;
mod gate;
mod link;
mod memory;
mod memory_cabinet;
mod memory_door;
mod memory_link;
mod memory_net;
mod net;
mod path_log;
mod pieces;

pub use cabinet::Cabinet;
pub use clock::{Clock, MemoryClock};
pub use edge::{Failed, Got, Sink, Source, write_all};
pub use gate::{Gate, OpenGate};
pub use link::{Link, LinkGot, send_all};
pub use memory::{MemorySink, MemorySource};
pub use memory_cabinet::MemoryCabinet;
pub use memory_door::MemoryDoor;
pub use memory_link::MemoryLink;
pub use memory_net::MemoryNet;
pub use net::{Accepted, Door, Net, NetError, Port};
pub use path_log::{PathLog, is_kept, is_out, noted, put_back, put_in, take_out};
