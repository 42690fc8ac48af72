//! Requests of connections answered over a log: bytes to requests, requests to calls, calls to answers; and a port served
//! over the log under a path.
#![tactic(auto)]

mod answer;
mod conn;
mod port;
mod protocol;
mod service;

pub use conn::{ConnEnd, serve_conn};
pub use port::serve_file;
pub use protocol::{Asked, HttpProtocol};
