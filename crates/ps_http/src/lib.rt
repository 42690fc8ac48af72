//! HTTP/1 for a server whose bodies are JSON: requests are read from a link, and answers are texts.
#![tactic(auto)]

mod answers;
mod bodies;
mod chunks;
mod exchange;
mod heads;
mod laws;
mod limits;
mod reading;
mod sections;
mod starts;

pub use answers::answer;
pub use exchange::{Exchange, Kept, next};
pub use laws::{law_one_answer, law_prefix_free, law_stays};
