//! Commands over a log, for any machine, keeper and streams: lines to calls and answers, and reports.
#![tactic(auto)]

mod answer;
mod batch;
mod lines;
mod pending;
mod protocol;
mod report;
mod status;

pub use batch::{batch_file, batch_keeper};
pub use lines::run_lines;
pub use protocol::{Protocol, Reading, Report};
pub use report::{report_file, report_keeper};
pub use status::{Ended, Status, conclude, status_of_begin};
