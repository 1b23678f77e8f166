//! A bundle of logs: a log for each thread, and a list of the threads in the order in which their records arrived.
#![tactic(auto)]

mod arrivals;
mod laws;
mod layout;
mod logs;
mod opening;
mod reading;
mod testing;

pub use laws::logs_in_order;
pub use layout::Row;
pub use reading::Bundle;
pub use testing::{Contents, read_contents};
