//! The judge: it takes a feed's records one by one, and tells what the trace comes to.
#![tactic(auto)]

mod answers;
mod faults;
mod files;
mod judges;
mod lines;

pub use answers::RunAnswer;
pub use faults::Fault;
pub use files::{judge_file, line};
pub use judges::Judge;
pub use lines::Line;
