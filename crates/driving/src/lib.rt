//! A judge driven through a list of calls: what it answers, and what that tells of the bottom of its pile.
#![tactic(auto)]

mod agreeing;
mod calls;
mod drives;

pub use agreeing::{agree, sites_agree};
pub use calls::{Answer, Call, Entry, Reply};
pub use drives::{drive, run_once};
