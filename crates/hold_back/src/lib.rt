//! The hold-back relay: a feed made of another, which holds some of one thread's records back while others pass them.
#![tactic(auto)]

mod held;
mod hold;
mod holding;
mod passing;

pub use hold::Hold;
pub use holding::HoldBack;
