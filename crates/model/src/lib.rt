//! When a record of a shared-memory trace is lawful, and the laws that every judge of one rests on.
//!
//! The rules stand in specs/Lawful.antt, and what they speak of in specs/Events.antt.
#![tactic(auto)]

mod laws;
mod outcomes;
mod reasons;

pub use laws::{
    alike_up_to_renaming, holding_back_keeps_accounts, merge_rule, outcome_tells,
    ranks_order_events, renaming_keeps_verdicts, table_of_traces,
};
pub use outcomes::{Outcome, UnlawfulRecord};
pub use reasons::Reason;
