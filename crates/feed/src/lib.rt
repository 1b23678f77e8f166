//! Where records come from: the trait of every feed, and why an input is refused.
#![tactic(auto)]

mod laws;
mod refusals;
mod text;
mod traits;

pub use laws::{piles_keep_accounts, relays_keep_accounts};
pub use refusals::Refusal;
pub use traits::Feed;
