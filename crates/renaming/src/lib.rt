//! Renamings: other names for the numbers below a count, there and back.
#![tactic(auto)]

mod entries;
mod rotation;
mod table;
mod traits;

pub use rotation::Rotation;
pub use table::Table;
pub use traits::Renaming;
