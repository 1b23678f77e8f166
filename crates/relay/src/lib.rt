//! Relays that rename: feeds made of other feeds, whose records they pass on with threads or addresses under other names.
#![tactic(auto)]

mod addresses;
mod deepening;
mod relaying;
mod showing;
mod threads;
mod traits;

pub use addresses::AddressNames;
pub use deepening::deeper;
pub use relaying::{AddressRelay, RenamingRelay, ThreadRelay};
pub use showing::shown_number;
pub use threads::ThreadNames;
pub use traits::{Renames, Setting};
