//! A record of a shared-memory trace, and the twelve bytes that hold it in a file.
#![tactic(auto)]

mod causes;
mod codec;
mod kinds;
mod laws;
mod layout;
mod text;

pub use causes::{Cause, Damage};
pub use kinds::{
    Counts, FenceRecord, Label, Mode, NotifyRecord, ReadRecord, Record, Source, Value, WaitRecord,
    WriteRecord,
};
pub use laws::round_trips;
pub use layout::RECORD_BYTES;
