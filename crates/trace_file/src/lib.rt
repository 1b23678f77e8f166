//! Trace files: reading one from lent bytes, and writing one into a lent buffer.
#![tactic(auto)]

mod copying;
mod faults;
mod laws;
mod layout;
mod opening;
mod reading;
mod writing;

pub use copying::copy_trace;
pub use faults::{Uncopied, Unwritten};
pub use laws::{one_trace_file, written_is_read};
pub use layout::{HEADER_BYTES, MOST_RECORDS, in_range, test_counts};
pub use reading::{TraceFile, first_twelve};
pub use writing::{append, append_test, begin, write_record};
