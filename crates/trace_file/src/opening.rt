//! Opening lent bytes as a trace file.

ghost use Rattle.std.specs.Prelude.{◌≡◌, ◌+◌, ◌/◌, ◌≤◌, length, drop, IfOk, Ok, Err, MatchResult};
ghost use Rattle.feed.specs.Pile.{bottom};
ghost use Rattle.trace_file.specs.Opening.{opened, OpensBehind};
ghost use Rattle.trace_file.specs.contracts.reading.TraceFileFeed.TheImpl.{ghosts as feed_of};

use crate::layout::{HEADER_BYTES, Header, MOST_RECORDS};
use crate::reading::TraceFile;
use feed::Refusal;
use record::{Counts, RECORD_BYTES};

/// The counts of the bytes as a trace file, which then has at least a header, or the first refusal.
fn test_file(bytes: &[u8]) -> Result<Counts, Refusal>
    ensures { MatchResult result (λ c. (16 ≤ length bytes.now) × OpensBehind bytes.now c) (λ e. opened bytes.now ≡ Err e) }
{
    let header = Header::read(bytes)?;
    header.test(MOST_RECORDS, header.length as usize == bytes.len())
}

impl<'a> TraceFile<'a> {
    /// Opens the bytes as a trace file.
    ///
    /// Refuses a short header, a number of threads or addresses or records out of range, and a broken layout, tested in this order.
    pub fn open(bytes: &'a [u8]) -> Result<TraceFile<'a>, Refusal>
        ensures answer { MatchResult result (λ f. opened bytes.now ≡ Ok (feed_of.meaning f)) (λ e. opened bytes.now ≡ Err e) }
        ensures at_its_start { IfOk result (λ f. (f.place ≡ 0) × (f.records.now ≡ drop 16 bytes.now)) }
        ensures bottom_of_its_pile { IfOk result (λ f. (feed_of.pile f ≡ bottom (feed_of.meaning f)) × feed_of.unread f) }
    {
        let counts = test_file(bytes)?;
        Ok(TraceFile {
            counts,
            records: &bytes[HEADER_BYTES..],
            place: 0,
        })
    }

    /// How many records the file has, well made or not.
    pub fn count(&self) -> usize
        ensures { result ≡ self.now.place + length self.now.records.now / 12 }
    {
        self.records.len() / RECORD_BYTES + self.place
    }

    /// How many records were read.
    pub fn place(&self) -> usize
        ensures { result ≡ self.now.place }
    {
        self.place
    }
}
