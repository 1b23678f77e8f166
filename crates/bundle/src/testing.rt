//! The tests that a bundle has to pass, but for those of its arrival list.

ghost use Rattle.std.specs.Prelude.{◌≡◌, length, IfOk};
ghost use Rattle.bundle.specs.Contents.{any_above, row_stands, logs_end, header_tested, contents_under, contents_of, Within};

use crate::layout::{BundleHeader, HEADER_BYTES, Row};
use feed::Refusal;
use record::{Counts, RECORD_BYTES};
use trace_file::{MOST_RECORDS, test_counts};

/// What a bundle holds, whatever its arrival list says.
#[derive(Clone, Copy)]
pub struct Contents {
    pub counts: Counts,
    /// How many entries the arrival list has; they are the bundle's last bytes.
    pub count: u32,
    /// The logs, by thread.
    pub rows: [Row; 8],
}

/// Whether some row has more than so many records.
fn any_above(rows: &[Row; 8], most: u32) -> bool
    ensures { result ≡ any_above most rows.now }
{
    rows.iter().any(|row| row.count > most)
}

impl Row {
    /// Whether the row is that of a log at a place; where there is no such thread, whether it is zero.
    fn stands(self, named: bool, at: usize) -> bool
        ensures { result ≡ row_stands named at self }
    {
        if named {
            self.offset as usize == at
        } else {
            self.offset == 0 && self.count == 0
        }
    }
}

/// Where the last log ends, if the logs stand one behind the other from the header on and the rows of no thread are zero.
fn logs_end(rows: &[Row; 8], threads: u16) -> Option<usize>
    ensures { result ≡ logs_end threads 0 76 rows.now }
{
    // A loop over the rows with their thread, which is prescribed for whatever looks at the logs.
    let mut end = HEADER_BYTES;
    for (t, row) in rows.iter().enumerate() {
        if !row.stands(t < usize::from(threads), end) {
            return None;
        }
        end += RECORD_BYTES * row.count as usize;
    }
    Some(end)
}

impl BundleHeader {
    /// The header's counts, or the first refusal where the bundle has so many bytes.
    fn test(&self, length: usize) -> Result<Counts, Refusal>
        ensures { result ≡ header_tested «length» self.now }
    {
        let counts = test_counts(self.threads, self.addresses)?;
        if self.count > MOST_RECORDS || any_above(&self.rows, MOST_RECORDS) {
            return Err(Refusal::RecordCount);
        }
        match logs_end(&self.rows, self.threads) {
            Some(end) if self.arrivals as usize == end && length == end + self.count as usize => {
                Ok(counts)
            }
            _ => Err(Refusal::BrokenLayout),
        }
    }

    /// What a bundle with this header and so many bytes holds, or the first refusal.
    fn contents(&self, length: usize) -> Result<Contents, Refusal>
        ensures answer { result ≡ contents_under self.now (header_tested «length» self.now) }
        ensures within { IfOk result (λ k. Within «length» k) }
    {
        let counts = self.test(length)?;
        Ok(Contents {
            counts,
            count: self.count,
            rows: self.rows,
        })
    }
}

/// Reads what a bundle holds, but does not look at its arrival list.
///
/// Refuses a short header, a number of threads or addresses or records out of range, and a broken layout, tested in this order.
pub fn read_contents(bytes: &[u8]) -> Result<Contents, Refusal>
    ensures answer { result ≡ contents_of bytes.now }
    ensures within { IfOk result (λ k. Within (length bytes.now) k) }
{
    let header = BundleHeader::read(bytes)?;
    header.contents(bytes.len())
}
