//! What is left to read of each thread's log.

ghost use Rattle.std.specs.Prelude.{◌≡◌, map};
ghost use Rattle.bundle.specs.Reading.{log_bytes, bytes_of};

use crate::layout::Row;
use record::RECORD_BYTES;

/// The bytes of a row's log, as far as those of the bundle reach.
fn log_bytes(bytes: &[u8], row: Row) -> &[u8]
    ensures { result.now ≡ log_bytes bytes.now row }
{
    let start = bytes.len().min(row.offset as usize);
    let end = bytes.len().min(start + RECORD_BYTES * row.count as usize);
    &bytes[start..end]
}

/// The logs of the rows, unread.
pub(crate) fn unread_logs<'a>(bytes: &'a [u8], rows: &[Row; 8]) -> [&'a [u8]; 8]
    ensures { map bytes_of result ≡ map (log_bytes bytes.now) rows.now }
{
    rows.map(|row| log_bytes(bytes, row))
}
