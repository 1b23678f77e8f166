//! Copying a trace file through the feed and the writer.

ghost use Rattle.std.specs.Prelude.{◌≡◌, length, is_ok, if◌then◌else◌, Ok};
ghost use Rattle.record.specs.Ending.{clean};
ghost use Rattle.trace_file.specs.Copying.{ended_clean, copies, copied};
ghost use Rattle.trace_file.specs.Laws.{all_appended, AllGranted};
ghost use Rattle.trace_file.specs.contracts.reading.TraceFileFeed.TheImpl.{ghosts as feed_of};

use crate::faults::Uncopied;
use crate::layout::HEADER_BYTES;
use crate::reading::TraceFile;
use crate::writing::{append, begin};
use feed::{Feed, Refusal};
use record::Damage;

/// Reads the file to its end: nothing where that is clean, else the damage.
fn read_through(mut file: TraceFile<'_>) -> Result<(), Damage>
    ensures { result ≡ ended_clean (feed_of.meaning file.entry).ending }
{
    while let Some(_record) = file.next()? {}
    Ok(())
}

/// Appends every record of the file to the trace in the target.
fn append_all(mut file: TraceFile<'_>, target: &mut [u8]) -> Result<(), Uncopied>
    requires granted { AllGranted target.old (feed_of.meaning file).waiting }
    requires undamaged { (feed_of.meaning file).ending ≡ clean }
    ensures answer { result ≡ Ok tt }
    ensures after { target.new ≡ all_appended target.old (feed_of.meaning file.entry).waiting }
{
    while let Some(record) = file.next()? {
        append(target, record)?;
    }
    Ok(())
}

/// Reads the source as a trace file, writes it again at the front of the target, and returns its length.
///
/// Answers the source's refusal, then its damage, then that the target is shorter than a header or than the source; the target is then as before. Otherwise the target begins with the source's very bytes, and those behind them are as before.
pub fn copy_trace(source: &[u8], target: &mut [u8]) -> Result<usize, Uncopied>
    ensures answer { result ≡ copies source.now (length target.old) }
    ensures after { target.new ≡ (if is_ok result then copied source.now target.old else target.old) }
{
    read_through(TraceFile::open(source)?)?;
    if target.len() < HEADER_BYTES {
        return Err(Uncopied::Refused(Refusal::ShortHeader));
    }
    if target.len() < source.len() {
        return Err(Uncopied::Refused(Refusal::NoRoom));
    }
    let file = TraceFile::open(source)?;
    begin(target, file.counts())?;
    append_all(file, target)?;
    Ok(source.len())
}
