//! Writing a trace file into the caller's buffer, a record at a time.

ghost use Rattle.std.specs.Prelude.{◌≡◌, ℕ, ◌+◌, ◌*◌, ◌<◌, ◌≤◌, ◌++◌, length, drop, is_ok, IfOk, if◌then◌else◌, Ok};
ghost use Rattle.record.specs.Layout.{bytes_of};
ghost use Rattle.record.specs.WellMade.{checked};
ghost use Rattle.trace_file.specs.Layout.{header_bytes, header_of, trace_length};
ghost use Rattle.trace_file.specs.Writing.{writable, begins, begun, append_tested, appends, placed, counted, appended};

use crate::faults::Unwritten;
use crate::layout::{HEADER_BYTES, Header, MOST_RECORDS, test_counts, trace_length};
use feed::Refusal;
use record::{Counts, RECORD_BYTES, Record};

/// Nothing where the record goes into a slot of `room` bytes: it has to be well made, then there has to be room.
fn may_write(record: Record, counts: Counts, room: usize) -> Result<(), Unwritten>
    ensures { result ≡ writable counts «record» room }
{
    record.check(counts)?;
    if room < RECORD_BYTES {
        return Err(Unwritten::ShortSlot);
    }
    Ok(())
}

/// Writes the record into the first twelve bytes of the slot.
///
/// Writes nothing where the record is not well made, or else the slot is too short.
pub fn write_record(slot: &mut [u8], record: Record, counts: Counts) -> Result<(), Unwritten>
    ensures answer { result ≡ writable counts «record» (length slot.old) }
    ensures after { slot.new ≡ (if is_ok result then bytes_of «record» ++ drop 12 slot.old else slot.old) }
{
    may_write(record, counts, slot.len())?;
    // Both ends are written out: with `..12` the copy is not proved.
    slot[0..12].copy_from_slice(&record.encode());
    Ok(())
}

/// The sixteen bytes of the header of an empty trace.
// No `From`: they are the bytes of this one header, and of no other is any asked for.
fn empty_header(counts: Counts) -> [u8; 16]
    ensures { result ≡ header_bytes counts 0 }
{
    let Counts { threads, addresses } = counts;
    [
        0, threads, 0, addresses, 0, 0, 0, 0, 0, 0, 0, 16, 0, 0, 0, 16,
    ]
}

/// Puts the header of an empty trace at the front of the buffer, and returns the length of that trace.
///
/// Refuses a buffer shorter than the header, a number of threads that is not 1 to 8, and one of addresses that is not 1 to 64, tested in this order; the buffer is then as before.
pub fn begin(buf: &mut [u8], counts: Counts) -> Result<usize, Refusal>
    ensures answer { result ≡ begins (length buf.old) counts }
    ensures after { buf.new ≡ (if is_ok result then begun buf.old counts else buf.old) }
{
    if buf.len() < HEADER_BYTES {
        return Err(Refusal::ShortHeader);
    }
    test_counts(u16::from(counts.threads), u16::from(counts.addresses))?;
    buf[0..16].copy_from_slice(&empty_header(counts));
    Ok(HEADER_BYTES)
}

/// The counts of a trace with this header, in a buffer of `room` bytes, that takes one more record.
fn may_append(header: Header, room: usize, record: Record) -> Result<Counts, Refusal>
    ensures answer { result ≡ append_tested header room «record» }
    ensures fits { IfOk result (λ c. (trace_length header.count + 12 ≤ room) × (header.count < 4096) × (checked c «record» ≡ Ok tt)) }
{
    let length = header.length as usize;
    let counts = header.test(MOST_RECORDS - 1, length <= room)?;
    may_write(record, counts, room.saturating_sub(length))?;
    Ok(counts)
}

/// What `append` would answer; nothing is written.
pub fn append_test(buf: &[u8], record: Record) -> Result<usize, Refusal>
    ensures { result ≡ appends buf.now «record» }
{
    let header = Header::read(buf)?;
    may_append(header, buf.len(), record)?;
    Ok(trace_length(header.count + 1))
}

/// Lends the twelve bytes behind the last record of the trace in the buffer to the record writer.
fn put_record(buf: &mut [u8], record: Record, counts: Counts) -> Result<(), Unwritten>
    requires room { trace_length (header_of buf.old).count + 12 ≤ length buf.old }
    requires few { (header_of buf.old).count < 4096 }
    requires well_made { checked counts «record» ≡ Ok tt }
    ensures answer { result ≡ Ok tt }
    ensures after { buf.new ≡ placed (trace_length (header_of buf.old).count) (bytes_of «record») buf.old }
{
    // That a pattern takes the header apart, and the rest behind it is lent on, is prescribed.
    let [
        t0,
        t1,
        a0,
        a1,
        n0,
        n1,
        n2,
        n3,
        o0,
        o1,
        o2,
        o3,
        l0,
        l1,
        l2,
        l3,
        ref mut rest @ ..,
    ] = *buf
    else {
        return Err(Unwritten::ShortSlot);
    };
    let header = Header::from([
        t0, t1, a0, a1, n0, n1, n2, n3, o0, o1, o2, o3, l0, l1, l2, l3,
    ]);
    let start = RECORD_BYTES * header.count as usize;
    let end = start + RECORD_BYTES;
    write_record(&mut rest[start..end], record, counts)
}

/// Puts the count and the length of a trace of so many records into its header.
fn set_count(buf: &mut [u8], count: u32)
    requires { (16 ≤ length buf.old) × (count ≤ 4096) }
    ensures { buf.new ≡ counted count buf.old }
{
    buf[4..8].copy_from_slice(&count.to_be_bytes());
    buf[12..16].copy_from_slice(&(16 + 12 * count).to_be_bytes());
}

/// Writes the record behind the last one of the trace in the buffer, raises count and length, and returns the length.
///
/// Refuses in this order: a short header, a number of threads or addresses out of range, a full trace, a broken layout, a record that is not well made, and a buffer with no room behind the trace. The buffer is then as before.
pub fn append(buf: &mut [u8], record: Record) -> Result<usize, Refusal>
    ensures answer { result ≡ appends buf.old «record» }
    ensures after { buf.new ≡ (if is_ok result then appended buf.old «record» else buf.old) }
{
    let header = Header::read(buf)?;
    let counts = may_append(header, buf.len(), record)?;
    put_record(buf, record, counts)?;
    set_count(buf, header.count + 1);
    Ok(trace_length(header.count + 1))
}
