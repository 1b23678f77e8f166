//! Which bytes open as a trace file, and what the writer leaves in a buffer.

ghost use Rattle.std.specs.Prelude.{◌≡◌};
ghost use Rattle.std.specs.Result.{result_err};
ghost use Rattle.trace_file.specs.Opening.{opened};

use feed::{Feed, Refusal};
use record::{Cause, Counts, FenceRecord, Record};
use std::test::Fail;
use trace_file::{TraceFile, append, append_test, begin, copy_trace};

const MOST: Counts = Counts {
    threads: 8,
    addresses: 64,
};

const FENCE: Record = Record::Fence(FenceRecord { thread: 7 });

/// Why the bytes are no trace file.
fn refusal_of(bytes: &[u8]) -> Option<Refusal>
    ensures { result ≡ result_err (opened bytes.now) }
{
    TraceFile::open(bytes).err()
}

#[test]
fn headers_that_are_refused(rt: HostRuntime) {
    assert_eq!(rt; refusal_of(&[0, 9, 0, 0, 0, 0]), Some(Refusal::ShortHeader));
    let one = [
        0, 2, 0, 1, 0, 0, 0, 1, 0, 0, 0, 16, 0, 0, 0, 27, 3, 0, 0, 0, 0, 0, 0, 0, 0, 0, 0, 0,
    ];
    assert_eq!(rt; refusal_of(&one), Some(Refusal::BrokenLayout));
    let empty = [0, 2, 0, 1, 0, 0, 0, 0, 0, 0, 0, 16, 0, 0, 0, 16];
    assert_eq!(rt; refusal_of(&empty), None);
    let no_thread = [0, 0, 0, 0, 0, 0, 0, 0, 0, 0, 0, 16, 0, 0, 0, 16];
    assert_eq!(rt; refusal_of(&no_thread), Some(Refusal::ThreadCount));
    let many_addresses = [0, 8, 0, 65, 255, 0, 0, 0, 0, 0, 0, 16, 0, 0, 0, 16];
    assert_eq!(rt; refusal_of(&many_addresses), Some(Refusal::AddressCount));
}

#[test]
fn an_empty_trace(rt: HostRuntime) -> Result<(), Fail> {
    let mut buf = [9u8; 17];
    assert_eq!(rt; begin(&mut buf, MOST).ok(), Some(16));
    assert_eq!(rt; buf[16], 9);
    let mut file = TraceFile::open(&buf[0..16]).ok().ok_or("refused")?;
    assert_eq!(rt; file.counts(), MOST);
    assert!(rt; matches!(file.next(), Ok(None)));
    assert!(rt; matches!(file.next(), Ok(None)));
    Ok(())
}

#[test]
fn a_full_buffer_is_unchanged(rt: HostRuntime) {
    let mut buf = [9u8; 39];
    assert_eq!(rt; begin(&mut buf, MOST).ok(), Some(16));
    assert_eq!(rt; append(&mut buf, FENCE).ok(), Some(28));
    let before = buf;
    assert_eq!(rt; append(&mut buf, FENCE).err(), Some(Refusal::NoRoom));
    assert_eq!(rt; buf, before);
    let foreign = Record::Fence(FenceRecord { thread: 8 });
    let not_made = Refusal::NotWellMade(Cause::WrongThread);
    assert_eq!(rt; append_test(&buf, foreign).err(), Some(not_made));
    assert_eq!(rt; buf[28], 9);
}

#[test]
fn as_many_records_as_fit(rt: HostRuntime) -> Result<(), Fail> {
    let mut buf = vec![in rt.alloc(); 0u8; 49_180]?;
    assert_eq!(rt; begin(buf.as_mut_slice(), MOST).ok(), Some(16));
    for _ in 0..4096 {
        assert!(rt; append(buf.as_mut_slice(), FENCE).is_ok());
    }
    let full = Some(Refusal::RecordCount);
    assert_eq!(rt; append(buf.as_mut_slice(), FENCE).err(), full);
    assert!(rt; buf.len() == 49_180);
    assert_eq!(rt; refusal_of(&buf.as_slice()[0..49_168]), None);
    buf[6] = 16;
    buf[7] = 1;
    assert_eq!(rt; refusal_of(buf.as_slice()), full);
    Ok(())
}

#[test]
fn a_copy_and_a_short_target(rt: HostRuntime) {
    let mut source = [0u8; 28];
    assert_eq!(rt; begin(&mut source, MOST).ok(), Some(16));
    assert_eq!(rt; append(&mut source, FENCE).ok(), Some(28));
    let mut target = [9u8; 29];
    assert!(rt; copy_trace(&source, &mut target[0..27]).is_err());
    assert_eq!(rt; target, [9u8; 29]);
    assert!(rt; copy_trace(&source, &mut target).is_ok());
    assert_eq!(rt; target[27], 0);
    assert_eq!(rt; target[28], 9);
}
