//! Which bytes open as a bundle, and what it delivers.

ghost use Rattle.std.specs.Prelude.{◌≡◌, ◌<◌, slice_set};
ghost use Rattle.std.specs.Result.{result_err};
ghost use Rattle.bundle.specs.Opening.{opened};

use bundle::Bundle;
use feed::{Feed, Refusal};
use record::{Cause, Damage, FenceRecord, NotifyRecord, Record};
use std::test::Fail;

/// Two threads and one address: a fence and a notify of thread 0, a fence of thread 1, which arrived second.
const SMALL: &[u8; 115] = b"\0\x02\0\x01\0\0\0\x03\0\0\0\x70\
    \0\0\0\x4c\0\0\0\x02\0\0\0\x64\0\0\0\x01\
    \0\0\0\0\0\0\0\0\0\0\0\0\0\0\0\0\0\0\0\0\0\0\0\0\0\0\0\0\0\0\0\0\0\0\0\0\0\0\0\0\0\0\0\0\0\0\0\0\
    \x03\0\0\0\0\0\0\0\0\0\0\0\x04\0\0\0\0\0\0\0\0\0\0\x07\x03\x01\0\0\0\0\0\0\0\0\0\0\0\x01\0";

const FENCE: Record = Record::Fence(FenceRecord { thread: 0 });

/// Why the bytes are no bundle.
fn refusal_of(bytes: &[u8]) -> Option<Refusal>
    ensures { result ≡ result_err (opened bytes.now) }
{
    Bundle::open(bytes).err()
}

/// Why the bytes, with another byte at one place, are no bundle.
fn refusal_with(mut bytes: [u8; 115], at: usize, byte: u8) -> Option<Refusal>
    requires { at < 115 }
    ensures { result ≡ result_err (opened (slice_set bytes at byte)) }
{
    bytes[at] = byte;
    refusal_of(&bytes)
}

#[test]
fn headers_that_are_refused(rt: HostRuntime) {
    let small = *SMALL;
    assert_eq!(rt; refusal_of(&small), None);
    assert_eq!(rt; refusal_of(&small[0..75]), Some(Refusal::ShortHeader));
    assert_eq!(rt; refusal_with(*SMALL, 1, 0), Some(Refusal::ThreadCount));
    assert_eq!(rt; refusal_with(*SMALL, 1, 9), Some(Refusal::ThreadCount));
    assert_eq!(rt; refusal_with(*SMALL, 3, 65), Some(Refusal::AddressCount));
}

#[test]
fn counts_up_to_4096(rt: HostRuntime) {
    let mut bytes = *SMALL;
    bytes[6] = 16;
    bytes[7] = 0;
    assert_eq!(rt; refusal_of(&bytes), Some(Refusal::BrokenLayout));
    bytes[7] = 1;
    assert_eq!(rt; refusal_of(&bytes), Some(Refusal::RecordCount));
}

#[test]
fn a_row_of_no_thread_counts_too(rt: HostRuntime) {
    let mut bytes = *SMALL;
    bytes[74] = 16;
    assert_eq!(rt; refusal_of(&bytes), Some(Refusal::BrokenLayout));
    bytes[75] = 1;
    assert_eq!(rt; refusal_of(&bytes), Some(Refusal::RecordCount));
}

#[test]
fn layouts_that_are_refused(rt: HostRuntime) {
    let small = *SMALL;
    let broken = Some(Refusal::BrokenLayout);
    assert_eq!(rt; refusal_with(*SMALL, 23, 88), broken);
    assert_eq!(rt; refusal_with(*SMALL, 11, 113), broken);
    assert_eq!(rt; refusal_with(*SMALL, 31, 76), broken);
    assert_eq!(rt; refusal_of(&small[0..114]), broken);
}

#[test]
fn an_empty_log_has_its_place(rt: HostRuntime) {
    let mut bytes = *SMALL;
    bytes[1] = 3;
    assert_eq!(rt; refusal_of(&bytes), Some(Refusal::BrokenLayout));
    bytes[31] = 112;
    assert_eq!(rt; refusal_of(&bytes), None);
}

#[test]
fn arrival_lists_that_are_refused(rt: HostRuntime) {
    let unfit = Some(Refusal::ArrivalList);
    assert_eq!(rt; refusal_with(*SMALL, 112, 2), unfit);
    assert_eq!(rt; refusal_with(*SMALL, 113, 0), unfit);
    let mut bytes = *SMALL;
    bytes[7] = 0;
    assert_eq!(rt; refusal_of(&bytes[0..112]), unfit);
}

#[test]
fn records_arrive_in_order(rt: HostRuntime) -> Result<(), Fail> {
    let mut bundle = Bundle::open(SMALL).ok().ok_or("refused")?;
    assert_eq!(rt; bundle.count(), 3);
    let second = Record::Fence(FenceRecord { thread: 1 });
    let third = Record::Notify(NotifyRecord {
        thread: 0,
        label: 7,
    });
    assert_eq!(rt; bundle.next().ok(), Some(Some(FENCE)));
    assert_eq!(rt; bundle.next().ok(), Some(Some(second)));
    assert_eq!(rt; bundle.next().ok(), Some(Some(third)));
    assert!(rt; matches!(bundle.next(), Ok(None)));
    assert!(rt; matches!(bundle.next(), Ok(None)));
    Ok(())
}

#[test]
fn a_record_in_another_threads_log(rt: HostRuntime) -> Result<(), Fail> {
    let mut bytes = *SMALL;
    bytes[101] = 0;
    let mut bundle = Bundle::open(&bytes).ok().ok_or("refused")?;
    let damage = Damage {
        cause: Cause::WrongThread,
        place: 1,
        depth: 0,
    };
    assert_eq!(rt; bundle.next().ok(), Some(Some(FENCE)));
    assert_eq!(rt; bundle.next().err(), Some(damage));
    assert_eq!(rt; bundle.next().err(), Some(damage));
    Ok(())
}
