//! Which bytes and which values are no well-made record, and why.

ghost use Rattle.std.specs.Prelude.{◌≡◌, None};
ghost use Rattle.std.specs.Result.{result_err};
ghost use Rattle.record.specs.Reading.{decoded};
ghost use Rattle.record.specs.WellMade.{thread_of};

use record::{Cause, Counts, FenceRecord, Mode, ReadRecord, Record, Source, WriteRecord};

const FEW: Counts = Counts {
    threads: 2,
    addresses: 1,
};

const MOST: Counts = Counts {
    threads: 8,
    addresses: 64,
};

/// The cause for which the bytes are no record of a trace of `FEW`.
fn cause_of(bytes: [u8; 12]) -> Option<Cause>
    ensures { result ≡ result_err (decoded (record { threads = 2; addresses = 1 }) None bytes) }
{
    Record::decode(&bytes, FEW, None).err()
}

#[test]
fn causes_in_order(rt: HostRuntime) {
    assert_eq!(rt;
        cause_of([6, 9, 0, 9, 9, 9, 9, 9, 9, 9, 9, 9]),
        Some(Cause::UnknownKind)
    );
    assert_eq!(rt;
        cause_of([2, 2, 0, 9, 9, 9, 0, 0, 0, 0, 0, 0]),
        Some(Cause::WrongThread)
    );
    assert_eq!(rt;
        cause_of([2, 1, 0, 1, 9, 9, 0, 0, 0, 0, 0, 0]),
        Some(Cause::UnknownAddress)
    );
    assert_eq!(rt;
        cause_of([2, 1, 0, 0, 9, 2, 0, 0, 0, 0, 0, 0]),
        Some(Cause::UnknownMode)
    );
    assert_eq!(rt;
        cause_of([2, 1, 0, 0, 0, 1, 0, 0, 0, 0, 0, 0]),
        Some(Cause::UnknownSource)
    );
    assert_eq!(rt;
        cause_of([2, 1, 0, 0, 255, 1, 0, 1, 0, 0, 0, 0]),
        Some(Cause::UnknownSource)
    );
    assert_eq!(rt;
        cause_of([2, 1, 0, 0, 2, 1, 0, 1, 0, 0, 0, 0]),
        Some(Cause::UnknownSource)
    );
    assert_eq!(rt;
        cause_of([1, 1, 0, 0, 0, 0, 0, 1, 0, 0, 0, 0]),
        Some(Cause::UnusedNotZero)
    );
}

#[test]
fn unused_fields(rt: HostRuntime) {
    assert_eq!(rt;
        cause_of([3, 0, 0, 0, 0, 0, 0, 0, 0, 0, 0, 9]),
        Some(Cause::UnusedNotZero)
    );
    assert_eq!(rt;
        cause_of([3, 0, 0, 0, 0, 2, 0, 0, 0, 0, 0, 0]),
        Some(Cause::UnusedNotZero)
    );
    assert_eq!(rt;
        cause_of([4, 0, 0, 0, 0, 1, 0, 0, 0, 0, 0, 5]),
        Some(Cause::UnusedNotZero)
    );
    assert_eq!(rt;
        cause_of([5, 0, 0, 1, 0, 0, 0, 0, 0, 0, 0, 5]),
        Some(Cause::UnusedNotZero)
    );
    assert_eq!(rt; cause_of([5, 0, 0, 0, 0, 0, 0, 0, 0, 0, 0, 5]), None);
}

#[test]
fn a_log_has_one_thread(rt: HostRuntime) {
    let fence = Record::Fence(FenceRecord { thread: 1 });
    assert_eq!(rt;
        Record::decode(&fence.encode(), FEW, Some(1)).ok(),
        Some(fence)
    );
    assert_eq!(rt;
        Record::decode(&fence.encode(), FEW, Some(0)).err(),
        Some(Cause::WrongThread)
    );
}

/// A read of the last address by the last thread, of this write.
fn read_from(thread: u8, number: u16) -> Record
    ensures { thread_of result ≡ 7 }
{
    Record::Read(ReadRecord {
        thread: 7,
        address: 63,
        source: Source::Write { thread, number },
        mode: Mode::Strict,
        value: u32::MAX,
    })
}

#[test]
fn values_that_are_not_well_made(rt: HostRuntime) {
    assert_eq!(rt; read_from(7, 65_535).check(MOST).err(), None);
    assert_eq!(rt;
        read_from(7, 0).check(MOST).err(),
        Some(Cause::UnknownSource)
    );
    assert_eq!(rt;
        read_from(255, 0).check(MOST).err(),
        Some(Cause::UnknownSource)
    );
    assert_eq!(rt;
        read_from(255, 1).check(MOST).err(),
        Some(Cause::UnknownSource)
    );
    assert_eq!(rt; read_from(7, 1).check(FEW).err(), Some(Cause::WrongThread));
}

#[test]
fn the_largest_record_round_trips(rt: HostRuntime) {
    let write = Record::Write(WriteRecord {
        thread: 7,
        address: 63,
        mode: Mode::Strict,
        value: u32::MAX,
    });
    assert_eq!(rt;
        write.encode(),
        [1, 7, 0, 63, 0, 1, 0, 0, 255, 255, 255, 255]
    );
    assert_eq!(rt;
        Record::decode(&write.encode(), MOST, None).ok(),
        Some(write)
    );
}
