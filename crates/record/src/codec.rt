//! From twelve bytes to a record and back, and when a record is well made.

ghost use Rattle.std.specs.Prelude.{◌≡◌, ◌==◌, ◌&&◌, cond, Ok, Err, nat_le};
ghost use Rattle.record.specs.declared.causes.Cause.TheVariants.{UnknownAddress, UnknownSource};
ghost use Rattle.record.specs.Numbers.{kind_code, kind_named, mode_named};
ghost use Rattle.record.specs.Layout.{fields_for, bytes_of};
ghost use Rattle.record.specs.Reading.{wrong_thread, source_named, source_of, kind_read, decoded, fields_read};
ghost use Rattle.record.specs.WellMade.{checked};

use crate::causes::Cause;
use crate::kinds::{
    Counts, FenceRecord, Kind, Mode, NotifyRecord, ReadRecord, Record, Source, WaitRecord,
    WriteRecord,
};
use crate::layout::Fields;

/// The writer of a read that names no write.
const NO_WRITER: u8 = 255;

/// Whether a record of this thread cannot stand in the trace, or not in the log of `log`.
fn wrong_thread(thread: u8, counts: Counts, log: Option<u8>) -> bool
    ensures { result ≡ wrong_thread counts log thread }
{
    thread >= counts.threads || log.is_some_and(|owner| thread != owner)
}

impl Fields {
    /// The mode of a write or read whose address there is, or the first cause that applies.
    fn access(self, counts: Counts) -> Result<Mode, Cause>
        ensures { result ≡ cond (nat_le counts.addresses self.address) (Err UnknownAddress) (mode_named self.mode) }
    {
        if self.address >= u16::from(counts.addresses) {
            return Err(Cause::UnknownAddress);
        }
        Mode::try_from(self.mode)
    }

    /// Whether all but kind, thread and value is zero.
    fn is_plain(self) -> bool
        ensures { result ≡ (self.address == 0 && self.writer == 0 && self.mode == 0 && self.number == 0) }
    {
        self.address == 0 && self.writer == 0 && self.mode == 0 && self.number == 0
    }

    /// The source that a read's writer and number name, if they name one.
    fn source(self, counts: Counts) -> Result<Source, Cause>
        ensures { result ≡ cond (source_named counts self) (Ok (source_of self.writer self.number)) (Err UnknownSource) }
    {
        match (self.writer, self.number) {
            (NO_WRITER, 0) => Ok(Source::Initial),
            (thread, number) if thread < counts.threads && number > 0 => {
                Ok(Source::Write { thread, number })
            }
            _ => Err(Cause::UnknownSource),
        }
    }

    /// The record of a kind with these fields, whose thread there is, or the first cause that applies.
    fn record_of(self, kind: Kind, counts: Counts) -> Result<Record, Cause>
        requires { kind_named self.kind ≡ Ok kind }
        ensures { result ≡ kind_read counts self }
    {
        let (thread, value) = (self.thread, self.value);
        match kind {
            Kind::Write => {
                let mode = self.access(counts)?;
                if self.writer != 0 || self.number != 0 {
                    return Err(Cause::UnusedNotZero);
                }
                Ok(Record::Write(WriteRecord {
                    thread,
                    address: self.address,
                    mode,
                    value,
                }))
            }
            Kind::Read => {
                let mode = self.access(counts)?;
                let source = self.source(counts)?;
                Ok(Record::Read(ReadRecord {
                    thread,
                    address: self.address,
                    source,
                    mode,
                    value,
                }))
            }
            _ if !self.is_plain() => Err(Cause::UnusedNotZero),
            Kind::Fence if value != 0 => Err(Cause::UnusedNotZero),
            Kind::Fence => Ok(Record::Fence(FenceRecord { thread })),
            Kind::Notify => Ok(Record::Notify(NotifyRecord {
                thread,
                label: value,
            })),
            Kind::Wait => Ok(Record::Wait(WaitRecord {
                thread,
                label: value,
            })),
        }
    }

    /// The record of the fields, or the first cause that applies.
    fn record(self, counts: Counts, log: Option<u8>) -> Result<Record, Cause>
        ensures { result ≡ fields_read counts log self }
    {
        let kind = Kind::try_from(self.kind)?;
        if wrong_thread(self.thread, counts, log) {
            return Err(Cause::WrongThread);
        }
        self.record_of(kind, counts)
    }
}

impl Fields {
    /// The fields of a record that has none but a thread and a value.
    fn plain(kind: Kind, thread: u8, value: u32) -> Fields
        ensures { result ≡ record { kind = kind_code kind; thread = thread; address = 0; writer = 0; mode = 0; number = 0; value = value } }
    {
        Fields {
            kind: kind as u8,
            thread,
            address: 0,
            writer: 0,
            mode: 0,
            number: 0,
            value,
        }
    }
}

/// The fields of a record; those that its kind does not use are zero.
impl From<Record> for Fields {
    ghost from_gives = { λ x f. f ≡ fields_for x };

    fn from(x: Record) -> Fields {
        match x {
            Record::Write(w) => Fields {
                address: w.address,
                mode: w.mode as u8,
                ..Fields::plain(Kind::Write, w.thread, w.value)
            },
            Record::Read(r) => {
                let (writer, number) = match r.source {
                    Source::Initial => (NO_WRITER, 0),
                    Source::Write { thread, number } => (thread, number),
                };
                Fields {
                    address: r.address,
                    writer,
                    mode: r.mode as u8,
                    number,
                    ..Fields::plain(Kind::Read, r.thread, r.value)
                }
            }
            Record::Fence(f) => Fields::plain(Kind::Fence, f.thread, 0),
            Record::Notify(n) => Fields::plain(Kind::Notify, n.thread, n.label),
            Record::Wait(w) => Fields::plain(Kind::Wait, w.thread, w.label),
        }
    }
}

impl Record {
    /// The record of twelve bytes, or the first cause for which they are none.
    ///
    /// `log` is the thread whose log the bytes stand in, where each thread has a log of its own.
    // A hint, since every record of a feed comes through here: as a call of its own it made one caller's reading a third dearer.
    #[inline]
    pub fn decode(bytes: &[u8; 12], counts: Counts, log: Option<u8>) -> Result<Record, Cause>
        ensures { result ≡ decoded counts log bytes.now }
    {
        Fields::from_be_bytes(*bytes).record(counts, log)
    }

    /// The twelve bytes of the record.
    pub fn encode(&self) -> [u8; 12]
        ensures { result ≡ bytes_of self.now }
    {
        Fields::from(*self).to_be_bytes()
    }

    /// Nothing where the record is well made in a trace of these counts, or the first cause for which it is not.
    pub fn check(&self, counts: Counts) -> Result<(), Cause>
        ensures { result ≡ checked counts self.now }
    {
        match *self {
            _ if self.thread() >= counts.threads => Err(Cause::WrongThread),
            Record::Write(WriteRecord { address, .. }) | Record::Read(ReadRecord { address, .. })
                if address >= u16::from(counts.addresses) => Err(Cause::UnknownAddress),
            Record::Read(
                ReadRecord {
                    source: Source::Write { thread, number },
                    ..
                },
            ) if thread >= counts.threads || number == 0 => Err(Cause::UnknownSource),
            _ => Ok(()),
        }
    }
}
