//! A record that can stand in the book.

ghost use Rattle.std.specs.Prelude.{◌≡◌, ◌&&◌, true, is_some, IfSome, nat_le};
ghost use Rattle.record.specs.WellMade.{thread_of};
ghost use Rattle.book.specs.Pages.{fitting, source_fitting};

use crate::threads::{Thread, ThreadCount};
use record::{Record, Source};

/// A record that can stand in a book of so many threads.
#[derive(Clone, Copy)]
pub(crate) struct Entry<'a> {
    pub(crate) threads: ThreadCount,
    pub(crate) record: &'a Record,
    ghost fits: { fitting threads.count «record».now ≡ true },
}

impl<'a> Entry<'a> {
    /// The record, if it can stand in a book of so many threads.
    pub(crate) fn new(threads: u8, record: &'a Record) -> Option<Entry<'a>>
        ensures variant { is_some result ≡ (nat_le threads 8 && fitting threads «record».now) }
        ensures value { IfSome result (λ entry. (entry.threads.count ≡ threads) × (entry.«record».now ≡ «record».now)) }
    {
        let threads = ThreadCount::new(threads)?;
        if fits(threads.count, record) {
            Some(Entry { threads, record })
        } else {
            None
        }
    }

    /// The thread of the record.
    pub(crate) fn thread(self) -> Thread
        ensures { result.index ≡ thread_of self.entry.«record».now }
    {
        Thread {
            index: self.record.thread(),
        }
    }
}

/// The record's threads are below their number, and its address is below 64.
fn fits(threads: u8, record: &Record) -> bool
    ensures { result ≡ fitting threads «record».now }
{
    match record {
        Record::Write(w) => w.thread < threads && w.address < 64,
        Record::Read(r) => r.thread < threads && r.address < 64 && names_thread(threads, r.source),
        Record::Fence(f) => f.thread < threads,
        Record::Notify(n) => n.thread < threads,
        Record::Wait(w) => w.thread < threads,
    }
}

/// The source is the initial value, or a write of one of so many threads.
fn names_thread(threads: u8, source: Source) -> bool
    ensures { result ≡ source_fitting threads source }
{
    match source {
        Source::Initial => true,
        Source::Write { thread, .. } => thread < threads,
    }
}
