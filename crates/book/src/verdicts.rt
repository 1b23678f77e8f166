//! The verdict on a record behind those that were taken.

ghost use Rattle.std.specs.Prelude.{◌≡◌, List};
ghost use Rattle.model.specs.Laws.{by_axioms};
ghost use Rattle.model.specs.Lawful.{verdict as verdict_of};
ghost use Rattle.book.specs.Said.{any_covered, any_missing, any_other_label, stale, said_read, said_initial, said_notify, said_wait, said_kind, said};
ghost use Rattle.book.specs.Kept.{Kept, WellMadeIn};

use crate::book::Book;
use crate::fitting::Entry;
use crate::threads::{Thread, ThreadCount};
use model::Reason;
use record::{Label, ReadRecord, Record, Source};

impl Book {
    /// The first reason for which the record is unlawful behind those taken; none also where it is not well made for so many threads.
    pub fn verdict(&self, threads: u8, record: &Record) -> Option<Reason>
        ensures exact { result ≡ said threads self.now.pages «record».now }
        ensures keeps { (history : List Record) → Kept threads self.now history → WellMadeIn threads «record».now → result ≡ verdict_of by_axioms threads history «record».now }
    {
        let entry = Entry::new(threads, record)?;
        if self.page(entry.thread()).count >= 512 {
            return Some(Reason::TooManyRecords);
        }
        self.kind_reason(entry)
    }

    fn kind_reason(&self, next: Entry<'_>) -> Option<Reason>
        ensures { result ≡ said_kind next.entry.threads.count self.now.pages next.entry.«record».now }
    {
        let own = next.thread();
        match next.record {
            Record::Write(_) | Record::Fence(_) => None,
            Record::Read(read) => match read.source {
                Source::Initial => self.initial_reason(next.threads, own, read),
                Source::Write { thread, number } => self.read_reason(
                    own,
                    read,
                    Thread { index: thread },
                    number,
                ),
            },
            Record::Notify(_) => self.notify_reason(own),
            Record::Wait(wait) => self.wait_reason(next.threads, own, wait.label),
        }
    }

    fn read_reason(
        &self,
        reader: Thread,
        read: &ReadRecord,
        writer: Thread,
        number: u16,
    ) -> Option<Reason>
        ensures { result ≡ said_read self.now.pages reader.index read.now writer.index number }
    {
        match self.page(writer).write(number) {
            None => Some(Reason::NotWrittenYet),
            Some(write) if write.address != read.address => Some(Reason::OtherAddress),
            Some(write) if write.value != read.value => Some(Reason::OtherValue),
            Some(_) => self.stale_reason(reader, writer, number),
        }
    }

    /// The reason for which the writer's write with this number may not be read any more, if there is one.
    pub(crate) fn stale_reason(&self, reader: Thread, writer: Thread, number: u16) -> Option<Reason>
        ensures { result ≡ stale self.now.pages reader.index writer.index number }
    {
        if writer == reader {
            self.page(reader)
                .has_later_write(number)
                .then_some(Reason::OwnLaterWrite)
        } else {
            self.view(reader, writer)
                .is_overwritten(self.page(writer), number)
                .then_some(Reason::Overwritten)
        }
    }

    fn initial_reason(
        &self,
        threads: ThreadCount,
        reader: Thread,
        read: &ReadRecord,
    ) -> Option<Reason>
        ensures { result ≡ said_initial threads.count self.now.pages reader.index read.now }
    {
        if read.value != 0 {
            return Some(Reason::OtherValue);
        }
        let is_gone = self.page(reader).has_written(read.address)
            || self.any_covered(threads, reader, read.address);
        is_gone.then_some(Reason::InitialGone)
    }

    fn notify_reason(&self, thread: Thread) -> Option<Reason>
        ensures { result ≡ said_notify self.now.pages thread.index }
    {
        let page = self.page(thread);
        (page.notifies.len() != page.waits as usize).then_some(Reason::NotifyOutOfTurn)
    }

    fn wait_reason(&self, threads: ThreadCount, waiter: Thread, label: Label) -> Option<Reason>
        ensures { result ≡ said_wait threads.count self.now.pages waiter.index label }
    {
        let page = self.page(waiter);
        let phase = page.waits;
        if page.notifies.len() != phase as usize + 1 {
            return Some(Reason::WaitOutOfTurn);
        }
        if self.any_missing(threads, waiter, phase) {
            return Some(Reason::NotifyMissing);
        }
        self.any_other_label(threads, phase, label)
            .then_some(Reason::OtherLabel)
    }

    /// For the reader, a write of another thread to the address is covered.
    fn any_covered(&self, threads: ThreadCount, reader: Thread, address: u16) -> bool
        ensures { result ≡ any_covered threads.count self.now.pages reader.index address }
    {
        threads.any(|u| u != reader && self.view(reader, u).is_initial_gone(self.page(u), address))
    }

    /// A thread other than the waiter has no notify of this phase.
    fn any_missing(&self, threads: ThreadCount, waiter: Thread, phase: u16) -> bool
        ensures { result ≡ any_missing threads.count self.now.pages waiter.index phase }
    {
        threads.any(|u| u != waiter && self.page(u).lacks_notify(phase))
    }

    /// A thread's notify of this phase has another label.
    fn any_other_label(&self, threads: ThreadCount, phase: u16, label: Label) -> bool
        ensures { result ≡ any_other_label threads.count self.now.pages phase label }
    {
        threads.any(|u| self.page(u).labels_otherwise(phase, label))
    }
}
