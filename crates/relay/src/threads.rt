//! Threads under other names.

ghost use Rattle.std.specs.Prelude.{◌≡◌, refl};
ghost use Rattle.model.specs.Renamed.{renamed as renamed_by, source_renamed};
ghost use Rattle.model.specs.Tells.{unchanged};
ghost use Rattle.relay.specs.Renames.{threads_by};

use crate::showing::renaming_shows;
use crate::traits::{Renames, Setting};
use feed::Refusal;
use record::{
    Counts, FenceRecord, NotifyRecord, ReadRecord, Record, Source, WaitRecord, WriteRecord,
};
use renaming::Renaming;

/// The setting of a relay whose threads go by other names: thread and writer are sent through the renaming.
#[derive(Clone, Copy, Drop)]
pub struct ThreadNames<R>(pub R);

impl<R: Renaming> ThreadNames<R> {
    /// The source, with its thread under its new name.
    fn renamed_source(&self, source: Source) -> Source
        ensures { result ≡ source_renamed (R.Renaming.onward self.now.0) source }
    {
        match source {
            Source::Initial => Source::Initial,
            Source::Write { thread, number } => Source::Write {
                thread: self.0.there(thread),
                number,
            },
        }
    }
}

impl<R: Renaming> Setting for ThreadNames<R> {
    ghost relay = { λ s. threads_by R.Renaming s.0 };

    ghost proper = { λ s. R.Renaming.laws s.0 };

    fn shows(&self, counts: Counts) -> Option<Refusal> {
        renaming_shows(self.0.count(), counts.threads)
    }

    fn below(&self, counts: Counts, thread: u8) -> u8 {
        match self.shows(counts) {
            None => self.0.back(thread),
            Some(_) => thread,
        }
    }
}

impl<R: Renaming> Renames for ThreadNames<R> {
    ghost change = { λ s. renamed_by (R.Renaming.onward s.0) unchanged };

    ghost each = { λ _ _. refl };

    fn renamed(&self, record: Record) -> Record {
        let thread = self.0.there(record.thread());
        match record {
            Record::Write(write) => Record::Write(WriteRecord { thread, ..write }),
            Record::Read(read) => Record::Read(ReadRecord {
                thread,
                source: self.renamed_source(read.source),
                ..read
            }),
            Record::Fence(_) => Record::Fence(FenceRecord { thread }),
            Record::Notify(notify) => Record::Notify(NotifyRecord { thread, ..notify }),
            Record::Wait(wait) => Record::Wait(WaitRecord { thread, ..wait }),
        }
    }
}
