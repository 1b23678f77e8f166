//! The question whether a thread may read a write now.

ghost use Rattle.std.specs.Prelude.{◌≡◌, List};
ghost use Rattle.book.specs.Said.{asked};
ghost use Rattle.book.specs.Kept.{Kept};
ghost use Rattle.book.specs.MayRead.{may_read};

use crate::book::Book;
use crate::threads::ThreadCount;
use record::Record;

impl Book {
    /// Whether the reader may now read the writer's write with this number, counted from 1; none where there is no such thread or write.
    pub fn may_read(&self, threads: u8, reader: u8, writer: u8, number: u16) -> Option<bool>
        ensures exact { result ≡ asked threads self.now.pages reader writer number }
        ensures keeps { (history : List Record) → Kept threads self.now history → result ≡ may_read threads history reader writer number }
    {
        let threads = ThreadCount::new(threads)?;
        let reader = threads.thread(reader)?;
        let writer = threads.thread(writer)?;
        self.page(writer).write(number)?;
        Some(self.stale_reason(reader, writer, number).is_none())
    }
}
