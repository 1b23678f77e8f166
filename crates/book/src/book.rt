//! The book: a page for each of eight threads.

ghost use Rattle.std.specs.Prelude.{◌≡◌, ℕ, ◌<◌, ◌≤◌, List, [], if◌then◌else◌, nat_lt};
ghost use Rattle.model.specs.Events.{count_of};
ghost use Rattle.book.specs.Pages.{view_at, page_at, empty_book};
ghost use Rattle.book.specs.Kept.{Kept};

use crate::pages::Page;
use crate::threads::Thread;
use crate::views::View;
use record::Record;
use std::array;

/// What is kept of each thread's records. A page stands in it for each thread that there can be, since the judge allocates nothing; how many threads there are is the feed's to tell, and handed in.
#[derive(Drop)]
pub struct Book {
    pub(crate) pages: [Page; 8],
}

impl Book {
    /// The book of no records.
    pub fn empty() -> Book
        ensures exact { result ≡ empty_book }
        ensures keeps { (threads : ℕ) → threads ≤ 8 → Kept threads result [] }
    {
        Book {
            pages: array::from_fn(|_| Page::empty()),
        }
    }

    /// How many records of the thread were taken, 0 where there is no such thread.
    pub fn index(&self, thread: u8) -> usize
        ensures exact { result ≡ (if nat_lt thread 8 then (page_at self.now.pages thread).count else 0) }
        ensures keeps { (threads : ℕ) (history : List Record) → Kept threads self.now history → thread < threads → result ≡ count_of thread history }
    {
        self.pages
            .get(thread as usize)
            .map_or(0, |page| page.count as usize)
    }

    /// The page of this thread.
    pub(crate) fn page(&self, thread: Thread) -> &Page
        ensures { result.now ≡ page_at self.now.pages thread.index }
    {
        &self.pages[thread.index as usize]
    }

    /// What the reader has observed of the other thread.
    pub(crate) fn view(&self, reader: Thread, other: Thread) -> &View
        ensures { result.now ≡ view_at (page_at self.now.pages reader.index).views other.index }
    {
        &self.page(reader).views[other.index as usize]
    }
}
