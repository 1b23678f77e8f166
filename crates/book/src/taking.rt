//! Taking a lawful record into the book.

ghost use Rattle.std.specs.Prelude.{◌≡◌, ℕ, List, ◌∷◌, None, ◌≢◌};
ghost use Rattle.record.specs.WellMade.{thread_of};
ghost use Rattle.model.specs.Laws.{by_axioms};
ghost use Rattle.model.specs.Lawful.{verdict as verdict_of};
ghost use Rattle.book.specs.Pages.{view_at, page_at};
ghost use Rattle.book.specs.Taken.{viewed, waiting, observed_by, entered, taken};
ghost use Rattle.book.specs.Kept.{Kept, WellMadeIn};

use crate::book::Book;
use crate::fitting::Entry;
use crate::pages::Page;
use crate::threads::{Thread, ThreadCount};
use crate::views::View;
use record::{Record, Source};

impl Book {
    /// Takes a record that is lawful behind those taken before it; one that is not well made for so many threads is left out.
    pub fn take(&mut self, threads: u8, record: &Record)
        ensures exact { self.new.pages ≡ taken threads self.old.pages «record».now }
        ensures others { (u : ℕ) → (u ≢ thread_of «record».now) → page_at self.new.pages u ≡ page_at self.old.pages u }
        ensures keeps { (history : List Record) → Kept threads self.old history → WellMadeIn threads «record».now → verdict_of by_axioms threads history «record».now ≡ None → Kept threads self.new («record».now ∷ history) }
    {
        if let Some(entry) = Entry::new(threads, record) {
            self.observe(entry);
            self.write_up(entry);
        }
    }

    /// The page of the record's thread is written up in its place.
    fn write_up(&mut self, next: Entry<'_>)
        ensures { self.new.pages ≡ entered self.old.pages (thread_of next.entry.«record».now) next.entry.«record».now }
    {
        self.pages[next.thread().index as usize].write_up(next.record);
    }

    /// The record's thread observes what the record names.
    fn observe(&mut self, next: Entry<'_>)
        ensures { self.new.pages ≡ observed_by next.entry.threads.count self.old.pages next.entry.«record».now }
    {
        match next.record {
            Record::Read(read) => if let Source::Write { thread, number } = read.source {
                if thread != read.thread {
                    let writer = Thread { index: thread };
                    self.look(
                        next.thread(),
                        writer,
                        |view, page| view.observe_read(page, number),
                    );
                }
            },
            Record::Wait(_) => self.observe_waits(next.threads, next.thread()),
            _ => {}
        }
    }

    /// The waiter observes the notify of its next phase of each other thread.
    fn observe_waits(&mut self, threads: ThreadCount, waiter: Thread)
        ensures { self.new.pages ≡ waiting threads.count self.old.pages waiter.index (page_at self.old.pages waiter.index).waits }
    {
        let phase = self.page(waiter).waits;
        // By number, since each turn changes a page.
        for u in 0..threads.count {
            if u != waiter.index {
                self.look(
                    waiter,
                    Thread { index: u },
                    |view, page| view.observe_wait(page, phase),
                );
            }
        }
    }

    /// What the reader has observed of the other thread becomes what this makes of it and the other's page.
    fn look<F: FnOnce(&mut View, &Page)>(&mut self, reader: Thread, other: Thread, observe: F)
        requires { F.IsAlwaysCallable observe }
        ensures { (v : _) × (q : _) × (w : _) × F.post observe v q tt w × (v.now ≡ view_at (page_at self.old.pages reader.index).views other.index) × (q.now ≡ page_at self.old.pages other.index) × (self.new.pages ≡ viewed self.old.pages reader.index other.index w.now) }
    {
        let mut view = *self.view(reader, other);
        observe(&mut view, self.page(other));
        self.set_view(reader, other, view);
    }

    /// The reader has this view of the other thread from now on.
    fn set_view(&mut self, reader: Thread, other: Thread, view: View)
        ensures { self.new.pages ≡ viewed self.old.pages reader.index other.index view }
    {
        self.pages[reader.index as usize].views[other.index as usize] = view;
    }
}
