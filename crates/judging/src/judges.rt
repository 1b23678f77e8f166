//! The judge: a feed, the book of the records taken, and the outcome once it is told.

ghost use Rattle.std.specs.Prelude.{◌≡◌, [], Some, None, OnErr};
ghost use Rattle.book.specs.Kept.{Kept};
ghost use Rattle.judging.specs.Answers.{step_answer, run_answer, question_answer};
ghost use Rattle.judging.specs.Standing.{Standing, at_start, advance as advanced, advance_by};
ghost use Rattle.judging.specs.At.{At, AnswersFrom, TellsOn};
ghost use Rattle.judging.specs.Stands.{Drawn};

use crate::answers::RunAnswer;
use crate::faults::Fault;
use book::Book;
use feed::{Feed, Refusal};
use model::{Outcome, UnlawfulRecord};
use record::Record;

/// A judge of the records that a feed delivers.
#[derive(Drop)]
pub struct Judge<P> {
    pile: P,
    book: Book,
    told: Option<Outcome>,
}

/// The book of a feed of which no record was taken.
fn empty_book<P: Feed>(_pile: &P) -> Book
    ensures { Kept (P.Feed.meaning _pile.now).counts.threads result [] }
{
    Book::empty()
}

impl<P: Feed> Judge<P> {
    /// A new judge on the feed, which nothing else asks from then on.
    pub fn open(pile: P) -> Judge<P>
        ensures feed { result.pile ≡ pile }
        ensures start { At P.Feed.meaning result (at_start (P.Feed.meaning pile)) }
    {
        let book = empty_book(&pile);
        Judge {
            pile,
            book,
            told: None,
        }
    }

    /// Asks the feed for a record: a lawful one, nothing at a clean end, or why there is none to take.
    fn draw(&mut self) -> Result<Option<Record>, Fault>
        ensures same { (self.new.book ≡ self.old.book) × (self.new.told ≡ self.old.told) }
        ensures drawn { (s : Standing) → At P.Feed.meaning self.old s → Drawn s result (P.Feed.meaning self.new.pile) }
    {
        let threads = self.pile.counts().threads;
        let Some(record) = self.pile.next()? else {
            return Ok(None);
        };
        match self.book.verdict(threads, &record) {
            None => Ok(Some(record)),
            Some(reason) => Err(Fault::Unlawful(UnlawfulRecord {
                thread: record.thread(),
                index: self.book.index(record.thread()),
                reason,
            })),
        }
    }

    /// Asks for one record, where no outcome was told yet: takes a lawful one, and else tells the outcome, which stands from then on.
    fn advance(&mut self) -> Option<Outcome>
        ensures exact { self.old.told ≡ None → AnswersFrom P.Feed.meaning self.old self.new result (λ s. (advanced s).told) advanced }
        ensures told { self.old.told ≡ None → result ≡ self.new.told }
    {
        match self.draw() {
            Ok(Some(record)) => {
                let threads = self.pile.counts().threads;
                self.book.take(threads, &record);
                None
            }
            Ok(None) => self.settle(Outcome::Compliant),
            Err(fault) => self.settle(Outcome::from(fault)),
        }
    }

    /// Tells the outcome, which stands from then on.
    fn settle(&mut self, outcome: Outcome) -> Option<Outcome>
        ensures answer { result ≡ Some outcome }
        ensures stands { (self.new.pile ≡ self.old.pile) × (self.new.book ≡ self.old.book) × (self.new.told ≡ Some outcome) }
    {
        self.told = Some(outcome);
        self.told
    }

    /// One step, if no outcome was told yet.
    // Apart from `step`, whose promise of the bottom is proved from this one's.
    fn step_once(&mut self) -> Result<Option<Outcome>, Refusal>
        ensures exact { AnswersFrom P.Feed.meaning self.old self.new result step_answer advanced }
        ensures refusal { OnErr result (self.new ≡ self.old) }
    {
        match self.told {
            Some(_) => Err(Refusal::AlreadySettled),
            None => Ok(self.advance()),
        }
    }

    /// Steps until the outcome is told or the budget is used, if no outcome was told yet.
    // Apart from `run`, as a step is from `step`.
    fn run_for(&mut self, budget: usize) -> Result<RunAnswer, Refusal>
        ensures exact { AnswersFrom P.Feed.meaning self.old self.new result (run_answer budget) (advance_by budget) }
        ensures refusal { OnErr result (self.new ≡ self.old) }
    {
        if self.told.is_some() {
            return Err(Refusal::AlreadySettled);
        }
        for taken in 0..budget {
            let outcome = self.advance();
            if outcome.is_some() {
                return Ok(RunAnswer { outcome, taken });
            }
        }
        Ok(RunAnswer {
            outcome: None,
            taken: budget,
        })
    }

    /// What the book says of reading that write now.
    // Apart from `question`, as a step is from `step`.
    fn look_up(&self, reader: u8, writer: u8, number: u16) -> Result<bool, Refusal>
        ensures { (s : Standing) → At P.Feed.meaning self.now s → result ≡ question_answer s reader writer number }
    {
        let threads = self.pile.counts().threads;
        self.book
            .may_read(threads, reader, writer, number)
            .ok_or(Refusal::NoSuchWrite)
    }

    /// Asks for one record: a lawful one is taken, and the answer is none; otherwise the answer is the outcome, which stands from then on.
    ///
    /// Refuses once an outcome was told; the judge is then as before.
    pub fn step(&mut self) -> Result<Option<Outcome>, Refusal>
        ensures exact { AnswersFrom P.Feed.meaning self.old self.new result step_answer advanced }
        ensures refusal { OnErr result (self.new ≡ self.old) }
        ensures tells { TellsOn P.Feed.meaning self.old self.new 1 }
    {
        self.step_once()
    }

    /// Takes records until the outcome is told or as many as the budget allows were taken, and tells which, and how many it took.
    ///
    /// Asks nothing at budget 0. Refuses once an outcome was told; the judge is then as before.
    pub fn run(&mut self, budget: usize) -> Result<RunAnswer, Refusal>
        ensures exact { AnswersFrom P.Feed.meaning self.old self.new result (run_answer budget) (advance_by budget) }
        ensures refusal { OnErr result (self.new ≡ self.old) }
        ensures tells { TellsOn P.Feed.meaning self.old self.new budget }
    {
        self.run_for(budget)
    }

    /// Whether the reader may now read the writer's write with this number, counted from 1: its own if no later own write is to that address, another's if it is not overwritten for the reader.
    ///
    /// Refuses where there is no such thread or no such write was taken. Answers also after an outcome.
    // Three numbers and no struct of them: the call is prescribed so.
    pub fn question(&self, reader: u8, writer: u8, number: u16) -> Result<bool, Refusal>
        ensures exact { (s : Standing) → At P.Feed.meaning self.now s → result ≡ question_answer s reader writer number }
        ensures tells { TellsOn P.Feed.meaning self.now self.now 0 }
    {
        self.look_up(reader, writer, number)
    }
}
