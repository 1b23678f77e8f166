//! The hold-back relay: a feed's records, with some of one thread's held back while others pass them.

ghost use Rattle.std.specs.Prelude.{◌≡◌, true, false, [], None};
ghost use Rattle.feed.specs.Meaning.{Asked};
ghost use Rattle.feed.specs.Pile.{holds_back, shown, on};
ghost use Rattle.hold_back.specs.Held.{held_records, is_holding, held_meaning};
ghost use Rattle.hold_back.specs.HoldSound.{hold_sound, hold_opens};

use crate::held::Held;
use crate::hold::Hold;
use feed::{Feed, Refusal};
use record::{Counts, Damage, Record};
use relay::{Setting, deeper};

/// A feed that holds back up to so many records of one thread.
///
/// With a record stalled it asks nothing below: it delivers the oldest held, or the stalled one if none is held. Otherwise it asks below. A record of the thread joins the held ones, and it asks again; if there is no room, the oldest is delivered. Another thread's record is delivered if it may pass all that is held, else it stalls and the oldest held is delivered. At an ending it delivers the oldest held, or the ending if none is held.
#[derive(Drop)]
pub struct HoldBack<F> {
    pub(crate) feed: F,
    pub(crate) hold: Hold,
    pub(crate) held: Held,
}

impl<F: Feed> HoldBack<F> {
    ghost use Rattle.feed.specs.Alike.{KeepsAlike};
    ghost use Rattle.feed.specs.PutOn.{PutOn};

    /// The relay on this feed, with this setting; where there is no such thread or the capacity is not 1 to 16, with the records as they come.
    pub fn put_on(feed: F, hold: Hold) -> HoldBack<F>
        ensures put_on { PutOn ⟦<HoldBack<F> as Feed>⟧ F.Feed (holds_back hold.thread hold.capacity) feed result }
        ensures alike { KeepsAlike (holds_back hold.thread hold.capacity) }
    {
        let held = Held::nothing(feed.counts());
        HoldBack { feed, hold, held }
    }

    /// The refusal of its settings, or nothing where there is such a thread and the capacity is 1 to 16.
    pub fn shows(&self) -> Option<Refusal>
        ensures { result ≡ shown (F.Feed.meaning self.now.feed).counts (holds_back self.now.hold.thread self.now.hold.capacity) }
    {
        self.hold.shows(self.feed.counts())
    }

    /// Its settings are good, and what it holds is of this feed.
    fn is_holding(&self) -> bool
        ensures { result ≡ is_holding F.Feed.meaning self.now }
    {
        self.shows().is_none() && self.held.counts == self.feed.counts()
    }

    /// The next record as it comes from below.
    fn pass(&mut self) -> Result<Option<Record>, Damage>
        requires { is_holding F.Feed.meaning self.old ≡ false }
        ensures { Asked (held_meaning F.Feed.meaning self.old) result (held_meaning F.Feed.meaning self.new) }
    {
        // A closure, since no contract comes with a name from a private module of another crate.
        self.feed.next().map_err(|damage| deeper(damage))
    }

    /// The next record, with nothing stalled.
    fn draw(&mut self) -> Result<Option<Record>, Damage>
        requires { (is_holding F.Feed.meaning self.old ≡ true) × (self.old.held.stalled ≡ None) }
        ensures { Asked (held_meaning F.Feed.meaning self.old) result (held_meaning F.Feed.meaning self.new) }
    {
        // A feed is no iterator: it tells its ending, and may be asked again.
        loop {
            let next = self.feed.next();
            let Ok(Some(record)) = next else {
                let oldest = self.held.let_go();
                return if oldest.is_some() {
                    Ok(oldest)
                } else {
                    next.map_err(|damage| deeper(damage))
                };
            };
            if let Some(out) = self.held.take_in(self.hold, record) {
                return Ok(Some(out));
            }
        }
    }
}

impl<F: Feed> Feed for HoldBack<F> {
    ghost meaning = { λ s. held_meaning F.Feed.meaning s };

    ghost pile = { λ s. on (holds_back s.hold.thread s.hold.capacity) (F.Feed.pile s.feed) };

    ghost unread = { λ s. F.Feed.unread s.feed × (s.held.counts ≡ (F.Feed.meaning s.feed).counts) × (held_records s.held ≡ []) × (s.held.stalled ≡ None) };

    ghost laws = { record { sound = λ s. hold_sound s.hold.thread s.hold.capacity s.held.counts (held_records s.held) s.held.stalled (F.Feed.meaning s.feed) s.held.held_well_made s.held.stalled_well_made (F.Feed.laws.sound s.feed); proper = λ s u. (tt, F.Feed.laws.proper s.feed u.0); opens = λ s u. hold_opens s.hold.thread s.hold.capacity s.held.counts (held_records s.held) s.held.stalled (F.Feed.meaning s.feed) (F.Feed.pile s.feed) u.1 u.2 u.3 (F.Feed.laws.opens s.feed u.0) } };

    fn counts(&self) -> Counts {
        self.feed.counts()
    }

    fn next(&mut self) -> Result<Option<Record>, Damage> {
        if !self.is_holding() {
            return self.pass();
        }
        match self.held.stalled {
            Some(record) => Ok(Some(self.held.release(record))),
            None => self.draw(),
        }
    }
}
