//! The relay that renames: a feed's records, each under other names.

ghost use Rattle.std.specs.Prelude.{◌≡◌};
ghost use Rattle.std.proofs.Common.{ap};
ghost use Rattle.feed.specs.Pile.{shown, through, on};
ghost use Rattle.relay.specs.Sound.{through_sound};

use crate::addresses::AddressNames;
use crate::deepening::deeper;
use crate::threads::ThreadNames;
use crate::traits::{Renames, Setting};
use feed::{Feed, Refusal};
use record::{Counts, Damage, Record};

/// A feed that passes on the records of another under other names; where its setting is refused, as they are.
#[derive(Drop)]
pub struct RenamingRelay<F, S> {
    feed: F,
    setting: S,
}

/// A feed whose threads go by other names.
pub type ThreadRelay<F, R> = RenamingRelay<F, ThreadNames<R>>;

/// A feed whose addresses go by other names.
pub type AddressRelay<F, R> = RenamingRelay<F, AddressNames<R>>;

impl<F: Feed, S: Renames> RenamingRelay<F, S> {
    ghost use Rattle.feed.specs.Alike.{KeepsAlike};
    ghost use Rattle.feed.specs.PutOn.{PutOn};

    /// The relay on this feed, with this setting; where the setting does not serve the feed, with the records as they are.
    pub fn put_on(feed: F, setting: S) -> RenamingRelay<F, S>
        ensures put_on { PutOn ⟦<RenamingRelay<F, S> as Feed>⟧ F.Feed (S.relay setting) feed result }
        ensures alike { KeepsAlike (S.relay setting) }
    {
        RenamingRelay { feed, setting }
    }

    /// The refusal of its setting, or nothing where that serves the feed.
    pub fn shows(&self) -> Option<Refusal>
        ensures { result ≡ shown (F.Feed.meaning self.now.feed).counts (S.relay self.now.setting) }
    {
        self.setting.shows(self.feed.counts())
    }
}

impl<F: Feed, S: Renames> Feed for RenamingRelay<F, S> {
    ghost meaning = { λ s. through (S.relay s.setting) (F.Feed.meaning s.feed) };

    ghost pile = { λ s. on (S.relay s.setting) (F.Feed.pile s.feed) };

    ghost unread = { λ s. F.Feed.unread s.feed };

    ghost laws = { record { sound = λ s. through_sound (S.relay s.setting) (S.proper s.setting) (F.Feed.meaning s.feed) (F.Feed.laws.sound s.feed); proper = λ s u. (S.proper s.setting, F.Feed.laws.proper s.feed u); opens = λ s u. ap (through (S.relay s.setting)) (F.Feed.laws.opens s.feed u) } };

    fn counts(&self) -> Counts {
        self.feed.counts()
    }

    fn next(&mut self) -> Result<Option<Record>, Damage> {
        let fits = self.shows().is_none();
        let Some(record) = self.feed.next().map_err(deeper)? else {
            return Ok(None);
        };
        if fits {
            Ok(Some(self.setting.renamed(record)))
        } else {
            Ok(Some(record))
        }
    }
}
