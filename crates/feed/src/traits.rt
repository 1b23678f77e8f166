//! What a feed promises to whoever asks it for records.

ghost use Rattle.std.specs.Prelude.{◌≡◌};
ghost use Rattle.feed.specs.Meaning.{Meaning, Asked};
ghost use Rattle.feed.specs.Pile.{Pile, FeedLaws};

use record::{Counts, Damage, Record};

/// Something that delivers the records of a trace one by one, and tells how the trace ends.
pub trait Feed {
    /// The counts, the records that still wait, and the ending.
    ghost meaning: { Self → Meaning };

    /// The bottom that the records come from, and the relays above it.
    ghost pile: { Self → Pile };

    /// No relay of the pile was asked for a record yet.
    ghost unread: { Self → Type 0 };

    /// What ties the three together.
    ghost laws: { FeedLaws meaning pile unread };

    /// The numbers of threads and addresses.
    fn counts(&self) -> Counts
        ensures { result ≡ (meaning self.now).counts };

    /// The next record; `None` at a clean end, and the damage at a damaged one, as often as it is asked.
    fn next(&mut self) -> Result<Option<Record>, Damage>
        ensures { Asked (meaning self.old) result (meaning self.new) };
}
