//! The setting of a hold-back relay.

ghost use Rattle.std.specs.Prelude.{◌≡◌};
ghost use Rattle.feed.specs.Pile.{holds_back};

use feed::Refusal;
use record::Counts;
use relay::Setting;

/// Up to `capacity` records of this thread are held back, where there is such a thread and the capacity is 1 to 16.
#[derive(Clone, Copy, PartialEq, Eq, Debug)]
pub struct Hold {
    pub thread: u8,
    pub capacity: u8,
}

impl Setting for Hold {
    ghost relay = { λ s. holds_back s.thread s.capacity };

    ghost proper = { λ _. tt };

    fn shows(&self, counts: Counts) -> Option<Refusal> {
        if self.thread < counts.threads && (1..=16).contains(&self.capacity) {
            None
        } else {
            Some(Refusal::BadHoldBack)
        }
    }

    fn below(&self, _counts: Counts, thread: u8) -> u8 {
        thread
    }
}
