//! What the setting of a relay promises.

ghost use Rattle.std.specs.Prelude.{◌≡◌, List, map};
ghost use Rattle.record.specs.declared.kinds.Record.{Record};
ghost use Rattle.feed.specs.Pile.{Relay, shown, passed_on, thread_below, ProperRelay};
ghost use Rattle.relay.specs.Addresses.{ShortAddress};

use feed::Refusal;
use record::{Counts, Record};

/// What a relay is set to.
pub trait Setting {
    /// The relay with this setting.
    ghost relay: { Self → Relay };

    /// Its renaming, if it has one, is one.
    ghost proper: { (s : Self) → ProperRelay (relay s) };

    /// What the relay shows over a feed of these counts: nothing, or the refusal of the setting. No record is asked for.
    fn shows(&self, counts: Counts) -> Option<Refusal>
        ensures { result ≡ shown counts (relay self.now) };

    /// The name below of a thread that came through the relay, over a feed of these counts; a relay whose setting was refused has changed nothing.
    fn below(&self, counts: Counts, thread: u8) -> u8
        ensures { result ≡ thread_below counts (relay self.now) thread };
}

/// The setting of a relay that passes each record on under other names.
pub trait Renames: Setting {
    /// The record under other names.
    ghost change: { Self → Record → Record };

    /// The record under other names.
    fn renamed(&self, record: Record) -> Record
        requires { ShortAddress «record» }
        ensures { result ≡ change self.now «record» };

    /// The relay makes this of every record.
    ghost each: { (s : Self) (xs : List Record) → passed_on (Self.relay s) xs ≡ map (change s) xs };
}
