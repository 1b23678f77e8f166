//! The piles that a trace is sent through: what a judge on each of them answers to one run. Each takes the feed first and the budget last, as `run_once` does.

ghost use Rattle.feed.specs.Pile.{on, holds_back};
ghost use Rattle.judging.specs.Sites.{TellsBottom};

use crate::settings::Settings;
use driving::run_once;
use feed::Feed;
use hold_back::{Hold, HoldBack};
use judging::RunAnswer;
use relay::{AddressNames, Renames, RenamingRelay, Setting, ThreadNames};
use renaming::{Rotation, Table};

/// Judges the feed under other names.
pub fn renamed<F: Feed + Drop, S: Renames + Drop>(feed: F, names: S, budget: usize) -> RunAnswer
    ensures { F.Feed.unread feed → TellsBottom (on (S.relay names) (F.Feed.pile feed)) budget result.outcome }
{
    run_once(RenamingRelay::put_on(feed, names), budget)
}

/// Judges the feed with some of a thread's records held back.
pub fn held<F: Feed + Drop>(feed: F, hold: Hold, budget: usize) -> RunAnswer
    ensures { F.Feed.unread feed → TellsBottom (on (holds_back hold.thread hold.capacity) (F.Feed.pile feed)) budget result.outcome }
{
    run_once(HoldBack::put_on(feed, hold), budget)
}

/// Judges the feed under other names, and then with some of a thread's records held back.
pub fn renamed_and_held<F: Feed + Drop, S: Renames + Drop>(
    feed: F,
    names: S,
    hold: Hold,
    budget: usize,
) -> RunAnswer
    ensures { F.Feed.unread feed → TellsBottom (on (holds_back hold.thread hold.capacity) (on (S.relay names) (F.Feed.pile feed))) budget result.outcome }
{
    held(RenamingRelay::put_on(feed, names), hold, budget)
}

/// Judges the feed through five relays: its threads turned round, some records held back, its threads under the names of a table, its addresses turned round, and some records held back.
pub fn deep<F: Feed + Drop>(feed: F, set: &Settings, hold: Hold, budget: usize) -> RunAnswer
    ensures { F.Feed.unread feed → TellsBottom (on (holds_back hold.thread hold.capacity) (on (⟦<AddressNames<Rotation> as Setting>⟧.relay set.now.shift) (on (⟦<ThreadNames<Table> as Setting>⟧.relay set.now.names) (on (holds_back hold.thread hold.capacity) (on (⟦<ThreadNames<Rotation> as Setting>⟧.relay set.now.turn) (F.Feed.pile feed)))))) budget result.outcome }
{
    let turned = RenamingRelay::put_on(feed, set.turn);
    let behind = HoldBack::put_on(turned, hold);
    let named = RenamingRelay::put_on(behind, set.names);
    renamed_and_held(named, set.shift, hold, budget)
}
