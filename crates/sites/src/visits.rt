//! The sites of one trace, each with its pile: what a judge tells there is printed and returned.

ghost use Rattle.std.specs.Prelude.{IfOk};
ghost use Rattle.feed.specs.Pile.{on, holds_back};
ghost use Rattle.judging.specs.Sites.{TellsBottom};

use crate::piles::{deep, renamed, renamed_and_held};
use crate::reports::{Site, named_thread, print_site};
use crate::settings::Settings;
use driving::run_once;
use feed::Feed;
use hold_back::Hold;
use model::Outcome;
use relay::{AddressNames, Renames, Setting, ThreadNames};
use renaming::{Rotation, Table};
use std::io;

/// What every site of one trace has in common.
#[derive(Clone, Copy)]
pub struct Visits<'a> {
    pub rt: &'a HostRuntime,
    pub set: &'a Settings,
    pub budget: usize,
}

impl Visits<'_> {
    /// No relay.
    pub fn at_the_bottom<F: Feed + Drop>(&self, feed: F) -> io::Result<Option<Outcome>>
        ensures { IfOk result (λ o. (F.Feed.unread feed → TellsBottom (F.Feed.pile feed) self.now.budget o)) }
    {
        let answer = run_once(feed, self.budget);
        print_site(
            self.rt,
            &Site {
                name: "no relay",
                shows: &[],
                answer,
                bottom: named_thread(answer.outcome),
            },
        )
    }

    /// Threads turned round.
    pub fn behind_a_rotation<F: Feed + Drop>(&self, feed: F) -> io::Result<Option<Outcome>>
        ensures { IfOk result (λ o. (F.Feed.unread feed → TellsBottom (on (⟦<ThreadNames<Rotation> as Setting>⟧.relay self.now.set.now.turn) (F.Feed.pile feed)) self.now.budget o)) }
    {
        let turn = self.set.turn;
        let counts = feed.counts();
        let answer = renamed(feed, turn, self.budget);
        print_site(
            self.rt,
            &Site {
                name: "threads rotated by 1",
                shows: &[turn.shows(counts)],
                answer,
                bottom: named_thread(answer.outcome).map(|thread| turn.below(counts, thread)),
            },
        )
    }

    /// Other names, and records of a thread held back.
    fn behind_names_and_a_hold<F: Feed + Drop, S: Renames + Copy>(
        &self,
        name: &str,
        feed: F,
        names: S,
        hold: Hold,
    ) -> io::Result<Option<Outcome>>
        ensures { IfOk result (λ o. (F.Feed.unread feed → TellsBottom (on (holds_back hold.thread hold.capacity) (on (S.relay names) (F.Feed.pile feed))) self.now.budget o)) }
    {
        let counts = feed.counts();
        let answer = renamed_and_held(feed, names, hold, self.budget);
        print_site(
            self.rt,
            &Site {
                name,
                shows: &[names.shows(counts), hold.shows(counts)],
                answer,
                bottom: named_thread(answer.outcome).map(|thread| names.below(counts, thread)),
            },
        )
    }

    /// Threads by a table, and records of a thread held back.
    pub fn behind_a_table<F: Feed + Drop>(&self, feed: F) -> io::Result<Option<Outcome>>
        ensures { IfOk result (λ o. (F.Feed.unread feed → TellsBottom (on (holds_back 0 4) (on (⟦<ThreadNames<Table> as Setting>⟧.relay self.now.set.now.names) (F.Feed.pile feed))) self.now.budget o)) }
    {
        let hold = Hold {
            thread: 0,
            capacity: 4,
        };
        let name = "threads by a table, 4 records of thread 0 held back";
        self.behind_names_and_a_hold(name, feed, self.set.names, hold)
    }

    /// Five relays.
    pub fn deep_down<F: Feed + Drop>(&self, feed: F) -> io::Result<Option<Outcome>>
        ensures { IfOk result (λ o. (F.Feed.unread feed → TellsBottom (on (holds_back 0 16) (on (⟦<AddressNames<Rotation> as Setting>⟧.relay self.now.set.now.shift) (on (⟦<ThreadNames<Table> as Setting>⟧.relay self.now.set.now.names) (on (holds_back 0 16) (on (⟦<ThreadNames<Rotation> as Setting>⟧.relay self.now.set.now.turn) (F.Feed.pile feed)))))) self.now.budget o)) }
    {
        let set = self.set;
        let counts = feed.counts();
        let hold = Hold {
            thread: 0,
            capacity: 16,
        };
        let answer = deep(feed, set, hold, self.budget);
        let bottom = named_thread(answer.outcome).map(|thread| set
            .turn
            .below(counts, set.names.below(counts, thread)));
        print_site(
            self.rt,
            &Site {
                name: "threads rotated, 16 held back, threads by a table, addresses rotated by 5, 16 held back",
                shows: &[
                    set.turn.shows(counts),
                    hold.shows(counts),
                    set.names.shows(counts),
                    set.shift.shows(counts),
                    hold.shows(counts),
                ],
                answer,
                bottom,
            },
        )
    }

    /// Two relays whose settings are refused.
    pub fn behind_refused_ones<F: Feed + Drop>(&self, feed: F) -> io::Result<Option<Outcome>>
        ensures { IfOk result (λ o. (F.Feed.unread feed → TellsBottom (on (holds_back 0 17) (on (⟦<ThreadNames<Rotation> as Setting>⟧.relay self.now.set.now.wide) (F.Feed.pile feed))) self.now.budget o)) }
    {
        let hold = Hold {
            thread: 0,
            capacity: 17,
        };
        let name = "64 threads rotated, 17 records held back";
        self.behind_names_and_a_hold(name, feed, self.set.wide, hold)
    }
}
