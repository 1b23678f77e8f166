//! What a hold-back relay keeps, all of it well made: holding, stalling and letting go.

ghost use Rattle.std.specs.Prelude.{◌≡◌, ℕ, suc, ◌<◌, ◌≤◌, true, List, [], ◌∷◌, ◌++◌, length, Some, None, MatchOption};
ghost use Rattle.record.specs.declared.kinds.Record.{Record};
ghost use Rattle.record.specs.declared.kinds.Record.TheVariants.{Fence};
ghost use Rattle.model.specs.HoldBack.{hindered, held_back};
ghost use Rattle.feed.specs.Meaning.{Meaning};
ghost use Rattle.feed.specs.Pile.{through, holds_back};
ghost use Rattle.hold_back.specs.Holding.{all_checked, stalled_checked, released, hold_meaning};

use crate::hold::Hold;
use crate::passing::is_hindered;
use arrayvec::ArrayVec;
use record::{Counts, FenceRecord, Record};
use std::marker::Model;

/// A record that is held, or one that fills a free place of the queue.
// The queue fills its free places with a default, which a record by itself does not have.
#[derive(Drop)]
pub(crate) struct Kept(pub(crate) Record);

impl Model for Kept {
    ghost Value = { Record };

    ghost view = { λ kept. kept.0 };
}

impl Default for Kept {
    ghost is_default = { λ kept. kept ≡ Fence (record { thread = 0 }) };

    fn default() -> Kept {
        Kept(Record::Fence(FenceRecord { thread: 0 }))
    }
}

/// The records that are held, the oldest first, and the one that is stalled, if one is.
#[derive(Drop)]
pub(crate) struct Held {
    /// Those of the feed below.
    pub(crate) counts: Counts,
    pub(crate) queue: ArrayVec<Kept, 16>,
    pub(crate) stalled: Option<Record>,
    ghost few: { length queue.items ≤ 16 },
    ghost held_well_made: { all_checked counts queue.items ≡ true },
    ghost stalled_well_made: { stalled_checked counts stalled ≡ true },
}

impl Held {
    ghost use Rattle.hold_back.specs.Held.{held_records, CanKeep, KeepsRest};

    /// Nothing is held or stalled.
    pub(crate) fn nothing(counts: Counts) -> Held
        ensures empty { (result.counts ≡ counts) × (held_records result ≡ []) × (result.stalled ≡ None) }
        ensures fresh { (h d : ℕ) (m : Meaning) → m.counts ≡ counts → hold_meaning h d result.counts (held_records result) result.stalled m ≡ through (holds_back h d) m }
    {
        Held {
            counts,
            queue: ArrayVec::new(),
            stalled: None,
        }
    }

    /// One more record is held.
    pub(crate) fn join(&mut self, record: Record)
        requires room { length (held_records self.old) < 16 }
        requires fits { CanKeep self.old «record» }
        ensures rest { KeepsRest self.old self.new }
        ensures held { held_records self.new ≡ held_records self.old ++ («record» ∷ []) }
    {
        self.queue.push(Kept(record));
    }

    /// Lets go of the oldest record held, if there is one.
    pub(crate) fn let_go(&mut self) -> Option<Record>
        ensures rest { KeepsRest self.old self.new }
        ensures oldest { MatchOption result ((held_records self.old ≡ []) × (held_records self.new ≡ [])) (λ x. held_records self.old ≡ x ∷ held_records self.new) }
    {
        self.queue.pop_at(0).map(|oldest| oldest.0)
    }

    /// One more record is held, and the oldest is let go.
    pub(crate) fn exchange(&mut self, record: Record) -> Record
        requires { CanKeep self.old «record» }
        ensures rest { KeepsRest self.old self.new }
        ensures held { held_records self.old ++ («record» ∷ []) ≡ result ∷ held_records self.new }
    {
        let Some(oldest) = self.let_go() else {
            return record;
        };
        self.join(record);
        oldest
    }

    /// Lets go of the oldest record held, behind which this one is stalled, or of this one if none is held.
    pub(crate) fn release(&mut self, stalled: Record) -> Record
        requires { CanKeep self.old stalled }
        ensures counts { self.new.counts ≡ self.old.counts }
        ensures released { (h d : ℕ) (xs : List Record) → released h d (held_records self.old) (Some stalled) xs ≡ result ∷ released h d (held_records self.new) self.new.stalled xs }
    {
        match self.let_go() {
            Some(oldest) => {
                self.stalled = Some(stalled);
                oldest
            }
            None => {
                self.stalled = None;
                stalled
            }
        }
    }

    /// The record may not pass one of those held.
    pub(crate) fn hinders(&self, record: &Record) -> bool
        ensures { result ≡ hindered (held_records self.now) «record».now }
    {
        is_hindered(self.queue.as_slice(), record)
    }

    /// Takes in a record that comes from below, with nothing stalled, and returns what is then delivered, if anything: this record or the oldest held.
    pub(crate) fn take_in(&mut self, hold: Hold, record: Record) -> Option<Record>
        requires none_stalled { self.old.stalled ≡ None }
        requires fits { CanKeep self.old «record» }
        requires few { hold.capacity ≤ 16 }
        ensures counts { self.new.counts ≡ self.old.counts }
        ensures delivers { MatchOption result
            ((self.new.stalled ≡ None) × (length (held_records self.old) < hold.capacity) × (length (held_records self.new) ≡ suc (length (held_records self.old))) × ((xs : List Record) → held_back hold.thread hold.capacity (held_records self.old) («record» ∷ xs) ≡ held_back hold.thread hold.capacity (held_records self.new) xs))
            (λ y. (xs : List Record) → held_back hold.thread hold.capacity (held_records self.old) («record» ∷ xs) ≡ y ∷ released hold.thread hold.capacity (held_records self.new) self.new.stalled xs) }
    {
        if record.thread() == hold.thread {
            if self.queue.len() >= usize::from(hold.capacity) {
                return Some(self.exchange(record));
            }
            self.join(record);
            None
        } else if self.hinders(&record) {
            Some(self.release(record))
        } else {
            Some(record)
        }
    }
}
