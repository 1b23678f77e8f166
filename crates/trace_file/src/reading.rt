//! A trace file as a feed of its records.

ghost use Rattle.std.specs.Prelude.{◌≡◌, ◌+◌, ◌/◌, ◌^◌, ◌<◌, length, refl};
ghost use Rattle.feed.specs.Pile.{bottom};
ghost use Rattle.trace_file.specs.Layout.{slot_at};
ghost use Rattle.trace_file.specs.Opening.{file_meaning};
ghost use Rattle.trace_file.specs.Peeking.{Peeked};
ghost use Rattle.trace_file.specs.Sound.{file_sound, file_found};

use crate::layout::in_range;
use feed::Feed;
use record::{Cause, Counts, Damage, RECORD_BYTES, Record};

/// The records of a trace file, from lent bytes.
#[derive(Clone, Copy)]
pub struct TraceFile<'a> {
    pub(crate) counts: Counts,
    /// The bytes that were not read yet.
    pub(crate) records: &'a [u8],
    /// How many records were read.
    pub(crate) place: usize,
    ghost countable: { place + length records.now / 12 < 2 ^ 64 },
}

impl<'a> TraceFile<'a> {
    /// What the next twelve bytes are read as, with the bytes behind them, if so many are left.
    #[inline(always)]
    fn peek(&self) -> Option<(Result<Record, Cause>, &'a [u8])>
        ensures { Peeked self.now.counts self.now.records.now self.now.place result }
    {
        let slot = first_twelve(self.records)?;
        let rest = &self.records[RECORD_BYTES..];
        Some((Record::decode(&slot, self.counts(), None), rest))
    }
}

/// The first twelve bytes, if there are so many.
pub fn first_twelve(bytes: &[u8]) -> Option<[u8; 12]>
    ensures { result ≡ slot_at bytes.now 0 }
{
    bytes.first_chunk().copied()
}

impl Feed for TraceFile<'_> {
    ghost meaning = { λ s. file_meaning s.counts s.records.now s.place };

    ghost pile = { λ s. bottom (file_meaning s.counts s.records.now s.place) };

    ghost unread = { λ _. Unit {0} };

    ghost laws = { record { sound = λ s. file_sound s.counts s.records.now s.place; proper = λ s _. (file_sound s.counts s.records.now s.place, file_found s.counts s.records.now s.place); opens = λ s _. refl } };

    fn counts(&self) -> Counts {
        in_range(self.counts)
    }

    // Hints, here and at `peek`: without them a caller was seen to take four times as many instructions.
    #[inline(always)]
    fn next(&mut self) -> Result<Option<Record>, Damage> {
        match self.peek() {
            None => Ok(None),
            Some((Ok(record), rest)) => {
                self.records = rest;
                self.place += 1;
                Ok(Some(record))
            }
            Some((Err(cause), _)) => Err(Damage {
                cause,
                place: self.place,
                depth: 0,
            }),
        }
    }
}
