//! A bundle as a feed of its records, in the order in which they arrived.

ghost use Rattle.std.specs.Prelude.{◌≡◌, refl};
ghost use Rattle.feed.specs.Pile.{bottom};
ghost use Rattle.trace_file.specs.Opening.{in_range};
ghost use Rattle.bundle.specs.Reading.{read_in_log, bundle_meaning};
ghost use Rattle.bundle.specs.Peeking.{Peeked};
ghost use Rattle.bundle.specs.Sound.{bundle_sound, bundle_found};

use feed::Feed;
use record::{Cause, Counts, Damage, RECORD_BYTES, Record};
use trace_file::{first_twelve, in_range};

/// The records of a bundle, from lent bytes.
#[derive(Drop)]
pub struct Bundle<'a> {
    pub(crate) counts: Counts,
    /// What is left of each thread's log.
    pub(crate) logs: [&'a [u8]; 8],
    /// The threads, in the order in which their records arrived.
    pub(crate) arrivals: &'a [u8],
    /// How many of them were delivered: beside the whole list, whose length `count` tells.
    pub(crate) at: usize,
}

impl<'a> Bundle<'a> {
    /// What twelve bytes of a thread's log are read as.
    fn read_in_log(&self, slot: &[u8; 12], thread: u8) -> Result<Record, Cause>
        ensures { result ≡ read_in_log (in_range self.now.counts) (thread, slot.now) }
    {
        Record::decode(slot, self.counts(), Some(thread))
    }

    /// What the next record to arrive is read as, with its thread and what its log has behind it, if there is one.
    #[inline(always)]
    fn peek(&self) -> Option<(usize, Result<Record, Cause>, &'a [u8])>
        ensures { Peeked self.now.counts self.now.logs self.now.arrivals.now self.now.at result }
    {
        let thread = *self.arrivals.get(self.at)?;
        let log = usize::from(thread);
        let left = *self.logs.get(log)?;
        let slot = first_twelve(left)?;
        Some((log, self.read_in_log(&slot, thread), &left[RECORD_BYTES..]))
    }
}

impl Feed for Bundle<'_> {
    ghost meaning = { λ s. bundle_meaning s.counts s.logs s.arrivals.now s.at };

    ghost pile = { λ s. bottom (bundle_meaning s.counts s.logs s.arrivals.now s.at) };

    ghost unread = { λ _. Unit {0} };

    ghost laws = { record { sound = λ s. bundle_sound s.counts s.logs s.arrivals.now s.at; proper = λ s _. (bundle_sound s.counts s.logs s.arrivals.now s.at, bundle_found s.counts s.logs s.arrivals.now s.at); opens = λ s _. refl } };

    fn counts(&self) -> Counts {
        in_range(self.counts)
    }

    // Hints, here and at `peek`, as for a trace file.
    #[inline(always)]
    fn next(&mut self) -> Result<Option<Record>, Damage> {
        match self.peek() {
            None => Ok(None),
            Some((thread, Ok(record), rest)) => {
                self.logs[thread] = rest;
                self.at += 1;
                Ok(Some(record))
            }
            Some((_, Err(cause), _)) => Err(Damage {
                cause,
                place: self.at,
                depth: 0,
            }),
        }
    }
}
