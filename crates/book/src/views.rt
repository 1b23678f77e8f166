//! What a reader has observed of one other thread. Nothing outside this file looks at its numbers.

ghost use Rattle.std.specs.Prelude.{◌≡◌, ◌+◌, ◌≤◌, length, Some};
ghost use Rattle.book.specs.Pages.{empty_view};
ghost use Rattle.book.specs.Views.{covering, passing, observing, read_observing, wait_observing, overwritten_in, is_overwritten_for, is_initial_gone_for};

use crate::pages::{Page, Written};
use crate::tables::{number_at, set_number};

/// The writes of the other thread that are covered for the reader, by ranks.
#[derive(Clone, Copy)]
pub struct View {
    /// how many of the other's writes have a rank below the largest observed
    passed: u16,
    /// for each address one more than the largest rank of a covered write there, 0 where there is none
    covered: [u16; 64],
}

impl View {
    /// Nothing is observed.
    pub fn empty() -> View
        ensures { result ≡ empty_view }
    {
        View {
            passed: 0,
            covered: [0; 64],
        }
    }

    /// A read of the other's write with this number is observed.
    pub fn observe_read(&mut self, other: &Page, number: u16)
        ensures { self.new ≡ read_observing self.old other.now number }
    {
        if let Some(write) = other.write(number) {
            self.observe(other, write.rank);
            self.cover(write.address, write.rank);
        }
    }

    /// A wait for the other's notify of this phase is observed.
    pub fn observe_wait(&mut self, other: &Page, phase: u16)
        ensures { self.new ≡ wait_observing self.old other.now phase }
    {
        if let Some(notify) = other.notify(phase) {
            self.observe(other, notify.rank);
        }
    }

    /// The other's write with this number is overwritten for the reader.
    pub fn is_overwritten(&self, other: &Page, number: u16) -> bool
        ensures { result ≡ is_overwritten_for self.now other.now number }
    {
        other.write(number).is_some_and(|write| self.covers(write))
    }

    /// Some write of the other's to this address is covered for the reader.
    pub fn is_initial_gone(&self, _other: &Page, address: u16) -> bool
        ensures { result ≡ is_initial_gone_for self.now _other.now address }
    {
        number_at(&self.covered, address) > 0
    }

    /// A covered write to the address of this one has a larger rank.
    fn covers(&self, write: Written) -> bool
        ensures { result ≡ overwritten_in self.now (Some write) }
    {
        write.rank < number_at(&self.covered, write.address)
    }

    /// An event of this rank is observed: every write of lower rank is covered from now on.
    fn observe(&mut self, other: &Page, rank: u16)
        ensures { self.new ≡ observing self.old other.now rank }
    {
        if let Some(ahead) = other.writes.as_slice().get(self.passed as usize..) {
            self.pass(ahead, rank);
        }
    }

    /// Passes over the writes at the front whose rank is lower.
    fn pass(&mut self, writes: &[Written], rank: u16)
        requires { self.old.passed + length writes.now ≤ 512 }
        ensures { self.new ≡ passing rank writes.now self.old }
    {
        // A loop, since each turn changes the view.
        for write in writes {
            if write.rank >= rank {
                return;
            }
            self.cover(write.address, write.rank);
            self.passed += 1;
        }
    }

    /// A write of this rank to the address is covered.
    fn cover(&mut self, address: u16, rank: u16)
        ensures { self.new ≡ covering self.old address rank }
    {
        let top = number_at(&self.covered, address).max(rank);
        set_number(&mut self.covered, address, top);
    }
}
