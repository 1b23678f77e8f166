//! The page of one thread.

ghost use Rattle.std.specs.Prelude.{◌≡◌, ◌<◌, ◌≤◌};
ghost use Rattle.model.specs.Events.{is_strict};
ghost use Rattle.model.specs.Laws.{first_edition};
ghost use Rattle.arrayvec.specs.ArrayVec.{array_vec_len};
ghost use Rattle.book.specs.Pages.{empty_page, write_of, notify_of, is_later_written, is_written_to, is_notify_missing, is_other_labelled, is_full, adding_write, written_up};

use crate::tables::{number_at, set_number};
use crate::views::View;
use arrayvec::ArrayVec;
use record::{Label, Mode, Record, Value};

/// A write, with one more than its rank.
#[derive(Clone, Copy, Default)]
pub struct Written {
    pub address: u16,
    pub value: Value,
    pub rank: u16,
}

/// A notify, with one more than its rank.
#[derive(Clone, Copy, Default)]
pub struct Notified {
    pub label: Label,
    pub rank: u16,
}

/// What is kept of a thread's records.
#[derive(Drop)]
pub struct Page {
    /// how many records of the thread were taken
    pub count: u16,
    /// how many of them are strict events
    pub strict: u16,
    /// its writes
    pub writes: ArrayVec<Written, 512>,
    /// for each address the number of the thread's last write there, counted from 1, and 0 where there is none
    pub last: [u16; 64],
    /// its notifies
    pub notifies: ArrayVec<Notified, 512>,
    /// how many are waits
    pub waits: u16,
    /// what the thread has observed of each other one; a view for each thread that there can be, since the judge allocates nothing
    pub views: [View; 8],
}

impl Page {
    /// The page of no records.
    pub fn empty() -> Page
        ensures { result ≡ empty_page }
    {
        Page {
            count: 0,
            strict: 0,
            writes: ArrayVec::new(),
            last: [0; 64],
            notifies: ArrayVec::new(),
            waits: 0,
            views: [View::empty(); 8],
        }
    }

    /// The write with this number, counted from 1.
    pub fn write(&self, number: u16) -> Option<Written>
        ensures { result ≡ write_of self.now number }
    {
        let place = number.checked_sub(1)?;
        self.writes.get(place as usize).copied()
    }

    /// The notify of this phase, counted from 0.
    pub fn notify(&self, phase: u16) -> Option<Notified>
        ensures { result ≡ notify_of self.now phase }
    {
        self.notifies.get(phase as usize).copied()
    }

    /// There is no notify of this phase.
    pub fn lacks_notify(&self, phase: u16) -> bool
        ensures { result ≡ is_notify_missing self.now phase }
    {
        self.notify(phase).is_none()
    }

    /// The notify of this phase has another label.
    pub fn labels_otherwise(&self, phase: u16, label: Label) -> bool
        ensures { result ≡ is_other_labelled self.now phase label }
    {
        self.notify(phase)
            .is_some_and(|notify| notify.label != label)
    }

    /// The thread has written to this address.
    pub fn has_written(&self, address: u16) -> bool
        ensures { result ≡ is_written_to self.now address }
    {
        number_at(&self.last, address) > 0
    }

    /// The thread has written to the address of its write with this number once more, later.
    pub fn has_later_write(&self, number: u16) -> bool
        ensures { result ≡ is_later_written self.now number }
    {
        self.write(number)
            .is_some_and(|write| number < number_at(&self.last, write.address))
    }

    /// Writes up a record of the thread, if there is room.
    pub fn write_up(&mut self, record: &Record)
        ensures { self.new ≡ written_up self.old «record».now }
    {
        if self.is_full() {
            return;
        }
        let strict = u16::from(is_strict(record));
        let rank = 2 * self.strict + strict + 1;
        match record {
            Record::Write(w) => self.add_write(w.address, w.value, rank),
            Record::Notify(n) => self.notifies.push(Notified {
                label: n.label,
                rank,
            }),
            Record::Wait(_) => self.waits += 1,
            Record::Read(_) | Record::Fence(_) => {}
        }
        self.count += 1;
        self.strict += strict;
    }

    fn is_full(&self) -> bool
        ensures { result ≡ is_full self.now }
    {
        self.count >= 512
            || self.strict > 512
            || self.writes.is_full()
            || self.notifies.is_full()
            || self.waits >= 512
    }

    fn add_write(&mut self, address: u16, value: Value, rank: u16)
        requires { array_vec_len self.old.writes < 512 }
        ensures { self.new ≡ adding_write self.old address value rank }
    {
        self.writes.push(Written {
            address,
            value,
            rank,
        });
        set_number(&mut self.last, address, self.writes.len() as u16);
    }
}

/// The record is a strict event: the one place that looks at which records are.
fn is_strict(record: &Record) -> bool
    ensures { result ≡ is_strict first_edition «record».now }
{
    match record {
        Record::Write(w) => w.mode == Mode::Strict,
        Record::Read(r) => r.mode == Mode::Strict,
        Record::Fence(_) | Record::Notify(_) => true,
        Record::Wait(_) => false,
    }
}
