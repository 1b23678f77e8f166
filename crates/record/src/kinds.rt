//! What a record says: which thread did what.

ghost use Rattle.std.specs.Prelude.{◌≡◌};
ghost use Rattle.record.specs.Numbers.{kind_named, mode_named};
ghost use Rattle.record.specs.WellMade.{thread_of};

use crate::causes::Cause;

/// What a write stores and a read returns.
pub type Value = u32;

/// What a notify and the waits of its phase agree on.
pub type Label = u32;

/// How many threads and addresses a trace has.
#[derive(Clone, Copy, PartialEq, Eq, Debug)]
pub struct Counts {
    pub threads: u8,
    pub addresses: u8,
}

/// How a write or read is ordered with what its thread does beside it.
#[derive(Clone, Copy, PartialEq, Eq, Debug)]
pub enum Mode {
    Relaxed = 0,
    Strict = 1,
}

impl TryFrom<u8> for Mode {
    type Error = Cause;

    ghost try_from_gives = { λ n r. r ≡ mode_named n };

    fn try_from(number: u8) -> Result<Mode, Cause> {
        match number {
            0 => Ok(Mode::Relaxed),
            1 => Ok(Mode::Strict),
            _ => Err(Cause::UnknownMode),
        }
    }
}

/// Which of the five a record is, as its first byte says.
#[derive(Clone, Copy)]
pub(crate) enum Kind {
    Write = 1,
    Read = 2,
    Fence = 3,
    Notify = 4,
    Wait = 5,
}

impl TryFrom<u8> for Kind {
    type Error = Cause;

    ghost try_from_gives = { λ n r. r ≡ kind_named n };

    fn try_from(number: u8) -> Result<Kind, Cause> {
        match number {
            1 => Ok(Kind::Write),
            2 => Ok(Kind::Read),
            3 => Ok(Kind::Fence),
            4 => Ok(Kind::Notify),
            5 => Ok(Kind::Wait),
            _ => Err(Cause::UnknownKind),
        }
    }
}

/// Where the value of a read comes from.
// No `Option`, whose `None` would not say that the initial value is meant.
#[derive(Clone, Copy, PartialEq, Eq, Debug)]
pub enum Source {
    /// The value that the address had before any write.
    Initial,
    /// A thread's write, counted from 1 among the writes of that thread.
    Write { thread: u8, number: u16 },
}

#[derive(Clone, Copy, PartialEq, Eq, Debug)]
pub struct WriteRecord {
    pub thread: u8,
    pub address: u16,
    pub mode: Mode,
    pub value: Value,
}

#[derive(Clone, Copy, PartialEq, Eq, Debug)]
pub struct ReadRecord {
    pub thread: u8,
    pub address: u16,
    pub source: Source,
    pub mode: Mode,
    pub value: Value,
}

#[derive(Clone, Copy, PartialEq, Eq, Debug)]
pub struct FenceRecord {
    pub thread: u8,
}

#[derive(Clone, Copy, PartialEq, Eq, Debug)]
pub struct NotifyRecord {
    pub thread: u8,
    pub label: Label,
}

#[derive(Clone, Copy, PartialEq, Eq, Debug)]
pub struct WaitRecord {
    pub thread: u8,
    pub label: Label,
}

/// One thing that a thread did to the shared memory.
#[derive(Clone, Copy, PartialEq, Eq, Debug)]
pub enum Record {
    Write(WriteRecord),
    Read(ReadRecord),
    Fence(FenceRecord),
    Notify(NotifyRecord),
    Wait(WaitRecord),
}

impl Record {
    /// The thread whose record this is.
    pub fn thread(&self) -> u8
        ensures { result ≡ thread_of self.now }
    {
        match self {
            Record::Write(w) => w.thread,
            Record::Read(r) => r.thread,
            Record::Fence(f) => f.thread,
            Record::Notify(n) => n.thread,
            Record::Wait(w) => w.thread,
        }
    }
}
