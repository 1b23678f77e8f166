//! Why bytes or a record are not well made, and where a trace is damaged.

ghost use Rattle.std.specs.Prelude.{◌≡◌};
ghost use Rattle.record.specs.Numbers.{cause_number};

/// Why a record is not well made: the first that applies, in this order.
#[derive(Clone, Copy, PartialEq, Eq, Debug)]
pub enum Cause {
    /// The kind is not 1 to 5.
    UnknownKind = 1,
    /// The thread is not below the number of threads, or is not the log's own.
    WrongThread = 2,
    /// The address of a write or read is not below the number of addresses.
    UnknownAddress = 3,
    /// The mode of a write or read is neither relaxed nor strict.
    UnknownMode = 4,
    /// A read names neither the initial value nor a write that some thread can have made.
    UnknownSource = 5,
    /// A field that the kind does not use is not zero.
    UnusedNotZero = 6,
}

impl Cause {
    /// The number of the cause, 1 to 6.
    pub fn number(self) -> u8
        ensures { result ≡ cause_number self }
    {
        self as u8
    }
}

/// Where a trace stops being one.
#[derive(Clone, Copy, PartialEq, Eq, Debug)]
pub struct Damage {
    pub cause: Cause,
    /// How many records stood before it.
    pub place: usize,
    /// How many relays it came through: 0 where it was found.
    pub depth: u8,
}
