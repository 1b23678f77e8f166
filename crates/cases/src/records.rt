//! Short names for the records and lines that the cases are written with. A write stores its own number.
//!
//! They are macros, since no constant may call a function.

/// The two addresses.
pub const X: u16 = 0;

pub const Y: u16 = 1;

/// The line of a compliant trace of so many records.
macro_rules! compliant {
    ($taken:expr) => {
        judging::Line::Compliant { taken: $taken }
    };
}

/// The line of an unlawful trace.
macro_rules! unlawful {
    ($thread:expr, $index:expr, $reason:ident) => {
        judging::Line::Unlawful(model::UnlawfulRecord {
            thread: $thread,
            index: $index,
            reason: model::Reason::$reason,
        })
    };
}

macro_rules! wrote {
    ($thread:expr, $address:expr, $number:expr, $mode:ident) => {
        record::Record::Write(record::WriteRecord {
            thread: $thread,
            address: $address,
            mode: record::Mode::$mode,
            value: $number,
        })
    };
}

macro_rules! got {
    ($thread:expr, $address:expr, $source:expr, $mode:ident, $value:expr) => {
        record::Record::Read(record::ReadRecord {
            thread: $thread,
            address: $address,
            source: $source,
            mode: record::Mode::$mode,
            value: $value,
        })
    };
}

/// The thread's relaxed write with this number.
macro_rules! writes {
    ($thread:expr, $address:expr, $number:expr) => {
        $crate::records::wrote!($thread, $address, $number, Relaxed)
    };
}

/// The thread's strict write with this number.
macro_rules! writes_strictly {
    ($thread:expr, $address:expr, $number:expr) => {
        $crate::records::wrote!($thread, $address, $number, Strict)
    };
}

/// A relaxed read of the writer's write with this number.
macro_rules! reads {
    ($thread:expr, $address:expr, $writer:expr, $number:expr) => {
        $crate::records::got!(
            $thread,
            $address,
            record::Source::Write {
                thread: $writer,
                number: $number,
            },
            Relaxed,
            $number
        )
    };
}

/// A relaxed read of the initial value.
macro_rules! reads_initial {
    ($thread:expr, $address:expr) => {
        $crate::records::got!($thread, $address, record::Source::Initial, Relaxed, 0)
    };
}

/// A strict read of the initial value.
macro_rules! reads_initial_strictly {
    ($thread:expr, $address:expr) => {
        $crate::records::got!($thread, $address, record::Source::Initial, Strict, 0)
    };
}

macro_rules! fences {
    ($thread:expr) => {
        record::Record::Fence(record::FenceRecord { thread: $thread })
    };
}

macro_rules! notifies {
    ($thread:expr, $label:expr) => {
        record::Record::Notify(record::NotifyRecord {
            thread: $thread,
            label: $label,
        })
    };
}

macro_rules! waits {
    ($thread:expr, $label:expr) => {
        record::Record::Wait(record::WaitRecord {
            thread: $thread,
            label: $label,
        })
    };
}

pub(crate) use compliant;
pub(crate) use fences;
pub(crate) use got;
pub(crate) use notifies;
pub(crate) use reads;
pub(crate) use reads_initial;
pub(crate) use reads_initial_strictly;
pub(crate) use unlawful;
pub(crate) use waits;
pub(crate) use writes;
pub(crate) use writes_strictly;
pub(crate) use wrote;
