//! How a record and a damage cause read for people.

ghost use Rattle.std.specs.Prelude.{Some};
ghost use Rattle.record.specs.Sentences.{mode_text, source_text, record_text, cause_text};

use crate::causes::Cause;
use crate::kinds::{
    FenceRecord, Mode, NotifyRecord, ReadRecord, Record, Source, WaitRecord, WriteRecord,
};
use std::fmt;

impl fmt::Display for Mode {
    ghost output = { λ m. Some (mode_text m) };

    fn fmt<W: fmt::Write>(&self, f: &mut fmt::Formatter<W>) -> fmt::Result {
        f.write_str(match *self {
            Mode::Relaxed => "",
            Mode::Strict => "strictly ",
        })
    }
}

impl fmt::Display for Source {
    ghost output = { λ s. Some (source_text s) };

    fn fmt<W: fmt::Write>(&self, f: &mut fmt::Formatter<W>) -> fmt::Result {
        match *self {
            Source::Initial => write!(f, "the initial value"),
            Source::Write { thread, number } => write!(f, "write {number} of thread {thread}"),
        }
    }
}

impl fmt::Display for Record {
    ghost output = { λ x. Some (record_text x) };

    fn fmt<W: fmt::Write>(&self, f: &mut fmt::Formatter<W>) -> fmt::Result {
        match *self {
            Record::Write(
                WriteRecord {
                    thread,
                    address,
                    mode,
                    value,
                },
            ) => write!(
                f,
                "thread {thread} {mode}writes {value} to address {address}"
            ),
            Record::Read(
                ReadRecord {
                    thread,
                    address,
                    source,
                    mode,
                    value,
                },
            ) => write!(
                f,
                "thread {thread} {mode}reads {value} from address {address}, {source}"
            ),
            Record::Fence(FenceRecord { thread }) => write!(f, "thread {thread} fences"),
            Record::Notify(NotifyRecord { thread, label }) => {
                write!(f, "thread {thread} notifies with label {label}")
            }
            Record::Wait(WaitRecord { thread, label }) => {
                write!(f, "thread {thread} waits with label {label}")
            }
        }
    }
}

impl fmt::Display for Cause {
    ghost output = { λ c. Some (cause_text c) };

    fn fmt<W: fmt::Write>(&self, f: &mut fmt::Formatter<W>) -> fmt::Result {
        f.write_str(match *self {
            Cause::UnknownKind => "the kind is not 1 to 5",
            Cause::WrongThread => "the thread is not one of the trace's, or not its log's own",
            Cause::UnknownAddress => "the address is not one of the trace's",
            Cause::UnknownMode => "the mode is neither relaxed nor strict",
            Cause::UnknownSource => "the read names neither the initial value nor a thread's write",
            Cause::UnusedNotZero => "a field that the kind does not use is not zero",
        })
    }
}
