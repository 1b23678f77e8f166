//! What the short names expand to: each stands in a function that says which record or line it is, whatever it is called with.

ghost use Rattle.std.specs.Prelude.{◌≡◌};
ghost use Rattle.record.specs.declared.kinds.Mode.TheVariants.{Relaxed, Strict};
ghost use Rattle.record.specs.declared.kinds.Source.TheVariants.{Initial, Write as WriteOf};
ghost use Rattle.record.specs.declared.kinds.Record.TheVariants.{Write, Read, Fence, Notify, Wait};
ghost use Rattle.judging.specs.declared.lines.Line.TheVariants.{Compliant, Unlawful};

use crate::records::{
    compliant, fences, got, notifies, reads, reads_initial, reads_initial_strictly, unlawful,
    waits, writes, writes_strictly, wrote,
};
use judging::Line;
use model::Reason;
use record::{Mode, Record, Source};

/// The line of a compliant trace.
fn compliant(taken: usize) -> Line
    ensures { result ≡ Compliant taken }
{
    compliant!(taken)
}

/// The line of an unlawful trace.
fn unlawful(thread: u8, index: usize, reason: Reason) -> Line
    ensures { result ≡ Unlawful (record { thread = thread; index = index; reason = reason }) }
{
    match reason {
        Reason::TooManyRecords => unlawful!(thread, index, TooManyRecords),
        Reason::NotWrittenYet => unlawful!(thread, index, NotWrittenYet),
        Reason::OtherAddress => unlawful!(thread, index, OtherAddress),
        Reason::OtherValue => unlawful!(thread, index, OtherValue),
        Reason::OwnLaterWrite => unlawful!(thread, index, OwnLaterWrite),
        Reason::Overwritten => unlawful!(thread, index, Overwritten),
        Reason::InitialGone => unlawful!(thread, index, InitialGone),
        Reason::NotifyOutOfTurn => unlawful!(thread, index, NotifyOutOfTurn),
        Reason::WaitOutOfTurn => unlawful!(thread, index, WaitOutOfTurn),
        Reason::NotifyMissing => unlawful!(thread, index, NotifyMissing),
        Reason::OtherLabel => unlawful!(thread, index, OtherLabel),
    }
}

/// A thread's write.
fn wrote(thread: u8, address: u16, number: u16, mode: Mode) -> Record
    ensures { result ≡ Write (record { thread = thread; address = address; mode = mode; value = number }) }
{
    match mode {
        Mode::Relaxed => wrote!(thread, address, number.into(), Relaxed),
        Mode::Strict => wrote!(thread, address, number.into(), Strict),
    }
}

/// A thread's read.
fn got(thread: u8, address: u16, source: Source, mode: Mode, value: u32) -> Record
    ensures { result ≡ Read (record { thread = thread; address = address; source = source; mode = mode; value = value }) }
{
    match mode {
        Mode::Relaxed => got!(thread, address, source, Relaxed, value),
        Mode::Strict => got!(thread, address, source, Strict, value),
    }
}

/// A thread's relaxed write.
fn write(thread: u8, address: u16, number: u16) -> Record
    ensures { result ≡ Write (record { thread = thread; address = address; mode = Relaxed; value = number }) }
{
    writes!(thread, address, number.into())
}

/// A thread's strict write.
fn strict_write(thread: u8, address: u16, number: u16) -> Record
    ensures { result ≡ Write (record { thread = thread; address = address; mode = Strict; value = number }) }
{
    writes_strictly!(thread, address, number.into())
}

/// A relaxed read of a write.
fn read(thread: u8, address: u16, writer: u8, number: u16) -> Record
    ensures { result ≡ Read (record { thread = thread; address = address; source = WriteOf writer number; mode = Relaxed; value = number }) }
{
    reads!(thread, address, writer, number.into())
}

/// A relaxed read of the initial value.
fn read_initial(thread: u8, address: u16) -> Record
    ensures { result ≡ Read (record { thread = thread; address = address; source = Initial; mode = Relaxed; value = 0 }) }
{
    reads_initial!(thread, address)
}

/// A strict read of the initial value.
fn strict_read_initial(thread: u8, address: u16) -> Record
    ensures { result ≡ Read (record { thread = thread; address = address; source = Initial; mode = Strict; value = 0 }) }
{
    reads_initial_strictly!(thread, address)
}

/// A fence.
fn fence(thread: u8) -> Record
    ensures { result ≡ Fence (record { thread = thread }) }
{
    fences!(thread)
}

/// A notify.
fn notify(thread: u8, label: u32) -> Record
    ensures { result ≡ Notify (record { thread = thread; label = label }) }
{
    notifies!(thread, label)
}

/// A wait.
fn wait(thread: u8, label: u32) -> Record
    ensures { result ≡ Wait (record { thread = thread; label = label }) }
{
    waits!(thread, label)
}
