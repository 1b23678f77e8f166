//! Why a record is not written, and why a trace is not copied. Fault types of their own, which `?` passes on, are prescribed.

ghost use Rattle.std.specs.Prelude.{◌≡◌};
ghost use Rattle.trace_file.specs.Writing.{refusal_of};
ghost use Rattle.trace_file.specs.declared.faults.Uncopied.TheVariants.{Refused, Damaged};
ghost use Rattle.trace_file.specs.declared.faults.Unwritten.TheVariants.{BadRecord};

use feed::Refusal;
use record::{Cause, Damage};

/// Why the record writer wrote nothing.
#[derive(Clone, Copy, PartialEq, Eq, Debug)]
pub enum Unwritten {
    /// The record is not well made.
    BadRecord(Cause),
    /// The slot has fewer than twelve bytes.
    ShortSlot,
}

impl From<Cause> for Unwritten {
    ghost from_gives = { λ c r. r ≡ BadRecord c };

    fn from(cause: Cause) -> Unwritten {
        Unwritten::BadRecord(cause)
    }
}

impl From<Unwritten> for Refusal {
    ghost from_gives = { λ u r. r ≡ refusal_of u };

    fn from(fault: Unwritten) -> Refusal {
        match fault {
            Unwritten::BadRecord(cause) => Refusal::NotWellMade(cause),
            Unwritten::ShortSlot => Refusal::NoRoom,
        }
    }
}

/// Why a trace was not copied.
#[derive(Clone, Copy, PartialEq, Eq, Debug)]
pub enum Uncopied {
    /// The source is no trace file, or the target is too short.
    Refused(Refusal),
    /// The source ends damaged.
    Damaged(Damage),
}

impl From<Refusal> for Uncopied {
    ghost from_gives = { λ e r. r ≡ Refused e };

    fn from(refusal: Refusal) -> Uncopied {
        Uncopied::Refused(refusal)
    }
}

impl From<Damage> for Uncopied {
    ghost from_gives = { λ d r. r ≡ Damaged d };

    fn from(damage: Damage) -> Uncopied {
        Uncopied::Damaged(damage)
    }
}
