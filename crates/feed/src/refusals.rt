//! Why an input is refused.

ghost use Rattle.std.specs.Prelude.{◌≡◌};
ghost use Rattle.feed.specs.Refusals.{refusal_number};

use record::Cause;

/// Why a call refused its input: the first that applies, in the order of the call's tests.
#[derive(Clone, Copy, PartialEq, Eq, Debug)]
pub enum Refusal {
    /// There are fewer bytes than the header has.
    ShortHeader,
    /// The number of threads is not 1 to 8.
    ThreadCount,
    /// The number of addresses is not 1 to 64.
    AddressCount,
    /// There are more than 4,096 records, or there would be.
    RecordCount,
    /// Offsets or lengths break the layout.
    BrokenLayout,
    /// An arrival list names a thread that there is not, or does not use each log exactly.
    ArrivalList,
    /// A renaming is not of 1 to 64 numbers, or not of as many as the feed has, or a table of one holds a number twice or one that is too large.
    BadRenaming,
    /// There is no such thread to hold back, or the number of records to hold is not 1 to 16.
    BadHoldBack,
    /// The judge has told an outcome already.
    AlreadySettled,
    /// There is no such thread, or no such write was taken.
    NoSuchWrite,
    /// Fewer than twelve bytes are free for one more record.
    NoRoom,
    /// The record is not well made, for this cause.
    NotWellMade(Cause),
}

impl Refusal {
    /// The number of the refusal.
    // A match, since `as` takes no enum of which a case carries something.
    pub fn number(self) -> u8
        ensures { result ≡ refusal_number self }
    {
        match self {
            Refusal::ShortHeader => 1,
            Refusal::ThreadCount => 2,
            Refusal::AddressCount => 3,
            Refusal::RecordCount => 4,
            Refusal::BrokenLayout => 5,
            Refusal::ArrivalList => 6,
            Refusal::BadRenaming => 7,
            Refusal::BadHoldBack => 8,
            Refusal::AlreadySettled => 9,
            Refusal::NoSuchWrite => 10,
            Refusal::NoRoom => 11,
            Refusal::NotWellMade(_) => 12,
        }
    }
}
