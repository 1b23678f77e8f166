//! Why a record is unlawful.

ghost use Rattle.std.specs.Prelude.{◌≡◌};
ghost use Rattle.model.specs.Lawful.{reason_number};

/// Why a record is unlawful: the first that applies, in this order.
#[derive(Clone, Copy, PartialEq, Eq, Debug)]
pub enum Reason {
    /// Its thread already has 512 records.
    TooManyRecords = 1,
    /// A read names a write that does not stand earlier.
    NotWrittenYet = 2,
    /// The write that a read names has another address.
    OtherAddress = 3,
    /// The value read is not the named write's, or for the initial value is not 0.
    OtherValue = 4,
    /// A read names its own thread's write, and a later own write to that address stands earlier than the read.
    OwnLaterWrite = 5,
    /// A read names another thread's write that is overwritten for it.
    Overwritten = 6,
    /// A read names the initial value, and its thread has written there or another thread's write there is covered for it.
    InitialGone = 7,
    /// A notify, where its thread's earlier notifies and waits differ in number.
    NotifyOutOfTurn = 8,
    /// A wait, where its thread has not exactly one notify more than waits before it.
    WaitOutOfTurn = 9,
    /// A wait, where another thread's notify of the same phase does not stand earlier.
    NotifyMissing = 10,
    /// A wait, where some thread's notify of the same phase has another label.
    OtherLabel = 11,
}

impl Reason {
    /// The number of the reason, 1 to 11.
    pub fn number(self) -> u8
        ensures { result ≡ reason_number self }
    {
        self as u8
    }
}
