//! How a refusal reads for people.

ghost use Rattle.std.specs.Prelude.{◌++◌, Some};
ghost use Rattle.feed.specs.Sentences.{refusal_text, carried_text};

use crate::refusals::Refusal;
use std::fmt;

impl fmt::Display for Refusal {
    ghost output = { λ e. Some (refusal_text e ++ carried_text e) };

    fn fmt<W: fmt::Write>(&self, f: &mut fmt::Formatter<W>) -> fmt::Result {
        f.write_str(match *self {
            Refusal::ShortHeader => "there are fewer bytes than a header has",
            Refusal::ThreadCount => "the number of threads is not 1 to 8",
            Refusal::AddressCount => "the number of addresses is not 1 to 64",
            Refusal::RecordCount => "there are more than 4096 records",
            Refusal::BrokenLayout => "offsets or lengths break the layout",
            Refusal::ArrivalList => "the arrival list does not use each log exactly",
            Refusal::BadRenaming =>
                "the renaming is no table, or not of as many numbers as the feed has",
            Refusal::BadHoldBack =>
                "there is no such thread to hold back, or the number to hold is not 1 to 16",
            Refusal::AlreadySettled => "an outcome was told already",
            Refusal::NoSuchWrite => "there is no such thread, or no such write was taken",
            Refusal::NoRoom => "fewer than 12 bytes are free for one more record",
            Refusal::NotWellMade(cause) => {
                return write!(f, "the record is not well made: {cause}");
            }
        })
    }
}
