//! Addresses under other names.

ghost use Rattle.std.specs.Prelude.{◌≡◌, ◌<◌, refl};
ghost use Rattle.model.specs.Renamed.{renamed as renamed_by};
ghost use Rattle.model.specs.Tells.{unchanged};
ghost use Rattle.relay.specs.Renames.{addresses_by};

use crate::showing::renaming_shows;
use crate::traits::{Renames, Setting};
use feed::Refusal;
use record::{Counts, ReadRecord, Record, WriteRecord};
use renaming::Renaming;

/// The setting of a relay whose addresses go by other names: those of writes and reads are sent through the renaming.
#[derive(Clone, Copy, Drop)]
pub struct AddressNames<R>(pub R);

impl<R: Renaming> AddressNames<R> {
    /// The address under its new name.
    fn renamed_address(&self, address: u16) -> u16
        requires { address < 256 }
        ensures { result ≡ R.Renaming.onward self.now.0 address }
    {
        u16::from(self.0.there(address as u8))
    }
}

impl<R: Renaming> Setting for AddressNames<R> {
    ghost relay = { λ s. addresses_by R.Renaming s.0 };

    ghost proper = { λ s. R.Renaming.laws s.0 };

    fn shows(&self, counts: Counts) -> Option<Refusal> {
        renaming_shows(self.0.count(), counts.addresses)
    }

    fn below(&self, _counts: Counts, thread: u8) -> u8 {
        thread
    }
}

impl<R: Renaming> Renames for AddressNames<R> {
    ghost change = { λ s. renamed_by unchanged (R.Renaming.onward s.0) };

    ghost each = { λ _ _. refl };

    fn renamed(&self, record: Record) -> Record {
        match record {
            Record::Write(write) => Record::Write(WriteRecord {
                address: self.renamed_address(write.address),
                ..write
            }),
            Record::Read(read) => Record::Read(ReadRecord {
                address: self.renamed_address(read.address),
                ..read
            }),
            _ => record,
        }
    }
}
