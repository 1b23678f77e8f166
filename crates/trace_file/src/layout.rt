//! The header of a trace file, and the tests that it has to pass.

ghost use Rattle.std.specs.Prelude.{◌≡◌, ◌≤◌, length, IfOk, if◌then◌else◌, Ok, Err, nat_lt};
ghost use Rattle.feed.specs.declared.refusals.Refusal.TheVariants.{ShortHeader};
ghost use Rattle.trace_file.specs.Layout.{header_of, trace_length};
ghost use Rattle.trace_file.specs.Opening.{counts_tested, header_tested, in_range};

use feed::Refusal;
use record::{Counts, RECORD_BYTES};

/// How many bytes stand before the first record.
pub const HEADER_BYTES: usize = 16;

/// How many records a trace has at the most.
pub const MOST_RECORDS: u32 = 4096;

/// How many bytes a trace of so many records has.
pub(crate) fn trace_length(count: u32) -> usize
    ensures { result ≡ trace_length count }
{
    HEADER_BYTES + RECORD_BYTES * count as usize
}

/// What the first sixteen bytes of a trace file say.
#[derive(Clone, Copy)]
pub struct Header {
    pub threads: u16,
    pub addresses: u16,
    pub count: u32,
    pub offset: u32,
    pub length: u32,
}

/// The counts, if there are 1 to 8 threads and 1 to 64 addresses.
pub fn test_counts(threads: u16, addresses: u16) -> Result<Counts, Refusal>
    ensures { result ≡ counts_tested threads addresses }
{
    match (threads, addresses) {
        (0 | 9.., _) => Err(Refusal::ThreadCount),
        (_, 0 | 65..) => Err(Refusal::AddressCount),
        _ => Ok(Counts {
            threads: threads as u8,
            addresses: addresses as u8,
        }),
    }
}

/// The counts as near to 1 to 8 threads and 1 to 64 addresses as can be; those that passed their test are as they are.
pub fn in_range(counts: Counts) -> Counts
    ensures { result ≡ in_range counts }
{
    Counts {
        threads: counts.threads.clamp(1, 8),
        addresses: counts.addresses.clamp(1, 64),
    }
}

impl From<[u8; 16]> for Header {
    ghost from_gives = { λ bytes header. header ≡ header_of bytes };

    fn from(bytes: [u8; 16]) -> Header {
        Header {
            threads: u16::from_be_bytes([bytes[0], bytes[1]]),
            addresses: u16::from_be_bytes([bytes[2], bytes[3]]),
            count: u32::from_be_bytes([bytes[4], bytes[5], bytes[6], bytes[7]]),
            offset: u32::from_be_bytes([bytes[8], bytes[9], bytes[10], bytes[11]]),
            length: u32::from_be_bytes([bytes[12], bytes[13], bytes[14], bytes[15]]),
        }
    }
}

impl Header {
    /// The header at the front of the bytes, if they are as many as it has.
    pub fn read(bytes: &[u8]) -> Result<Header, Refusal>
        ensures answer { result ≡ (if nat_lt (length bytes.now) 16 then Err ShortHeader else Ok (header_of bytes.now)) }
        ensures whole { IfOk result (λ h. (16 ≤ length bytes.now) × (h ≡ header_of bytes.now)) }
    {
        let header: &[u8; 16] = bytes.first_chunk().ok_or(Refusal::ShortHeader)?;
        Ok(Header::from(*header))
    }

    /// The header's counts, or its first refusal. It allows `most` records, and `fits` says whether its length fits the bytes at hand.
    pub fn test(self, most: u32, fits: bool) -> Result<Counts, Refusal>
        ensures { result ≡ header_tested most fits self }
    {
        let counts = test_counts(self.threads, self.addresses)?;
        if self.count > most {
            return Err(Refusal::RecordCount);
        }
        let starts = self.offset as usize == HEADER_BYTES;
        if starts && self.length as usize == trace_length(self.count) && fits {
            Ok(counts)
        } else {
            Err(Refusal::BrokenLayout)
        }
    }
}
