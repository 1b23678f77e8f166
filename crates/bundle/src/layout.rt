//! The header of a bundle, whatever it says.

ghost use Rattle.std.specs.Prelude.{◌≡◌, ◌+◌, ◌<◌, ◌≤◌, length, if◌then◌else◌, Ok, Err, nat_lt};
ghost use Rattle.feed.specs.declared.refusals.Refusal.TheVariants.{ShortHeader};
ghost use Rattle.bundle.specs.Layout.{four_at, row_of, rows_of, header_of};

use feed::Refusal;
use std::array;

/// How many bytes stand before the first log.
pub(crate) const HEADER_BYTES: usize = 76;

/// Where a thread's log stands, and how many records it has.
#[derive(Clone, Copy)]
pub struct Row {
    pub offset: u32,
    pub count: u32,
}

/// What the first 76 bytes of a bundle say.
#[derive(Clone, Copy)]
pub(crate) struct BundleHeader {
    pub threads: u16,
    pub addresses: u16,
    /// How many entries the arrival list has.
    pub count: u32,
    /// Where the arrival list stands.
    pub arrivals: u32,
    pub rows: [Row; 8],
}

/// The number of the four bytes at a place.
fn four_at(bytes: &[u8; HEADER_BYTES], at: usize) -> u32
    requires { at + 4 ≤ 76 }
    ensures { result ≡ four_at bytes.now at }
{
    u32::from_be_bytes([bytes[at], bytes[at + 1], bytes[at + 2], bytes[at + 3]])
}

/// The row of a thread.
fn read_row(bytes: &[u8; HEADER_BYTES], thread: usize) -> Row
    requires { thread < 8 }
    ensures { result ≡ row_of bytes.now thread }
{
    Row {
        offset: four_at(bytes, 12 + 8 * thread),
        count: four_at(bytes, 16 + 8 * thread),
    }
}

/// The rows of all eight threads.
fn read_rows(bytes: &[u8; HEADER_BYTES]) -> [Row; 8]
    ensures { result ≡ rows_of bytes.now }
{
    array::from_fn(|thread| read_row(bytes, thread))
}

impl From<[u8; HEADER_BYTES]> for BundleHeader {
    ghost from_gives = { λ bytes header. header ≡ header_of bytes };

    fn from(bytes: [u8; HEADER_BYTES]) -> BundleHeader {
        BundleHeader {
            threads: u16::from_be_bytes([bytes[0], bytes[1]]),
            addresses: u16::from_be_bytes([bytes[2], bytes[3]]),
            count: four_at(&bytes, 4),
            arrivals: four_at(&bytes, 8),
            rows: read_rows(&bytes),
        }
    }
}

impl BundleHeader {
    /// The header at the front of the bytes, if they are as many as it has.
    pub(crate) fn read(bytes: &[u8]) -> Result<BundleHeader, Refusal>
        ensures { result ≡ (if nat_lt (length bytes.now) 76 then Err ShortHeader else Ok (header_of bytes.now)) }
    {
        let Some(front) = bytes.first_chunk() else {
            return Err(Refusal::ShortHeader);
        };
        Ok(BundleHeader::from(*front))
    }
}
