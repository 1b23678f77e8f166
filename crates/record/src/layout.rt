//! The fields of a record's twelve bytes, whatever they mean.

ghost use Rattle.std.specs.Prelude.{◌≡◌};
ghost use Rattle.record.specs.Layout.{fields_of, bytes_for};

/// How many bytes a record takes in a file.
pub const RECORD_BYTES: usize = 12;

/// The fields of twelve bytes; numbers of several bytes are big-endian.
#[derive(Clone, Copy)]
pub struct Fields {
    pub kind: u8,
    pub thread: u8,
    pub address: u16,
    pub writer: u8,
    pub mode: u8,
    pub number: u16,
    pub value: u32,
}

impl Fields {
    /// The fields that the bytes hold.
    pub fn from_be_bytes(bytes: [u8; 12]) -> Fields
        ensures { result ≡ fields_of bytes }
    {
        let [kind, thread, a0, a1, writer, mode, n0, n1, v0, v1, v2, v3] = bytes;
        Fields {
            kind,
            thread,
            address: u16::from_be_bytes([a0, a1]),
            writer,
            mode,
            number: u16::from_be_bytes([n0, n1]),
            value: u32::from_be_bytes([v0, v1, v2, v3]),
        }
    }

    /// The bytes that hold the fields.
    pub fn to_be_bytes(self) -> [u8; 12]
        ensures { result ≡ bytes_for self }
    {
        let [a0, a1] = self.address.to_be_bytes();
        let [n0, n1] = self.number.to_be_bytes();
        let [v0, v1, v2, v3] = self.value.to_be_bytes();
        [
            self.kind,
            self.thread,
            a0,
            a1,
            self.writer,
            self.mode,
            n0,
            n1,
            v0,
            v1,
            v2,
            v3,
        ]
    }
}
