//! The theorems about records and their bytes, each as the promise of a function.

ghost use Rattle.record.specs.RoundTrip.{EncodedIsDecoded, DecodedIsEncoded, DecodedIsWellMade};

/// Decoding what was encoded gives the record, for every well-made one; encoding what was decoded gives the same bytes; and what is decoded is well made.
pub fn round_trips()
    ensures encoded_is_decoded { EncodedIsDecoded }
    ensures decoded_is_encoded { DecodedIsEncoded }
    ensures decoded_is_well_made { DecodedIsWellMade }
{}
