//! Which records may pass held ones.

ghost use Rattle.std.specs.Prelude.{◌≡◌};
ghost use Rattle.std.specs.List.{list_any};
ghost use Rattle.model.specs.HoldBack.{is_from, hinders as hindered_by};

use crate::held::Kept;
use record::{Record, Source};

/// The source is a write of this thread.
fn is_from(source: Source, writer: u8) -> bool
    ensures { result ≡ is_from writer source }
{
    matches!(source, Source::Write { thread, .. } if thread == writer)
}

/// The record may not pass the held one, since some thread could tell: it reads from that thread and a write is held, it is a write and the held read is from its thread, or the two are a notify and a wait.
fn hinders(held: &Record, record: &Record) -> bool
    ensures { result ≡ hindered_by held.now «record».now }
{
    match (held, record) {
        (Record::Write(write), Record::Read(read)) => is_from(read.source, write.thread),
        (Record::Read(read), Record::Write(write)) => is_from(read.source, write.thread),
        (Record::Wait(_), Record::Notify(_)) => true,
        (Record::Notify(_), Record::Wait(_)) => true,
        _ => false,
    }
}

/// The record may not pass one of the held ones.
pub(crate) fn is_hindered(held: &[Kept], record: &Record) -> bool
    ensures { result ≡ list_any (λ y. hindered_by y «record».now) held.now }
{
    held.iter().any(|one| hinders(&one.0, record))
}
