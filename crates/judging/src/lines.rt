//! What there is to say of a whole trace file, in one line.

ghost use Rattle.std.specs.Prelude.{Some};
ghost use Rattle.judging.specs.Lines.{line_text};

use feed::Refusal;
use model::UnlawfulRecord;
use record::Damage;
use std::fmt;

/// What a trace file comes to. A type of its own, since a line is printed, and a `Result` has no `Display`.
#[derive(Clone, Copy, PartialEq, Eq, Debug)]
pub enum Line {
    /// Every record is lawful, and so many were taken.
    Compliant { taken: usize },
    /// The first record that is not lawful.
    Unlawful(UnlawfulRecord),
    /// Every record is lawful, and the file ends damaged.
    Damaged(Damage),
    /// The bytes are no trace file.
    Refused(Refusal),
}

impl fmt::Display for Line {
    ghost output = { λ l. Some (line_text l) };

    fn fmt<W: fmt::Write>(&self, f: &mut fmt::Formatter<W>) -> fmt::Result {
        match *self {
            Line::Compliant { taken } => write!(f, "compliant {taken}"),
            Line::Unlawful(
                UnlawfulRecord {
                    thread,
                    index,
                    reason,
                },
            ) => {
                let number = reason.number();
                write!(f, "unlawful {thread} {index} {number}")
            }
            Line::Damaged(
                Damage {
                    cause,
                    place,
                    depth,
                },
            ) => {
                let number = cause.number();
                write!(f, "damaged {number} {place} {depth}")
            }
            Line::Refused(refusal) => {
                let number = refusal.number();
                write!(f, "refused {number}")
            }
        }
    }
}
