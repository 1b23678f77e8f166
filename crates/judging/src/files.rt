//! Judging a whole trace file.

ghost use Rattle.std.specs.Prelude.{◌≡◌, ◌<◌, length};
ghost use Rattle.model.specs.Laws.{by_axioms};
ghost use Rattle.model.specs.Lawful.{outcome as outcome_of};
ghost use Rattle.judging.specs.Lines.{outcome_line, line_of};

use crate::answers::RunAnswer;
use crate::judges::Judge;
use crate::lines::Line;
use feed::Feed;
use model::Outcome;
use trace_file::{MOST_RECORDS, TraceFile};

/// More than the records of any trace file.
const BUDGET: usize = MOST_RECORDS as usize + 1;

/// The line of an outcome, where so many records were taken.
// No `From`, since a pair of the two would say no more.
pub fn line(outcome: Outcome, taken: usize) -> Line
    ensures { result ≡ outcome_line outcome taken }
{
    match outcome {
        Outcome::Compliant => Line::Compliant { taken },
        Outcome::Unlawful(found) => Line::Unlawful(found),
        Outcome::Damaged(damage) => Line::Damaged(damage),
    }
}

/// Judges a feed of at most 4,096 records to its end.
fn judge_feed<P: Feed + Drop>(pile: P) -> Line
    requires { length (P.Feed.meaning pile).waiting < 4097 }
    ensures { result ≡ outcome_line (outcome_of by_axioms (P.Feed.meaning pile).counts.threads (P.Feed.meaning pile).waiting (P.Feed.meaning pile).ending) (length (P.Feed.meaning pile).waiting) }
{
    let mut judge = Judge::open(pile);
    let RunAnswer { outcome, taken } = judge.run(BUDGET).unwrap();
    line(outcome.unwrap(), taken)
}

/// Judges the bytes as a trace file, and returns the line to print.
pub fn judge_file(bytes: &[u8]) -> Line
    ensures { result ≡ line_of bytes.now }
{
    match TraceFile::open(bytes) {
        Ok(file) => judge_feed(file),
        Err(refusal) => Line::Refused(refusal),
    }
}
