//! The judge for C, and for any program that can call C: one call over bytes, which answers in numbers.
#![tactic(auto)]

ghost use Rattle.std.specs.Prelude.{◌≡◌, ◌++◌, if◌then◌else◌, length, drop, nat_le};
ghost use Rattle.judging.specs.Lines.{line_of};
ghost use Rattle.judge_c.specs.Numbers.{numbers_of};

use judging::{Line, judge_file};
use model::UnlawfulRecord;

/// The kinds of lines, by their numbers in the C header.
enum Kind {
    Compliant = 0,
    Unlawful = 1,
    Damaged = 2,
    Refused = 3,
}

/// The kind of the line, then its numbers in the order in which the line has them, then zeros.
// No `From`, since neither type is this crate's.
fn numbers(line: Line) -> [u64; 4]
    ensures { result ≡ numbers_of line }
{
    match line {
        Line::Compliant { taken } => [Kind::Compliant as u64, taken as u64, 0, 0],
        Line::Unlawful(
            UnlawfulRecord {
                thread,
                index,
                reason,
            },
        ) => [
            Kind::Unlawful as u64,
            u64::from(thread),
            index as u64,
            u64::from(reason.number()),
        ],
        Line::Damaged(damage) => [
            Kind::Damaged as u64,
            u64::from(damage.cause.number()),
            damage.place as u64,
            u64::from(damage.depth),
        ],
        Line::Refused(refusal) => [Kind::Refused as u64, u64::from(refusal.number()), 0, 0],
    }
}

/// Judges the bytes as a trace file, and puts the kind of the answer and its numbers into the first four entries of `answer`.
///
/// Returns whether there was room: fewer than four entries are left as they were.
#[unsafe(no_mangle)]
pub extern "C" fn kavlugtai_judge(bytes: &[u8], answer: &mut [u64]) -> bool
    ensures room { result ≡ nat_le 4 (length answer.old) }
    ensures after { answer.new ≡ (if result then numbers_of (line_of bytes.now) ++ drop 4 answer.old else answer.old) }
{
    if answer.len() < 4 {
        return false;
    }
    answer[0..4].copy_from_slice(&numbers(judge_file(bytes)));
    true
}
