//! The cases: the trace of each is written as a trace file, judged, and held to what the case demands.

ghost use Rattle.std.specs.Prelude.{◌≡◌, length, IfOk, Ok, Decides};
ghost use Rattle.std.specs.List.{All};
ghost use Rattle.trace_file.specs.Writing.{begun};
ghost use Rattle.trace_file.specs.Laws.{all_appended, ReadAgain};
ghost use Rattle.cases.specs.Judged.{Fitting, case_line, CaseFits, IsRight};

use feed::Refusal;
use judging::{Line, judge_file};
use record::{Counts, Record};
use std::io;
use trace_file::{append, begin};

/// A trace over two addresses, and the line that the judge is to say of it.
#[derive(Clone, Copy)]
pub struct Case<'a> {
    pub title: &'a str,
    pub asked: Line,
    pub threads: u8,
    pub records: &'a [Record],
}

/// Writes a trace of the records into the buffer.
fn write_trace(buf: &mut [u8], counts: Counts, records: &[Record]) -> Result<(), Refusal>
    ensures { ReadAgain counts records.now buf.old → (result ≡ Ok tt) × (buf.new ≡ all_appended (begun buf.old counts) records.now) }
{
    begin(buf, counts)?;
    for record in records {
        append(buf, *record)?;
    }
    Ok(())
}

/// The judge's line on the trace of these records over two addresses, of which there may be sixteen.
fn judged(threads: u8, records: &[Record]) -> Line
    ensures { Fitting threads records.now → result ≡ case_line threads records.now }
{
    if records.len() > 16 {
        return Line::Refused(Refusal::NoRoom);
    }
    let counts = Counts {
        threads,
        addresses: 2,
    };
    let mut buf = [0u8; 208];
    match write_trace(&mut buf, counts, records) {
        Ok(()) => judge_file(&buf[0..16 + 12 * records.len()]),
        Err(refusal) => Line::Refused(refusal),
    }
}

/// Judges a case and prints a line: what it shows, what is asked, what the judge says, and whether that is right, which is returned.
pub fn judge_case(rt: &HostRuntime, case: &Case<'_>) -> io::Result<bool>
    ensures { IfOk result (λ right. (CaseFits case.now → Decides right (IsRight case.now))) }
{
    let Case {
        title,
        asked,
        threads,
        records,
    } = *case;
    let line = judged(threads, records);
    let right = line == asked;
    let word = if right { "right" } else { "WRONG" };
    println!(rt; "{title}: asked {asked}, judged {line}, {word}")?;
    Ok(right)
}

/// Judges the cases one by one, and returns whether the judge is right on all.
pub fn judge_cases(rt: &HostRuntime, cases: &[Case<'_>]) -> io::Result<bool>
    ensures { IfOk result (λ right. (All CaseFits cases.now → Decides right (All IsRight cases.now))) }
{
    let mut all = true;
    for case in cases {
        all &= judge_case(rt, case)?;
    }
    Ok(all)
}
