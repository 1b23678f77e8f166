//! Whether the sites of one trace agree.

ghost use Rattle.std.specs.Prelude.{◌≡◌, ◌<◌, ◌≤◌, true, length, is_ok, IfOk};
ghost use Rattle.trace_file.specs.Opening.{opened};
ghost use Rattle.trace_file.specs.contracts.reading.TraceFileFeed.TheImpl.{ghosts as feed_of};
ghost use Rattle.sites.specs.Together.{both_agree, all_agree, behind_one};

use crate::settings::Settings;
use crate::visits::Visits;
use driving::agree;
use feed::Feed;
use model::Outcome;
use std::io;
use trace_file::{MOST_RECORDS, TraceFile};

/// More than the records of any trace file.
const BUDGET: usize = MOST_RECORDS as usize + 1;

/// Whether both have told an outcome, and the two agree.
fn both_agree(a: Option<Outcome>, b: Option<Outcome>) -> bool
    ensures { result ≡ both_agree a b }
{
    match (a, b) {
        (Some(a), Some(b)) => agree(a, b),
        _ => false,
    }
}

/// Whether each of the others agrees with the first.
fn all_agree(first: Option<Outcome>, others: &[Option<Outcome>]) -> bool
    ensures { result ≡ all_agree first others.now }
{
    others.iter().all(|other| both_agree(first, *other))
}

/// Sends what the file still delivers through every pile, prints each site, and returns whether all agree.
fn visit(rt: &HostRuntime, file: TraceFile<'_>, set: &Settings, budget: usize) -> io::Result<bool>
    ensures { IfOk result (λ same. (length (feed_of.meaning file.entry).waiting < budget → same ≡ true)) }
{
    let visits = Visits { rt, set, budget };
    let bottom = visits.at_the_bottom(file)?;
    let rotated = visits.behind_a_rotation(file)?;
    let tabled = visits.behind_a_table(file)?;
    let deep = visits.deep_down(file)?;
    let refused = visits.behind_refused_ones(file)?;
    Ok(all_agree(bottom, &[rotated, tabled, deep, refused]))
}

/// Prints whether the sites agree, and returns it.
fn print_agreement(rt: &HostRuntime, same: bool) -> io::Result<bool>
    ensures { IfOk result (λ printed. printed ≡ same) }
{
    let word = if same { "agree" } else { "DISAGREE" };
    println!(rt; "the sites {word}")?;
    Ok(same)
}

/// The file with its first record read already, if it has one.
fn half_read(mut file: TraceFile<'_>) -> TraceFile<'_>
    ensures rest { feed_of.meaning result ≡ behind_one (feed_of.meaning file.entry) }
    ensures shorter { length (feed_of.meaning result).waiting ≤ length (feed_of.meaning file.entry).waiting }
{
    let _ = file.next();
    file
}

/// Sends the file through every pile, whole and half-read, and returns whether the sites agree each time.
fn compare_file(rt: &HostRuntime, file: TraceFile<'_>, budget: usize) -> io::Result<bool>
    ensures { IfOk result (λ same. (length (feed_of.meaning file.entry).waiting < budget → same ≡ true)) }
{
    let Ok(set) = Settings::of(file.counts()) else {
        return Ok(false);
    };
    let found = visit(rt, file, &set, budget)?;
    let whole = print_agreement(rt, found)?;
    println!(rt; "with the first record read before:")?;
    let found_again = visit(rt, half_read(file), &set, budget)?;
    let rest = print_agreement(rt, found_again)?;
    Ok(whole && rest)
}

/// Opens the bytes as a trace file, sends it through every pile, whole and with its first record read already, and returns whether the sites agree.
///
/// Says no where the bytes are no trace file.
pub fn compare(rt: &HostRuntime, bytes: &[u8]) -> io::Result<bool>
    ensures { IfOk result (λ same. same ≡ is_ok (opened bytes.now)) }
{
    match TraceFile::open(bytes) {
        Ok(file) => compare_file(rt, file, BUDGET),
        Err(refusal) => {
            let number = refusal.number();
            println!(rt; "refused {number}")?;
            Ok(false)
        }
    }
}
