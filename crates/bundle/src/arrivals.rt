//! Whether an arrival list uses each log exactly.

ghost use Rattle.std.specs.Prelude.{◌≡◌, ◌≤◌, if◌then◌else◌, Some, None};
ghost use Rattle.bundle.specs.Arrivals.{names_only, tallied, rows_tally, uses_exactly};

use crate::layout::Row;

/// How often the list names each thread, if it names only threads below `threads`.
fn tally(arrivals: &[u8], threads: u8) -> Option<[usize; 8]>
    requires { threads ≤ 8 }
    ensures { result ≡ (if names_only threads arrivals.now then Some (tallied arrivals.now) else None) }
{
    // A loop, since the first entry that names no such thread ends the count.
    let mut named = [0; 8];
    for thread in arrivals {
        if *thread >= threads {
            return None;
        }
        named[usize::from(*thread)] += 1;
    }
    Some(named)
}

/// Whether each row has as many records as its thread is named.
fn rows_tally(rows: &[Row; 8], named: &[usize; 8]) -> bool
    ensures { result ≡ rows_tally rows.now named.now }
{
    rows.iter()
        .zip(named)
        .all(|(row, n)| row.count as usize == *n)
}

/// Whether the list names only threads below `threads`, and each as often as its log has records.
pub(crate) fn uses_exactly(arrivals: &[u8], threads: u8, rows: &[Row; 8]) -> bool
    requires { threads ≤ 8 }
    ensures { result ≡ uses_exactly threads rows.now arrivals.now }
{
    // A match: what `is_some_and` says of its closure does not close the proof.
    match tally(arrivals, threads) {
        Some(named) => rows_tally(rows, &named),
        None => false,
    }
}
