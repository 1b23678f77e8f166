//! The lines that are printed of one trace or bundle.

ghost use Rattle.std.specs.Prelude.{◌≡◌, IfOk};
ghost use Rattle.bundle.specs.Opening.{opened as opened_bundle};
ghost use Rattle.show.specs.Shown.{written_again, ends_clean, ending_of};

use bundle::Bundle;
use feed::{Feed, Refusal};
use record::{Counts, Damage};
use std::alloc::{AllocError, Global};
use std::io;
use trace_file::{TraceFile, copy_trace};

/// Prints what there is to say of a trace file, and returns whether it came out the same when written again.
pub fn print_trace(rt: &HostRuntime, bytes: &[u8]) -> io::Result<bool>
    ensures { IfOk result (λ same. same ≡ written_again bytes.now) }
{
    match TraceFile::open(bytes) {
        Ok(file) => {
            let count = file.count();
            print_feed(rt, file, count)?;
        }
        Err(refusal) => print_refusal(rt, refusal)?,
    }
    let same = written_again(rt.alloc(), bytes)?;
    if same {
        println!(rt; "written again: the same bytes")?;
    }
    Ok(same)
}

/// Prints what there is to say of a bundle, and returns whether it is one that ends clean.
pub fn print_bundle(rt: &HostRuntime, bytes: &[u8]) -> io::Result<bool>
    ensures { IfOk result (λ clean. clean ≡ ends_clean (opened_bundle bytes.now)) }
{
    match Bundle::open(bytes) {
        Ok(bundle) => {
            let count = bundle.count();
            let ending = print_feed(rt, bundle, count)?;
            Ok(ending.is_none())
        }
        Err(refusal) => {
            print_refusal(rt, refusal)?;
            Ok(false)
        }
    }
}

/// Prints why the bytes are refused.
fn print_refusal(rt: &HostRuntime, refusal: Refusal) -> io::Result<()> {
    println!(rt; "refused {}: {refusal}", refusal.number())
}

/// Prints the counts, a line for each record, and the ending, which is returned as damage or nothing.
fn print_feed<F: Feed + Drop>(
    rt: &HostRuntime,
    mut feed: F,
    count: usize,
) -> io::Result<Option<Damage>>
    ensures { IfOk result (λ d. ending_of d ≡ (F.Feed.meaning feed).ending) }
{
    let Counts { threads, addresses } = feed.counts();
    println!(rt; "threads {threads}, addresses {addresses}, records {count}")?;
    let ending = print_records(rt, &mut feed)?;
    match ending {
        Some(Damage { cause, place, .. }) => {
            let number = cause.number();
            println!(rt; "damaged: cause {number} at place {place}, {cause}")?;
        }
        None => println!(rt; "clean after {count} records")?,
    }
    Ok(ending)
}

/// Prints a line for each record, and returns the damage that the feed ends with, if any.
fn print_records<F: Feed>(rt: &HostRuntime, feed: &mut F) -> io::Result<Option<Damage>>
    ensures { IfOk result (λ d. ending_of d ≡ (F.Feed.meaning feed.old).ending) }
{
    let mut place = 0usize;
    loop {
        match feed.next() {
            Ok(Some(record)) => println!(rt; "{place}: {record}")?,
            Ok(None) => return Ok(None),
            Err(damage) => return Ok(Some(damage)),
        }
        // A feed is no iterator, so the place is counted here; and no contract bounds how long a feed is.
        place = place.saturating_add(1);
    }
}

/// Whether the trace, read and written again, is the same bytes.
fn written_again(heap: Global, bytes: &[u8]) -> Result<bool, AllocError>
    ensures { IfOk result (λ same. same ≡ written_again bytes.now) }
{
    let mut target = vec![in heap; 0u8; bytes.len()]?;
    let copied = copy_trace(bytes, target.as_mut_slice());
    Ok(copied.is_ok() && target.as_slice() == bytes)
}
