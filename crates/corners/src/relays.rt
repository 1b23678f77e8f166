//! Relays at their corners: depths that stop, settings that are refused, and what the hold-back relay delivers in which order.

ghost use Rattle.std.specs.Prelude.{◌≡◌, [], length, refl};
ghost use Rattle.record.specs.Ending.{damaged};
ghost use Rattle.record.specs.declared.causes.Cause.TheVariants.{UnknownKind};
ghost use Rattle.feed.specs.Pile.{bottom};
ghost use Rattle.corners.specs.Broken.{broken_meaning, broken_sound};

use feed::{Feed, Refusal};
use hold_back::{Hold, HoldBack};
use record::{Cause, Counts, Damage, Record};
use relay::{AddressNames, RenamingRelay, Setting, ThreadNames, shown_number};
use renaming::{Rotation, Table};
use std::test::Fail;
use trace_file::TraceFile;

/// A feed of one thread and one address that is damaged at this depth, as no bottom is.
#[derive(Clone, Copy)]
struct Broken {
    depth: u8,
}

impl Feed for Broken {
    ghost meaning = { λ s. broken_meaning s.depth };

    ghost pile = { λ s. bottom (broken_meaning s.depth) };

    ghost unread = { λ _. ⊥ };

    ghost laws = { record { sound = λ s. broken_sound s.depth; proper = λ s u. absurd u; opens = λ s u. refl } };

    fn counts(&self) -> Counts {
        Counts {
            threads: 1,
            addresses: 1,
        }
    }

    fn next(&mut self) -> Result<Option<Record>, Damage> {
        Err(Damage {
            cause: Cause::UnknownKind,
            place: 0,
            depth: self.depth,
        })
    }
}

/// Threads 0, 1, 0, 1 fence in turn.
const TURNS: &[u8; 64] = b"\x00\x02\x00\x01\x00\x00\x00\x04\x00\x00\x00\x10\x00\x00\x00\x40\
\x03\x00\x00\x00\x00\x00\x00\x00\x00\x00\x00\x00\
\x03\x01\x00\x00\x00\x00\x00\x00\x00\x00\x00\x00\
\x03\x00\x00\x00\x00\x00\x00\x00\x00\x00\x00\x00\
\x03\x01\x00\x00\x00\x00\x00\x00\x00\x00\x00\x00";

/// Thread 0 writes, and thread 1 reads that write.
const READ: &[u8; 40] = b"\x00\x02\x00\x01\x00\x00\x00\x02\x00\x00\x00\x10\x00\x00\x00\x28\
\x01\x00\x00\x00\x00\x00\x00\x00\x00\x00\x00\x01\
\x02\x01\x00\x00\x00\x00\x00\x01\x00\x00\x00\x01";

/// The only thread fences twice.
const ALONE: &[u8; 40] = b"\x00\x01\x00\x01\x00\x00\x00\x02\x00\x00\x00\x10\x00\x00\x00\x28\
\x03\x00\x00\x00\x00\x00\x00\x00\x00\x00\x00\x00\
\x03\x00\x00\x00\x00\x00\x00\x00\x00\x00\x00\x00";

/// The setting that holds back up to so many records of this thread.
fn hold(thread: u8, capacity: u8) -> Hold
    ensures { (result.thread ≡ thread) × (result.capacity ≡ capacity) }
{
    Hold { thread, capacity }
}

/// The threads of the next five records, and 9 for each that is not there.
fn next_threads<F: Feed>(feed: &mut F) -> [u8; 5]
    ensures { length result ≡ 5 }
{
    let mut threads = [9; 5];
    for thread in threads.iter_mut() {
        if let Ok(Some(record)) = feed.next() {
            *thread = record.thread();
        }
    }
    threads
}

#[test]
fn depths_stop_at_255(rt: HostRuntime) -> Result<(), Fail> {
    let turn = Rotation::new(1, 3)?;
    let low = RenamingRelay::put_on(Broken { depth: 254 }, ThreadNames(turn));
    let mut high = RenamingRelay::put_on(low, AddressNames(turn));
    assert!(rt; matches!(high.next(), Err(Damage { depth: 255, .. })));
    let low = HoldBack::put_on(Broken { depth: 255 }, hold(0, 17));
    let mut high = RenamingRelay::put_on(low, ThreadNames(turn));
    assert!(rt; matches!(high.next(), Err(Damage { depth: 255, .. })));
    let mut one = HoldBack::put_on(Broken { depth: 0 }, hold(0, 1));
    assert!(rt; matches!(one.next(), Err(Damage { depth: 1, .. })));
    Ok(())
}

#[test]
fn relays_over_refused_ones(rt: HostRuntime) -> Result<(), Fail> {
    let file = TraceFile::open(TURNS).ok().ok_or("refused")?;
    let low = RenamingRelay::put_on(file, ThreadNames(Rotation::new(3, 1)?));
    assert_eq!(rt; shown_number(low.shows()), 7);
    let turn = Rotation::new(2, 7)?;
    let mut high = RenamingRelay::put_on(low, ThreadNames(turn));
    assert_eq!(rt; shown_number(high.shows()), 0);
    assert_eq!(rt; next_threads(&mut high), [1, 0, 1, 0, 9]);
    assert_eq!(rt; ThreadNames(turn).below(high.counts(), 1), 0);
    let mut names = Table::new();
    assert_eq!(rt;
        RenamingRelay::put_on(file, AddressNames(names)).shows(),
        None
    );
    names.set(&[1, 0])?;
    assert_eq!(rt;
        RenamingRelay::put_on(file, AddressNames(names)).shows(),
        Some(Refusal::BadRenaming)
    );
    Ok(())
}

#[test]
fn one_and_sixteen_are_held(rt: HostRuntime) -> Result<(), Fail> {
    let file = TraceFile::open(TURNS).ok().ok_or("refused")?;
    let mut one = HoldBack::put_on(file, hold(0, 1));
    assert_eq!(rt; next_threads(&mut one), [1, 0, 1, 0, 9]);
    let mut many = HoldBack::put_on(file, hold(0, 16));
    assert_eq!(rt; next_threads(&mut many), [1, 1, 0, 0, 9]);
    let mut none = HoldBack::put_on(file, hold(0, 17));
    assert_eq!(rt; shown_number(none.shows()), 8);
    assert_eq!(rt; next_threads(&mut none), [0, 1, 0, 1, 9]);
    let mut other = HoldBack::put_on(file, hold(2, 1));
    assert_eq!(rt; shown_number(other.shows()), 8);
    assert_eq!(rt; next_threads(&mut other), [0, 1, 0, 1, 9]);
    assert_eq!(rt; shown_number(HoldBack::put_on(file, hold(1, 0)).shows()), 8);
    Ok(())
}

#[test]
fn stalled_at_the_end_and_alone(rt: HostRuntime) -> Result<(), Fail> {
    let file = TraceFile::open(READ).ok().ok_or("refused")?;
    let mut stalls = HoldBack::put_on(file, hold(0, 16));
    assert_eq!(rt; next_threads(&mut stalls), [0, 1, 9, 9, 9]);
    let file = TraceFile::open(ALONE).ok().ok_or("refused")?;
    let mut alone = HoldBack::put_on(file, hold(0, 1));
    assert_eq!(rt; next_threads(&mut alone), [0, 0, 9, 9, 9]);
    Ok(())
}
