//! Sends a trace through several piles of relays, and says whether the sites agree.
#![tactic(auto)]

mod comparing;
mod piles;
mod reports;
mod settings;
mod visits;

use crate::comparing::compare;
use std::io::Read;
use std::{env, fs};

/// One byte more than the longest trace file has, so that a longer one is seen to be too long.
const MOST_BYTES: u64 = 49_169;

/// Thread 0 writes, thread 1 reads that write and then the initial value: judged where no file is named.
const SHIPPED: &[u8; 52] = b"\x00\x02\x00\x01\x00\x00\x00\x03\x00\x00\x00\x10\x00\x00\x00\x34\
\x01\x00\x00\x00\x00\x00\x00\x00\x00\x00\x00\x01\
\x02\x01\x00\x00\x00\x00\x00\x01\x00\x00\x00\x01\
\x02\x01\x00\x00\xff\x00\x00\x00\x00\x00\x00\x00";

/// Prints the name of a trace, and compares its sites.
fn compare_named(rt: &HostRuntime, name: &str) -> anyhow::Result<bool> {
    println!(rt; "{name}")?;
    let mut bytes = Vec::new(rt.alloc());
    fs::open(rt, name)?
        .take(MOST_BYTES)
        .read_to_end(&mut bytes)?;
    Ok(compare(rt, bytes.as_slice())?)
}

/// Compares the sites of each trace that an argument names, or of the shipped one where there is none.
fn run(rt: &HostRuntime) -> anyhow::Result<()> {
    let mut names = env::args(rt)?.skip(1).peekable();
    if names.peek().is_none() {
        let _same = compare(rt, SHIPPED)?;
    }
    for name in names {
        let _same = compare_named(rt, name.as_str())?;
    }
    Ok(())
}

fn main(rt: HostRuntime) -> anyhow::Result<()> {
    run(&rt)
}
