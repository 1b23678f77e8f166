//! Judges the trace file on standard input, and prints one line.
#![tactic(auto)]

use judging::judge_file;
use std::io;
use std::io::Read;

/// One byte more than the longest trace file has, so that a longer one is seen to be too long.
const MOST_BYTES: u64 = 49_169;

fn main(rt: HostRuntime) -> io::Result<()> {
    let mut bytes = Vec::new(rt.alloc());
    rt.stdin().take(MOST_BYTES).read_to_end(&mut bytes)?;
    let line = judge_file(bytes.as_slice());
    println!(rt; "{line}")
}
