//! Shows trace files and bundles to people: what they hold, how they end, and of a trace that it can be written again.
#![tactic(auto)]

mod printing;

ghost use Rattle.std.specs.Prelude.{◌≡◌};
ghost use Rattle.show.specs.Shown.{most_bytes};

use crate::printing::{print_bundle, print_trace};
use std::io::Read;
use std::{env, fs};

/// What the bytes are to be shown as.
#[derive(Clone, Copy)]
enum Format {
    Trace,
    Bundle,
}

impl Format {
    /// One byte more than the longest of the format has, so that a longer one is seen to be too long.
    fn most_bytes(self) -> u64
        ensures { result ≡ most_bytes self }
    {
        match self {
            Format::Trace => 49_169,
            Format::Bundle => 397_389,
        }
    }
}

/// Reads bytes from their source and prints what there is to say of them.
fn show<R: Read + Drop>(rt: &HostRuntime, source: R, format: Format) -> anyhow::Result<()> {
    let mut bytes = Vec::new(rt.alloc());
    source.take(format.most_bytes()).read_to_end(&mut bytes)?;
    match format {
        Format::Trace => print_trace(rt, bytes.as_slice())?,
        Format::Bundle => print_bundle(rt, bytes.as_slice())?,
    };
    Ok(())
}

/// Shows each file that an argument names, or standard input where there is none; `--bundle` says that what comes next is a bundle.
fn run(rt: &HostRuntime) -> anyhow::Result<()> {
    // Two variables: `--bundle` with no file behind it says what standard input is shown as.
    let mut named = false;
    let mut format = Format::Trace;
    let mut words = env::args(rt)?;
    let _program = words.next();
    for word in words {
        match word.as_str() {
            "--bundle" => format = Format::Bundle,
            name => {
                named = true;
                println!(rt; "{name}")?;
                show(rt, fs::open(rt, name)?, format)?;
                format = Format::Trace;
            }
        }
    }
    if named {
        Ok(())
    } else {
        show(rt, rt.stdin(), format)
    }
}

fn main(rt: HostRuntime) -> anyhow::Result<()> {
    run(&rt)
}
