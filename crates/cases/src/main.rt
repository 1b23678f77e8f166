//! Judges the published cases and the worked traces, and says of each whether the judge is right.
#![tactic(auto)]

mod compliance;
mod corners;
mod judged;
mod meanings;
mod records;
mod worked;

use crate::compliance::COMPLIANCE_TESTS;
use crate::corners::DARK_CORNERS;
use crate::judged::{Case, judge_cases};
use crate::worked::WORKED_TRACES;
use std::io;

/// The lists of cases, each with its heading.
const LISTS: [(&str, &[Case]); 3] = [
    ("Compliance tests", COMPLIANCE_TESTS),
    ("Dark corners", DARK_CORNERS),
    ("Worked traces", WORKED_TRACES),
];

fn main(rt: HostRuntime) -> io::Result<()> {
    let mut all = true;
    for (heading, cases) in LISTS {
        println!(rt; "{heading}")?;
        all &= judge_cases(&rt, cases)?;
    }
    if all {
        println!(rt; "every case is right")
    } else {
        println!(rt; "some case is WRONG")
    }
}
