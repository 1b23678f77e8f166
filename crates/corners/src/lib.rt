//! Tests of the corners of records, trace files, bundles, renamings, relays and the judge; the crates under test stay quick to prove.
#![tactic(auto)]

#[cfg(test)]
mod bundles;
#[cfg(test)]
mod judged;
#[cfg(test)]
mod records;
#[cfg(test)]
mod relays;
#[cfg(test)]
mod renamings;
#[cfg(test)]
mod traces;
