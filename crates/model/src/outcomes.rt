//! What a whole trace comes to.

use crate::reasons::Reason;
use record::Damage;

/// A record that is not lawful, and why.
#[derive(Clone, Copy, PartialEq, Eq, Debug)]
pub struct UnlawfulRecord {
    pub thread: u8,
    /// Its place among the records of its thread, counted from 0.
    pub index: usize,
    pub reason: Reason,
}

#[derive(Clone, Copy, PartialEq, Eq, Debug)]
pub enum Outcome {
    /// Every record is lawful, and the trace ends clean.
    Compliant,
    /// The first record that is not lawful.
    Unlawful(UnlawfulRecord),
    /// Every record is lawful, and behind the last of them the trace is damaged.
    Damaged(Damage),
}
