//! What the judge answers to a run.

use model::Outcome;

/// What a run came to.
#[derive(Clone, Copy, PartialEq, Eq, Debug)]
pub struct RunAnswer {
    /// The outcome of the trace; none where as many records as the budget allows were taken.
    pub outcome: Option<Outcome>,
    /// How many records the run took.
    pub taken: usize,
}
