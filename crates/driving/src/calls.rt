//! The calls that a judge is driven through, and their answers.

use feed::Refusal;
use judging::RunAnswer;
use model::Outcome;

/// What a judge is asked to do.
// Data and no closures, since a caller lends a list of calls and reads each answer beside its call.
#[derive(Clone, Copy, PartialEq, Eq, Debug)]
pub enum Call {
    /// Ask for one record.
    Step,
    /// Take records until an outcome or until so many are taken.
    Run { budget: usize },
    /// May the reader now read the writer's write with this number, counted from 1? The three are those of `Judge::question`.
    Question { reader: u8, writer: u8, number: u16 },
}

/// What a judge answers to a call that it does not refuse.
#[derive(Clone, Copy, PartialEq, Eq, Debug)]
pub enum Reply {
    /// To a step: the outcome of the trace; none where a lawful record was taken.
    Step(Option<Outcome>),
    /// To a run: the outcome, if it was told, and how many records were taken.
    Run(RunAnswer),
    /// To a question: whether the write may be read.
    Question(bool),
}

/// What a judge answers to a call; one that is refused has changed nothing.
pub type Answer = Result<Reply, Refusal>;

/// A call, and its answer once it was made.
#[derive(Clone, Copy, PartialEq, Eq, Debug)]
pub struct Entry {
    pub call: Call,
    pub answer: Option<Answer>,
}
