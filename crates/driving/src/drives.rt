//! Opening a judge on a pile and making every call of a list.

ghost use Rattle.std.specs.Prelude.{◌≡◌, Ok};
ghost use Rattle.feed.specs.Meaning.{Meaning};
ghost use Rattle.feed.specs.Pile.{Pile, Proper, delivered};
ghost use Rattle.judging.specs.Answers.{run_answer};
ghost use Rattle.judging.specs.At.{At, AnswersFrom};
ghost use Rattle.judging.specs.Standing.{Standing, at_start};
ghost use Rattle.judging.specs.Sites.{TellsBottom};
ghost use Rattle.driving.specs.Calls.{answer_to, stands_after, replayed};
ghost use Rattle.driving.specs.OneOutcome.{OneOutcome};

use crate::calls::{Answer, Call, Entry, Reply};
use feed::Feed;
use judging::{Judge, RunAnswer};

/// Makes one call, and returns its answer.
fn answer<P: Feed>(judge: &mut Judge<P>, call: Call) -> Answer
    ensures { AnswersFrom P.Feed.meaning judge.old judge.new result (answer_to call) (stands_after call) }
{
    match call {
        Call::Step => judge.step().map(Reply::Step),
        Call::Run { budget } => judge.run(budget).map(Reply::Run),
        Call::Question {
            reader,
            writer,
            number,
        } => judge.question(reader, writer, number).map(Reply::Question),
    }
}

/// Makes every call, and puts each answer beside its call.
fn make_calls<P: Feed>(judge: &mut Judge<P>, entries: &mut [Entry])
    ensures exact { (s : Standing) → At P.Feed.meaning judge.old s → entries.new ≡ replayed s entries.old }
    ensures tells { (p : Pile) → Proper p → (m : Meaning) → m ≡ delivered p → At P.Feed.meaning judge.old (at_start m) → OneOutcome p entries.new }
{
    for entry in entries.iter_mut() {
        entry.answer = Some(answer(judge, entry.call));
    }
}

/// Opens a new judge on the pile, makes every call, and puts each answer beside its call.
pub fn drive<P: Feed + Drop>(pile: P, entries: &mut [Entry])
    ensures exact { entries.new ≡ replayed (at_start (P.Feed.meaning pile)) entries.old }
    ensures one_outcome { P.Feed.unread pile → OneOutcome (P.Feed.pile pile) entries.new }
{
    let mut judge = Judge::open(pile);
    make_calls(&mut judge, entries);
}

/// Opens a new judge on the pile, makes one run with this budget, and returns what it came to.
pub fn run_once<P: Feed + Drop>(pile: P, budget: usize) -> RunAnswer
    ensures exact { Ok result ≡ run_answer budget (at_start (P.Feed.meaning pile)) }
    ensures one_outcome { P.Feed.unread pile → TellsBottom (P.Feed.pile pile) budget result.outcome }
{
    let call = Call::Run { budget };
    let mut entries = [Entry { call, answer: None }];
    drive(pile, &mut entries);
    match entries[0].answer {
        Some(Ok(Reply::Run(run))) => run,
        _ => unreachable(),
    }
}
