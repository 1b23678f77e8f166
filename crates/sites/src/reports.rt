//! What is printed of a site.

ghost use Rattle.std.specs.Prelude.{◌≡◌, length, IfOk};
ghost use Rattle.sites.specs.Reported.{named_thread, with_thread};

use feed::Refusal;
use judging::{RunAnswer, line};
use model::{Outcome, UnlawfulRecord};
use relay::shown_number;
use std::{fmt, io};

/// The thread that the outcome names, if it names one.
pub fn named_thread(outcome: Option<Outcome>) -> Option<u8>
    ensures { result ≡ named_thread outcome }
{
    match outcome {
        Some(Outcome::Unlawful(UnlawfulRecord { thread, .. })) => Some(thread),
        _ => None,
    }
}

/// The outcome, with the thread that it names under this name.
fn with_thread(outcome: Outcome, thread: u8) -> Outcome
    ensures { result ≡ with_thread outcome thread }
{
    match outcome {
        Outcome::Unlawful(found) => Outcome::Unlawful(UnlawfulRecord { thread, ..found }),
        other => other,
    }
}

/// What there is to say of a site.
#[derive(Clone, Copy)]
pub struct Site<'a> {
    /// Its pile in words.
    pub name: &'a str,
    /// What each relay shows, from the bottom up.
    pub shows: &'a [Option<Refusal>],
    /// What the judge answered there.
    pub answer: RunAnswer,
    /// The bottom's name of the thread that the outcome names, if it names one.
    pub bottom: Option<u8>,
}

/// Writes what each relay shows, one number after the other, and returns how many there are.
fn write_shown<W: fmt::Write>(
    f: &mut fmt::Formatter<W>,
    shows: &[Option<Refusal>],
) -> Result<usize, fmt::Error>
    ensures { IfOk result (λ n. n ≡ length shows.now) }
{
    for shown in shows {
        write!(f, " {}", shown_number(*shown))?;
    }
    Ok(shows.len())
}

impl fmt::Display for Site<'_> {
    fn fmt<W: fmt::Write>(&self, f: &mut fmt::Formatter<W>) -> fmt::Result {
        f.write_str(self.name)?;
        if !self.shows.is_empty() {
            f.write_str(", shows")?;
            let _relays = write_shown(f, self.shows)?;
        }
        let RunAnswer {
            outcome: Some(outcome),
            taken,
        } = self.answer
        else {
            return f.write_str(": no outcome");
        };
        write!(f, ": {}", line(outcome, taken))?;
        match self.bottom {
            Some(thread) => {
                let below = line(with_thread(outcome, thread), taken);
                write!(f, "; at the bottom {below}")
            }
            None => Ok(()),
        }
    }
}

/// Prints a line for the site: its pile, what each relay shows from the bottom up, the outcome as it was told and, if that names a record, with the thread's name at the bottom. Returns the outcome that was told.
pub fn print_site(rt: &HostRuntime, site: &Site<'_>) -> io::Result<Option<Outcome>>
    ensures { IfOk result (λ o. o ≡ site.now.answer.outcome) }
{
    println!(rt; "{site}")?;
    Ok(site.answer.outcome)
}
