//! Opening lent bytes as a bundle.

ghost use Rattle.std.specs.Prelude.{◌≡◌, ◌≤◌, length, IfOk, Ok, Err, MatchResult};
ghost use Rattle.feed.specs.Pile.{bottom};
ghost use Rattle.bundle.specs.Opening.{arrivals_of, opened};
ghost use Rattle.bundle.specs.Laws.{InOrder, OpensAs};
ghost use Rattle.bundle.specs.contracts.reading.BundleFeed.TheImpl.{ghosts as feed_of};

use crate::arrivals::uses_exactly;
use crate::logs::unread_logs;
use crate::reading::Bundle;
use crate::testing::{Contents, read_contents};
use feed::Refusal;

/// The arrival list, which is the last bytes of a bundle.
fn arrival_list(bytes: &[u8], count: u32) -> &[u8]
    requires { count ≤ length bytes.now }
    ensures { result.now ≡ arrivals_of bytes.now count }
{
    let start = bytes.len() - count as usize;
    &bytes[start..]
}

/// What the bytes hold as a bundle whose arrival list uses each log exactly, or the first refusal.
fn test_bundle(bytes: &[u8]) -> Result<Contents, Refusal>
    ensures { MatchResult result (λ k. (k.count ≤ length bytes.now) × OpensAs bytes.now k) (λ e. opened bytes.now ≡ Err e) }
{
    let contents = read_contents(bytes)?;
    let arrivals = arrival_list(bytes, contents.count);
    if uses_exactly(arrivals, contents.counts.threads, &contents.rows) {
        Ok(contents)
    } else {
        Err(Refusal::ArrivalList)
    }
}

impl<'a> Bundle<'a> {
    /// Opens the bytes as a bundle.
    ///
    /// Refuses a short header, a number of threads or addresses or records out of range, a broken layout, and an arrival list that does not use each log exactly, tested in this order.
    pub fn open(bytes: &'a [u8]) -> Result<Bundle<'a>, Refusal>
        ensures answer { MatchResult result (λ f. opened bytes.now ≡ Ok (feed_of.meaning f)) (λ e. opened bytes.now ≡ Err e) }
        ensures in_order { IfOk result (λ f. InOrder bytes.now (feed_of.meaning f)) }
        ensures bottom_of_its_pile { IfOk result (λ f. (feed_of.pile f ≡ bottom (feed_of.meaning f)) × feed_of.unread f) }
    {
        let contents = test_bundle(bytes)?;
        let arrivals = arrival_list(bytes, contents.count);
        Ok(Bundle {
            counts: contents.counts,
            logs: unread_logs(bytes, &contents.rows),
            arrivals,
            at: 0,
        })
    }

    /// How many records the bundle has, well made or not.
    pub fn count(&self) -> usize
        ensures { result ≡ length self.now.arrivals.now }
    {
        self.arrivals.len()
    }
}
