//! What relays show.

ghost use Rattle.std.specs.Prelude.{◌≡◌, if◌then◌else◌, Some, None};
ghost use Rattle.feed.specs.declared.refusals.Refusal.TheVariants.{BadRenaming};
ghost use Rattle.feed.specs.Pile.{serves, shown_number};

use feed::Refusal;

/// The refusal of a renaming for so many numbers, or nothing where it is for 1 to 64, and for as many as there are.
pub(crate) fn renaming_shows(count: u8, numbers: u8) -> Option<Refusal>
    ensures { result ≡ (if serves count numbers then None else Some BadRenaming) }
{
    if (1..=64).contains(&count) && count == numbers {
        None
    } else {
        Some(Refusal::BadRenaming)
    }
}

/// The number that a relay shows: 0, or that of the refusal.
pub fn shown_number(shows: Option<Refusal>) -> u8
    ensures { result ≡ shown_number shows }
{
    shows.map_or(0, Refusal::number)
}
