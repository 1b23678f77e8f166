//! The settings of the relays that a trace is sent through.

ghost use Rattle.std.specs.Prelude.{◌≡◌, ◌-◌, true, false, ◌&&◌, [], ◌∷◌, drop, is_ok, IfOk};
ghost use Rattle.renaming.specs.Counts.{allowed};
ghost use Rattle.renaming.specs.Made.{Rotates, HasEntries};
ghost use Rattle.renaming.specs.Tables.{is_table};
ghost use Rattle.sites.specs.Settings.{down_from};

use feed::Refusal;
use record::Counts;
use relay::{AddressNames, ThreadNames};
use renaming::{Rotation, Table};

/// As many threads as there can be, the last first.
const DOWN: [u8; 8] = [7, 6, 5, 4, 3, 2, 1, 0];

/// The renamings of the piles.
#[derive(Clone, Copy)]
pub struct Settings {
    /// Every thread by one further.
    pub turn: ThreadNames<Rotation>,
    /// Every address by five further.
    pub shift: AddressNames<Rotation>,
    /// A rotation for more threads than there can be.
    pub wide: ThreadNames<Rotation>,
    /// The threads the other way round.
    pub names: ThreadNames<Table>,
}

/// The table that turns so many numbers the other way round, if there are 1 to 8.
fn backwards(count: u8) -> Table
    ensures turned { is_table (drop (8 - count) (down_from 8)) ≡ true → HasEntries result (drop (8 - count) (down_from 8)) }
    ensures else_first { is_table (drop (8 - count) (down_from 8)) ≡ false → HasEntries result (0 ∷ []) }
{
    let mut table = Table::new();
    let (_, names) = DOWN.split_at(8usize.saturating_sub(usize::from(count)));
    let _ = table.set(names);
    table
}

impl Settings {
    /// The settings for a trace of these counts.
    ///
    /// Refuses counts that are not 1 to 64.
    // No `TryFrom`: the settings are made for the counts, and not out of them.
    pub fn of(counts: Counts) -> Result<Settings, Refusal>
        ensures test { is_ok result ≡ (allowed counts.threads && allowed counts.addresses) }
        ensures settings { IfOk result (λ s. Rotates s.turn.0 counts.threads 1 × Rotates s.shift.0 counts.addresses 5 × Rotates s.wide.0 64 1) }
        ensures names { IfOk result (λ s. (is_table (drop (8 - counts.threads) (down_from 8)) ≡ true → HasEntries s.names.0 (drop (8 - counts.threads) (down_from 8)))) }
    {
        Ok(Settings {
            turn: ThreadNames(Rotation::new(counts.threads, 1)?),
            shift: AddressNames(Rotation::new(counts.addresses, 5)?),
            wide: ThreadNames(Rotation::new(64, 1)?),
            names: ThreadNames(backwards(counts.threads)),
        })
    }
}
