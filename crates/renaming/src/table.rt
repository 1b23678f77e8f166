//! A renaming by a table of new names.

ghost use Rattle.std.specs.Prelude.{◌≡◌, ◌≤◌, true, false, [], ◌∷◌, length, take, IfOk, if◌then◌else◌, Some, None, Ok, Err};
ghost use Rattle.std.specs.Result.{result_err};
ghost use Rattle.feed.specs.declared.refusals.Refusal.TheVariants.{BadRenaming};
ghost use Rattle.renaming.specs.Tables.{is_table, name_of, named_by, IsNamed};
ghost use Rattle.renaming.specs.TableLaws.{table_laws};

use crate::entries::{filled, is_table, place_of};
use crate::traits::Renaming;
use feed::Refusal;

/// The new names of the numbers below `count`, in their order: each is below `count`, and none stands twice.
#[derive(Clone, Copy)]
pub struct Table {
    // An array with its length beside it, since a table is copied and nothing is allocated.
    entries: [u8; 64],
    count: u8,
    ghost whole: { length entries ≡ 64 },
    ghost few: { count ≤ 64 },
    ghost table: { is_table (take count entries) ≡ true },
}

impl Table {
    ghost use Rattle.renaming.specs.Made.{HasEntries};

    /// The table of one number, which keeps its name.
    pub fn new() -> Table
        ensures { HasEntries result (0 ∷ []) }
    {
        Table {
            entries: [0; 64],
            count: 1,
        }
    }

    /// The table of these entries.
    ///
    /// Refuses entries that make none.
    // No `TryFrom`, which anyone could call: entries are taken by `set` alone.
    fn of(entries: &[u8]) -> Result<Table, Refusal>
        ensures refusal { result_err result ≡ (if is_table entries.now then None else Some BadRenaming) }
        ensures table { IfOk result (λ x. HasEntries x entries.now) }
    {
        if !is_table(entries) {
            return Err(Refusal::BadRenaming);
        }
        Ok(Table {
            entries: filled(entries),
            count: entries.len() as u8,
        })
    }

    /// Takes these entries in place of its own: the new names of 0, 1, 2 and so on.
    ///
    /// Refuses fewer than 1 or more than 64, a number that stands twice, and one that is not below their number; the table is then as before.
    pub fn set(&mut self, entries: &[u8]) -> Result<(), Refusal>
        ensures answer { result ≡ (if is_table entries.now then Ok tt else Err BadRenaming) }
        ensures taken { is_table entries.now ≡ true → HasEntries self.new entries.now }
        ensures kept { is_table entries.now ≡ false → self.new ≡ self.old }
    {
        *self = Table::of(entries)?;
        Ok(())
    }

    /// The entries that count.
    fn names(&self) -> &[u8]
        ensures { result.now ≡ take self.now.count self.now.entries }
    {
        &self.entries[..usize::from(self.count)]
    }

    /// The number whose new name is `n`, or nothing where `n` keeps its name.
    fn named(&self, n: u8) -> Option<usize>
        ensures { IsNamed (take self.now.count self.now.entries) n result }
    {
        place_of(self.names(), n)
    }
}

impl Renaming for Table {
    ghost total = { λ s. s.count };

    ghost onward = { λ s. name_of (take s.count s.entries) };

    ghost backward = { λ s. named_by (take s.count s.entries) };

    ghost laws = { λ s. table_laws s.entries s.count s.whole s.few s.table };

    fn count(&self) -> u8 {
        self.count
    }

    fn there(&self, n: u8) -> u8 {
        self.names().get(usize::from(n)).copied().unwrap_or(n)
    }

    fn back(&self, n: u8) -> u8 {
        // No entry names a number that is not below the count, so none is looked at.
        if n >= self.count {
            return n;
        }
        self.named(n).map_or(n, |place| place as u8)
    }
}
