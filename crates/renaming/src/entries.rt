//! The entries of a table: which make one, and where a number stands among them.

ghost use Rattle.std.specs.Prelude.{◌≡◌, ◌≤◌, length, take, ◌==◌};
ghost use Rattle.std.specs.List.{position};
ghost use Rattle.renaming.specs.Tables.{each_once_below, is_table};

/// The first place at which `n` stands, if it does.
pub fn place_of(entries: &[u8], n: u8) -> Option<usize>
    ensures { result ≡ position (λ x. x == n) entries.now }
{
    entries.iter().position(|entry| *entry == n)
}

/// Whether each entry is below the number of entries, and none stands twice.
fn each_once(entries: &[u8]) -> bool
    ensures { result ≡ each_once_below (length entries.now) entries.now }
{
    let mut left = entries;
    while let [entry, behind @ ..] = left {
        if usize::from(*entry) >= entries.len() || behind.contains(entry) {
            return false;
        }
        left = behind;
    }
    true
}

/// Whether the entries make a table: there are 1 to 64, each is below their number, and none stands twice.
pub fn is_table(entries: &[u8]) -> bool
    ensures { result ≡ is_table entries.now }
{
    (1..=64).contains(&entries.len()) && each_once(entries)
}

/// The entries at the front of an array.
pub fn filled(entries: &[u8]) -> [u8; 64]
    requires { length entries.now ≤ 64 }
    ensures { take (length entries.now) result ≡ entries.now }
{
    let mut all = [0; 64];
    all[..entries.len()].copy_from_slice(entries);
    all
}
