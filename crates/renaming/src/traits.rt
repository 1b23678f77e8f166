//! What a renaming promises.

ghost use Rattle.std.specs.Prelude.{◌≡◌, ℕ};
ghost use Rattle.model.specs.Renamed.{Renaming as Renames};

/// Other names for the numbers below a count: each goes to one of them, no two to the same, and back again.
pub trait Renaming {
    /// How many numbers have another name.
    ghost total: { Self → ℕ };

    /// The new name of each.
    ghost onward: { Self → ℕ → ℕ };

    /// The number that has this new name.
    ghost backward: { Self → ℕ → ℕ };

    /// Both ways stay below the count, and each undoes the other.
    ghost laws: { (s : Self) → Renames (total s) (onward s) (backward s) };

    /// How many numbers have another name.
    fn count(&self) -> u8
        ensures { result ≡ total self.now };

    /// The new name of `n`.
    fn there(&self, n: u8) -> u8
        ensures { result ≡ onward self.now n };

    /// The number whose new name is `n`.
    fn back(&self, n: u8) -> u8
        ensures { result ≡ backward self.now n };
}

/// A renaming that is lent renames as its owner does.
impl<R: Renaming> Renaming for &R {
    ghost total = { λ s. R.Renaming.total s.now };

    ghost onward = { λ s. R.Renaming.onward s.now };

    ghost backward = { λ s. R.Renaming.backward s.now };

    ghost laws = { λ s. R.Renaming.laws s.now };

    fn count(&self) -> u8 {
        (**self).count()
    }

    fn there(&self, n: u8) -> u8 {
        (**self).there(n)
    }

    fn back(&self, n: u8) -> u8 {
        (**self).back(n)
    }
}
