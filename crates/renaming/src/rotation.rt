//! A renaming that turns the numbers below its count round by so many places.

ghost use Rattle.std.specs.Prelude.{◌≡◌, ◌-◌, ◌%◌, ◌<◌, ◌≤◌, IfOk, if◌then◌else◌, Some, None};
ghost use Rattle.std.specs.Result.{result_err};
ghost use Rattle.feed.specs.declared.refusals.Refusal.TheVariants.{BadRenaming};
ghost use Rattle.renaming.specs.Counts.{allowed};
ghost use Rattle.renaming.specs.Rotations.{rotated, rotation_laws};

use crate::traits::Renaming;
use feed::Refusal;

/// The rotation of the numbers below `count` by `by` places.
#[derive(Clone, Copy)]
pub struct Rotation {
    count: u8,
    by: u8,
    ghost some: { 0 < count },
    ghost few: { count ≤ 64 },
}

impl Rotation {
    ghost use Rattle.renaming.specs.Made.{Rotates};

    /// The rotation of `count` numbers by `by` places, which may be more than `count`.
    ///
    /// Refuses a count that is not 1 to 64.
    pub fn new(count: u8, by: u8) -> Result<Rotation, Refusal>
        ensures refusal { result_err result ≡ (if allowed count then None else Some BadRenaming) }
        ensures rotation { IfOk result (λ x. Rotates x count by) }
    {
        match count {
            1..=64 => Ok(Rotation { count, by }),
            _ => Err(Refusal::BadRenaming),
        }
    }

    /// Where `n` stands after a turn by so many places; a number that is not below the count stays.
    fn turned(&self, by: u8, n: u8) -> u8
        ensures { result ≡ rotated self.now.count by n }
    {
        if n >= self.count {
            return n;
        }
        ((u16::from(n) + u16::from(by)) % u16::from(self.count)) as u8
    }
}

impl Renaming for Rotation {
    ghost total = { λ s. s.count };

    ghost onward = { λ s. rotated s.count s.by };

    ghost backward = { λ s. rotated s.count (s.count - s.by % s.count) };

    ghost laws = { λ s. rotation_laws s.count s.by s.some };

    fn count(&self) -> u8 {
        self.count
    }

    fn there(&self, n: u8) -> u8 {
        self.turned(self.by, n)
    }

    fn back(&self, n: u8) -> u8 {
        self.turned(self.count - self.by % self.count, n)
    }
}
