//! Why a step takes no record.

ghost use Rattle.std.specs.Prelude.{◌≡◌};
ghost use Rattle.judging.specs.Faults.{fault_outcome};
ghost use Rattle.judging.specs.declared.faults.Fault.TheVariants.{Damaged};

use model::{Outcome, UnlawfulRecord};
use record::Damage;

/// Why no record is taken, though the trace has not ended clean.
#[derive(Clone, Copy, PartialEq, Eq, Debug)]
pub enum Fault {
    /// The feed ends damaged.
    Damaged(Damage),
    /// The next record is unlawful.
    Unlawful(UnlawfulRecord),
}

impl From<Damage> for Fault {
    ghost from_gives = { λ d r. r ≡ Damaged d };

    fn from(damage: Damage) -> Fault {
        Fault::Damaged(damage)
    }
}

impl From<Fault> for Outcome {
    ghost from_gives = { λ f r. r ≡ fault_outcome f };

    fn from(fault: Fault) -> Outcome {
        match fault {
            Fault::Damaged(damage) => Outcome::Damaged(damage),
            Fault::Unlawful(found) => Outcome::Unlawful(found),
        }
    }
}
