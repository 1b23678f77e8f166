//! Whether two sites come to the same.

ghost use Rattle.std.specs.Prelude.{◌≡◌};
ghost use Rattle.driving.specs.Agreeing.{agreeing, SitesAgree};

use model::Outcome;

/// Whether two outcomes are of one kind, and if damaged, of one cause and place.
pub fn agree(a: Outcome, b: Outcome) -> bool
    ensures { result ≡ agreeing a b }
{
    match (a, b) {
        (Outcome::Compliant, Outcome::Compliant) => true,
        (Outcome::Unlawful(_), Outcome::Unlawful(_)) => true,
        (Outcome::Damaged(c), Outcome::Damaged(d)) => { c.cause == d.cause && c.place == d.place }
        _ => false,
    }
}

/// Outcomes told over one bottom agree, whatever relays lie between.
pub fn sites_agree()
    ensures { SitesAgree }
{}
