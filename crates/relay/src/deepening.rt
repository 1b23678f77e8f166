//! How many relays damage came through.

ghost use Rattle.std.specs.Prelude.{◌≡◌};
ghost use Rattle.feed.specs.Pile.{deeper as deepened};

use record::Damage;

/// The damage, come through one relay more; the depth stops at 255.
pub fn deeper(damage: Damage) -> Damage
    ensures { result ≡ deepened damage }
{
    Damage {
        depth: damage.depth.saturating_add(1),
        ..damage
    }
}
