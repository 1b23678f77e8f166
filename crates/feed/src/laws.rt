//! The laws of relays and piles. Each function does nothing: its contract is a theorem about every relay or pile.

ghost use Rattle.feed.specs.Alike.{RelaysKeepAccounts, PilesKeepAccounts, RelaysStayWellMade};

/// What is alike, up to renaming, to the records below a relay is alike to what the relay delivers; and what it delivers is well made.
pub fn relays_keep_accounts()
    ensures alike { RelaysKeepAccounts }
    ensures well_made { RelaysStayWellMade }
{}

/// What a pile delivers is alike, up to renaming, to the bottom's records.
pub fn piles_keep_accounts()
    ensures { PilesKeepAccounts }
{}
