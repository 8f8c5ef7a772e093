//! The limits of a state file.
ghost use Rattle.std.specs.Prelude.{◌≡◌};
ghost use Rattle.state_items.specs.Limits.{most_count};

/// The greatest count of a state file: of events, of rounds, of a session, of a connection, of a client's receipts; so no number
/// comes to its end in a run that goes on from it (own).
pub const MOST_COUNT: u64 = 4_294_967_296;

/// The constant is the number of the definition.
pub fn state_numbers()
    ensures count { MOST_COUNT ≡ most_count }
{}
