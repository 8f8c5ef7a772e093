//! Positions.
ghost use Rattle.std.specs.Prelude.{◌≡◌};
ghost use Rattle.geo_base.specs.Topic.{or_first};

use geo_base::Position;

/// The position of a topic's first entry.
const FIRST: Position = Position {
    ledger: 0,
    entry: 0,
};

/// A position, or the first one, where there is none.
pub fn or_first(position: Option<Position>) -> Position
    ensures { result ≡ or_first position }
{
    match position {
        None => FIRST,
        Some(position) => position,
    }
}
