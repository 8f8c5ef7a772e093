//! Where an entry stands in its topic.
ghost use Rattle.std.specs.Prelude.{◌≡◌};
ghost use Rattle.geo_base.specs.Position.{later_position, position_lt};

/// A ledger's number and an entry's number in it, both from 0 (MessageIdData in PulsarApi.proto).
#[derive(Clone, Copy, Debug, Drop, PartialEq, Eq)]
pub struct Position {
    pub ledger: u64,
    pub entry: u64,
}

impl Position {
    /// Whether this one comes before another: by ledger, then by entry.
    pub fn is_before(&self, other: &Position) -> bool
        ensures { result ≡ position_lt self.now other.now }
    {
        self.ledger < other.ledger || self.ledger == other.ledger && self.entry < other.entry
    }

    /// The later of two.
    pub fn later(self, other: Position) -> Position
        ensures { result ≡ later_position self other }
    {
        if self.is_before(&other) { other } else { self }
    }
}
