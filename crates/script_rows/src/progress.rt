//! How far a script has come.
ghost use Rattle.std.specs.Prelude.{◌≡◌, find};
ghost use Rattle.script_rows.specs.Judging.{came, kind_breaks, word_rules};
ghost use Rattle.script_rows.specs.Rows.{rank};

use crate::fault::Rule;
use crate::kind::Kind;
use crate::line_kind::LineKind;

/// The parts of a script, which come in this order.
#[derive(Clone, Copy, Drop, PartialEq, Eq)]
pub enum Stage {
    Geo,
    /// `ledger` and `chance`
    Setting,
    Cluster,
    Topic,
    Client,
    Do,
    Event,
}

impl Stage {
    /// Its place in the order.
    pub fn rank(self) -> u8
        ensures { result ≡ rank self }
    {
        match self {
            Stage::Geo => 0,
            Stage::Setting => 1,
            Stage::Cluster => 2,
            Stage::Topic => 3,
            Stage::Client => 4,
            Stage::Do => 5,
            Stage::Event => 6,
        }
    }
}

/// Which kinds of line came: the part of the last one, and whether those came that come once.
#[derive(Clone, Copy, Drop, PartialEq, Eq)]
pub struct Progress {
    pub begun: bool,
    pub last: Stage,
    pub has_ledger: bool,
    pub has_chance: bool,
}

impl Progress {
    /// The lowest rule on the order of lines that a line of a kind breaks.
    pub(crate) fn broken(self, kind: Kind) -> Option<Rule>
        ensures { result ≡ find (kind_breaks self kind) word_rules }
    {
        if kind.stage().rank() < self.last.rank() {
            return Some(Rule::Order);
        }
        if self.came(kind) {
            return Some(Rule::Twice);
        }
        None
    }

    /// Whether a line of a kind that comes once came.
    fn came(self, kind: Kind) -> bool
        ensures { result ≡ came self kind }
    {
        match kind {
            Kind::Other(LineKind::Geo) => self.begun,
            Kind::Other(LineKind::Ledger) => self.has_ledger,
            Kind::Other(LineKind::Chance) => self.has_chance,
            _ => false,
        }
    }
}
