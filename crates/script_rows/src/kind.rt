//! The kinds of line.
ghost use Rattle.std.specs.Prelude.{◌≡◌};
ghost use Rattle.script_rows.specs.Known.{schedules};
ghost use Rattle.script_rows.specs.Rows.{stage_of};

use crate::act_kind::ActKind;
use crate::event_kind::EventKind;
use crate::line_kind::LineKind;
use crate::progress::Stage;

/// The kind of a line.
#[derive(Clone, Copy, Drop, PartialEq, Eq)]
pub enum Kind {
    /// a line of declarations, `settle` or `stop`
    Other(LineKind),
    /// `do C` and a line of that client
    Do(ActKind),
    /// an event
    Event(EventKind),
    /// `halt K` and the event that is halted
    Halt(EventKind),
}

impl Kind {
    /// The part of a script that it stands in.
    pub fn stage(self) -> Stage
        ensures { result ≡ stage_of self }
    {
        match self {
            Kind::Other(LineKind::Geo) => Stage::Geo,
            Kind::Other(LineKind::Ledger | LineKind::Chance) => Stage::Setting,
            Kind::Other(LineKind::Cluster) => Stage::Cluster,
            Kind::Other(LineKind::Topic) => Stage::Topic,
            Kind::Other(LineKind::Client) => Stage::Client,
            Kind::Do(_) => Stage::Do,
            Kind::Other(LineKind::Settle | LineKind::Stop) | Kind::Event(_) | Kind::Halt(_) =>
                Stage::Event,
        }
    }

    /// Whether its lines schedule a step.
    pub fn schedules(self) -> bool
        ensures { result ≡ schedules self }
    {
        matches!(
            self,
            Kind::Other(LineKind::Settle | LineKind::Stop) | Kind::Event(_) | Kind::Halt(_)
        )
    }
}
