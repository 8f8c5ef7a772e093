//! A trace in the making.
ghost use Rattle.std.specs.Prelude.{◌≡◌};

use crate::snapshot_tables::SnapshotTables;
use crate::telling::Telling;
use broker_state::Plan;
use geo_base::Blob;
use std::alloc::Global;

/// The lines so far with what is known of snapshots, and a plan, in which events are foreseen one after another: its queues keep their
/// memory.
#[derive(Drop)]
pub struct Trace {
    pub(crate) telling: Telling,
    pub(crate) plan: Plan,
}

impl Trace {
    /// A trace after a text, which goes before its lines. It takes no memory.
    pub fn behind(alloc: Global, text: Blob) -> Trace
        ensures { result.telling.text ≡ text }
    {
        Trace {
            telling: Telling {
                text,
                snapshots: SnapshotTables::new(alloc),
            },
            plan: Plan::new(alloc),
        }
    }

    /// The text.
    pub fn into_text(self) -> Blob
        ensures { result ≡ self.telling.text }
    {
        self.telling.text
    }
}
