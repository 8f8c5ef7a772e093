//! The snapshots of all topics.
ghost use Rattle.std.specs.Prelude.{◌≡◌, ◌<◌, ℕ, [], length, IfOk, OnOk};
ghost use Rattle.trace_runs.specs.SnapshotTables.{TellsBeginning, table_at};
ghost use Rattle.trace_runs.specs.Told.{told_by};

use crate::snapshot_table::SnapshotTable;
use geo_base::{Entry, EntryStore, Memory, Position};
use std::alloc::Global;
use std::marker::Model;

/// What is known of the snapshots in the topic of each broker, by the broker's number among all.
#[derive(Drop)]
pub struct SnapshotTables {
    tables: Vec<SnapshotTable>,
}

impl Model for SnapshotTables {
    ghost use Rattle.std.specs.Prelude.{List};
    ghost use Rattle.trace_runs.specs.SnapshotTables.{Snapshots};

    ghost Value = { List Snapshots };

    ghost view = { λ t. t.tables.items };
}

impl SnapshotTables {
    /// Nothing is known yet; takes no memory.
    pub fn new(alloc: Global) -> SnapshotTables
        ensures { result ≡ [] }
    {
        SnapshotTables {
            tables: Vec::new(alloc),
        }
    }

    /// Of an update of a cluster, one of so many, which is stored next in its own topic at the broker of a number, the position of the
    /// snapshot that it tells: of that cluster's snapshot markers there with the same positions of other clusters the one with the least
    /// local position, and the first of these. None of any other entry. An `Err` is want of memory, and then the tables still are true.
    pub fn told<S: EntryStore>(
        &mut self,
        alloc: Global,
        broker: usize,
        clusters: u32,
        store: &S,
        entry: &Entry,
    ) -> Result<Option<Position>, Memory>
        requires known { TellsBeginning clusters (table_at self.old broker) (S.entries store.now) }
        ensures told { IfOk result (λ by. by ≡ told_by entry.now.ident.origin clusters (S.ledgers store.now) (S.entries store.now) entry.now entry.now.content) }
        ensures known { TellsBeginning clusters (table_at self.new broker) (S.entries store.now) }
        ensures others { (k : ℕ) → (k ≡ broker → ⊥) → table_at self.new k ≡ table_at self.old k }
    {
        self.reach(alloc, broker)?;
        self.tables[broker].told(alloc, clusters, store, entry)
    }

    /// Has a table of its own for a broker, and for each before it.
    #[tactic(auto, using(crate::proofs::Tables::one_table_more))]
    fn reach(&mut self, alloc: Global, broker: usize) -> Result<(), Memory>
        ensures has { OnOk result (broker < length self.new) }
        ensures same { (k : ℕ) → table_at self.new k ≡ table_at self.old k }
    {
        while self.tables.len() <= broker {
            self.tables.push(SnapshotTable::new(alloc))?;
        }
        Ok(())
    }
}
