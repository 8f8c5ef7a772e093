//! A trace in the telling.
use crate::snapshot_tables::SnapshotTables;
use geo_base::Blob;

/// The lines of a trace so far, and what is known of the snapshots by which the next ones are told.
#[derive(Drop)]
pub struct Telling {
    pub text: Blob,
    pub snapshots: SnapshotTables,
}
