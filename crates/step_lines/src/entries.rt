//! The entries that are new at a broker.
ghost use Rattle.std.specs.Prelude.{◌≡◌, ◌≤◌, ◌++◌, drop, length, OnErr, OnOk};
ghost use Rattle.geo_base.specs.Report.{entry_lines};
ghost use Rattle.step_lines.specs.Changes.{stood_lines};

use crate::heads::Indent;
use broker::Broker;
use geo_base::{Blob, EntryStore, Memory};
use report_lines::add_entry;

/// The entries from an index on.
pub(crate) fn add_new_entries(
    lines: &mut Blob,
    indent: Indent,
    broker: &Broker,
    first: usize,
) -> Result<(), Memory>
    ensures { OnOk result (lines.new ≡ lines.old ++ stood_lines indent (entry_lines broker.now.site.clusters broker.now.broker.ledgers first (drop first broker.now.broker.entries))) }
{
    let store = broker.store();
    let clusters = broker.site().clusters();
    for index in first..store.len() {
        indent.add(lines)?;
        add_entry(lines, clusters, store, index)?;
    }
    Ok(())
}
