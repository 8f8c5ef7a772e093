//! What is missing at another cluster.
ghost use Rattle.std.specs.Prelude.{◌≡◌, ◌<◌, ◌++◌, ℕ, [], IfOk, OnOk, length, slice_index_or, string_bytes};
ghost use Rattle.geo_base.specs.Broker.{Broker as Machine};
ghost use Rattle.geo_base.specs.Entry.{is_data, is_outbound};
ghost use Rattle.geo_base.specs.Report.{with_line_feeds};
ghost use Rattle.loss_laws.specs.Lost.{is_missing, missing};
ghost use Rattle.loss_laws.specs.LostLines.{missing_label, named_lines};
ghost use Rattle.world_measures.specs.Named.{IsNamed};
ghost use Rattle.world_measures.specs.Places.{Tells};

use crate::gone::Gone;
use crate::named::{Named, add_named};
use crate::places::PlaceTable;
use broker::Broker;
use geo_base::{Blob, Content, Entry, EntryStore, Memory};
use std::alloc::Global;

/// Appends what is missing at another cluster, of what a broker's cluster stored first and has for it; the table is that of the topic there.
pub(crate) fn add_missing_at(
    alloc: Global,
    lines: &mut Blob,
    gone: Gone,
    broker: &Broker,
    there: &Broker,
    table: &PlaceTable,
) -> Result<(), Memory>
    requires { there.now.site.own < length there.now.site.clusters }
    ensures { Tells table.now there.now.broker.entries → OnOk result (lines.new ≡ lines.old ++ with_line_feeds (named_lines gone.with_names there.now.site.clusters
        (missing_label (slice_index_or there.now.site.clusters there.now.site.own [])) (missing gone.cluster there.now.site.own broker.now.broker there.now.broker))) }
{
    let named = missing(alloc, gone, broker, there, table)?;
    let cluster = there.site().clusters()[there.cluster() as usize].as_str();
    match missing_label(alloc, cluster) {
        Ok(label) => add_named(lines, label, named),
        Err(memory) => {
            drop(named);
            Err(memory)
        }
    }
}

fn missing_label(alloc: Global, cluster: &str) -> Result<String, Memory>
    ensures { IfOk result (λ label. string_bytes label ≡ missing_label cluster.now) }
{
    Ok(format!(in alloc; "missing at {cluster}")?)
}

fn missing(
    alloc: Global,
    gone: Gone,
    broker: &Broker,
    there: &Broker,
    table: &PlaceTable,
) -> Result<Named, Memory>
    ensures { IfOk result (λ named. Tells table.now there.now.broker.entries
        → IsNamed gone.with_names there.now.site.clusters (missing gone.cluster there.now.site.own broker.now.broker there.now.broker) named) }
{
    let mut named = Named::none(alloc, gone.with_names);
    let store = broker.store();
    for index in 0..store.len() {
        match store.get(index) {
            Some(entry) => {
                let is_missing = is_missing(alloc, gone.cluster, there.cluster(), table, entry)?;
                named.add_if(is_missing, there.site().clusters(), entry)?;
            }
            None => unreachable!(),
        }
    }
    Ok(named)
}

/// Whether an entry is a message that the source stored first, goes to the target, and does not stand there.
fn is_missing(
    alloc: Global,
    source: u32,
    target: u32,
    table: &PlaceTable,
    entry: &Entry,
) -> Result<bool, Memory>
    ensures { IfOk result (λ b. (c : Machine) (i : ℕ) → Tells table.now c.entries → b ≡ is_missing source target c i entry.now) }
{
    if !is_outbound(source, target, entry) || !is_message(entry) {
        return Ok(false);
    }
    Ok(!table.has(alloc, &entry.ident)?)
}

fn is_outbound(source: u32, target: u32, entry: &Entry) -> bool
    ensures { result ≡ is_outbound source target entry.now }
{
    entry.ident.origin == source && entry.to.contains(target)
}

/// Whether an entry is a message, and no marker.
pub(crate) fn is_message(entry: &Entry) -> bool
    ensures { result ≡ is_data entry.now.content }
{
    matches!(entry.content, Content::Data)
}
