//! The measures of the subscriptions that are replicated at the cluster that goes.
ghost use Rattle.std.specs.Prelude.{◌≡◌, ◌<◌, ◌++◌, ◌∷◌, ◌&&◌, List, ℕ, [], None, not, IfOk, MatchOption, OnOk, codes, length, slice_get, slice_index_or, string_bytes};
ghost use Rattle.std.specs.Option.{option_copied};
ghost use Rattle.geo_base.specs.declared.entry.Entry.{Entry};
ghost use Rattle.geo_base.specs.Broker.{Broker as Machine, sub_named};
ghost use Rattle.geo_base.specs.Cursor.{has};
ghost use Rattle.geo_base.specs.Entry.{is_data};
ghost use Rattle.geo_base.specs.Report.{with_line_feeds, words};
ghost use Rattle.loss_laws.specs.Lost.{again, backlog_at, cursor_at, has_place, place_of};
ghost use Rattle.loss_laws.specs.LostLines.{again_label, backlog_label, lines_of_each, named_lines, sub_lines, untold_lines};
ghost use Rattle.world_measures.specs.Named.{IsNamed};
ghost use Rattle.world_measures.specs.Places.{Tells};
ghost use Rattle.world_measures.specs.Subs.{indexes_of};

use crate::gone::Gone;
use crate::missing::is_message;
use crate::named::{Named, add_named, add_number_line};
use crate::places::PlaceTable;
use crate::told::untold;
use broker::Broker;
use broker_subs::Sub;
use cursor_acks::Cursor;
use geo_base::{Blob, Entry, EntryStore, Memory};
use std::alloc::Global;

/// Appends, of each subscription that is replicated at a broker's cluster, how many snapshots of that cluster it was never told of.
pub(crate) fn add_untold(
    alloc: Global,
    lines: &mut Blob,
    source: u32,
    broker: &Broker,
) -> Result<(), Memory>
    ensures { OnOk result (lines.new ≡ lines.old ++ with_line_feeds (lines_of_each (untold_lines source broker.now.broker) 0 broker.now.broker.subs)) }
{
    for place in 0..broker.subs() {
        match broker.sub(place) {
            Some(sub) => add_untold_of(alloc, lines, source, broker, sub)?,
            None => unreachable!(),
        }
    }
    Ok(())
}

fn add_untold_of(
    alloc: Global,
    lines: &mut Blob,
    source: u32,
    broker: &Broker,
    sub: &Sub,
) -> Result<(), Memory>
    ensures { (place : ℕ) → OnOk result (lines.new ≡ lines.old ++ with_line_feeds (untold_lines source broker.now.broker place sub.now.sub)) }
{
    if !sub.is_replicated() {
        return Ok(());
    }
    let label = untold_label(alloc, sub.name().as_str())?;
    add_number_line(lines, label, untold(source, broker, sub))
}

fn untold_label(alloc: Global, sub: &str) -> Result<String, Memory>
    ensures { IfOk result (λ label. string_bytes label ≡ words (codes "untold" ∷ codes "sub" ∷ sub.now ∷ [])) }
{
    Ok(format!(in alloc; "untold sub {sub}")?)
}

/// Appends, of each subscription that is replicated at a broker's cluster, what would come again at another one and its backlog there; the
/// table is that of the topic at the first.
pub(crate) fn add_subs_at(
    alloc: Global,
    lines: &mut Blob,
    gone: Gone,
    broker: &Broker,
    there: &Broker,
    table: &PlaceTable,
) -> Result<(), Memory>
    requires { there.now.site.own < length there.now.site.clusters }
    ensures { Tells table.now broker.now.broker.entries → OnOk result (lines.new ≡ lines.old ++ with_line_feeds (lines_of_each
        (sub_lines gone.with_names there.now.site.clusters broker.now.broker there.now.broker (slice_index_or there.now.site.clusters there.now.site.own [])) 0 broker.now.broker.subs)) }
{
    for place in 0..broker.subs() {
        match broker.sub(place) {
            Some(sub) => add_sub_at(alloc, lines, gone, sub, there, table)?,
            None => unreachable!(),
        }
    }
    Ok(())
}

fn add_sub_at(
    alloc: Global,
    lines: &mut Blob,
    gone: Gone,
    sub: &Sub,
    there: &Broker,
    table: &PlaceTable,
) -> Result<(), Memory>
    requires { there.now.site.own < length there.now.site.clusters }
    ensures { (b : Machine) (place : ℕ) → Tells table.now b.entries → OnOk result (lines.new ≡ lines.old ++ with_line_feeds
        (sub_lines gone.with_names there.now.site.clusters b there.now.broker (slice_index_or there.now.site.clusters there.now.site.own []) place sub.now.sub)) }
{
    if !sub.is_replicated() {
        return Ok(());
    }
    add_again(alloc, lines, gone, sub, there, table)?;
    let label = backlog_label(alloc, sub.name().as_str(), name_of(there))?;
    add_number_line(
        lines,
        label,
        backlog_at(there, sub.name().as_str().as_bytes()),
    )
}

/// The name of a broker's cluster.
fn name_of(broker: &Broker) -> &str
    requires { broker.now.site.own < length broker.now.site.clusters }
    ensures { result.now ≡ slice_index_or broker.entry.now.site.clusters broker.entry.now.site.own [] }
{
    broker.site().clusters()[broker.cluster() as usize].as_str()
}

fn backlog_label(alloc: Global, sub: &str, cluster: &str) -> Result<String, Memory>
    ensures { IfOk result (λ label. string_bytes label ≡ backlog_label sub.now cluster.now) }
{
    Ok(format!(in alloc; "backlog sub {sub} at {cluster}")?)
}

fn again_label(alloc: Global, sub: &str, cluster: &str) -> Result<String, Memory>
    ensures { IfOk result (λ label. string_bytes label ≡ again_label sub.now cluster.now) }
{
    Ok(format!(in alloc; "again sub {sub} at {cluster}")?)
}

fn add_again(
    alloc: Global,
    lines: &mut Blob,
    gone: Gone,
    sub: &Sub,
    there: &Broker,
    table: &PlaceTable,
) -> Result<(), Memory>
    requires { there.now.site.own < length there.now.site.clusters }
    ensures { (b : Machine) → Tells table.now b.entries → OnOk result (lines.new ≡ lines.old ++ with_line_feeds (named_lines gone.with_names there.now.site.clusters
        (again_label sub.now.sub.name (slice_index_or there.now.site.clusters there.now.site.own [])) (again b sub.now.sub there.now.broker))) }
{
    let named = again(alloc, gone, sub, there, table)?;
    match again_label(alloc, sub.name().as_str(), name_of(there)) {
        Ok(label) => add_named(lines, label, named),
        Err(memory) => {
            drop(named);
            Err(memory)
        }
    }
}

/// What would come again of a subscription at another cluster.
fn again(
    alloc: Global,
    gone: Gone,
    sub: &Sub,
    there: &Broker,
    table: &PlaceTable,
) -> Result<Named, Memory>
    ensures { IfOk result (λ named. (b : Machine) → Tells table.now b.entries
        → IsNamed gone.with_names there.now.site.clusters (again b sub.now.sub there.now.broker) named) }
{
    let mut named = Named::none(alloc, gone.with_names);
    let cursor = cursor_at(there, sub.name().as_str().as_bytes());
    let store = there.store();
    for index in 0..store.len() {
        match store.get(index) {
            Some(entry) => {
                let is_again = comes_again(alloc, sub.cursor(), cursor, table, index, entry)?;
                named.add_if(is_again, there.site().clusters(), entry)?;
            }
            None => unreachable!(),
        }
    }
    Ok(named)
}

/// Whether an entry at an index is a message that one cursor lacks and another has, at the place that a table tells.
fn comes_again(
    alloc: Global,
    cursor: &Cursor,
    there: Option<&Cursor>,
    table: &PlaceTable,
    index: usize,
    entry: &Entry,
) -> Result<bool, Memory>
    ensures { IfOk result (λ again. (es : List Entry) → Tells table.now es
        → again ≡ (is_data entry.now.content && not (has (indexes_of (option_copied there.entry)) index) && has_place cursor.now.indexes (place_of es entry.now.ident))) }
{
    if !is_message(entry) || is_acked(there, index as u64) {
        return Ok(false);
    }
    match table.place_of(alloc, &entry.ident)? {
        Some(place) => Ok(cursor.is_acked(place as u64)),
        None => Ok(false),
    }
}

/// Whether a cursor has an index; none has nothing.
fn is_acked(cursor: Option<&Cursor>, index: u64) -> bool
    ensures { result ≡ has (indexes_of (option_copied cursor.entry)) index }
{
    match cursor {
        Some(cursor) => cursor.is_acked(index),
        None => false,
    }
}

/// The cursor of a subscription at a broker; None where it is not there.
fn cursor_at<'a>(broker: &'a Broker, name: &[u8]) -> Option<&'a Cursor>
    ensures { indexes_of (option_copied result) ≡ cursor_at broker.entry.now.broker name.now }
{
    let place = place_named(broker, name)?;
    match broker.sub(place) {
        Some(sub) => Some(sub.cursor()),
        None => None,
    }
}

/// How many messages a subscription lacks at a broker, all where it is not there.
fn backlog_at(broker: &Broker, name: &[u8]) -> u64
    ensures { result ≡ backlog_at broker.now.broker name.now }
{
    match place_named(broker, name) {
        Some(place) => broker.backlog(place),
        None => broker.store().messages_before(broker.store().len()),
    }
}

/// The place of the subscription of a name; None exactly where there is none.
fn place_named(broker: &Broker, name: &[u8]) -> Option<usize>
    ensures { MatchOption result (sub_named broker.now.broker.subs name.now ≡ None)
        (λ k. (k < length broker.now.broker.subs) × (sub_named broker.now.broker.subs name.now ≡ slice_get broker.now.broker.subs k)) }
{
    for place in 0..broker.subs() {
        match broker.sub(place) {
            Some(sub) => {
                if sub.name().as_str().as_bytes() == name {
                    return Some(place);
                }
            }
            None => unreachable!(),
        }
    }
    None
}
