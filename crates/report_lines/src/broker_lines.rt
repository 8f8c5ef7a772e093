//! The lines of a broker.
ghost use Rattle.std.specs.Prelude.{◌≡◌, ◌<◌, ◌==◌, ◌++◌, ◌∷◌, [], if◌then◌else◌, length, map, OnOk, OnErr, take};
ghost use Rattle.geo_base.specs.Broker.{replicator_at};
ghost use Rattle.geo_base.specs.Cursor.{mark};
ghost use Rattle.geo_base.specs.Report.{broker_lines, replicator_line, replicator_lines, sub_line, with_line_feeds};
ghost use Rattle.broker_subs.specs.Table.{sub_at};

use crate::{SubShown, add, add_entries, replicator_line, sub_line};
use broker::Broker;
use broker_subs::Sub;
use geo_base::{Blob, Memory};
use std::alloc::Global;

/// Appends the lines of a broker: its topic's entries, its replicators, and its subscriptions. It has a replicator for each cluster, the
/// own one unused.
pub fn add_broker(alloc: Global, lines: &mut Blob, broker: &Broker) -> Result<(), Memory>
    requires { length broker.now.broker.replicators ≡ length broker.now.site.clusters }
    ensures ok { OnOk result (lines.new ≡ lines.old ++ with_line_feeds (broker_lines broker.now.site.clusters broker.now.site.own broker.now.broker)) }
    ensures err { OnErr result (take (length lines.old) lines.new ≡ lines.old) }
{
    add_entries(lines, broker.site().clusters(), broker.store())?;
    add_replicators(alloc, lines, broker)?;
    add_subs(alloc, lines, broker)
}

/// The replicators to the other clusters.
fn add_replicators(alloc: Global, lines: &mut Blob, broker: &Broker) -> Result<(), Memory>
    requires { length broker.now.broker.replicators ≡ length broker.now.site.clusters }
    ensures ok { OnOk result (lines.new ≡ lines.old ++ with_line_feeds (replicator_lines broker.now.site.own 0 broker.now.site.clusters broker.now.broker.replicators)) }
    ensures err { OnErr result (take (length lines.old) lines.new ≡ lines.old) }
{
    let clusters = broker.site().clusters();
    for (number, cluster) in clusters.iter().enumerate() {
        add_replicator(alloc, lines, broker, number as u32, cluster.as_str())?;
    }
    Ok(())
}

/// The replicator to a cluster, unless that is the own one.
fn add_replicator(
    alloc: Global,
    lines: &mut Blob,
    broker: &Broker,
    remote: u32,
    name: &str,
) -> Result<(), Memory>
    requires { remote < length broker.now.site.clusters }
    ensures ok { OnOk result (lines.new ≡ lines.old ++ with_line_feeds (if broker.now.site.own == remote then [] else replicator_line name.now (replicator_at broker.now.broker remote) ∷ [])) }
    ensures err { OnErr result (take (length lines.old) lines.new ≡ lines.old) }
{
    if broker.cluster() == remote {
        return Ok(());
    }
    let row = broker.replicator(remote);
    let replicator = row.replicator();
    let mark = broker.replicator_mark(remote);
    let line = replicator_line(alloc, name, replicator.session(), replicator.state(), mark)?;
    add(lines, line)
}

/// The subscriptions, in order of creation.
fn add_subs(alloc: Global, lines: &mut Blob, broker: &Broker) -> Result<(), Memory>
    ensures ok { OnOk result (lines.new ≡ lines.old ++ with_line_feeds (map (sub_line broker.now.broker) broker.now.broker.subs)) }
    ensures err { OnErr result (take (length lines.old) lines.new ≡ lines.old) }
{
    for place in 0..broker.subs() {
        add_sub(alloc, lines, broker, place)?;
    }
    Ok(())
}

/// The subscription at a place.
fn add_sub(alloc: Global, lines: &mut Blob, broker: &Broker, place: usize) -> Result<(), Memory>
    requires { place < length broker.now.broker.subs }
    ensures ok { OnOk result (lines.new ≡ lines.old ++ (sub_line broker.now.broker (sub_at broker.now.broker.subs place) ++ 10 ∷ [])) }
    ensures err { OnErr result (take (length lines.old) lines.new ≡ lines.old) }
{
    match broker.sub(place) {
        Some(sub) => {
            let line = sub_line(
                alloc,
                sub.name().as_str(),
                &shown(sub, broker.backlog(place)),
            )?;
            add(lines, line)
        }
        None => unreachable!(),
    }
}

/// What is shown of a subscription with so many messages before it.
fn shown(sub: &Sub, backlog: u64) -> SubShown
    ensures { result ≡ record { kind = sub.now.sub.kind; is_replicated = sub.now.sub.replicated; mark = mark sub.now.sub.cursor; backlog = backlog; seeks = sub.now.sub.seeks } }
{
    SubShown {
        kind: sub.kind(),
        is_replicated: sub.is_replicated(),
        mark: sub.cursor().mark_delete(),
        backlog,
        seeks: sub.durable().seeks,
    }
}
