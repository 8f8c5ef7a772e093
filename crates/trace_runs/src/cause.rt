//! Why an event acknowledges.
ghost use Rattle.std.specs.Prelude.{◌≡◌, ◌<◌, length};
ghost use Rattle.geo_base.specs.Broker.{replicator_at};
ghost use Rattle.geo_base.specs.Replicator.{index_to_read};
ghost use Rattle.geo_base.specs.Traced.{cause_of, position_read};
ghost use Rattle.trace_runs.specs.Writes.{ReadsWithin};

use broker::Broker;
use geo_base::{Cause, EntryStore, Event, Position};
use topic_store::or_first;

/// The cause of what an event of a broker acknowledges: a marker that is offered, an update that is read, or else a client.
pub(crate) fn cause_of(node: &Broker, event: &Event) -> Cause
    requires { ReadsWithin node.now.site event.now }
    ensures { result ≡ cause_of node.now.broker event.now }
{
    match *event {
        Event::Offer { .. } => Cause::Marker,
        Event::Read { target, .. } => Cause::Update(position_read(node, target)),
        _ => Cause::Client,
    }
}

/// The position of the entry that the replicator to a cluster reads next; that of the first where it reads none.
fn position_read(node: &Broker, remote: u32) -> Position
    requires { remote < length node.now.site.clusters }
    ensures { result ≡ position_read node.now.broker (index_to_read (replicator_at node.now.broker remote).state (replicator_at node.now.broker remote) (length node.now.broker.entries)) }
{
    let row = node.replicator(remote);
    match row.replicator().index_to_read(node.store(), row.cursor()) {
        None => or_first(None),
        Some(index) => or_first(node.store().position_of(index as usize)),
    }
}
