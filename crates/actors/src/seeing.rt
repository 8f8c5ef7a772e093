//! What an actor looks at in a log before it tries an event.
ghost use Rattle.std.specs.Prelude.{◌≡◌, true, false, MatchOption};
ghost use Rattle.actors.specs.Tries.{cluster_of, has_replicator, is_broker, is_client, is_closed, is_connected, replicator_to, waits};
ghost use Rattle.replicator.specs.Sending.{sending_of};

use crate::Link;
use geo_base::ReplicatorState;
use node_log::{NodeLog, NodeState};
use replicator::Replicator;
use wire_ends::End;

/// Whether a log is that of the broker of a topic at a cluster.
#[tactic(auto, using(crate::proofs::SeenNodes::broker_here, crate::proofs::SeenNodes::client_elsewhere))]
pub(crate) fn is_broker<E: End>(log: &NodeLog<E>, topic: u32, cluster: u32) -> bool
    ensures { result ≡ is_broker log.now.node topic cluster }
{
    match log.state() {
        NodeState::Broker(broker) => broker.topic() == topic && broker.cluster() == cluster,
        NodeState::Client(_) => false,
    }
}

/// Whether it is that of a client.
#[tactic(auto, using(crate::proofs::SeenNodes::client_here, crate::proofs::SeenNodes::broker_elsewhere))]
pub(crate) fn is_client<E: End>(log: &NodeLog<E>, client: u32) -> bool
    ensures { result ≡ is_client log.now.node client }
{
    match log.state() {
        NodeState::Broker(_) => false,
        NodeState::Client(state) => state.number == client,
    }
}

/// Whether its client is connected; a broker is not.
#[tactic(auto, using(crate::proofs::SeenNodes::client_connected, crate::proofs::SeenNodes::broker_unconnected))]
pub(crate) fn is_connected<E: End>(log: &NodeLog<E>) -> bool
    ensures { result ≡ is_connected log.now.state }
{
    match log.state() {
        NodeState::Broker(_) => false,
        NodeState::Client(state) => state.client.view().is_connected,
    }
}

/// The cluster of a broker's log, where its broker is of a topic; `None` exactly where it is not.
#[tactic(auto, using(crate::proofs::SeenNodes::broker_cluster, crate::proofs::SeenNodes::client_cluster))]
pub(crate) fn cluster_of<E: End>(log: &NodeLog<E>, topic: u32) -> Option<u32>
    ensures { result ≡ cluster_of log.now.node topic }
{
    match log.state() {
        NodeState::Broker(broker) => {
            if broker.topic() == topic {
                Some(broker.cluster())
            } else {
                None
            }
        }
        NodeState::Client(_) => None,
    }
}

/// The replicator of a link in the log of its source; `None` exactly where the log is of another node, or the target is no cluster.
#[tactic(auto, using(crate::proofs::SeenNodes::replicator_here, crate::proofs::SeenNodes::replicator_gone, crate::proofs::SeenNodes::replicator_away, crate::proofs::SeenNodes::replicator_is, crate::proofs::SeenNodes::site_clusters))]
pub(crate) fn replicator_of<E: End>(log: &NodeLog<E>, link: Link) -> Option<&Replicator>
    ensures { MatchOption result (has_replicator log.now link ≡ false)
        (λ s. (has_replicator log.now link ≡ true) × (s.now.sending ≡ sending_of (replicator_to log.now.state link.target))) }
{
    let clusters = log.scenario().clusters().len();
    if !is_broker(log, link.topic, link.source) || link.target as usize >= clusters {
        return None;
    }
    match log.state() {
        NodeState::Broker(broker) => Some(broker.replicator(link.target).replicator()),
        NodeState::Client(_) => None,
    }
}

/// Whether a replicator has no session.
pub(crate) fn is_closed(replicator: &Replicator) -> bool
    ensures { result ≡ is_closed replicator.now.sending.state }
{
    replicator.state() == ReplicatorState::Closed
}

/// Whether a replicator waits: its session is not opened yet, or entries await their receipts.
pub(crate) fn waits(replicator: &Replicator) -> bool
    ensures { result ≡ waits replicator.now.sending.state replicator.now.sending.pending }
{
    replicator.state() == ReplicatorState::Opening || replicator.pending_len() > 0
}
