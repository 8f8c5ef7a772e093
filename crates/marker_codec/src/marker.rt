//! Markers as values.

ghost use Rattle.std.specs.Prelude.{◌≡◌};
ghost use Rattle.marker_codec.specs.Kinds.{marker_kind};

use crate::kind::MarkerKind;
use geo_base::{Position, Sequence, Text};

/// A cluster by its name, and a position in its topic (ClusterMessageId in PulsarMarkers.proto).
#[derive(Drop)]
pub struct ClusterMessageId {
    /// The cluster's name.
    pub cluster: Text,
    /// Where the message stands there.
    pub message_id: Position,
}

/// Clusters and positions, in order.
pub type ClusterMessageIds = Sequence<ClusterMessageId>;

/// A marker of replicated subscriptions (PIP-33). Its fields have the names that PulsarMarkers.proto gives them.
#[derive(Drop)]
pub enum Marker {
    /// A cluster asks the others where they stand (ReplicatedSubscriptionsSnapshotRequest).
    Request {
        /// The name of the snapshot that is to be made.
        snapshot_id: Text,
        /// The name of the cluster that asks.
        source_cluster: Text,
    },
    /// A cluster says where it stands (ReplicatedSubscriptionsSnapshotResponse).
    Response {
        /// The name that the request gave.
        snapshot_id: Text,
        /// The cluster that answers, and its position.
        cluster: ClusterMessageId,
    },
    /// What the cluster that asked has made of the answers (ReplicatedSubscriptionsSnapshot).
    Snapshot {
        /// The name of the snapshot.
        snapshot_id: Text,
        /// The position in the cluster's own topic.
        local_message_id: Position,
        /// The positions in the topics of the others.
        clusters: ClusterMessageIds,
    },
    /// How far a subscription has come (ReplicatedSubscriptionsUpdate).
    Update {
        /// The subscription's name.
        subscription_name: Text,
        /// Up to where it has come in each cluster's topic.
        clusters: ClusterMessageIds,
    },
}

impl Marker {
    /// What the marker is; the number of its kind stands in the metadata of its entry.
    pub fn kind(&self) -> MarkerKind
        ensures { result ≡ marker_kind self.now }
    {
        match self {
            Marker::Request { .. } => MarkerKind::Request,
            Marker::Response { .. } => MarkerKind::Response,
            Marker::Snapshot { .. } => MarkerKind::Snapshot,
            Marker::Update { .. } => MarkerKind::Update,
        }
    }
}
