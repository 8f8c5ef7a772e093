//! What is asked of one entry.
ghost use Rattle.std.specs.Prelude.{◌≡◌};
ghost use Rattle.geo_base.specs.Entry.{is_data, is_outbound, means_cluster, meant_for};

use geo_base::{ClusterRef, Content, Entry};

/// Whether an entry is a message.
pub(crate) fn is_message(entry: &Entry) -> bool
    ensures { result ≡ is_data entry.now.content }
{
    match &entry.content {
        Content::Data => true,
        Content::Marked(_) => false,
        Content::Unread(_) => false,
    }
}

/// Whether an entry is of an origin, and goes to a cluster.
pub(crate) fn is_outbound(origin: u32, cluster: u32, entry: &Entry) -> bool
    ensures { result ≡ is_outbound origin cluster entry.now }
{
    entry.ident.origin == origin && entry.to.contains(cluster)
}

/// Whether a cluster could have an entry.
pub(crate) fn is_meant_for(cluster: u32, entry: &Entry) -> bool
    ensures { result ≡ meant_for cluster entry.now }
{
    entry.ident.origin == cluster || entry.to.contains(cluster)
}

/// Whether a name is that of a cluster.
pub(crate) fn means_cluster(cluster: u32, place: &ClusterRef) -> bool
    ensures { result ≡ means_cluster cluster place.now }
{
    match place {
        ClusterRef::Known(known) => cluster == *known,
        ClusterRef::Stranger(_) => false,
    }
}
