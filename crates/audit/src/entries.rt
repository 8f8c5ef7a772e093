//! What an audit asks of an entry.
ghost use Rattle.std.specs.Prelude.{◌≡◌, ◌&&◌};
ghost use Rattle.geo_base.specs.Entry.{is_data, meant_for};
ghost use Rattle.geo_base.specs.Updating.{is_updated};

use geo_base::{Content, Entry};

/// Whether an entry is a message.
pub fn is_data(content: &Content) -> bool
    ensures { result ≡ is_data content.now }
{
    match content {
        Content::Data => true,
        Content::Marked(_) => false,
        Content::Unread(_) => false,
    }
}

/// Whether an entry is one that a cluster could have had: its own, or one that goes to it.
pub fn is_meant_for(cluster: u32, entry: &Entry) -> bool
    ensures { result ≡ meant_for cluster entry.now }
{
    entry.ident.origin == cluster || entry.to.contains(cluster)
}

/// Whether an update of a cluster passes over an entry: over markers, and over what was meant for the cluster.
pub fn is_updated(cluster: u32, entry: &Entry) -> bool
    ensures { result ≡ is_updated cluster entry.now }
{
    !is_data(&entry.content) || is_meant_for(cluster, entry)
}

/// Whether an entry has to stand in a cluster's topic where a snapshot of it covers the entry: it is a message that is meant for the
/// cluster.
pub fn must_stand(cluster: u32, entry: &Entry) -> bool
    ensures { result ≡ (is_data entry.now.content && meant_for cluster entry.now) }
{
    is_data(&entry.content) && is_meant_for(cluster, entry)
}
