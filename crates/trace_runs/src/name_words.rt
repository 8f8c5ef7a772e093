//! Where something is written.
ghost use Rattle.std.specs.Prelude.{◌≡◌};

use geo_base::ClusterName;
use std::marker::Model;

/// A topic at a cluster by their names, with the names of all clusters by their numbers.
#[derive(Drop)]
pub struct Naming<'a> {
    clusters: &'a [ClusterName],
    topic: &'a str,
    cluster: &'a str,
}

impl<'a> Model for Naming<'a> {
    ghost use Rattle.trace_runs.specs.Naming.{Naming};

    ghost Value = { Naming };

    ghost view = { λ n. record { clusters = n.clusters.now; topic = n.topic.now; cluster = n.cluster.now } };
}

impl<'a> Naming<'a> {
    /// A topic at a cluster.
    pub fn new(clusters: &'a [ClusterName], topic: &'a str, cluster: &'a str) -> Naming<'a>
        ensures { result ≡ record { clusters = clusters.entry.now; topic = topic.entry.now; cluster = cluster.entry.now } }
    {
        Naming {
            clusters,
            topic,
            cluster,
        }
    }

    /// The names of all clusters.
    pub(crate) fn clusters(&self) -> &[ClusterName]
        ensures { result.now ≡ self.now.clusters }
    {
        self.clusters
    }

    /// The topic's name.
    pub(crate) fn topic(&self) -> &[u8]
        ensures { result.now ≡ self.now.topic }
    {
        self.topic.as_bytes()
    }

    /// The cluster's name.
    pub(crate) fn cluster(&self) -> &[u8]
        ensures { result.now ≡ self.now.cluster }
    {
        self.cluster.as_bytes()
    }
}
