//! What a broker knows of the setup.
ghost use Rattle.std.specs.Prelude.{◌≡◌, ◌≤◌, ◌<◌, ◌++◌, codes, length, slice_index_or, IfOk};
ghost use Rattle.std.specs.List.{AllByRecursion};
ghost use Rattle.geo_base.specs.Broker.{cluster_name};
ghost use Rattle.geo_base.specs.Forwarding.{is_remote, link_producer};
ghost use Rattle.broker_state.specs.Site.{IsNameLong, IsSite};

use geo_base::limits::CLUSTERS;
use geo_base::{ClusterName, Memory, Text, TopicName};
use std::alloc::Global;
use std::marker::Model;

/// Its cluster's number, all clusters' names, its topic's name, and how many entries a ledger takes. Contracts see the machine's
/// site.
#[derive(Drop)]
pub struct Site {
    own: u32,
    clusters: Vec<ClusterName>,
    topic: TopicName,
    per_ledger: u64,
}

impl Model for Site {
    ghost use Rattle.geo_base.specs.Broker.{Site};
    ghost use Rattle.broker_state.specs.Site.{IsSite};

    ghost Value = { Site };

    ghost view = { λ s. record { own = s.own; clusters = s.clusters.items; topic = s.topic; per_ledger = s.per_ledger } };

    ghost invariant = { λ s. IsSite (record { own = s.own; clusters = s.clusters.items; topic = s.topic; per_ledger = s.per_ledger }) };
}

impl Site {
    /// The site of the broker of a topic at a cluster, one of at most eight.
    pub fn new(own: u32, clusters: Vec<ClusterName>, topic: TopicName, per_ledger: u64) -> Site
        requires own { own < length clusters.items }
        requires few { length clusters.items ≤ CLUSTERS }
        ensures { result ≡ record { own = own; clusters = clusters.items; topic = topic; per_ledger = per_ledger } }
    {
        see_names(clusters.as_slice());
        let _text = topic.as_str();
        Site {
            own,
            clusters,
            topic,
            per_ledger,
        }
    }

    /// The cluster's number.
    pub fn own(&self) -> u32
        ensures own { result ≡ self.now.own }
        ensures site { IsSite self.now }
    {
        self.own
    }

    /// All clusters' names, by their numbers.
    pub fn clusters(&self) -> &[ClusterName]
        ensures clusters { result.now ≡ self.now.clusters }
        ensures site { IsSite self.now }
    {
        self.clusters.as_slice()
    }

    /// The topic's name.
    pub fn topic(&self) -> &TopicName
        ensures topic { result.now ≡ self.now.topic }
        ensures site { IsSite self.now }
    {
        &self.topic
    }

    /// How many entries a ledger takes.
    pub fn per_ledger(&self) -> u64
        ensures { result ≡ self.now.per_ledger }
    {
        self.per_ledger
    }

    /// Whether a number is that of another cluster.
    pub fn is_remote(&self, cluster: u32) -> bool
        ensures { result ≡ is_remote self.now cluster }
    {
        (cluster as usize) < self.clusters.len() && cluster != self.own
    }

    /// The name of a cluster.
    pub fn cluster_name(&self, cluster: u32) -> &ClusterName
        requires { cluster < length self.now.clusters }
        ensures { result.now ≡ cluster_name self.now cluster }
    {
        &self.clusters[cluster as usize]
    }

    /// The name of the producer of the forward link from a cluster.
    pub fn link_producer(&self, alloc: Global, source: u32) -> Result<Text, Memory>
        ensures { IfOk result (λ name. name ≡ link_producer self.now source) }
    {
        let mut name = String::from_str(alloc, "pulsar.repl.")?;
        if (source as usize) < self.clusters.len() {
            name.push_str(self.clusters[source as usize].as_str())?;
        }
        Ok(Text::from_string(name))
    }
}

/// Each name is one: as short as names are.
fn see_names(names: &[ClusterName])
    ensures { AllByRecursion IsNameLong names.now }
{
    for name in names {
        let _text = name.as_str();
    }
}
