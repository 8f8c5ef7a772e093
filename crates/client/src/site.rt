//! What a client knows of the setup.
ghost use Rattle.std.specs.Prelude.{◌≡◌, ◌<◌, ◌≤◌, ◌^◌, true, length, slice_get, IfSome, OnSome};
ghost use Rattle.std.specs.List.{list_all};
ghost use Rattle.std.specs.Option.{option_copied};
ghost use Rattle.geo_base.specs.Name.{is_name};
ghost use Rattle.geo_base.specs.Setup.{topic_name};
ghost use Rattle.client.specs.Site.{is_short_line, known_setup};

use geo_base::limits::{CLUSTERS, NAME_BYTES};
use geo_base::{ClusterName, Line, ProducerName, TopicName};
use std::marker::Model;

/// The clusters' and topics' names by their numbers, and what is declared of the client: its name, which is its producer's too,
/// the numbers of its topic and of the cluster that it is at first, and its lines.
#[derive(Drop)]
pub struct ClientSite<'a> {
    clusters: &'a [ClusterName],
    topics: &'a [TopicName],
    name: &'a ProducerName,
    topic: u32,
    cluster: u32,
    lines: &'a [Line],
}

impl<'a> Model for ClientSite<'a> {
    ghost use Rattle.geo_base.specs.Scripted.{most_clusters};
    ghost use Rattle.std.specs.Prelude.{◌≡◌, ◌≤◌, true, length};
    ghost use Rattle.std.specs.List.{list_all};
    ghost use Rattle.geo_base.specs.Name.{is_name};
    ghost use Rattle.client.specs.Site.{Site, is_short_line, known_setup};

    ghost Value = { Site };

    ghost view = { λ s. record {
      setup = known_setup s.clusters.now s.topics.now;
      declared = record { name = s.name.now; topic = s.topic; cluster = s.cluster; lines = s.lines.now };
    } };

    ghost invariant = { λ s. (length s.clusters.now ≤ most_clusters) × ((list_all is_name s.clusters.now ≡ true) × ((is_name s.name.now ≡ true) × (list_all is_short_line s.lines.now ≡ true))) };
}

impl<'a> ClientSite<'a> {
    /// What is known of the setup and of the client. A script declares at most 8 clusters, and names and texts that are short.
    pub fn new(
        clusters: &'a [ClusterName],
        topics: &'a [TopicName],
        name: &'a ProducerName,
        topic: u32,
        cluster: u32,
        lines: &'a [Line],
    ) -> ClientSite<'a>
        requires few { length clusters.now ≤ CLUSTERS }
        requires cluster_names { list_all is_name clusters.now ≡ true }
        requires named { is_name name.now ≡ true }
        requires short { list_all is_short_line lines.now ≡ true }
        ensures setup { result.setup ≡ known_setup clusters.entry.now topics.entry.now }
        ensures declared { result.declared ≡ record { name = name.entry.now; topic = topic; cluster = cluster; lines = lines.entry.now } }
    {
        ClientSite {
            clusters,
            topics,
            name,
            topic,
            cluster,
            lines,
        }
    }

    /// The clusters' names. There are no more than a target list can name.
    pub fn clusters(&self) -> &[ClusterName]
        ensures value { result.now ≡ self.now.setup.clusters }
        ensures few { length self.now.setup.clusters ≤ CLUSTERS }
        ensures named { list_all is_name self.now.setup.clusters ≡ true }
    {
        self.clusters
    }

    /// The client's name.
    pub fn name(&self) -> &ProducerName
        ensures name { result.now ≡ self.now.declared.name }
        ensures is_one { is_name self.now.declared.name ≡ true }
    {
        self.name
    }

    /// The name of the client's topic; empty where its number is no topic's.
    pub fn topic_name(&self) -> &str
        ensures name { result.now ≡ topic_name self.now.setup self.now.declared.topic }
        ensures short { length result.now ≤ NAME_BYTES }
    {
        match self.topics.get(self.topic as usize) {
            Some(name) => name.as_str(),
            None => "",
        }
    }

    /// The number of the cluster that the client is at first.
    pub fn cluster(&self) -> u32
        ensures { result ≡ self.now.declared.cluster }
    {
        self.cluster
    }

    /// The client's line at an index. A list in memory has fewer than 2 ^ 63 lines.
    pub fn line(&self, index: usize) -> Option<&Line>
        ensures value { option_copied result ≡ slice_get self.now.declared.lines index }
        ensures short { IfSome result (λ l. is_short_line l.now ≡ true) }
        ensures within { OnSome result (index < 2 ^ 63) }
    {
        self.lines.get(index)
    }
}
