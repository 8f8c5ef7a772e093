//! The names that a script declares, and the words of a line that name them.
ghost use Rattle.std.specs.Prelude.{◌≡◌, ◌≤◌, [], ◌++◌, length, IfOk, OnOk};
ghost use Rattle.geo_base.specs.Client.{target_names};
ghost use Rattle.geo_base.specs.Scripted.{AreDistinct};
ghost use Rattle.trace_lines.specs.Words.{cluster_position_of, declared, pair_in, place_of, targets_of};
ghost use Rattle.script_rows.specs.NameWords.{cut_by};

use crate::numbers::position_of;
use crate::texts::{is_text, text_of};
use geo_base::limits::CLUSTERS;
use geo_base::{
    ClusterName, ClusterPosition, ClusterRef, Memory, Name, Sequence, Targets, Text, TopicName,
};
use script_rows::{NameList, NameTable, cut_at, is_word, list_word, mask_of};
use std::alloc::Global;
use std::marker::Model;

/// The names that a script declares, in tables.
#[derive(Drop)]
pub struct Names<'a> {
    names: &'a [ClusterName],
    clusters: NameTable<'a>,
    topics: NameTable<'a>,
}

impl<'a> Model for Names<'a> {
    ghost use Rattle.trace_lines.specs.Names.{DeclaredNames, HasClusters};

    ghost Value = { DeclaredNames };

    ghost view = { λ n. record { clusters = n.clusters; topics = n.topics } };

    ghost invariant = { λ n. HasClusters n.clusters n.names.now };
}

impl<'a> Names<'a> {
    /// Tables of the clusters' names and of the topics'. An `Err` is want of memory.
    pub fn new(
        alloc: Global,
        clusters: &'a [ClusterName],
        topics: &'a [TopicName],
    ) -> Result<Names<'a>, Memory>
        requires few { length clusters.now ≤ CLUSTERS }
        requires clusters { AreDistinct clusters.now }
        requires topics { AreDistinct topics.now }
        ensures { IfOk result (λ names. names ≡ record { clusters = clusters.now; topics = topics.now }) }
    {
        let table = table_of(alloc, clusters)?;
        match table_of(alloc, topics) {
            Ok(topics) => Ok(Names {
                names: clusters,
                clusters: table,
                topics,
            }),
            Err(memory) => {
                drop(table);
                Err(memory)
            }
        }
    }

    /// The clusters by their names.
    pub fn clusters(&self) -> &NameTable<'a>
        ensures names { result.now ≡ self.now.clusters }
        ensures few { length result.now ≤ CLUSTERS }
    {
        &self.clusters
    }

    /// The topics by their names.
    pub fn topics(&self) -> &NameTable<'a>
        ensures { result.now ≡ self.now.topics }
    {
        &self.topics
    }

    /// The clusters' names.
    pub(crate) fn cluster_names(&self) -> &'a [ClusterName]
        ensures names { result.now ≡ self.now.clusters }
        ensures few { length result.now ≤ CLUSTERS }
    {
        self.names
    }
}

/// A table of names that are told apart.
fn table_of<K>(alloc: Global, names: &[Name<K>]) -> Result<NameTable<'_>, Memory>
    requires apart { AreDistinct names.now }
    ensures { IfOk result (λ table. table ≡ names.now) }
{
    let mut table = NameTable::new(alloc);
    match add_names(&mut table, names) {
        Ok(()) => Ok(table),
        Err(memory) => {
            drop(table);
            Err(memory)
        }
    }
}

/// Adds names that are told apart to a table that has none.
#[tactic(auto, using(crate::proofs::Fresh::fresh))]
fn add_names<'a, K>(table: &mut NameTable<'a>, names: &'a [Name<K>]) -> Result<(), Memory>
    requires none { table.old ≡ [] }
    requires apart { AreDistinct names.now }
    ensures { OnOk result (table.new ≡ names.entry.now) }
{
    for name in names {
        table.push(name.as_str().as_bytes())?;
    }
    Ok(())
}

/// The number of a name that is declared; None exactly where none is.
pub fn declared(names: &NameTable<'_>, word: &[u8]) -> Option<u32>
    ensures { result ≡ declared names.now word.now }
{
    names.find(word)
}

/// A cluster, or a name that no cluster has.
pub(crate) fn place_of(
    alloc: Global,
    clusters: &NameTable<'_>,
    word: &[u8],
) -> Result<Option<ClusterRef>, Memory>
    ensures { IfOk result (λ place. place ≡ place_of clusters.now word.now) }
{
    if !is_text(word) {
        return Ok(None);
    }
    if let Some(cluster) = clusters.find(word) {
        return Ok(Some(ClusterRef::Known(cluster)));
    }
    match text_of(alloc, word)? {
        None => Ok(None),
        Some(name) => Ok(Some(ClusterRef::Stranger(name))),
    }
}

/// `CLUSTER=L:E`
#[tactic(auto, using(crate::proofs::Parts::no_place, script_rows::proofs::WordParts::has_parts))]
pub(crate) fn cluster_position_of(
    alloc: Global,
    clusters: &NameTable<'_>,
    word: &[u8],
) -> Result<Option<ClusterPosition>, Memory>
    ensures { IfOk result (λ position. position ≡ cluster_position_of clusters.now word.now) }
{
    let Some((cluster, position)) = cut_at(word, b'=') else {
        return Ok(None);
    };
    if cut_at(position, b'=').is_some() {
        return Ok(None);
    }
    let Some(cluster) = place_of(alloc, clusters, cluster)? else {
        return Ok(None);
    };
    match position_of(position) {
        None => Ok(None),
        Some(position) => Ok(Some(ClusterPosition { cluster, position })),
    }
}

/// The clusters that a list names.
pub(crate) fn targets_of(
    alloc: Global,
    clusters: &NameTable<'_>,
    word: &[u8],
) -> Result<Option<Targets>, Memory>
    requires { length clusters.now ≤ CLUSTERS }
    ensures { IfOk result (λ to. to ≡ targets_of clusters.now word.now) }
{
    if is_word(word, b"*") {
        return Ok(Some(Targets::All));
    }
    if is_word(word, b"?") {
        return Ok(Some(Targets::Only(0)));
    }
    let mask = mask_of(clusters, &NameList::new(word));
    let text = list_word(alloc, clusters, mask)?;
    if !word.is_empty() && is_word(word, text.as_slice()) {
        Ok(Some(Targets::Only(mask)))
    } else {
        Ok(None)
    }
}

/// The names of a target list's clusters, in cluster order; none where it is for all.
pub(crate) fn target_names(
    alloc: Global,
    clusters: &[ClusterName],
    to: Targets,
) -> Result<Sequence<Text>, Memory>
    requires { length clusters.now ≤ CLUSTERS }
    ensures { IfOk result (λ names. names ≡ target_names 0 to clusters.now) }
{
    match to {
        Targets::All => Ok(Sequence::new(alloc)),
        Targets::Only(bits) => named_clusters(alloc, clusters, bits),
    }
}

fn named_clusters(
    alloc: Global,
    clusters: &[ClusterName],
    bits: u8,
) -> Result<Sequence<Text>, Memory>
    requires { length clusters.now ≤ CLUSTERS }
    ensures { IfOk result (λ names. names ≡ target_names 0 (Targets.Only bits) clusters.now) }
{
    let mut names = Sequence::new(alloc);
    match add_named(alloc, &mut names, clusters, bits) {
        Ok(()) => Ok(names),
        Err(memory) => {
            drop(names);
            Err(memory)
        }
    }
}

/// Adds the names of a target list's clusters, in cluster order.
fn add_named(
    alloc: Global,
    names: &mut Sequence<Text>,
    clusters: &[ClusterName],
    bits: u8,
) -> Result<(), Memory>
    requires { length clusters.now ≤ CLUSTERS }
    ensures { OnOk result (names.new ≡ names.old ++ target_names 0 (Targets.Only bits) clusters.now) }
{
    for (number, name) in clusters.iter().enumerate() {
        if Targets::Only(bits).contains(number as u32) {
            names.push(Text::from_str(alloc, name.as_str())?)?;
        }
    }
    Ok(())
}
