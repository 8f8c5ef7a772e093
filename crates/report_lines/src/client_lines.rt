//! The lines of a client.
ghost use Rattle.std.specs.Prelude.{◌≡◌, ◌==◌, ◌++◌, ◌∷◌, [], if◌then◌else◌, length, map, OnOk, slice_index_or, OnErr, take};
ghost use Rattle.geo_base.specs.Report.{client_line, got_line, with_line_feeds};

use crate::{ClientCounts, add, add_got, client_line};
use client::{Client, ClientView};
use geo_base::{Blob, ClusterName, Memory};
use script_text::{ClientDecl, Scenario};
use std::alloc::Global;

/// Appends the lines of a client of a script, if it is one of the topic: its own, and one for each message that it got.
pub fn add_client(
    alloc: Global,
    lines: &mut Blob,
    scenario: &Scenario,
    declared: &ClientDecl,
    client: &Client,
    topic: usize,
) -> Result<(), Memory>
    ensures ok { OnOk result (lines.new ≡ lines.old ++ with_line_feeds (if declared.now.topic == topic then client_line scenario.now.setup declared.now client.now ∷ map (got_line scenario.now.setup.clusters) client.now.got else [])) }
    ensures err { OnErr result (take (length lines.old) lines.new ≡ lines.old) }
{
    if declared.topic() as usize != topic {
        return Ok(());
    }
    let clusters = scenario.clusters();
    let view = client.view();
    let counts = counts(declared, &view);
    let cluster = cluster_name(clusters, view.cluster);
    let line = client_line(alloc, declared.name().as_str(), cluster, &counts)?;
    add(lines, line)?;
    add_got(lines, clusters, view.got)
}

/// How many of its lines a client has done, and what came.
fn counts(declared: &ClientDecl, client: &ClientView<'_>) -> ClientCounts
    ensures { result ≡ record { done = client.now.done; lines = length declared.now.lines; receipts = client.now.receipts; duplicates = client.now.duplicates; errors = client.now.errors } }
{
    ClientCounts {
        done: client.done,
        lines: declared.lines().len(),
        receipts: client.receipts,
        duplicates: client.duplicates,
        errors: client.errors,
    }
}

/// The name of a cluster; no text where it has none.
fn cluster_name(clusters: &[ClusterName], cluster: u32) -> &str
    ensures { result.now ≡ slice_index_or clusters.entry.now cluster [] }
{
    match clusters.get(cluster as usize) {
        Some(name) => name.as_str(),
        None => "",
    }
}
