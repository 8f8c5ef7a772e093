//! What an event changed at a client.
ghost use Rattle.std.specs.Prelude.{◌≡◌, ◌++◌, ◌∷◌, [], drop, length, map, OnErr, OnOk};
ghost use Rattle.geo_base.specs.Client.{Client as Machine};
ghost use Rattle.geo_base.specs.Report.{client_line, got_line};
ghost use Rattle.step_laws.specs.Steps.{change_line};
ghost use Rattle.step_lines.specs.Changes.{stood_lines};
ghost use Rattle.step_lines.specs.declared.heads.Indent.TheVariants as indent;
ghost use Rattle.step_lines.specs.Noted.{client_told, noted_client, same_noted};

use crate::heads::{Indent, cluster_name};
use crate::noted::{NotedClient, client_of};
use client::{Client, ClientView};
use geo_base::{Blob, ClusterName, Ident, Memory};
use report_lines::{ClientCounts, add_client_line, add_got};
use script_text::{ClientDecl, Scenario};

/// Appends a client's line under a step where it is other than noted or something is new that it got, and that.
pub(crate) fn add_client_changes(
    lines: &mut Blob,
    scenario: &Scenario,
    declared: &ClientDecl,
    client: &Client,
    noted: &NotedClient,
) -> Result<(), Memory>
    ensures { (k : Machine) → noted.now ≡ noted_client k
        → OnOk result (lines.new ≡ lines.old ++ stood_lines indent.Step (map change_line (client_told scenario.now.setup declared.now k client.now))) }
{
    if is_same(noted, &client_of(client)) {
        return Ok(());
    }
    Indent::Step.add(lines)?;
    add_own_line(lines, scenario, declared, client)?;
    add_new_got(lines, scenario.clusters(), client.view().got, noted.got)
}

/// Appends the client's own line.
fn add_own_line(
    lines: &mut Blob,
    scenario: &Scenario,
    declared: &ClientDecl,
    client: &Client,
) -> Result<(), Memory>
    ensures { OnOk result (lines.new ≡ lines.old ++ (client_line scenario.now.setup declared.now client.now ++ 10 ∷ [])) }
{
    let view = client.view();
    let counts = counts_of(declared, &view);
    let cluster = cluster_name(scenario.clusters(), view.cluster);
    add_client_line(lines, declared.name().as_str(), cluster, &counts)
}

/// How many of its lines a client has done, and what came.
fn counts_of(declared: &ClientDecl, client: &ClientView<'_>) -> ClientCounts
    ensures { result ≡ record { done = client.now.done; lines = length declared.now.lines; receipts = client.now.receipts; duplicates = client.now.duplicates; errors = client.now.errors } }
{
    ClientCounts {
        done: client.done,
        lines: declared.lines().len(),
        receipts: client.receipts,
        duplicates: client.duplicates,
        errors: client.errors,
    }
}

/// The messages that it got from a place on.
fn add_new_got(
    lines: &mut Blob,
    clusters: &[ClusterName],
    got: &[Ident],
    first: usize,
) -> Result<(), Memory>
    ensures { OnOk result (lines.new ≡ lines.old ++ stood_lines indent.Step (map (got_line clusters.now) (drop first got.now))) }
{
    for place in first..got.len() {
        Indent::Step.add(lines)?;
        add_got(lines, clusters, &got[place..place + 1])?;
    }
    Ok(())
}

/// Whether a report shows the same of two.
fn is_same(before: &NotedClient, now: &NotedClient) -> bool
    ensures { result ≡ same_noted before.now now.now }
{
    before.cluster == now.cluster
        && before.done == now.done
        && before.receipts == now.receipts
        && before.duplicates == now.duplicates
        && before.errors == now.errors
        && before.got == now.got
}
