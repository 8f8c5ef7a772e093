//! The words of a marker (PIP-33), appended to what stands before them.
ghost use Rattle.std.specs.Prelude.{◌≡◌, ◌++◌, [], ◌∷◌, codes, map, OnOk, OnErr, take, length};
ghost use Rattle.geo_base.specs.Report.{printed, shown_cluster_position, shown_marker, shown_position, words};
ghost use Rattle.geo_base.specs.Sizes.{cluster_ref_name};
ghost use Rattle.report_lines.specs.Spaced.{spaced};

use crate::words::{add_position, add_printed, cluster_name};
use geo_base::{Blob, ClusterName, ClusterPosition, ClusterRef, Marker, Memory, Position};

/// What a marker says.
#[tactic(auto, using(crate::proofs::Wholes::snapshot_whole, crate::proofs::Wholes::update_whole))]
pub(crate) fn add_marker(
    lines: &mut Blob,
    clusters: &[ClusterName],
    marker: &Marker,
) -> Result<(), Memory>
    ensures ok { OnOk result (lines.new ≡ lines.old ++ words (shown_marker clusters.now marker.now)) }
    ensures err { OnErr result (take (length lines.old) lines.new ≡ lines.old) }
{
    match marker {
        Marker::Request { id, source } => add_request(lines, clusters, id.as_bytes(), source),
        Marker::Response { id, answer } => add_response(lines, clusters, id.as_bytes(), answer),
        Marker::Snapshot { id, local, remote } => {
            add_snapshot(lines, id.as_bytes(), *local)?;
            add_positions(lines, clusters, remote.as_slice())
        }
        Marker::Update { sub, remote } => {
            add_update(lines, sub.as_bytes())?;
            add_positions(lines, clusters, remote.as_slice())
        }
    }
}

fn add_request(
    lines: &mut Blob,
    clusters: &[ClusterName],
    id: &[u8],
    source: &ClusterRef,
) -> Result<(), Memory>
    ensures ok { OnOk result (lines.new ≡ lines.old ++ words (codes "request" ∷ printed id.now ∷ printed (cluster_ref_name clusters.now source.now) ∷ [])) }
    ensures err { OnErr result (take (length lines.old) lines.new ≡ lines.old) }
{
    lines.append(b"request ")?;
    add_printed(lines, id)?;
    lines.append(b" ")?;
    add_place(lines, clusters, source)
}

fn add_response(
    lines: &mut Blob,
    clusters: &[ClusterName],
    id: &[u8],
    answer: &ClusterPosition,
) -> Result<(), Memory>
    ensures ok { OnOk result (lines.new ≡ lines.old ++ words (codes "response" ∷ printed id.now ∷ shown_cluster_position clusters.now answer.now ∷ [])) }
    ensures err { OnErr result (take (length lines.old) lines.new ≡ lines.old) }
{
    lines.append(b"response ")?;
    add_printed(lines, id)?;
    lines.append(b" ")?;
    add_cluster_position(lines, clusters, answer)
}

/// A snapshot without its remote positions.
fn add_snapshot(lines: &mut Blob, id: &[u8], local: Position) -> Result<(), Memory>
    ensures ok { OnOk result (lines.new ≡ lines.old ++ (codes "snapshot" ++ (32 ∷ (printed id.now ++ (32 ∷ shown_position local))))) }
    ensures err { OnErr result (take (length lines.old) lines.new ≡ lines.old) }
{
    lines.append(b"snapshot ")?;
    add_printed(lines, id)?;
    lines.append(b" ")?;
    add_position(lines, local)
}

/// An update without its remote positions.
fn add_update(lines: &mut Blob, sub: &[u8]) -> Result<(), Memory>
    ensures ok { OnOk result (lines.new ≡ lines.old ++ (codes "update" ++ (32 ∷ printed sub.now))) }
    ensures err { OnErr result (take (length lines.old) lines.new ≡ lines.old) }
{
    lines.append(b"update ")?;
    add_printed(lines, sub)
}

/// The remote positions, each after a space.
fn add_positions(
    lines: &mut Blob,
    clusters: &[ClusterName],
    remote: &[ClusterPosition],
) -> Result<(), Memory>
    ensures ok { OnOk result (lines.new ≡ lines.old ++ spaced (map (shown_cluster_position clusters.now) remote.now)) }
    ensures err { OnErr result (take (length lines.old) lines.new ≡ lines.old) }
{
    for position in remote {
        lines.append(b" ")?;
        add_cluster_position(lines, clusters, position)?;
    }
    Ok(())
}

/// A cluster and a position in its topic.
fn add_cluster_position(
    lines: &mut Blob,
    clusters: &[ClusterName],
    position: &ClusterPosition,
) -> Result<(), Memory>
    ensures ok { OnOk result (lines.new ≡ lines.old ++ shown_cluster_position clusters.now position.now) }
    ensures err { OnErr result (take (length lines.old) lines.new ≡ lines.old) }
{
    add_place(lines, clusters, &position.cluster)?;
    lines.append(b"=")?;
    add_position(lines, position.position)
}

/// The name of a cluster that a marker names.
fn add_place(lines: &mut Blob, clusters: &[ClusterName], place: &ClusterRef) -> Result<(), Memory>
    ensures ok { OnOk result (lines.new ≡ lines.old ++ printed (cluster_ref_name clusters.now place.now)) }
    ensures err { OnErr result (take (length lines.old) lines.new ≡ lines.old) }
{
    match place {
        ClusterRef::Known(cluster) => add_printed(
            lines,
            cluster_name(clusters, *cluster).as_bytes(),
        ),
        ClusterRef::Stranger(name) => add_printed(lines, name.as_bytes()),
    }
}
