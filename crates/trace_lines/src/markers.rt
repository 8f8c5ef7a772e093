//! Markers in a line.
ghost use Rattle.std.specs.Prelude.{◌≡◌, [], None, Some, IfOk, MatchOption};
ghost use Rattle.geo_base.specs.declared.entry.Content.TheVariants as contents;
ghost use Rattle.trace_lines.specs.Entries.{by_of, cluster_positions_of, marked, own_update_of, request_of, response_of, snapshot_of, told_positions_of, unread_of, update_of};

use crate::line::{ToldPositions, What};
use crate::names::{cluster_position_of, place_of};
use crate::numbers::position_of;
use crate::texts::{sub_of, text_of};
use crate::words::LineWords;
use geo_base::{Blob, BoxedMarker, ClusterPosition, Content, Marker, Memory, Position, Sequence};
use script_rows::{NameTable, is_word};
use std::alloc::Global;

/// What is no message.
fn marked(alloc: Global, content: Content, by: Option<Position>) -> What
    ensures { result ≡ marked content by }
{
    What {
        content,
        key: None,
        payload: Blob::new(alloc),
        by,
    }
}

/// What is a marker.
fn marker_what(alloc: Global, marker: Marker, by: Option<Position>) -> Result<Option<What>, Memory>
    ensures { IfOk result (λ what. what ≡ Some (marked (contents.Marked marker) by)) }
{
    let marker = BoxedMarker::new(alloc, marker)?;
    Ok(Some(marked(alloc, Content::Marked(marker), by)))
}

/// `request ID CLUSTER`
pub(crate) fn request_of(
    alloc: Global,
    clusters: &NameTable<'_>,
    words: &mut LineWords<'_>,
) -> Result<Option<What>, Memory>
    ensures { IfOk result (λ what. what ≡ request_of clusters.now words.old) }
{
    let Some((id, source)) = words.last_two() else {
        return Ok(None);
    };
    let Some(id) = text_of(alloc, id)? else {
        return Ok(None);
    };
    let Some(source) = place_of(alloc, clusters, source)? else {
        return Ok(None);
    };
    marker_what(alloc, Marker::Request { id, source }, None)
}

/// `response ID CLUSTER=L:E`
pub(crate) fn response_of(
    alloc: Global,
    clusters: &NameTable<'_>,
    words: &mut LineWords<'_>,
) -> Result<Option<What>, Memory>
    ensures { IfOk result (λ what. what ≡ response_of clusters.now words.old) }
{
    let Some((id, answer)) = words.last_two() else {
        return Ok(None);
    };
    let Some(id) = text_of(alloc, id)? else {
        return Ok(None);
    };
    let Some(answer) = cluster_position_of(alloc, clusters, answer)? else {
        return Ok(None);
    };
    marker_what(alloc, Marker::Response { id, answer }, None)
}

/// `snapshot ID L:E CLUSTER=L:E ..`
pub(crate) fn snapshot_of(
    alloc: Global,
    clusters: &NameTable<'_>,
    words: &mut LineWords<'_>,
) -> Result<Option<What>, Memory>
    ensures { IfOk result (λ what. what ≡ snapshot_of clusters.now words.old) }
{
    let Some((id, local)) = words.next_two() else {
        return Ok(None);
    };
    let Some(id) = text_of(alloc, id)? else {
        return Ok(None);
    };
    let Some(local) = position_of(local) else {
        return Ok(None);
    };
    let Some(remote) = cluster_positions_of(alloc, clusters, words)? else {
        return Ok(None);
    };
    marker_what(alloc, Marker::Snapshot { id, local, remote }, None)
}

/// `update SUB CLUSTER=L:E ..`
pub(crate) fn update_of(
    alloc: Global,
    clusters: &NameTable<'_>,
    words: &mut LineWords<'_>,
) -> Result<Option<What>, Memory>
    ensures { IfOk result (λ what. what ≡ update_of clusters.now words.old) }
{
    let Some(sub) = words.next_word() else {
        return Ok(None);
    };
    let Some(sub) = sub_of(alloc, sub)? else {
        return Ok(None);
    };
    let Some(remote) = cluster_positions_of(alloc, clusters, words)? else {
        return Ok(None);
    };
    marker_what(alloc, Marker::Update { sub, remote }, None)
}

/// `update SUB CLUSTER=L:E .. by L:E`, of the own cluster
pub(crate) fn own_update_of(
    alloc: Global,
    clusters: &NameTable<'_>,
    words: &mut LineWords<'_>,
) -> Result<Option<What>, Memory>
    ensures { IfOk result (λ what. what ≡ own_update_of clusters.now words.old) }
{
    let Some(sub) = words.next_word() else {
        return Ok(None);
    };
    let Some(sub) = sub_of(alloc, sub)? else {
        return Ok(None);
    };
    let Some(told) = told_positions_of(alloc, clusters, words)? else {
        return Ok(None);
    };
    let ToldPositions { remote, by } = told;
    marker_what(alloc, Marker::Update { sub, remote }, Some(by))
}

/// `unread`
pub(crate) fn unread_of(alloc: Global, words: &mut LineWords<'_>) -> Option<What>
    ensures { result ≡ unread_of words.old }
{
    match words.next_word() {
        Some(_) => None,
        None => Some(marked(alloc, Content::Unread(0), None)),
    }
}

/// Positions of clusters, to the end of the line.
#[tactic(auto, using(crate::proofs::SoFar::positions_so_far))]
fn cluster_positions_of(
    alloc: Global,
    clusters: &NameTable<'_>,
    words: &mut LineWords<'_>,
) -> Result<Option<Sequence<ClusterPosition>>, Memory>
    ensures { IfOk result (λ remote. remote ≡ cluster_positions_of clusters.now words.old) }
{
    let mut remote = Sequence::new(alloc);
    while let Some(word) = words.next_word() {
        let Some(position) = cluster_position_of(alloc, clusters, word)? else {
            return Ok(None);
        };
        remote.push(position)?;
    }
    Ok(Some(remote))
}

/// Positions of clusters, and after them `by L:E`.
fn told_positions_of(
    alloc: Global,
    clusters: &NameTable<'_>,
    words: &mut LineWords<'_>,
) -> Result<Option<ToldPositions>, Memory>
    ensures { IfOk result (λ told. told ≡ told_positions_of clusters.now words.old) }
{
    let mut remote = Sequence::new(alloc);
    match add_told(alloc, &mut remote, clusters, words) {
        Ok(Some(by)) => Ok(Some(ToldPositions { remote, by })),
        Ok(None) => {
            drop(remote);
            Ok(None)
        }
        Err(memory) => {
            drop(remote);
            Err(memory)
        }
    }
}

/// Adds positions of clusters to none; the position after them and `by`.
#[tactic(auto, using(crate::proofs::SoFar::told_so_far))]
fn add_told(
    alloc: Global,
    remote: &mut Sequence<ClusterPosition>,
    clusters: &NameTable<'_>,
    words: &mut LineWords<'_>,
) -> Result<Option<Position>, Memory>
    requires { remote.old ≡ [] }
    ensures { IfOk result (λ by. MatchOption by (told_positions_of clusters.now words.old ≡ None)
        (λ p. told_positions_of clusters.now words.old ≡ Some (record { remote = remote.new; by = p }))) }
{
    while let Some(word) = words.next_word() {
        if is_word(word, b"by") {
            return match by_of(words) {
                None => Ok(None),
                Some(by) => Ok(Some(by)),
            };
        }
        let Some(position) = cluster_position_of(alloc, clusters, word)? else {
            return Ok(None);
        };
        remote.push(position)?;
    }
    Ok(None)
}

/// The position after `by`.
fn by_of(words: &mut LineWords<'_>) -> Option<Position>
    ensures { result ≡ by_of words.old }
{
    position_of(words.last_word()?)
}
