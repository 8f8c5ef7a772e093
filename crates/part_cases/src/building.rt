//! Snapshots in the making.
ghost use Rattle.std.specs.Prelude.{◌<◌, ◌≤◌};

use crate::telling::{add_number, add_word};
use geo_base::{Cut, Memory, Position, Progress};
use replicated_subs::*;
use std::alloc::Global;

/// A response: its id, the cluster that answers, the entry of the position that it names, the entry of its own position here,
/// and what it does.
struct Response(&'static str, u32, u64, u64, Progress);

/// A builder, the responses that come, and what it then says.
struct Row {
    id: &'static str,
    own: u32,
    clusters: u32,
    responses: &'static [Response],
    said: &'static str,
}

const TABLE: &[Row] = &[
    // one remote cluster: its answer makes the snapshot, an answer to an earlier one does not
    Row {
        id: "a:0:1",
        own: 0,
        clusters: 2,
        responses: &[
            Response("a:0:0", 1, 5, 7, Progress::Ignored),
            Response("a:0:1", 1, 5, 7, Progress::Done),
            Response("a:0:1", 1, 6, 8, Progress::Ignored),
        ],
        said: "a:0:1 a:0:1 at 7 - 5",
    },
    // two rounds: an answer of the first round does not count in the second, nor a second answer of a cluster
    Row {
        id: "a:0:0",
        own: 0,
        clusters: 3,
        responses: &[
            Response("a:0:0", 1, 1, 2, Progress::Kept),
            Response("a:0:0", 2, 0, 3, Progress::SecondRound),
            Response("a:0:0", 2, 9, 4, Progress::Ignored),
            Response("a:0:0/2", 1, 4, 5, Progress::Kept),
            Response("a:0:0/2", 1, 8, 6, Progress::Ignored),
            Response("a:0:0/2", 2, 6, 7, Progress::Done),
        ],
        said: "a:0:0 a:0:0/2 at 7 - 1 0",
    },
    // the answers of the second round are read in another order than they are stored
    Row {
        id: "a:0:0",
        own: 0,
        clusters: 3,
        responses: &[
            Response("a:0:0", 1, 1, 2, Progress::Kept),
            Response("a:0:0", 2, 0, 3, Progress::SecondRound),
            Response("a:0:0/2", 1, 4, 10, Progress::Kept),
            Response("a:0:0/2", 2, 6, 5, Progress::Done),
        ],
        said: "a:0:0 a:0:0/2 at 10 - 1 0",
    },
    // neither the own cluster nor one that is none of them is heard
    Row {
        id: "b:1:0",
        own: 1,
        clusters: 3,
        responses: &[
            Response("b:1:0", 1, 1, 2, Progress::Ignored),
            Response("b:1:0", 3, 1, 2, Progress::Ignored),
            Response("b:1:0/2", 0, 1, 2, Progress::Ignored),
            Response("b:1:0", 0, 1, 2, Progress::Kept),
        ],
        said: "b:1:0 b:1:0 none",
    },
    // the second round of four clusters lacks one answer
    Row {
        id: "d:0:9",
        own: 3,
        clusters: 4,
        responses: &[
            Response("d:0:9", 0, 1, 10, Progress::Kept),
            Response("d:0:9", 2, 3, 11, Progress::Kept),
            Response("d:0:9", 1, 2, 12, Progress::SecondRound),
            Response("d:0:9/2", 1, 7, 13, Progress::Kept),
            Response("d:0:9/2", 2, 8, 14, Progress::Kept),
        ],
        said: "d:0:9 d:0:9/2 none",
    },
];

/// The position of an entry of the first ledger.
fn at(entry: u64) -> Position {
    Position { ledger: 0, entry }
}

/// Adds the entry of a cut's local position and those of the remote ones, with `-` for a cluster without one.
fn add_cut(text: &mut String, cut: &Cut) -> Result<(), Memory> {
    add_number(text, " at ", cut.local.entry, "")?;
    for remote in cut.remote.as_slice() {
        match remote {
            None => add_word(text, " -")?,
            Some(position) => add_number(text, " ", position.entry, "")?,
        }
    }
    Ok(())
}

/// Adds a builder's two ids and its cut.
fn add_said(text: &mut String, builder: &SnapshotBuilder) -> Result<(), Memory> {
    add_word(text, builder.id())?;
    add_word(text, " ")?;
    add_word(text, builder.current_id())?;
    match builder.cut() {
        None => add_word(text, " none"),
        Some(cut) => add_cut(text, cut),
    }
}

/// Hands a response to a copy of a builder, which takes its place; whether it did what the response is to do.
fn respond(
    alloc: Global,
    builder: &mut SnapshotBuilder,
    response: &Response,
) -> Result<bool, Memory> {
    let Response(id, cluster, remote, local, progress) = response;
    let mut tried = builder.copy(alloc)?;
    let did = tried.on_response(id, *cluster, at(*remote), at(*local));
    *builder = tried;
    Ok(did == *progress)
}

/// Adds what a builder says after responses, or the number of the one that did something else.
fn add_told(
    alloc: Global,
    text: &mut String,
    builder: &mut SnapshotBuilder,
    responses: &[Response],
) -> Result<(), Memory> {
    for (number, response) in responses.iter().enumerate() {
        if !respond(alloc, builder, response)? {
            return add_number(text, "response ", number as u64, "");
        }
    }
    add_said(text, builder)
}

/// Whether a new builder says after the responses of a row what it is to say.
fn is_said(alloc: Global, row: &Row) -> Result<bool, Memory>
    requires own { row.now.own < row.now.clusters }
    requires clusters { 2 ≤ row.now.clusters }
{
    let mut builder = SnapshotBuilder::start(alloc, row.id, row.own, row.clusters)?;
    let mut text = String::new(alloc);
    let added = add_told(alloc, &mut text, &mut builder, row.responses);
    drop(builder);
    let is_said = text.as_str() == row.said;
    drop(text);
    added?;
    Ok(is_said)
}

#[test]
fn responses_make_a_snapshot(rt: HostRuntime) -> Result<(), Memory> {
    for row in TABLE.iter() {
        assert!(rt; row.own < row.clusters && row.clusters >= 2);
        assert!(rt; is_said(rt.alloc(), row)?);
    }
    Ok(())
}
