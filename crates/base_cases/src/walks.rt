//! What no contract says: that what memory suffices for is answered. The states are those of the rules, line by line.
ghost use Rattle.std.specs.Prelude.{◌≡◌, true};
ghost use Rattle.std.specs.List.{list_all};
ghost use Rattle.geo_base.specs.Name.{is_name};
ghost use Rattle.geo_base.specs.Scripted.{is_optional_name};
ghost use Rattle.client.specs.Changing.{ClientFits};
ghost use Rattle.client.specs.Counted.{CanConnect, CanCount};
ghost use Rattle.client.specs.Site.{is_short_line};

use crate::story::{Act, ROWS, Row, State, add_lines};
use client::{Client, ClientSite, Prepared};
use geo_base::limits::{CLUSTERS, TEXT_BYTES};
use geo_base::{
    Blob, ClusterName, Line, Memory, ProducerName, Sequence, Stamp, Text, TopicName, name_text,
};
use std::alloc::Global;
use std::test::Fail;
use wire_ends::WirePacket;

fn is_cluster_name(name: &ClusterName) -> bool
    ensures { result ≡ is_name name.now }
{
    name_text(name.as_str().as_bytes()).is_some()
}

fn are_cluster_names(names: &[ClusterName]) -> bool
    ensures { result ≡ list_all is_name names.now }
{
    names.iter().all(|name| is_cluster_name(name))
}

fn is_optional_name(key: &Option<Text>) -> bool
    ensures { result ≡ is_optional_name key.now }
{
    match key {
        None => true,
        Some(key) => name_text(key.as_bytes()).is_some(),
    }
}

fn is_short(line: &Line) -> bool
    ensures { result ≡ is_short_line line.now }
{
    match line {
        Line::Pub { key, text, .. } => {
            is_optional_name(key) && text.as_slice().len() <= TEXT_BYTES
        }
        Line::Sub { sub, .. } => name_text(sub.as_bytes()).is_some(),
        _ => true,
    }
}

fn are_short(lines: &[Line]) -> bool
    ensures { result ≡ list_all is_short_line lines.now }
{
    lines.iter().all(|line| is_short(line))
}

/// How many packets are sent, once it is done.
fn done(alloc: Global, client: &mut Client, mut prepared: Prepared) -> usize
    requires { ClientFits prepared.change client.old }
{
    let sent = prepared.take_sent(alloc).len();
    client.commit(prepared);
    sent
}

/// What the client does or gets, and how many packets it sends.
fn happens(alloc: Global, site: &ClientSite, client: &mut Client, act: Act) -> Result<usize, Memory>
    requires connection { CanConnect client.old }
    requires counts { CanCount client.old }
{
    match act {
        Act::Go => {
            let prepared = client.prepare_go(alloc, site)?;
            Ok(done(alloc, client, prepared))
        }
        Act::Reconnect => {
            let prepared = client.prepare_reconnect(alloc, site)?;
            Ok(done(alloc, client, prepared))
        }
        Act::Get(session, bytes) => {
            let packet = WirePacket {
                session,
                stamp: Stamp::new(1),
                frame: Blob::from_slice(alloc, bytes)?,
            };
            let got = client.get(alloc, site, Some(&packet));
            drop(packet);
            got?;
            Ok(0)
        }
    }
}

/// Whether the client is as a row has it.
fn is_state(client: &Client, state: &State) -> bool {
    let view = client.view();
    let (done, in_force, lists, counts) = state;
    view.done == *done
        && [view.produce, view.sub, view.flow].as_slice() == *in_force
        && [view.unanswered.len(), view.held.len(), view.got.len()] == *lists
        && [view.receipts, view.duplicates, view.errors] == *counts
}

/// Whether the client sends and is what a row says, once what happens there has happened.
fn is_row(alloc: Global, site: &ClientSite, client: &mut Client, row: &Row) -> Result<bool, Memory>
    requires connection { CanConnect client.old }
    requires counts { CanCount client.old }
{
    let (act, sent, state) = row;
    Ok(happens(alloc, site, client, *act)? == *sent && is_state(client, state))
}

/// Whether the client is at each row what the row says.
fn follows(alloc: Global, site: &ClientSite, client: &mut Client) -> Result<bool, Memory> {
    for row in ROWS.iter() {
        if !client.can_connect() || !client.can_count() || !is_row(alloc, site, client, row)? {
            return Ok(false);
        }
    }
    Ok(true)
}

/// Whether a new client of these lines, at the first cluster, does what the rows say.
fn tells(
    alloc: Global,
    clusters: &[ClusterName],
    topics: &[TopicName],
    name: &ProducerName,
    lines: &[Line],
) -> Result<bool, Memory>
    requires named { is_name name.now ≡ true }
{
    if clusters.len() > CLUSTERS || !are_cluster_names(clusters) || !are_short(lines) {
        return Ok(false);
    }
    let site = ClientSite::new(clusters, topics, name, 0, 0, lines);
    let mut client = Client::new(alloc, &site)?;
    let told = follows(alloc, &site, &mut client);
    drop(client);
    told
}

/// The same of client c.
fn tells_named(
    alloc: Global,
    clusters: &[ClusterName],
    topics: &[TopicName],
    lines: &[Line],
) -> Result<bool, Memory> {
    let Ok(name) = ProducerName::read(alloc, "c") else {
        return Ok(false);
    };
    let told = tells(alloc, clusters, topics, &name, lines);
    drop(name);
    told
}

/// The same of topic t.
fn tells_of_topic(alloc: Global, clusters: &[ClusterName], lines: &[Line]) -> Result<bool, Memory> {
    let Ok(topic) = TopicName::read(alloc, "t") else {
        return Ok(false);
    };
    let topics = [topic];
    let told = tells_named(alloc, clusters, &topics, lines);
    drop(topics);
    told
}

/// The same at clusters a and b.
fn tells_at_clusters(alloc: Global, lines: &[Line]) -> Result<bool, Memory> {
    let Ok(first) = ClusterName::read(alloc, "a") else {
        return Ok(false);
    };
    let Ok(second) = ClusterName::read(alloc, "b") else {
        drop(first);
        return Ok(false);
    };
    let clusters = [first, second];
    let told = tells_of_topic(alloc, &clusters, lines);
    drop(clusters);
    told
}

/// The same of the lines of the story.
fn tells_story(alloc: Global) -> Result<bool, Memory> {
    let mut lines = Sequence::new(alloc);
    let added = add_lines(alloc, &mut lines);
    let told = tells_at_clusters(alloc, lines.as_slice());
    drop(lines);
    added?;
    told
}

#[test]
fn a_client_does_lines_of_all_kinds(rt: HostRuntime) -> Result<(), Fail> {
    let told = tells_story(rt.alloc())?;
    assert!(rt; told);
    Ok(())
}
