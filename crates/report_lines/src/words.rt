//! The words of the report's lines, each appended to what stands before it.
ghost use Rattle.std.specs.Prelude.{◌≡◌, ◌<◌, ◌≤◌, ◌&&◌, [], ◌∷◌, ◌++◌, length, nat_le, codes, decimal, if◌then◌else◌, IfOk, OnErr, OnOk, slice_index_or, string_bytes, take};
ghost use Rattle.std.specs.List.{list_all};
ghost use Rattle.geo_base.specs.Client.{target_names};
ghost use Rattle.geo_base.specs.Report.{commas, printed, shown_content, shown_ident, shown_key, shown_kind, shown_position, shown_replicated, shown_state, shown_targets, words};
ghost use Rattle.report_lines.specs.Printed.{is_shown};

use crate::markers::add_marker;
use geo_base::limits::CLUSTERS;
use geo_base::{
    Blob, ClusterName, Content, Entry, Ident, Memory, Position, ReplicatorState, SubKind, Targets,
    Text,
};
use itoa::Buffer;
use std::alloc::Global;

/// Bytes of which a terminal shows each as itself: others are shown as `?`.
#[tactic(auto, using(crate::proofs::Shown::shown_whole))]
pub(crate) fn add_printed(lines: &mut Blob, bytes: &[u8]) -> Result<(), Memory>
    ensures ok { OnOk result (lines.new ≡ lines.old ++ printed bytes.now) }
    ensures err { OnErr result (take (length lines.old) lines.new ≡ lines.old) }
{
    if are_shown(bytes) {
        return lines.append(bytes);
    }
    for byte in bytes {
        lines.append(&[printed_byte(*byte)])?;
    }
    Ok(())
}

/// Whether a terminal shows each byte as itself, as nearly all are.
fn are_shown(bytes: &[u8]) -> bool
    ensures { result ≡ list_all is_shown bytes.now }
{
    bytes.iter().all(|b| is_shown(*b))
}

fn is_shown(byte: u8) -> bool
    ensures { result ≡ is_shown byte }
{
    matches!(byte, b' '..=b'~')
}

fn printed_byte(byte: u8) -> u8
    ensures { result ≡ (if is_shown byte then byte else 63) }
{
    if is_shown(byte) { byte } else { b'?' }
}

/// Appends a number.
pub fn add_number(lines: &mut Blob, number: u64) -> Result<(), Memory>
    ensures ok { OnOk result (lines.new ≡ lines.old ++ decimal number) }
    ensures err { OnErr result (lines.new ≡ lines.old) }
{
    lines.append(Buffer::new().format(number).as_bytes())
}

/// Appends a position: its ledger's number and its entry's number there.
pub fn add_position(lines: &mut Blob, position: Position) -> Result<(), Memory>
    ensures ok { OnOk result (lines.new ≡ lines.old ++ shown_position position) }
    ensures err { OnErr result (take (length lines.old) lines.new ≡ lines.old) }
{
    add_number(lines, position.ledger)?;
    lines.append(b":")?;
    add_number(lines, position.entry)
}

/// Appends what names an entry: its origin, its producer and its sequence id.
pub fn add_ident(lines: &mut Blob, clusters: &[ClusterName], ident: &Ident) -> Result<(), Memory>
    ensures ok { OnOk result (lines.new ≡ lines.old ++ words (shown_ident clusters.now ident.now)) }
    ensures err { OnErr result (take (length lines.old) lines.new ≡ lines.old) }
{
    lines.append(cluster_name(clusters, ident.origin).as_bytes())?;
    lines.append(b" ")?;
    add_printed(lines, ident.producer.as_bytes())?;
    lines.append(b" ")?;
    add_number(lines, ident.seq)
}

/// What an entry is: a message, a marker, or a marker of a type that nobody reads.
pub(crate) fn add_content(
    lines: &mut Blob,
    clusters: &[ClusterName],
    entry: &Entry,
) -> Result<(), Memory>
    ensures ok { OnOk result (lines.new ≡ lines.old ++ words (shown_content clusters.now entry.now entry.now.content)) }
    ensures err { OnErr result (take (length lines.old) lines.new ≡ lines.old) }
{
    match &entry.content {
        Content::Data => add_message(lines, entry),
        Content::Marked(marker) => add_marker(lines, clusters, marker.get()),
        Content::Unread(_) => lines.append(b"unread"),
    }
}

/// What a message is: its key and its payload.
fn add_message(lines: &mut Blob, entry: &Entry) -> Result<(), Memory>
    ensures ok { OnOk result (lines.new ≡ lines.old ++ words (codes "data" ∷ shown_key entry.now.meta.key ∷ printed entry.now.payload ∷ [])) }
    ensures err { OnErr result (take (length lines.old) lines.new ≡ lines.old) }
{
    lines.append(b"data ")?;
    add_key(lines, entry.meta.key())?;
    lines.append(b" ")?;
    add_printed(lines, entry.payload.as_slice())
}

/// A key, or `-` where there is none.
fn add_key(lines: &mut Blob, key: &Option<Text>) -> Result<(), Memory>
    ensures ok { OnOk result (lines.new ≡ lines.old ++ shown_key key.now) }
    ensures err { OnErr result (take (length lines.old) lines.new ≡ lines.old) }
{
    match key {
        Some(key) => add_printed(lines, key.as_bytes()),
        None => lines.append(b"-"),
    }
}

/// The names of a target list in cluster order with a comma between each two, `?` where it names none; `*` for all clusters.
pub(crate) fn add_targets(
    lines: &mut Blob,
    clusters: &[ClusterName],
    to: Targets,
) -> Result<(), Memory>
    requires { length clusters.now ≤ CLUSTERS }
    ensures ok { OnOk result (lines.new ≡ lines.old ++ shown_targets clusters.now to) }
    ensures err { OnErr result (take (length lines.old) lines.new ≡ lines.old) }
{
    match to {
        Targets::All => lines.append(b"*"),
        Targets::Only(bits) => add_names(lines, clusters, bits),
    }
}

fn add_names(lines: &mut Blob, clusters: &[ClusterName], bits: u8) -> Result<(), Memory>
    requires { length clusters.now ≤ CLUSTERS }
    ensures ok { OnOk result (lines.new ≡ lines.old ++ commas (target_names 0 (Targets.Only bits) clusters.now)) }
    ensures err { OnErr result (take (length lines.old) lines.new ≡ lines.old) }
{
    let mut is_first = true;
    for (number, name) in clusters.iter().enumerate() {
        if Targets::Only(bits).contains(number as u32) {
            add_name(lines, is_first, name.as_str())?;
            is_first = false;
        }
    }
    if is_first {
        lines.append(b"?")?;
    }
    Ok(())
}

/// One more name, after a comma if it is not the first.
fn add_name(lines: &mut Blob, is_first: bool, name: &str) -> Result<(), Memory>
    ensures ok { OnOk result (lines.new ≡ lines.old ++ (if is_first then name.now else 44 ∷ name.now)) }
    ensures err { OnErr result (take (length lines.old) lines.new ≡ lines.old) }
{
    if !is_first {
        lines.append(b",")?;
    }
    lines.append(name.as_bytes())
}

/// How many of its lines a client has done.
pub(crate) fn shown_done(alloc: Global, done: usize, lines: usize) -> Result<String, Memory>
    ensures { IfOk result (λ text. string_bytes text ≡ decimal done ++ (47 ∷ decimal lines)) }
{
    Ok(format!(in alloc; "{done}/{lines}")?)
}

/// The state of a replicator.
pub(crate) fn shown_state(state: ReplicatorState) -> &'static str
    ensures { result.now ≡ shown_state state }
{
    match state {
        ReplicatorState::Closed => "closed",
        ReplicatorState::Opening => "opening",
        ReplicatorState::Open => "open",
    }
}

/// A subscription's type.
pub(crate) fn shown_kind(kind: SubKind) -> &'static str
    ensures { result.now ≡ shown_kind kind }
{
    match kind {
        SubKind::Exclusive => "exclusive",
        SubKind::Shared => "shared",
        SubKind::Failover => "failover",
        SubKind::KeyShared => "keyshared",
    }
}

/// Whether a subscription is replicated.
pub(crate) fn shown_replicated(is_replicated: bool) -> &'static str
    ensures { result.now ≡ shown_replicated is_replicated }
{
    if is_replicated { "replicated" } else { "local" }
}

/// The name of a cluster; empty where there is none.
pub(crate) fn cluster_name(clusters: &[ClusterName], cluster: u32) -> &str
    ensures { result.now ≡ slice_index_or clusters.entry.now cluster [] }
{
    match clusters.get(cluster as usize) {
        Some(name) => name.as_str(),
        None => "",
    }
}
