//! Lines after lines.
//!
//! Where memory ends in the midst, what stood before stands, with a part of what was to be appended or none: a whole report is made
//! apart from where it goes.
ghost use Rattle.std.specs.Prelude.{◌≡◌, ◌≤◌, ◌<◌, ◌++◌, ◌∷◌, [], length, map, slice_get, Some, OnOk, string_bytes, OnErr, take};
ghost use Rattle.geo_base.specs.declared.entry.Entry.{Entry};
ghost use Rattle.geo_base.specs.Report.{entry_line, entry_lines, got_line, with_line_feeds, words};
ghost use Rattle.geo_base.specs.Topic.{position_at};
ghost use Rattle.report_lines.specs.Entries.{entry_words};

use crate::words::{add_content, add_ident, add_position, add_targets};
use geo_base::limits::CLUSTERS;
use geo_base::{Blob, ClusterName, Entry, EntryStore, Ident, Memory, Position};

/// Appends one more line.
pub fn add(lines: &mut Blob, line: String) -> Result<(), Memory>
    ensures ok { OnOk result (lines.new ≡ lines.old ++ string_bytes line) }
    ensures err { OnErr result (lines.new ≡ lines.old) }
{
    lines.append(line.as_bytes())
}

/// Appends the entries of a topic, each at its position.
pub fn add_entries<S: EntryStore>(
    lines: &mut Blob,
    clusters: &[ClusterName],
    store: &S,
) -> Result<(), Memory>
    requires { length clusters.now ≤ CLUSTERS }
    ensures ok { OnOk result (lines.new ≡ lines.old ++ with_line_feeds (entry_lines clusters.now (S.ledgers store.now) 0 (S.entries store.now))) }
    ensures err { OnErr result (take (length lines.old) lines.new ≡ lines.old) }
{
    for index in 0..store.len() {
        add_entry(lines, clusters, store, index)?;
    }
    Ok(())
}

/// Appends the entry of a topic at an index, at its position.
pub fn add_entry<S: EntryStore>(
    lines: &mut Blob,
    clusters: &[ClusterName],
    store: &S,
    index: usize,
) -> Result<(), Memory>
    requires few { length clusters.now ≤ CLUSTERS }
    requires within { index < length (S.entries store.now) }
    ensures ok { (e : Entry) → slice_get (S.entries store.now) index ≡ Some e → OnOk result (lines.new ≡ lines.old ++ (entry_line clusters.now (position_at (S.ledgers store.now) index) e ++ 10 ∷ [])) }
    ensures err { OnErr result (take (length lines.old) lines.new ≡ lines.old) }
{
    let position = place(store, index);
    match store.get(index) {
        Some(entry) => add_entry_line(lines, clusters, position, entry),
        None => unreachable!(),
    }
}

/// Appends an entry at a position: a message, a marker, or a marker that nobody reads.
#[tactic(auto, using(crate::proofs::Wholes::line_whole))]
pub fn add_entry_line(
    lines: &mut Blob,
    clusters: &[ClusterName],
    position: Position,
    entry: &Entry,
) -> Result<(), Memory>
    requires { length clusters.now ≤ CLUSTERS }
    ensures ok { OnOk result (lines.new ≡ lines.old ++ (entry_line clusters.now position entry.now ++ 10 ∷ [])) }
    ensures err { OnErr result (take (length lines.old) lines.new ≡ lines.old) }
{
    lines.append(b"entry ")?;
    add_entry_words(lines, clusters, position, entry)?;
    lines.append(b"\n")
}

/// Appends the words of an entry at a position: all of its line but the first word.
#[tactic(auto, using(crate::proofs::Wholes::words_whole))]
pub fn add_entry_words(
    lines: &mut Blob,
    clusters: &[ClusterName],
    position: Position,
    entry: &Entry,
) -> Result<(), Memory>
    requires { length clusters.now ≤ CLUSTERS }
    ensures ok { OnOk result (lines.new ≡ lines.old ++ words (entry_words clusters.now position entry.now)) }
    ensures err { OnErr result (take (length lines.old) lines.new ≡ lines.old) }
{
    add_position(lines, position)?;
    lines.append(b" ")?;
    add_ident(lines, clusters, &entry.ident)?;
    lines.append(b" ")?;
    add_targets(lines, clusters, entry.to)?;
    lines.append(b" ")?;
    add_content(lines, clusters, entry)
}

/// The position of an index; 0:0 where nothing stands there.
fn place<S: EntryStore>(store: &S, index: usize) -> Position
    ensures { result ≡ position_at (S.ledgers store.now) index }
{
    match store.position_of(index) {
        Some(position) => position,
        None => Position {
            ledger: 0,
            entry: 0,
        },
    }
}

/// Appends the messages that a client got, in order of receipt.
pub fn add_got(lines: &mut Blob, clusters: &[ClusterName], got: &[Ident]) -> Result<(), Memory>
    ensures ok { OnOk result (lines.new ≡ lines.old ++ with_line_feeds (map (got_line clusters.now) got.now)) }
    ensures err { OnErr result (take (length lines.old) lines.new ≡ lines.old) }
{
    for ident in got {
        add_one(lines, clusters, ident)?;
    }
    Ok(())
}

/// A message that a client got.
fn add_one(lines: &mut Blob, clusters: &[ClusterName], ident: &Ident) -> Result<(), Memory>
    ensures ok { OnOk result (lines.new ≡ lines.old ++ (got_line clusters.now ident.now ++ 10 ∷ [])) }
    ensures err { OnErr result (take (length lines.old) lines.new ≡ lines.old) }
{
    lines.append(b"got ")?;
    add_ident(lines, clusters, ident)?;
    lines.append(b"\n")
}
