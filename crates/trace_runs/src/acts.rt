//! Lines.
ghost use Rattle.std.specs.Prelude.{◌≡◌, ◌≤◌, ◌++◌, ◌∷◌, [], length, codes, OnOk, OnErr, take};
ghost use Rattle.geo_base.specs.Report.{words};
ghost use Rattle.geo_base.specs.TraceItems.{Acks, Appends, Begins, Creates, Deletes, Seeks};
ghost use Rattle.geo_base.specs.TraceText.{item_line, shown_by, shown_cause, shown_start};
ghost use Rattle.geo_base.specs.Setup.{Setup};
ghost use Rattle.report_lines.specs.Spaced.{spaced};
ghost use Rattle.trace_runs.specs.Naming.{act_line};

use crate::name_words::Naming;
use crate::ranges::add_ranges;
use cursor_acks::Cursor;
use geo_base::limits::CLUSTERS;
use geo_base::{Blob, Cause, Entry, Memory, Position};
use report_lines::{add_entry_words, add_number, add_position};

/// `event NUMBER`
#[tactic(auto, unfolding(geo_base::specs::TraceText::item_line))]
pub fn add_begin(lines: &mut Blob, number: u64) -> Result<(), Memory>
    ensures ok { (s : Setup) → OnOk result (lines.new ≡ lines.old ++ (item_line s (Begins number) ++ 10 ∷ [])) }
    ensures err { OnErr result (take (length lines.old) lines.new ≡ lines.old) }
{
    lines.append(b"event ")?;
    add_number(lines, number)?;
    lines.append(b"\n")
}

/// `append TOPIC CLUSTER ENTRY`, and after an update of the own cluster `by POSITION`, which is that of the snapshot that it tells.
#[tactic(auto, using(crate::proofs::Lines::append_whole))]
pub fn add_append(
    lines: &mut Blob,
    at: &Naming<'_>,
    position: Position,
    entry: &Entry,
    by: Option<Position>,
) -> Result<(), Memory>
    requires { length at.now.clusters ≤ CLUSTERS }
    ensures ok { OnOk result (lines.new ≡ lines.old ++ act_line at.now (Appends position entry.now by)) }
    ensures err { OnErr result (take (length lines.old) lines.new ≡ lines.old) }
{
    add_head(lines, b"append", at)?;
    lines.append(b" ")?;
    add_entry_words(lines, at.clusters(), position, entry)?;
    add_by(lines, by)?;
    lines.append(b"\n")
}

/// `create TOPIC CLUSTER SUB START`
pub fn add_create(lines: &mut Blob, at: &Naming<'_>, sub: &[u8], latest: bool) -> Result<(), Memory>
    ensures ok { OnOk result (lines.new ≡ lines.old ++ act_line at.now (Creates sub.now latest)) }
    ensures err { OnErr result (take (length lines.old) lines.new ≡ lines.old) }
{
    add_sub(lines, b"create", at, sub)?;
    lines.append(b" ")?;
    lines.append(start(latest))?;
    lines.append(b"\n")
}

/// `delete TOPIC CLUSTER SUB`
pub fn add_delete(lines: &mut Blob, at: &Naming<'_>, sub: &[u8]) -> Result<(), Memory>
    ensures ok { OnOk result (lines.new ≡ lines.old ++ act_line at.now (Deletes sub.now)) }
    ensures err { OnErr result (take (length lines.old) lines.new ≡ lines.old) }
{
    add_sub(lines, b"delete", at, sub)?;
    lines.append(b"\n")
}

/// `ack TOPIC CLUSTER SUB RANGES CAUSE`, of the indexes that were gained.
#[tactic(auto, using(crate::proofs::Lines::acks_whole))]
pub fn add_acks(
    lines: &mut Blob,
    at: &Naming<'_>,
    sub: &[u8],
    gained: &Cursor,
    cause: Cause,
) -> Result<(), Memory>
    ensures ok { OnOk result (lines.new ≡ lines.old ++ act_line at.now (Acks sub.now gained.now.indexes cause)) }
    ensures err { OnErr result (take (length lines.old) lines.new ≡ lines.old) }
{
    add_sub(lines, b"ack", at, sub)?;
    lines.append(b" ")?;
    add_ranges(lines, gained)?;
    add_cause(lines, cause)?;
    lines.append(b"\n")
}

/// `seek TOPIC CLUSTER SUB INDEX`
pub fn add_seek(lines: &mut Blob, at: &Naming<'_>, sub: &[u8], index: u64) -> Result<(), Memory>
    ensures ok { OnOk result (lines.new ≡ lines.old ++ act_line at.now (Seeks sub.now index)) }
    ensures err { OnErr result (take (length lines.old) lines.new ≡ lines.old) }
{
    add_sub(lines, b"seek", at, sub)?;
    lines.append(b" ")?;
    add_number(lines, index)?;
    lines.append(b"\n")
}

/// What was done, and where.
fn add_head(lines: &mut Blob, kind: &[u8], at: &Naming<'_>) -> Result<(), Memory>
    ensures ok { OnOk result (lines.new ≡ lines.old ++ (kind.now ++ (32 ∷ (at.now.topic ++ (32 ∷ at.now.cluster))))) }
    ensures err { OnErr result (take (length lines.old) lines.new ≡ lines.old) }
{
    lines.append(kind)?;
    lines.append(b" ")?;
    lines.append(at.topic())?;
    lines.append(b" ")?;
    lines.append(at.cluster())
}

/// What was done to a subscription, and where.
fn add_sub(lines: &mut Blob, kind: &[u8], at: &Naming<'_>, sub: &[u8]) -> Result<(), Memory>
    ensures ok { OnOk result (lines.new ≡ lines.old ++ (kind.now ++ (32 ∷ (at.now.topic ++ (32 ∷ (at.now.cluster ++ (32 ∷ sub.now))))))) }
    ensures err { OnErr result (take (length lines.old) lines.new ≡ lines.old) }
{
    add_head(lines, kind, at)?;
    lines.append(b" ")?;
    lines.append(sub)
}

/// Where a subscription begins.
fn start(latest: bool) -> &'static [u8]
    ensures { result.now ≡ shown_start latest }
{
    if latest { b"latest" } else { b"earliest" }
}

/// Who acknowledged, after a space.
fn add_cause(lines: &mut Blob, cause: Cause) -> Result<(), Memory>
    ensures ok { OnOk result (lines.new ≡ lines.old ++ spaced (shown_cause cause)) }
    ensures err { OnErr result (take (length lines.old) lines.new ≡ lines.old) }
{
    match cause {
        Cause::Client => lines.append(b" client"),
        Cause::Marker => lines.append(b" marker"),
        Cause::Update(position) => {
            lines.append(b" update ")?;
            add_position(lines, position)
        }
        Cause::Plain | Cause::Seek => Ok(()),
    }
}

/// The snapshot that an update tells, after a space.
fn add_by(lines: &mut Blob, by: Option<Position>) -> Result<(), Memory>
    ensures ok { OnOk result (lines.new ≡ lines.old ++ spaced (shown_by by)) }
    ensures err { OnErr result (take (length lines.old) lines.new ≡ lines.old) }
{
    match by {
        None => Ok(()),
        Some(position) => {
            lines.append(b" by ")?;
            add_position(lines, position)
        }
    }
}
