//! Lines.
ghost use Rattle.std.specs.Prelude.{◌≡◌, ◌<◌, ℕ, [], ◌∷◌, Some, length, option_map, IfNone, IfOk, IfSome, MatchOption};
ghost use Rattle.geo_base.specs.TraceItems.{Begins};
ghost use Rattle.trace_lines.specs.Lines.{ack_of, act_of, append_of, append_with, cause_of, create_of, delete_of, entry_of, event_of, item_read, seek_of, write_of};
ghost use Rattle.trace_lines.specs.Names.{DeclaredNames};
ghost use Rattle.trace_lines.specs.Ranges.{ranges_from, ranges_of};
ghost use Rattle.trace_lines.specs.Said.{act_said, item_said};
ghost use Rattle.trace_lines.specs.Words.{start_of};

use crate::entries::{Named, entry_with, what_of};
use crate::line::{Line, Written};
use crate::names::{Names, declared, targets_of};
use crate::numbers::{may_follow, number, position_of, range_of};
use crate::ranges::AckedRanges;
use crate::texts::{sub_of, text_in};
use crate::words::LineWords;
use geo_base::{Cause, Entry, Memory, Position, Text, name_text};
use script_rows::{Parts, is_word};
use std::alloc::Global;

/// What a line says; None where it has no form.
#[tactic(auto, unfolding(crate::specs::Lines::item_read))]
pub fn line_of(alloc: Global, names: &Names<'_>, line: &[u8]) -> Result<Option<Line>, Memory>
    ensures { IfOk result (λ said. option_map item_said said ≡ item_read names.now line.now) }
{
    let mut words = LineWords::new(line);
    let Some(kind) = words.next_word() else {
        return Ok(None);
    };
    if is_word(kind, b"event") {
        return Ok(event_of(&mut words));
    }
    write_of(alloc, names, kind, &mut words)
}

/// The number of the event that a line begins, whatever names are declared; None exactly where it begins none. It takes no memory.
#[tactic(auto, unfolding(crate::specs::Lines::item_read))]
pub fn begun_event(line: &[u8]) -> Option<u64>
    ensures found { IfSome result (λ number. (names : DeclaredNames) → item_read names line.now ≡ Some (Begins number)) }
    ensures none { IfNone result ((names : DeclaredNames) (number : ℕ) → item_read names line.now ≡ Some (Begins number) → ⊥) }
{
    let mut words = LineWords::new(line);
    let kind = words.next_word()?;
    if is_word(kind, b"event") {
        event_number(&mut words)
    } else {
        None
    }
}

/// `event NUMBER`
fn event_of(words: &mut LineWords<'_>) -> Option<Line>
    ensures { option_map item_said result ≡ event_of words.old }
{
    let number = event_number(words)?;
    Some(Line::Begins(number))
}

fn event_number(words: &mut LineWords<'_>) -> Option<u64>
    ensures { option_map Begins result ≡ event_of words.old }
{
    number(words.last_word()?)
}

/// `KIND TOPIC CLUSTER ..`
fn write_of(
    alloc: Global,
    names: &Names<'_>,
    kind: &[u8],
    words: &mut LineWords<'_>,
) -> Result<Option<Line>, Memory>
    ensures { IfOk result (λ said. option_map item_said said ≡ write_of names.now kind.now words.old) }
{
    let Some((topic, cluster)) = words.next_two() else {
        return Ok(None);
    };
    let Some(topic) = declared(names.topics(), topic) else {
        return Ok(None);
    };
    let Some(cluster) = declared(names.clusters(), cluster) else {
        return Ok(None);
    };
    match written_of(alloc, names, cluster, kind, words)? {
        None => Ok(None),
        Some(written) => Ok(Some(Line::Writes {
            topic,
            cluster,
            written,
        })),
    }
}

/// What was written at a cluster, by the first word of the line.
fn written_of(
    alloc: Global,
    names: &Names<'_>,
    cluster: u32,
    kind: &[u8],
    words: &mut LineWords<'_>,
) -> Result<Option<Written>, Memory>
    ensures { IfOk result (λ said. option_map act_said said ≡ act_of names.now.clusters cluster kind.now words.old) }
{
    if is_word(kind, b"append") {
        append_of(alloc, names, cluster, words)
    } else if is_word(kind, b"ack") {
        ack_of(alloc, words)
    } else if is_word(kind, b"create") {
        create_of(alloc, words)
    } else if is_word(kind, b"delete") {
        delete_of(alloc, words)
    } else if is_word(kind, b"seek") {
        seek_of(alloc, words)
    } else {
        Ok(None)
    }
}

/// A number that no cluster has, so that no entry is of the cluster where it stands, and an update has no ` by L:E` after it.
const NO_CLUSTER: u32 = u32::MAX;

/// `POSITION ORIGIN PRODUCER SEQ LIST WHAT`: an entry with its position, as a report shows it; None exactly where the words have not this
/// form.
pub fn entry_of(
    alloc: Global,
    names: &Names<'_>,
    words: &mut LineWords<'_>,
) -> Result<Option<(Position, Entry)>, Memory>
    ensures { IfOk result (λ placed. placed ≡ entry_of names.now.clusters words.old) }
{
    match append_of(alloc, names, NO_CLUSTER, words)? {
        Some(
            Written::Appends {
                position,
                entry,
                by: _,
            },
        ) => Ok(Some((position, entry))),
        Some(other) => {
            drop(other);
            Ok(None)
        }
        None => Ok(None),
    }
}

/// `POSITION ORIGIN PRODUCER SEQ LIST WHAT`
fn append_of(
    alloc: Global,
    names: &Names<'_>,
    cluster: u32,
    words: &mut LineWords<'_>,
) -> Result<Option<Written>, Memory>
    ensures { IfOk result (λ said. option_map act_said said ≡ append_of names.now.clusters cluster words.old) }
{
    let Some(head) = head_of(words) else {
        return Ok(None);
    };
    let Some(position) = position_of(head.position) else {
        return Ok(None);
    };
    let Some(origin) = declared(names.clusters(), head.origin) else {
        return Ok(None);
    };
    let Some(producer) = text_in(head.producer) else {
        return Ok(None);
    };
    let Some(seq) = number(head.seq) else {
        return Ok(None);
    };
    let named = Named {
        origin,
        producer,
        seq,
    };
    let begun = Begun {
        position,
        named,
        list: head.list,
    };
    append_with(alloc, names, cluster, begun, words)
}

/// Where an entry stands and what names it, and its list as it is written.
#[derive(Clone, Copy, Drop)]
struct Begun<'a> {
    position: Position,
    named: Named<'a>,
    list: &'a [u8],
}

/// `LIST WHAT`
fn append_with(
    alloc: Global,
    names: &Names<'_>,
    cluster: u32,
    begun: Begun<'_>,
    words: &mut LineWords<'_>,
) -> Result<Option<Written>, Memory>
    ensures { IfOk result (λ said. option_map act_said said ≡ append_with names.now.clusters cluster begun.entry.position (record { origin = begun.entry.named.origin; producer = begun.entry.named.producer.now; seq = begun.entry.named.seq }) begun.entry.list.now words.old) }
{
    let Some(to) = targets_of(alloc, names.clusters(), begun.list)? else {
        return Ok(None);
    };
    let is_own = begun.named.origin == cluster;
    let Some(what) = what_of(alloc, names.clusters(), is_own, words)? else {
        return Ok(None);
    };
    let by = what.by;
    let entry = entry_with(alloc, names, begun.named, to, what)?;
    Ok(Some(Written::Appends {
        position: begun.position,
        entry,
        by,
    }))
}

/// The words of an entry before what it is.
#[derive(Clone, Copy, Drop)]
struct Head<'a> {
    position: &'a [u8],
    origin: &'a [u8],
    producer: &'a [u8],
    seq: &'a [u8],
    list: &'a [u8],
}

fn head_of<'a>(words: &mut LineWords<'a>) -> Option<Head<'a>>
    ensures { MatchOption result (length words.old < 5)
        (λ head. words.old ≡ head.position.now ∷ head.origin.now ∷ head.producer.now ∷ head.seq.now ∷ head.list.now ∷ words.new) }
{
    let (position, origin) = words.next_two()?;
    let (producer, seq) = words.next_two()?;
    let list = words.next_word()?;
    Some(Head {
        position,
        origin,
        producer,
        seq,
        list,
    })
}

/// `SUB latest` or `SUB earliest`
fn create_of(alloc: Global, words: &mut LineWords<'_>) -> Result<Option<Written>, Memory>
    ensures { IfOk result (λ said. option_map act_said said ≡ create_of words.old) }
{
    let Some((sub, start)) = words.last_two() else {
        return Ok(None);
    };
    let Some(sub) = name_text(sub) else {
        return Ok(None);
    };
    let Some(latest) = start_of(start) else {
        return Ok(None);
    };
    let sub = Text::from_str(alloc, sub)?;
    Ok(Some(Written::Creates { sub, latest }))
}

/// Whether a subscription begins at Latest.
fn start_of(word: &[u8]) -> Option<bool>
    ensures { result ≡ start_of word.now }
{
    if is_word(word, b"latest") {
        Some(true)
    } else if is_word(word, b"earliest") {
        Some(false)
    } else {
        None
    }
}

/// `SUB`
fn delete_of(alloc: Global, words: &mut LineWords<'_>) -> Result<Option<Written>, Memory>
    ensures { IfOk result (λ said. option_map act_said said ≡ delete_of words.old) }
{
    let Some(sub) = words.last_word() else {
        return Ok(None);
    };
    match sub_of(alloc, sub)? {
        None => Ok(None),
        Some(sub) => Ok(Some(Written::Deletes { sub })),
    }
}

/// `SUB RANGES CAUSE`
fn ack_of(alloc: Global, words: &mut LineWords<'_>) -> Result<Option<Written>, Memory>
    ensures { IfOk result (λ said. option_map act_said said ≡ ack_of words.old) }
{
    let Some((sub, ranges)) = words.next_two() else {
        return Ok(None);
    };
    let Some(sub) = name_text(sub) else {
        return Ok(None);
    };
    let Some(ranges) = ranges_of(alloc, ranges)? else {
        return Ok(None);
    };
    let Some(cause) = cause_of(words) else {
        return Ok(None);
    };
    let sub = Text::from_str(alloc, sub)?;
    Ok(Some(Written::Acks { sub, ranges, cause }))
}

/// `client`, `marker` or `update POSITION`
fn cause_of(words: &mut LineWords<'_>) -> Option<Cause>
    ensures { result ≡ cause_of words.old }
{
    let kind = words.next_word()?;
    match words.next_word() {
        None if is_word(kind, b"client") => Some(Cause::Client),
        None if is_word(kind, b"marker") => Some(Cause::Marker),
        None => None,
        Some(position) => {
            if words.next_word().is_some() || !is_word(kind, b"update") {
                return None;
            }
            Some(Cause::Update(position_of(position)?))
        }
    }
}

/// Ranges of indexes, with commas; None exactly where the word has not this form.
#[tactic(auto, using(crate::proofs::SoFar::ranges_so_far))]
pub fn ranges_of(alloc: Global, word: &[u8]) -> Result<Option<AckedRanges>, Memory>
    ensures { IfOk result (λ ranges. ranges ≡ ranges_of word.now) }
{
    let mut ranges = AckedRanges::new(alloc);
    if is_word(word, b"-") {
        return Ok(Some(ranges));
    }
    let mut parts = Parts::new(word, b',');
    let mut last = None;
    while let Some(part) = parts.next_part() {
        let Some(range) = range_of(part) else {
            return Ok(None);
        };
        if !may_follow(last, range.first) {
            return Ok(None);
        }
        ranges.push(range)?;
        last = Some(range.last);
    }
    Ok(Some(ranges))
}

/// `SUB INDEX`
fn seek_of(alloc: Global, words: &mut LineWords<'_>) -> Result<Option<Written>, Memory>
    ensures { IfOk result (λ said. option_map act_said said ≡ seek_of words.old) }
{
    let Some((sub, index)) = words.last_two() else {
        return Ok(None);
    };
    let Some(sub) = name_text(sub) else {
        return Ok(None);
    };
    let Some(index) = number(index) else {
        return Ok(None);
    };
    let sub = Text::from_str(alloc, sub)?;
    Ok(Some(Written::Seeks { sub, index }))
}
