//! Lines.
ghost use Rattle.std.specs.Prelude.{◌≡◌, ◌≢◌, ℕ, List, [], ◌∷◌, IfOk, MatchOption, Some};
ghost use Rattle.observed_text.specs.Lines.{alone, at_cluster, below_said, brought_said, cursor_said, done_said, ident_of, in_logs, is_logged, line_said, logged_said, read_said, receipt_said, unsure_said};

use crate::line::{Line, Logged, Read};
use geo_base::{Ident, Memory, ProducerName};
use script_rows::is_word;
use std::alloc::Global;
use trace_lines::{
    LineWords, Names, declared, entry_of, number, position_of, ranges_of, sub_of, text_of,
};

/// What a line after the head says; None where it has no form.
#[tactic(auto, unfolding(crate::specs::Lines::line_said))]
pub(crate) fn line_of(alloc: Global, names: &Names<'_>, line: &[u8]) -> Result<Option<Line>, Memory>
    ensures { IfOk result (λ said. said ≡ line_said names.now line.now) }
{
    let mut words = LineWords::new(line);
    let Some((kind, topic)) = words.next_two() else {
        return Ok(None);
    };
    let Some(topic) = declared(names.topics(), topic) else {
        return Ok(None);
    };
    if is_logged(kind) {
        match logged_of(alloc, names, kind, &mut words)? {
            None => Ok(None),
            Some(logged) => Ok(Some(Line::Logs { topic, logged })),
        }
    } else {
        read_of(alloc, names, topic, kind, &mut words)
    }
}

/// Whether a line is of a topic alone, by its first word.
fn is_logged(kind: &[u8]) -> bool
    ensures { result ≡ is_logged kind.now }
{
    is_word(kind, b"done") || is_word(kind, b"receipt")
}

/// `CLUSTER ..`
fn read_of(
    alloc: Global,
    names: &Names<'_>,
    topic: u32,
    kind: &[u8],
    words: &mut LineWords<'_>,
) -> Result<Option<Line>, Memory>
    ensures { IfOk result (λ said. said ≡ at_cluster names.now kind.now topic words.old) }
{
    let Some(cluster) = words.next_word() else {
        return Ok(None);
    };
    let Some(cluster) = declared(names.clusters(), cluster) else {
        return Ok(None);
    };
    match read_by(alloc, names, kind, words)? {
        None => Ok(None),
        Some(read) => Ok(Some(Line::Reads {
            topic,
            cluster,
            read,
        })),
    }
}

/// What was read, by the first word of the line.
fn read_by(
    alloc: Global,
    names: &Names<'_>,
    kind: &[u8],
    words: &mut LineWords<'_>,
) -> Result<Option<Read>, Memory>
    ensures { IfOk result (λ said. said ≡ read_said names.now.clusters kind.now words.old) }
{
    if is_word(kind, b"entry") {
        match entry_of(alloc, names, words)? {
            None => Ok(None),
            Some((position, entry)) => Ok(Some(Read::Entry { position, entry })),
        }
    } else if is_word(kind, b"cursor") {
        cursor_of(alloc, words)
    } else if is_word(kind, b"brought") {
        brought_of(alloc, names, words)
    } else if is_word(kind, b"below") {
        below_of(alloc, words)
    } else if is_word(kind, b"unsure") {
        unsure_of(alloc, words)
    } else if is_word(kind, b"unread") {
        Ok(alone(words, Read::Unread))
    } else if is_word(kind, b"trimmed") {
        Ok(alone(words, Read::Trimmed))
    } else {
        Ok(None)
    }
}

/// A line that ends here.
fn alone(words: &mut LineWords<'_>, read: Read) -> Option<Read>
    ensures { result ≡ alone read words.old }
{
    match words.next_word() {
        None => Some(read),
        Some(_) => {
            drop(read);
            None
        }
    }
}

/// `SUB RANGES`
fn cursor_of(alloc: Global, words: &mut LineWords<'_>) -> Result<Option<Read>, Memory>
    ensures { IfOk result (λ said. said ≡ cursor_said words.old) }
{
    let Some((sub, ranges)) = words.last_two() else {
        return Ok(None);
    };
    let Some(ranges) = ranges_of(alloc, ranges)? else {
        return Ok(None);
    };
    match sub_of(alloc, sub) {
        Ok(Some(sub)) => Ok(Some(Read::Cursor { sub, ranges })),
        Ok(None) => {
            drop(ranges);
            Ok(None)
        }
        Err(memory) => {
            drop(ranges);
            Err(memory)
        }
    }
}

/// `CLUSTER RANGES`
fn brought_of(
    alloc: Global,
    names: &Names<'_>,
    words: &mut LineWords<'_>,
) -> Result<Option<Read>, Memory>
    ensures { IfOk result (λ said. said ≡ brought_said names.now.clusters words.old) }
{
    let Some((to, ranges)) = words.last_two() else {
        return Ok(None);
    };
    let Some(to) = declared(names.clusters(), to) else {
        return Ok(None);
    };
    match ranges_of(alloc, ranges)? {
        None => Ok(None),
        Some(ranges) => Ok(Some(Read::Brought { to, ranges })),
    }
}

/// `SUB INDEX`
fn below_of(alloc: Global, words: &mut LineWords<'_>) -> Result<Option<Read>, Memory>
    ensures { IfOk result (λ said. said ≡ below_said words.old) }
{
    let Some((sub, index)) = words.last_two() else {
        return Ok(None);
    };
    let Some(index) = number(index) else {
        return Ok(None);
    };
    match sub_of(alloc, sub)? {
        None => Ok(None),
        Some(sub) => Ok(Some(Read::Below { sub, index })),
    }
}

/// What is logged of a topic, by the first word of the line.
fn logged_of(
    alloc: Global,
    names: &Names<'_>,
    kind: &[u8],
    words: &mut LineWords<'_>,
) -> Result<Option<Logged>, Memory>
    ensures { IfOk result (λ said. said ≡ logged_said names.now.clusters kind.now words.old) }
{
    if is_word(kind, b"done") {
        done_of(alloc, names, words)
    } else {
        receipt_of(alloc, names, words)
    }
}

/// `SUB ORIGIN PRODUCER SEQ`
fn done_of(
    alloc: Global,
    names: &Names<'_>,
    words: &mut LineWords<'_>,
) -> Result<Option<Logged>, Memory>
    ensures { IfOk result (λ said. said ≡ done_said names.now.clusters words.old) }
{
    let Some((sub, named)) = words_of_done(words) else {
        return Ok(None);
    };
    let Some(sub) = sub_of(alloc, sub)? else {
        return Ok(None);
    };
    match ident_of(alloc, names, named) {
        Ok(Some(ident)) => Ok(Some(Logged::Done { sub, ident })),
        Ok(None) => {
            drop(sub);
            Ok(None)
        }
        Err(memory) => {
            drop(sub);
            Err(memory)
        }
    }
}

/// The four words that are left; None where fewer are left, or more.
fn words_of_done<'a>(words: &mut LineWords<'a>) -> Option<(&'a [u8], Named<'a>)>
    ensures { MatchOption result
        ((n o p q : List ℕ) → words.old ≢ n ∷ o ∷ p ∷ q ∷ [])
        (λ four. words.old ≡ four.0.now ∷ four.1.origin.now ∷ four.1.producer.now ∷ four.1.seq.now ∷ []) }
{
    let (sub, origin) = words.next_two()?;
    let (producer, seq) = words.last_two()?;
    let named = Named {
        origin,
        producer,
        seq,
    };
    Some((sub, named))
}

/// `SUB`
fn unsure_of(alloc: Global, words: &mut LineWords<'_>) -> Result<Option<Read>, Memory>
    ensures { IfOk result (λ said. said ≡ unsure_said words.old) }
{
    let Some(sub) = words.last_word() else {
        return Ok(None);
    };
    match sub_of(alloc, sub)? {
        None => Ok(None),
        Some(sub) => Ok(Some(Read::Unsure { sub })),
    }
}

/// `ORIGIN PRODUCER SEQ L:E`
fn receipt_of(
    alloc: Global,
    names: &Names<'_>,
    words: &mut LineWords<'_>,
) -> Result<Option<Logged>, Memory>
    ensures { IfOk result (λ said. said ≡ receipt_said names.now.clusters words.old) }
{
    let Some((named, position)) = words_of_receipt(words) else {
        return Ok(None);
    };
    let Some(position) = position_of(position) else {
        return Ok(None);
    };
    match ident_of(alloc, names, named)? {
        None => Ok(None),
        Some(ident) => Ok(Some(Logged::Receipt { ident, position })),
    }
}

/// The four words that are left; None where fewer are left, or more.
fn words_of_receipt<'a>(words: &mut LineWords<'a>) -> Option<(Named<'a>, &'a [u8])>
    ensures { MatchOption result
        ((o p q l : List ℕ) → words.old ≢ o ∷ p ∷ q ∷ l ∷ [])
        (λ four. words.old ≡ four.0.origin.now ∷ four.0.producer.now ∷ four.0.seq.now ∷ four.1.now ∷ []) }
{
    let (origin, producer) = words.next_two()?;
    let (seq, position) = words.last_two()?;
    let named = Named {
        origin,
        producer,
        seq,
    };
    Some((named, position))
}

/// The words that name a message.
#[derive(Clone, Copy, Drop)]
struct Named<'a> {
    origin: &'a [u8],
    producer: &'a [u8],
    seq: &'a [u8],
}

/// `ORIGIN PRODUCER SEQ`
fn ident_of(alloc: Global, names: &Names<'_>, named: Named<'_>) -> Result<Option<Ident>, Memory>
    ensures { IfOk result (λ ident. ident ≡ ident_of names.now.clusters named.entry.origin.now named.entry.producer.now named.entry.seq.now) }
{
    let Some(origin) = declared(names.clusters(), named.origin) else {
        return Ok(None);
    };
    let Some(seq) = number(named.seq) else {
        return Ok(None);
    };
    match text_of(alloc, named.producer)? {
        None => Ok(None),
        Some(producer) => Ok(Some(Ident {
            origin,
            producer: ProducerName::from_text(producer),
            seq,
        })),
    }
}
