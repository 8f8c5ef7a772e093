//! An entry in a line.
ghost use Rattle.std.specs.Prelude.{◌≡◌, ◌≤◌, [], length, IfOk};
ghost use Rattle.geo_base.specs.Client.{target_names};
ghost use Rattle.trace_lines.specs.Entries.{data_of, entry_with, kind_of, what_of};

use crate::line::What;
use crate::markers::{own_update_of, request_of, response_of, snapshot_of, unread_of, update_of};
use crate::names::{Names, target_names};
use crate::texts::{are_printable, key_of};
use crate::words::LineWords;
use geo_base::{Blob, Content, Entry, Ident, Memory, Metadata, ProducerName, Targets, Text};
use script_rows::{NameTable, is_word};
use std::alloc::Global;

/// `data KEY TEXT`: the text is all that is left, spaces included.
#[tactic(auto, using(crate::proofs::Told::data_words))]
fn data_of(alloc: Global, words: &mut LineWords<'_>) -> Result<Option<What>, Memory>
    ensures { IfOk result (λ what. what ≡ data_of words.old) }
{
    let Some(key) = words.next_word() else {
        return Ok(None);
    };
    let Some(text) = words.text() else {
        return Ok(None);
    };
    let Some(key) = key_of(alloc, key)? else {
        return Ok(None);
    };
    if !are_printable(text) {
        return Ok(None);
    }
    Ok(Some(What {
        content: Content::Data,
        key,
        payload: Blob::from_slice(alloc, text)?,
        by: None,
    }))
}

/// What an entry is, by its first word.
pub(crate) fn what_of(
    alloc: Global,
    clusters: &NameTable<'_>,
    is_own: bool,
    words: &mut LineWords<'_>,
) -> Result<Option<What>, Memory>
    ensures { IfOk result (λ what. what ≡ what_of clusters.now is_own words.old) }
{
    match words.next_word() {
        None => Ok(None),
        Some(kind) => kind_of(alloc, clusters, is_own, kind, words),
    }
}

fn kind_of(
    alloc: Global,
    clusters: &NameTable<'_>,
    is_own: bool,
    kind: &[u8],
    words: &mut LineWords<'_>,
) -> Result<Option<What>, Memory>
    ensures { IfOk result (λ what. what ≡ kind_of clusters.now is_own kind.now words.old) }
{
    if is_word(kind, b"data") {
        data_of(alloc, words)
    } else if is_word(kind, b"update") {
        if is_own {
            own_update_of(alloc, clusters, words)
        } else {
            update_of(alloc, clusters, words)
        }
    } else if is_word(kind, b"snapshot") {
        snapshot_of(alloc, clusters, words)
    } else if is_word(kind, b"request") {
        request_of(alloc, clusters, words)
    } else if is_word(kind, b"response") {
        response_of(alloc, clusters, words)
    } else if is_word(kind, b"unread") {
        Ok(unread_of(alloc, words))
    } else {
        Ok(None)
    }
}

/// What names an entry, its producer where it stands in the line.
#[derive(Clone, Copy, Drop)]
pub(crate) struct Named<'a> {
    pub(crate) origin: u32,
    pub(crate) producer: &'a str,
    pub(crate) seq: u64,
}

/// The entry that the words of a line tell.
pub(crate) fn entry_with(
    alloc: Global,
    names: &Names<'_>,
    named: Named<'_>,
    to: Targets,
    what: What,
) -> Result<Entry, Memory>
    ensures { IfOk result (λ entry. entry ≡ entry_with names.now.clusters (record { origin = named.entry.origin; producer = named.entry.producer.now; seq = named.entry.seq }) to what) }
{
    let What {
        content,
        key,
        payload,
        by: _by,
    } = what;
    match ident_and_meta(alloc, names, named, to, key) {
        Ok((ident, meta)) => Ok(Entry {
            ident,
            content,
            to,
            meta,
            payload,
        }),
        Err(memory) => {
            drop(content);
            drop(payload);
            Err(memory)
        }
    }
}

/// What names an entry, and what stands beside what it is.
fn ident_and_meta(
    alloc: Global,
    names: &Names<'_>,
    named: Named<'_>,
    to: Targets,
    key: Option<Text>,
) -> Result<(Ident, Metadata), Memory>
    ensures ident { IfOk result (λ parts. parts.0 ≡ record { origin = named.entry.origin; producer = named.entry.producer.now; seq = named.entry.seq }) }
    ensures meta { IfOk result (λ parts. parts.1 ≡ record { publish_time = 0; key = key; names = target_names 0 to names.now.clusters; rest = [] }) }
{
    let targets = target_names(alloc, names.cluster_names(), to)?;
    let meta = Metadata::new(alloc, 0, key, targets, Blob::new(alloc))?;
    let producer = Text::from_str(alloc, named.producer)?;
    let ident = Ident {
        origin: named.origin,
        producer: ProducerName::from_text(producer),
        seq: named.seq,
    };
    Ok((ident, meta))
}
