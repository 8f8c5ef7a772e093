//! The entries of a topic.
ghost use Rattle.std.specs.Prelude.{◌≡◌, ◌<◌, [], ◌∷◌, ◌++◌, length, slice_get, true, vec_capacity, vec_len, IfOk, OnOk, OnErr, MatchOption};
ghost use Rattle.std.specs.List.{list_any};
ghost use Rattle.topic_store.specs.Table.{noted, stream_of, verdict};
ghost use Rattle.geo_base.specs.Audit.{is_above, same_entry};
ghost use Rattle.geo_base.specs.Mirror.{index_from};
ghost use Rattle.geo_base.specs.Topic.{accepts};
ghost use Rattle.indexmap.specs.IndexMap.{insert_entry};
ghost use Rattle.audit.specs.Stored.{Ascend, FindsAll, StandsAt, StandsNowhere, identity_of, is_identity, is_same_at, place_in};

use crate::identity::Identity;
use crate::same::{is_same_entry, is_same_position};
use geo_base::{Entry, Ident, Memory, Position};
use indexmap::IndexMap;
use std::alloc::Global;
use std::marker::Model;
use topic_store::{DedupTable, Stream, Verdict};

/// The entries of a topic with their positions, which ascend. A table by origin and producer tells duplicates, and one by identity
/// where an entry stands.
#[derive(Drop)]
pub struct Stored {
    entries: Vec<Entry>,
    positions: Vec<Position>,
    streams: DedupTable,
    places: IndexMap<Identity, usize>,
}

impl Model for Stored {
    ghost use Rattle.audit.specs.Stored.{AreTold, TopicEntries};

    ghost Value = { TopicEntries };

    ghost view = { λ s. record { entries = s.entries.items; positions = s.positions.items } };

    ghost invariant = { λ s. AreTold s.streams.rows s.places.entries s.entries.items s.positions.items };
}

impl Stored {
    /// No entry; takes no memory.
    #[tactic(auto, using(crate::proofs::Tables::told_none))]
    pub(crate) fn new(alloc: Global) -> Stored
        ensures { result ≡ record { entries = []; positions = [] } }
    {
        Stored {
            entries: Vec::new(alloc),
            positions: Vec::new(alloc),
            streams: DedupTable::new(alloc),
            places: IndexMap::new(alloc),
        }
    }

    /// The entries.
    pub fn entries(&self) -> &[Entry]
        ensures entries { result.now ≡ self.now.entries }
        ensures sized { length self.now.positions ≡ length self.now.entries }
    {
        self.entries.as_slice()
    }

    /// Whether a position is above the last one.
    pub fn is_above(&self, position: &Position) -> bool
        ensures { result ≡ is_above self.now.positions position.now }
    {
        is_above(self.positions.as_slice(), position)
    }

    /// Whether no entry of an identity's origin and producer has its sequence id or a greater one.
    pub fn accepts(&self, alloc: Global, ident: &Ident) -> Result<bool, Memory>
        ensures { IfOk result (λ new. new ≡ accepts self.now.entries ident.now) }
    {
        let stream = Stream::of(alloc, ident)?;
        let verdict = self.streams.check(&stream, ident.seq);
        drop(stream);
        match verdict {
            Verdict::New => Ok(true),
            Verdict::Seen(_) => Ok(false),
        }
    }

    /// The index of a position; None where nothing stands there.
    pub(crate) fn index_at(&self, position: &Position) -> Option<usize>
        ensures { result ≡ index_from 0 self.now.positions position.now }
    {
        index_at(self.positions.as_slice(), position)
    }

    /// The index at which an entry stands; None where it does not.
    pub(crate) fn place_of(&self, alloc: Global, entry: &Entry) -> Result<Option<usize>, Memory>
        ensures { IfOk result (λ place. MatchOption place (StandsNowhere entry.now self.now.entries) (StandsAt entry.now self.now.entries)) }
    {
        let identity = Identity::of(alloc, &entry.ident)?;
        let place = place_among(self.entries.as_slice(), &self.places, entry, &identity);
        drop(identity);
        Ok(place)
    }

    /// Whether an entry stands here.
    #[tactic(auto, using(crate::proofs::Tables::stands, crate::proofs::Tables::stands_not))]
    pub fn has(&self, alloc: Global, entry: &Entry) -> Result<bool, Memory>
        ensures { IfOk result (λ has. has ≡ list_any (same_entry entry.now) self.now.entries) }
    {
        match self.place_of(alloc, entry)? {
            Some(_) => Ok(true),
            None => Ok(false),
        }
    }

    /// One more entry, after the others; unchanged where memory is wanting.
    pub(crate) fn append(
        &mut self,
        alloc: Global,
        position: Position,
        entry: Entry,
    ) -> Result<(), Memory>
        requires above { is_above self.old.positions position ≡ true }
        requires new { accepts self.old.entries entry.ident ≡ true }
        ensures ok { OnOk result (self.new ≡ record { entries = self.old.entries ++ entry ∷ []; positions = self.old.positions ++ position ∷ [] }) }
        ensures err { OnErr result (self.new ≡ self.old) }
    {
        make_way(
            alloc,
            &mut self.entries,
            &mut self.positions,
            &mut self.streams,
            &mut self.places,
            &entry.ident,
        )?;
        self.positions.push_reserved(position);
        self.entries.push_reserved(entry);
        Ok(())
    }
}

/// Room for one more entry and its position; the tables tell that it stands after the others. These and the positions stay, and so
/// do the tables where memory is wanting.
fn make_way(
    alloc: Global,
    entries: &mut Vec<Entry>,
    positions: &mut Vec<Position>,
    streams: &mut DedupTable,
    places: &mut IndexMap<Identity, usize>,
    ident: &Ident,
) -> Result<(), Memory>
    requires { verdict streams.old.rows (stream_of ident.now) ident.now.seq ≡ Verdict.New }
    ensures entries { entries.new.items ≡ entries.old.items }
    ensures positions { positions.new.items ≡ positions.old.items }
    ensures entry_room { OnOk result (vec_len entries.new < vec_capacity entries.new) }
    ensures position_room { OnOk result (vec_len positions.new < vec_capacity positions.new) }
    ensures stream { OnOk result (streams.new.rows ≡ noted streams.old.rows (stream_of ident.now) ident.now.seq) }
    ensures place { OnOk result (places.new.entries ≡ insert_entry is_identity places.old.entries (identity_of ident.now) (length entries.old.items)) }
    ensures err_streams { OnErr result (streams.new.rows ≡ streams.old.rows) }
    ensures err_places { OnErr result (places.new.entries ≡ places.old.entries) }
{
    entries.reserve(1)?;
    positions.reserve(1)?;
    tell(alloc, streams, places, ident, entries.len())?;
    Ok(())
}

/// The tables tell that the entry of an identity, which is new, stands at a place. They stay where memory is wanting.
fn tell(
    alloc: Global,
    streams: &mut DedupTable,
    places: &mut IndexMap<Identity, usize>,
    ident: &Ident,
    place: usize,
) -> Result<(), Memory>
    requires { verdict streams.old.rows (stream_of ident.now) ident.now.seq ≡ Verdict.New }
    ensures stream { OnOk result (streams.new.rows ≡ noted streams.old.rows (stream_of ident.now) ident.now.seq) }
    ensures place { OnOk result (places.new.entries ≡ insert_entry is_identity places.old.entries (identity_of ident.now) place) }
    ensures err_streams { OnErr result (streams.new.rows ≡ streams.old.rows) }
    ensures err_places { OnErr result (places.new.entries ≡ places.old.entries) }
{
    streams.reserve(1)?;
    let stream = Stream::of(alloc, ident)?;
    match tell_place(alloc, places, ident, place) {
        Ok(()) => {
            streams.note(stream, ident.seq);
            Ok(())
        }
        Err(memory) => {
            drop(stream);
            Err(memory)
        }
    }
}

/// The table tells that the entry of an identity stands at a place. It stays where memory is wanting.
fn tell_place(
    alloc: Global,
    places: &mut IndexMap<Identity, usize>,
    ident: &Ident,
    place: usize,
) -> Result<(), Memory>
    ensures place { OnOk result (places.new.entries ≡ insert_entry is_identity places.old.entries (identity_of ident.now) place) }
    ensures err_places { OnErr result (places.new.entries ≡ places.old.entries) }
{
    let identity = Identity::of(alloc, ident)?;
    places.insert(identity, place)?;
    Ok(())
}

/// Whether a position is above the last of some.
#[tactic(auto, using(crate::proofs::LastPlace::above_none, crate::proofs::LastPlace::above_last))]
fn is_above(positions: &[Position], position: &Position) -> bool
    ensures { result ≡ is_above positions.now position.now }
{
    if positions.is_empty() {
        return true;
    }
    positions[positions.len() - 1].is_before(position)
}

/// The index of a position among some that ascend; None where it is none of them.
pub fn index_at(positions: &[Position], position: &Position) -> Option<usize>
    requires { Ascend positions.now }
    ensures { result ≡ index_from 0 positions.now position.now }
{
    let at = positions.partition_point(|other| other.is_before(position));
    if at >= positions.len() || !is_same_position(&positions[at], position) {
        return None;
    }
    Some(at)
}

/// Where the table says that an entry of an identity stands.
fn place_told(places: &IndexMap<Identity, usize>, identity: &Identity) -> Option<usize>
    ensures { result ≡ place_in places.now.entries identity.now }
{
    places.get(identity).copied()
}

/// Whether an entry stands at an index.
fn stands_at(entries: &[Entry], entry: &Entry, index: usize) -> bool
    ensures { result ≡ is_same_at entry.now (slice_get entries.now index) }
{
    match entries.get(index) {
        Some(other) => is_same_entry(entry, other),
        None => false,
    }
}

/// The index at which an entry of an identity stands.
fn place_among(
    entries: &[Entry],
    places: &IndexMap<Identity, usize>,
    entry: &Entry,
    identity: &Identity,
) -> Option<usize>
    requires finds { FindsAll places.now.entries entries.now }
    requires identity { identity.now ≡ identity_of entry.now.ident }
    ensures { MatchOption result (StandsNowhere entry.now entries.now) (StandsAt entry.now entries.now) }
{
    let Some(place) = place_told(places, identity) else {
        return None;
    };
    if !stands_at(entries, entry, place) {
        return None;
    }
    Some(place)
}
