//! What the positions of a snapshot cover.
ghost use Rattle.std.specs.Prelude.{◌≡◌, ◌≤◌, ◌<◌, ◌+◌, ℕ, [], ◌∷◌, ◌++◌, true, false, length, max, take, IfOk, OnOk, OnErr, MatchOption};
ghost use Rattle.std.specs.List.{list_all};
ghost use Rattle.audit.specs.Covers.{AreCoversOf, AreNeeded, IsMissing, IsPlaceFor, NeedsHere, entries_of, is_covered_in, last_needed};

use crate::entries::must_stand;
use crate::stored::Stored;
use crate::topic::TopicMirror;
use geo_base::{Entry, Memory};
use std::alloc::Global;
use std::marker::Model;

/// For each of the first entries of another cluster's topic how many entries here those up to it need: so many that each message
/// among them that is meant for this cluster stands here. A snapshot then costs one look; the entries are gone over once.
#[derive(Drop)]
pub(crate) struct Needed {
    own: u32,
    there: usize,
    needed: Vec<usize>,
}

impl Model for Needed {
    ghost use Rattle.audit.specs.Covers.{NeededHere};

    ghost Value = { NeededHere };

    ghost view = { λ n. record { own = n.own; there = n.there; needed = n.needed.items } };
}

/// A cluster with its topic, and the topic at another cluster, by their numbers.
#[derive(Clone, Copy, Drop)]
pub struct Pair {
    pub own: u32,
    pub here: usize,
    pub there: usize,
}

/// How many entries of the own topic an entry of another one needs; None where it has to stand there and does not.
fn needed_for(
    alloc: Global,
    own: u32,
    here: &Stored,
    entry: &Entry,
) -> Result<Option<usize>, Memory>
    ensures { IfOk result (λ needed. MatchOption needed (IsMissing own here.now.entries entry.now) (NeedsHere own here.now.entries entry.now)) }
{
    if !must_stand(own, entry) {
        return Ok(Some(0));
    }
    // an index is below this, so that one more than it is a number
    let _len = here.entries().len();
    match here.place_of(alloc, entry)? {
        None => Ok(None),
        Some(place) => Ok(Some(place + 1)),
    }
}

impl Needed {
    /// How many entries here those so far need.
    fn last(&self) -> usize
        ensures { result ≡ last_needed self.now.needed }
    {
        let len = self.needed.len();
        if len == 0 { 0 } else { self.needed[len - 1] }
    }

    /// How many entries of the other topic were gone over.
    fn len(&self) -> usize
        ensures { result ≡ length self.now.needed }
    {
        self.needed.len()
    }

    /// One more entry of the other topic, which needs so many here; unchanged where memory is wanting.
    fn push(&mut self, count: usize) -> Result<(), Memory>
        ensures ok { OnOk result (self.new ≡ record { own = self.old.own; there = self.old.there; needed = self.old.needed ++ max (last_needed self.old.needed) count ∷ [] }) }
        ensures err { OnErr result (self.new ≡ self.old) }
    {
        let last = self.last();
        self.needed.push(last.max(count))?;
        Ok(())
    }

    /// Goes on to the first so many entries of the other topic; false where one of them has to stand here and does not.
    fn extend(
        &mut self,
        alloc: Global,
        here: &Stored,
        there: &[Entry],
        to: usize,
    ) -> Result<bool, Memory>
        requires needed { AreNeeded here.now.entries there.now self.old }
        requires to { to ≤ length there.now }
        ensures needed { AreNeeded here.now.entries there.now self.new }
        ensures own { self.new.own ≡ self.old.own }
        ensures there { self.new.there ≡ self.old.there }
        ensures reached { IfOk result (λ reached. reached ≡ true → to ≤ length self.new.needed) }
        ensures missing { IfOk result (λ reached. reached ≡ false → (n : ℕ) → list_all (is_covered_in self.old.own here.now.entries n) (take to there.now) ≡ false) }
    {
        'entries: while self.len() < to {
            match needed_for(alloc, self.own, here, &there[self.len()])? {
                None => return Ok(false),
                Some(count) => self.push(count)?,
            }
        }
        Ok(true)
    }

    /// Whether what has to stand here of the entries of the other topic up to an index stands among the first `count` here.
    fn covers(
        &mut self,
        alloc: Global,
        here: &Stored,
        there: &[Entry],
        index: usize,
        count: usize,
    ) -> Result<bool, Memory>
        requires needed { AreNeeded here.now.entries there.now self.old }
        requires index { index < length there.now }
        ensures needed { AreNeeded here.now.entries there.now self.new }
        ensures own { self.new.own ≡ self.old.own }
        ensures there { self.new.there ≡ self.old.there }
        ensures covers { IfOk result (λ covers. covers ≡ list_all (is_covered_in self.old.own here.now.entries count) (take (index + 1) there.now)) }
    {
        if !self.extend(alloc, here, there, index + 1)? {
            return Ok(false);
        }
        Ok(self.needed[index] <= count)
    }
}

/// What the other topics need of one, each topic that was asked for once.
#[derive(Drop)]
pub struct CoverList {
    covers: Vec<Needed>,
}

impl Model for CoverList {
    ghost use Rattle.std.specs.Prelude.{List};
    ghost use Rattle.audit.specs.Covers.{NeededHere};

    ghost Value = { List NeededHere };

    ghost view = { λ l. l.covers.items };
}

impl CoverList {
    /// Nothing was asked for; takes no memory.
    pub fn new(alloc: Global) -> CoverList
        ensures { result ≡ [] }
    {
        CoverList {
            covers: Vec::new(alloc),
        }
    }

    /// Where a pair stands, after the others where it was not asked for.
    fn place_for(
        &mut self,
        alloc: Global,
        topics: &[TopicMirror],
        pair: Pair,
    ) -> Result<usize, Memory>
        requires { AreCoversOf topics.now pair.here self.old }
        ensures covers { AreCoversOf topics.now pair.here self.new }
        ensures place { IfOk result (λ place. IsPlaceFor pair self.new place) }
    {
        for (place, needed) in self.covers.iter().enumerate() {
            if needed.own == pair.own && needed.there == pair.there {
                return Ok(place);
            }
        }
        self.covers.push(Needed {
            own: pair.own,
            there: pair.there,
            needed: Vec::new(alloc),
        })?;
        Ok(self.covers.len() - 1)
    }

    /// Whether what has to stand in the own topic of the entries of the other one up to an index stands among the first `count`.
    pub fn covers(
        &mut self,
        alloc: Global,
        topics: &[TopicMirror],
        pair: Pair,
        index: usize,
        count: usize,
    ) -> Result<bool, Memory>
        requires covers { AreCoversOf topics.now pair.here self.old }
        requires here { pair.here < length topics.now }
        requires there { pair.there < length topics.now }
        requires index { index < length (entries_of topics.now pair.there) }
        ensures covers { AreCoversOf topics.now pair.here self.new }
        ensures ok { IfOk result (λ covers. covers ≡ list_all (is_covered_in pair.own (entries_of topics.now pair.here) count) (take (index + 1) (entries_of topics.now pair.there))) }
    {
        let place = self.place_for(alloc, topics, pair)?;
        let here = topics[pair.here].stored();
        let there = topics[pair.there].stored().entries();
        self.covers[place].covers(alloc, here, there, index, count)
    }
}
