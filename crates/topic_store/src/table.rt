//! The table itself.
ghost use Rattle.std.specs.Prelude.{◌≡◌, ◌<◌, ◌≤◌, ◌-◌, List, [], ◌∷◌, ◌++◌, IfOk, OnErr, OnOk};
ghost use Rattle.geo_base.specs.declared.entry.Entry.{Entry};
ghost use Rattle.topic_store.specs.Table.{noted, verdict, Tells};

use crate::stream::Stream;
use geo_base::{Entry, EntryStore, Memory};
use indexmap::IndexMap;
use std::alloc::Global;
use std::marker::Model;

/// What a table says of a sequence id.
#[derive(Clone, Copy, Drop, PartialEq, Eq)]
pub enum Verdict {
    /// It is above all of its stream.
    New,
    /// It is a duplicate: the highest of its stream, which is at or above it.
    Seen(u64),
}

/// The highest sequence id of each stream, in the order in which the streams came first. `room` counts the streams that still
/// find memory.
#[derive(Drop)]
pub struct DedupTable {
    highest: IndexMap<Stream, u64>,
    room: usize,
}

impl Model for DedupTable {
    ghost use Rattle.std.specs.Prelude.{◌≤◌};
    ghost use Rattle.indexmap.specs.IndexMap.{spare};
    ghost use Rattle.topic_store.specs.Table.{Table};

    ghost Value = { Table };

    ghost view = { λ t. record { rows = t.highest.entries; room = t.room } };

    ghost invariant = { λ t. t.room ≤ spare t.highest };
}

impl DedupTable {
    /// No stream; takes no memory.
    pub fn new(alloc: Global) -> DedupTable
        ensures { result ≡ record { rows = []; room = 0 } }
    {
        DedupTable {
            highest: IndexMap::new(alloc),
            room: 0,
        }
    }

    /// Whether a sequence id is a duplicate in its stream: it is where the stream has its like or a higher one.
    pub fn check(&self, stream: &Stream, seq: u64) -> Verdict
        ensures { result ≡ verdict self.now.rows stream.now seq }
    {
        match self.highest.get(stream) {
            Some(highest) if *highest >= seq => Verdict::Seen(*highest),
            _ => Verdict::New,
        }
    }

    /// Room for `n` more streams at least; unchanged where memory is wanting.
    pub fn reserve(&mut self, n: usize) -> Result<(), Memory>
        ensures rows { self.new.rows ≡ self.old.rows }
        ensures ok { OnOk result (n ≤ self.new.room) }
        ensures more { self.old.room ≤ self.new.room }
        ensures err { OnErr result (self.new ≡ self.old) }
    {
        self.highest.reserve(n)?;
        self.room = self.room.max(n);
        Ok(())
    }

    /// A sequence id that is new is now the highest of its stream; takes no memory.
    pub fn note(&mut self, stream: Stream, seq: u64)
        requires room { 0 < self.old.room }
        requires new { verdict self.old.rows stream seq ≡ Verdict.New }
        ensures { self.new ≡ record { rows = noted self.old.rows stream seq; room = self.old.room - 1 } }
    {
        self.room -= 1;
        match self.highest.insert(stream, seq) {
            Ok(_) => {}
            Err(_) => unreachable!(),
        }
    }

    /// The table of a topic, from its entries alone: after a restart there is no other source.
    #[tactic(auto, using(crate::proofs::Tells::tells_none, crate::proofs::Rebuilt::one_more, crate::proofs::Rebuilt::none_here, crate::proofs::Rebuilt::all_told))]
    pub fn rebuild<S: EntryStore>(alloc: Global, store: &S) -> Result<DedupTable, Memory>
        ensures { IfOk result (λ t. Tells t.rows (S.entries store.now)) }
    {
        let mut table = DedupTable::new(alloc);
        for i in 0..store.len() {
            if let Some(entry) = store.get(i) {
                table.count(alloc, entry)?;
            }
        }
        Ok(table)
    }

    /// One more entry, duplicate or not.
    #[tactic(auto, using(crate::proofs::Tells::tells_new, crate::proofs::Tells::tells_seen))]
    fn count(&mut self, alloc: Global, entry: &Entry) -> Result<(), Memory>
        ensures { OnOk result ((es : List Entry) → Tells self.old.rows es → Tells self.new.rows (es ++ entry.now ∷ [])) }
    {
        let stream = Stream::of(alloc, &entry.ident)?;
        match self.check(&stream, entry.ident.seq) {
            Verdict::New => {
                self.reserve(1)?;
                self.note(stream, entry.ident.seq);
            }
            Verdict::Seen(_) => {}
        }
        Ok(())
    }
}
