//! The store that a broker keeps.
ghost use Rattle.std.specs.Prelude.{◌≡◌, ◌<◌, ◌≤◌, ◌+◌, ◌-◌, ◌^◌, [], ◌∷◌, length, slice_index, vec_len, if◌then◌else◌, IfOk};
ghost use Rattle.std.specs.List.{sum};
ghost use Rattle.topic_store.specs.Messages.{CountMessages, is_message, messages_before};

use crate::firsts;
use geo_base::{Content, Entry, EntryStore, Memory, Position};
use std::alloc::Global;
use std::marker::Model;

/// A topic's entries, the first index of each of its ledgers, and how many messages there are up to each entry.
#[derive(Drop)]
pub struct TopicLedger {
    entries: Vec<Entry>,
    firsts: Vec<u64>,
    messages: Vec<u64>,
    per_ledger: u64,
    spare: usize,
}

impl Model for TopicLedger {
    ghost use Rattle.std.specs.Prelude.{vec_len};
    ghost use Rattle.topic_store.specs.Firsts.{lengths_of};
    ghost use Rattle.topic_store.specs.Ledger.{LedgerHolds};
    ghost use Rattle.topic_store.specs.Store.{Store};

    ghost Value = { Store };

    ghost view = { λ l. record { entries = l.entries.items; ledgers = lengths_of l.firsts.items (vec_len l.entries); per_ledger = l.per_ledger; spare = l.spare } };

    ghost invariant = { λ l. LedgerHolds l.spare l.entries l.firsts l.messages };
}

impl TopicLedger {
    /// No entry, and ledger 0 open; a ledger takes `per_ledger` entries.
    pub fn new(alloc: Global, per_ledger: u64) -> Result<TopicLedger, Memory>
        requires { 0 < per_ledger }
        ensures { IfOk result (λ l. l ≡ record { entries = []; ledgers = 0 ∷ []; per_ledger = per_ledger; spare = 0 }) }
    {
        let mut firsts = Vec::new(alloc);
        firsts.reserve(1)?;
        firsts.push_reserved(0);
        Ok(TopicLedger {
            entries: Vec::new(alloc),
            firsts,
            messages: Vec::new(alloc),
            per_ledger,
            spare: 0,
        })
    }

    /// The store of some entries, of which each ledger has as many as `ledgers` says. The entries are moved in.
    pub fn from_parts(
        alloc: Global,
        per_ledger: u64,
        ledgers: &[u64],
        entries: Vec<Entry>,
    ) -> Result<TopicLedger, Memory>
        requires opened { 0 < length ledgers.now }
        requires counted { sum ledgers.now ≡ length entries.items }
        ensures { IfOk result (λ l. l ≡ record { entries = entries.items; ledgers = ledgers.now; per_ledger = per_ledger; spare = 0 }) }
    {
        let firsts = firsts::firsts_of(alloc, ledgers)?;
        let messages = counts_of(alloc, entries.as_slice())?;
        Ok(TopicLedger {
            entries,
            firsts,
            messages,
            per_ledger,
            spare: 0,
        })
    }

    /// The ledgers' lengths and the entries. The entries are moved out; they are lost where memory for the lengths is wanting.
    #[tactic(auto, using(crate::proofs::FirstIndexes::sum_of_lengths))]
    pub fn into_parts(self, alloc: Global) -> Result<(Vec<u64>, Vec<Entry>), Memory>
        ensures ledgers { IfOk result (λ x. x.0.items ≡ self.ledgers) }
        ensures entries { IfOk result (λ x. x.1.items ≡ self.entries) }
        ensures opened { 0 < length self.ledgers }
        ensures counted { sum self.ledgers ≡ length self.entries }
    {
        let lengths = firsts::lengths_of(alloc, self.firsts.as_slice(), self.entries.len() as u64)?;
        Ok((lengths, self.entries))
    }

    /// A copy, which has no spare.
    pub fn copy(&self, alloc: Global) -> Result<TopicLedger, Memory>
        ensures { IfOk result (λ l. l ≡ record self.now { spare = 0 }) }
    {
        Ok(TopicLedger {
            entries: copies(alloc, self.entries.as_slice())?,
            firsts: self.firsts.as_slice().to_vec(alloc)?,
            messages: self.messages.as_slice().to_vec(alloc)?,
            per_ledger: self.per_ledger,
            spare: 0,
        })
    }

    /// How many messages, and no markers, are among the first `i` entries.
    #[tactic(auto, using(crate::proofs::Counts::counted_before))]
    pub fn messages_before(&self, i: usize) -> u64
        requires { i ≤ length self.now.entries }
        ensures { result ≡ messages_before self.now.entries i }
    {
        if i == 0 { 0 } else { self.messages[i - 1] }
    }
}

impl EntryStore for TopicLedger {
    ghost entries = { λ l. l.entries };

    ghost ledgers = { λ l. l.ledgers };

    ghost per_ledger = { λ l. l.per_ledger };

    ghost spare = { λ l. l.spare };

    fn reserve(&mut self, n: usize) -> Result<(), Memory> {
        self.entries.reserve(n)?;
        self.firsts.reserve(n)?;
        self.messages.reserve(n)?;
        self.spare = self.spare.max(n);
        Ok(())
    }

    #[tactic(auto, using(crate::proofs::Counts::count_fits, crate::proofs::Counts::counted_push))]
    fn append(&mut self, entry: Entry) -> Position {
        let len = self.entries.len() as u64;
        let at = firsts::next_position(self.per_ledger, self.firsts.as_slice(), len);
        let count = count_with(self.messages.as_slice(), is_message(&entry));
        self.spare -= 1;
        firsts::grow(self.per_ledger, &mut self.firsts, len);
        self.messages.push_reserved(count);
        self.entries.push_reserved(entry);
        at
    }

    #[tactic(auto, using(crate::proofs::FirstIndexes::count_of_lengths))]
    fn open_ledger(&mut self) -> u64 {
        let number = self.firsts.len() as u64;
        self.spare -= 1;
        firsts::open(&mut self.firsts, self.entries.len() as u64);
        number
    }

    fn next(&self) -> Position {
        firsts::next_position(
            self.per_ledger,
            self.firsts.as_slice(),
            self.entries.len() as u64,
        )
    }

    #[tactic(auto, using(crate::proofs::FirstIndexes::count_of_lengths))]
    fn ledgers(&self) -> u64 {
        self.firsts.len() as u64
    }

    #[tactic(auto, using(crate::proofs::FirstIndexes::sum_of_lengths))]
    fn len(&self) -> usize {
        self.entries.len()
    }

    fn last(&self) -> Option<Position> {
        let len = self.entries.len() as u64;
        firsts::position_of(self.firsts.as_slice(), len, len.saturating_sub(1))
    }

    fn get(&self, i: usize) -> Option<&Entry> {
        self.entries.get(i)
    }

    fn position_of(&self, i: usize) -> Option<Position> {
        firsts::position_of(self.firsts.as_slice(), self.entries.len() as u64, i as u64)
    }

    fn index_of(&self, p: Position) -> Option<usize> {
        match firsts::index_of(self.firsts.as_slice(), self.entries.len() as u64, &p) {
            Some(index) => Some(index as usize),
            None => None,
        }
    }
}

/// Copies of entries, in order.
fn copies(alloc: Global, entries: &[Entry]) -> Result<Vec<Entry>, Memory>
    ensures items { IfOk result (λ v. v.items ≡ entries.now) }
    ensures len { IfOk result (λ v. vec_len v ≡ length entries.now) }
{
    let mut copies = Vec::new(alloc);
    copies.reserve(entries.len())?;
    for entry in entries {
        copies.push_reserved(entry.copy(alloc)?);
    }
    Ok(copies)
}

/// Whether an entry is a message.
fn is_message(entry: &Entry) -> bool
    ensures { result ≡ is_message entry.now }
{
    matches!(entry.content, Content::Data)
}

/// How many messages there are up to each entry.
#[tactic(auto, using(crate::proofs::Parts::none_counted, crate::proofs::Parts::count_small, crate::proofs::Parts::counted_more, crate::proofs::Parts::counted_all))]
fn counts_of(alloc: Global, entries: &[Entry]) -> Result<Vec<u64>, Memory>
    ensures { IfOk result (λ v. CountMessages entries.now v.items) }
{
    let mut counts = Vec::new(alloc);
    counts.reserve(entries.len())?;
    for entry in entries {
        let count = count_with(counts.as_slice(), is_message(entry));
        counts.push_reserved(count);
    }
    Ok(counts)
}

/// How many messages there are after one more entry, from the counts up to each earlier one.
fn count_with(counts: &[u64], is_message: bool) -> u64
    requires { slice_index counts.now (length counts.now - 1) < 2 ^ 64 - 1 }
    ensures { result ≡ slice_index counts.now (length counts.now - 1) + (if is_message then 1 else 0) }
{
    let before = match counts.last() {
        Some(count) => *count,
        None => 0,
    };
    before + is_message as u64
}
