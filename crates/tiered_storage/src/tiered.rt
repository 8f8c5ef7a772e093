//! The tiered ledger.
ghost use Rattle.std.specs.Prelude.{◌≡◌, ◌≤◌, ◌<◌, not, true, is_ok, if◌then◌else◌, ℕ, List, Some, IfOk, IfSome, IsErrOf, OnOk, length, slice_get, slice_set};
ghost use Rattle.geo_base.specs.declared.entry.Entry.{Entry};
ghost use Rattle.geo_io.specs.Faults.{Rose, one_more};
ghost use Rattle.tiered_storage.specs.Readable.{AreReadable, AreTellable};
ghost use Rattle.tiered_storage.specs.Texts.{ledger_text};
ghost use Rattle.tiered_storage.specs.Calls.{AtMostOne, Comes, asks, calls_if, fault_of, is_ledger, is_offloaded, offloaded, recalled_after, recalled_entry};
ghost use Rattle.tiered_storage.specs.Ledgers.{entries_in};
ghost use Rattle.tiered_storage.specs.Tiered.{Holds, fresh};

use crate::cut::{firsts_of, lengths_of, parts_of, position_of};
use crate::offload_fault::{OffloadFault, TierFault};
use crate::part::{Part, Recalled};
use crate::{Held, Tier, put_ledger, read_ledger};
use geo_base::limits::CLUSTERS;
use geo_base::{Blob, ClusterName, Entry, EntryStore, Memory, Position, Sequence};
use state_items::ItemFault;
use std::alloc::Global;
use std::marker::Model;

/// A topic's entries, of which closed ledgers may stand in a tier. It is the topic of the cluster `own`.
#[derive(Drop)]
pub struct TieredLedger<T> {
    own: u32,
    len: u64,
    firsts: Vec<u64>,
    unclosed: u64,
    parts: Vec<Part>,
    recalled: Option<Recalled>,
    tier: T,
}

impl<T> Model for TieredLedger<T> {
    ghost use Rattle.topic_store.specs.Firsts.{lengths_of};
    ghost use Rattle.tiered_storage.specs.Ledgers.{AreFirstsIfAny};
    ghost use Rattle.tiered_storage.specs.Tiered.{Tiered};

    ghost Value = { Tiered T };

    ghost view = { λ t. record {
      own = t.own;
      ledgers = lengths_of t.firsts.items t.len;
      unclosed = t.unclosed;
      parts = t.parts.items;
      recalled = t.recalled;
      tier = t.tier;
    } };

    ghost invariant = { λ t. AreFirstsIfAny t.firsts.items t.len };
}

impl<T: Tier + Drop> TieredLedger<T> {
    /// Copies of all entries of a store; nothing is offloaded, and what the tier keeps before does not count. It is the list of
    /// the store's entries, where these are what their texts say. An `Err` is want of memory.
    pub fn new<S: EntryStore>(
        alloc: Global,
        own: u32,
        store: &S,
        tier: T,
    ) -> Result<TieredLedger<T>, Memory>
        ensures value { IfOk result (λ t. t ≡ fresh own (S.per_ledger store.now) (S.ledgers store.now) (S.entries store.now) tier) }
        ensures holds { IfOk result (λ t. (names : List (List ℕ)) → AreTellable names own (S.entries store.now)
            → Holds names T.kept (S.entries store.now) t) }
        ensures none { IfOk result (λ t. offloaded t ≡ 0) }
    {
        let len = store.len() as u64;
        let parts = parts_of(alloc, store)?;
        let lengths = lengths_of(alloc, parts.as_slice())?;
        let firsts = firsts_of(alloc, lengths.as_slice())?;
        Ok(TieredLedger {
            own,
            len,
            firsts,
            unclosed: store.next().ledger,
            parts,
            recalled: None,
            tier,
        })
    }

    /// Moves a closed ledger to the tier; one that stands there already is left, and no call is made. The names are those of the
    /// clusters. A ledger that was never opened is `Unknown`, the one that entries are appended to is `Open`, both without a call;
    /// `Failed` comes only where the tier failed in this call. After a refusal the ledger is not offloaded.
    pub fn offload(
        &mut self,
        alloc: Global,
        names: &[ClusterName],
        ledger: u64,
    ) -> Result<(), OffloadFault>
        ghost entries: { List Entry }
        requires holds { Holds names.now T.kept entries self.old }
        // It is still the list of its entries.
        ensures holds { Holds names.now T.kept entries self.new }
        ensures cause { Comes (fault_of self.old.unclosed ledger) result }
        ensures failed { IsErrOf result OffloadFault.Failed → Rose (T.faults self.old.tier) (T.faults self.new.tier) }
        // With Ok the ledger's text is kept.
        ensures kept { OnOk result (T.kept self.new.tier ledger
            ≡ Some (ledger_text names.now self.old.own (entries_in self.old.ledgers entries ledger))) }
        ensures calls { OnOk result (T.calls self.new.tier ≡ calls_if (not (is_offloaded self.old ledger)) (T.calls self.old.tier)) }
        ensures one { AtMostOne (T.calls self.old.tier) (T.calls self.new.tier) }
        // Where a fault is due the tier is not called.
        ensures due { IfSome (fault_of self.old.unclosed ledger) (λ _. self.new.tier ≡ self.old.tier) }
        // Nothing else changes.
        ensures value { self.new ≡ record self.old {
          parts = if is_ok result then slice_set self.old.parts ledger Part.Away else self.old.parts;
          tier = self.new.tier;
        } }
    {
        if ledger > self.unclosed {
            return Err(OffloadFault::Unknown(ledger));
        }
        if ledger == self.unclosed {
            return Err(OffloadFault::Open(ledger));
        }
        let at = ledger as usize;
        let Part::Here(entries) = &self.parts[at] else {
            return Ok(());
        };
        let text = text_of(alloc, names, self.own, entries.as_slice())?;
        self.tier.put(ledger, text.as_slice())?;
        self.parts[at] = Part::Away;
        Ok(())
    }

    /// The entry at an index; `None` exactly where nothing stands there. The names are those of the clusters. It makes one call of
    /// the tier exactly where the entry is offloaded and not of the ledger that was read last; `Failed` comes only where the
    /// tier failed in this call. After a refusal the ledger that was read last is the one before.
    pub fn read(
        &mut self,
        alloc: Global,
        names: &[ClusterName],
        i: usize,
    ) -> Result<Option<Entry>, TierFault>
        ghost entries: { List Entry }
        requires clusters { length names.now ≤ CLUSTERS }
        requires holds { Holds names.now T.kept entries self.old }
        // It is still the list of its entries.
        ensures holds { Holds names.now T.kept entries self.new }
        ensures ok { IfOk result (λ o. o ≡ slice_get entries i) }
        ensures failed { IsErrOf result TierFault.Failed → Rose (T.faults self.old.tier) (T.faults self.new.tier) }
        ensures calls { OnOk result (T.calls self.new.tier ≡ calls_if (asks self.old i) (T.calls self.old.tier)) }
        ensures one { AtMostOne (T.calls self.old.tier) (T.calls self.new.tier) }
        ensures recalled { self.new.recalled ≡ (if is_ok result then recalled_after self.old entries i else self.old.recalled) }
        // Nothing else changes.
        ensures value { self.new ≡ record self.old { recalled = self.new.recalled; tier = self.new.tier } }
    {
        let Some(position) = position_of(self.firsts.as_slice(), self.len, i as u64) else {
            return Ok(None);
        };
        let at = position.ledger as usize;
        if let Part::Here(entries) = &self.parts[at] {
            return Ok(copy_at(alloc, entries.as_slice(), position.entry)?);
        }
        self.read_away(alloc, names, position)
    }

    /// The entry at a place of a ledger that stands in the tier. The ledger is brought over, unless it was the last one that was.
    fn read_away(
        &mut self,
        alloc: Global,
        names: &[ClusterName],
        position: Position,
    ) -> Result<Option<Entry>, TierFault>
        ghost entries: { List Entry }
        requires clusters { length names.now ≤ CLUSTERS }
        requires holds { Holds names.now T.kept entries self.old }
        requires away { slice_get self.old.parts position.ledger ≡ Some Part.Away }
        ensures holds { Holds names.now T.kept entries self.new }
        ensures ok { IfOk result (λ o. o ≡ slice_get (entries_in self.old.ledgers entries position.ledger) position.entry) }
        ensures failed { IsErrOf result TierFault.Failed → Rose (T.faults self.old.tier) (T.faults self.new.tier) }
        ensures calls { OnOk result (T.calls self.new.tier ≡ calls_if (not (is_ledger position.ledger self.old.recalled)) (T.calls self.old.tier)) }
        ensures one { AtMostOne (T.calls self.old.tier) (T.calls self.new.tier) }
        ensures recalled { self.new.recalled ≡ (if is_ok result then Some (record { ledger = position.ledger; entries = entries_in self.old.ledgers entries position.ledger }) else self.old.recalled) }
        ensures value { self.new ≡ record self.old { recalled = self.new.recalled; tier = self.new.tier } }
    {
        let ledger = position.ledger;
        if self.has_recalled(ledger) {
            return Ok(self.copy_recalled(alloc, position.entry)?);
        }
        let entries = self.fetch(alloc, names, ledger)?;
        let entry = copy_at(alloc, entries.as_slice(), position.entry)?;
        self.recalled = Some(Recalled { ledger, entries });
        Ok(entry)
    }

    /// Whether a ledger is the last one that was read from the tier.
    fn has_recalled(&self, ledger: u64) -> bool
        ensures { result ≡ is_ledger ledger self.now.recalled }
    {
        match &self.recalled {
            Some(recalled) => recalled.ledger == ledger,
            None => false,
        }
    }

    /// A ledger's entries, read from the tier.
    fn fetch(
        &mut self,
        alloc: Global,
        names: &[ClusterName],
        ledger: u64,
    ) -> Result<Sequence<Entry>, TierFault>
        ghost entries: { List Entry }
        requires clusters { length names.now ≤ CLUSTERS }
        requires holds { Holds names.now T.kept entries self.old }
        requires away { slice_get self.old.parts ledger ≡ Some Part.Away }
        ensures holds { Holds names.now T.kept entries self.new }
        ensures ok { IfOk result (λ s. s ≡ entries_in self.old.ledgers entries ledger) }
        ensures failed { IsErrOf result TierFault.Failed → Rose (T.faults self.old.tier) (T.faults self.new.tier) }
        ensures counted { AtMostOne (T.calls self.old.tier) (T.calls self.new.tier) }
        ensures calls { OnOk result (T.calls self.new.tier ≡ one_more (T.calls self.old.tier)) }
        ensures value { self.new ≡ record self.old { tier = self.new.tier } }
    {
        let mut bytes = Blob::new(alloc);
        match self.tier.get(ledger, &mut bytes)? {
            Held::Yes => match read_ledger(alloc, names, bytes.as_slice()) {
                Ok(entries) => Ok(Sequence::from_vec(entries)),
                Err(ItemFault::Memory) => Err(TierFault::Memory),
                Err(ItemFault::Broken(_)) => unreachable!(),
            },
            Held::No => unreachable!(),
        }
    }

    /// A copy of an entry of the ledger that was read last; `None` exactly where nothing stands there.
    fn copy_recalled(&self, alloc: Global, entry: u64) -> Result<Option<Entry>, Memory>
        ensures { IfOk result (λ o. o ≡ recalled_entry self.now.recalled entry) }
    {
        match &self.recalled {
            Some(recalled) => copy_at(alloc, recalled.entries.as_slice(), entry),
            None => Ok(None),
        }
    }

    /// How many ledgers stand in the tier. It takes no memory.
    pub fn offloaded(&self) -> u64
        ensures { result ≡ offloaded self.now }
    {
        let mut count = 0;
        for part in self.parts.as_slice() {
            if matches!(part, Part::Away) {
                count += 1;
            }
        }
        count
    }
}

/// A copy of an entry of a ledger; `None` exactly where nothing stands there.
fn copy_at(alloc: Global, entries: &[Entry], entry: u64) -> Result<Option<Entry>, Memory>
    ensures { IfOk result (λ o. o ≡ slice_get entries.now entry) }
{
    match entries.get(entry as usize) {
        Some(entry) => Ok(Some(entry.copy(alloc)?)),
        None => Ok(None),
    }
}

/// The text of a ledger.
fn text_of(
    alloc: Global,
    names: &[ClusterName],
    own: u32,
    entries: &[Entry],
) -> Result<Blob, Memory>
    requires { AreTellable names.now own entries.now }
    ensures text { IfOk result (λ b. b ≡ ledger_text names.now own entries.now) }
    ensures readable { OnOk result (AreReadable names.now own entries.now) }
{
    let mut text = Blob::new(alloc);
    put_ledger(alloc, &mut text, names, own, entries)?;
    Ok(text)
}
