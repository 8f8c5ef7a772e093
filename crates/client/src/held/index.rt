//! Slots in the order of two numbers under which each is looked for.
ghost use Rattle.std.specs.Prelude.{◌≡◌, ℕ, ◌≤◌, false, not, ◌&&◌, ◌||◌, [], OnOk, OnErr, IfSome, IfNone, IsTrue};
ghost use Rattle.std.specs.BTreeMap.Range.{IsLeBy};
ghost use Rattle.client.specs.SlotIndex.{has, key_cmp, same_key};

use geo_base::Memory;
use std::alloc::Global;
use std::collections::BTreeSet;
use std::marker::Model;

/// A slot under two numbers; keys are ordered by these, and then by the slot.
#[derive(Clone, Copy, Drop, PartialEq, Eq, PartialOrd, Ord)]
pub(super) struct SlotKey {
    pub major: u64,
    pub minor: u64,
    pub slot: usize,
}

/// Keys, each once. All calls but `clear` take time logarithmic in their number.
#[derive(Drop)]
pub(super) struct SlotIndex {
    keys: BTreeSet<SlotKey>,
}

impl Model for SlotIndex {
    ghost use Rattle.std.specs.Prelude.{List};
    ghost use Rattle.client.specs.declared.held.index.SlotKey.{SlotKey};

    ghost Value = { List SlotKey };

    ghost view = { λ i. i.keys.keys };
}

impl SlotIndex {
    /// No key; takes no memory.
    pub(super) fn new(alloc: Global) -> SlotIndex
        ensures { result ≡ [] }
    {
        SlotIndex {
            keys: BTreeSet::new(alloc),
        }
    }

    /// One more key.
    pub(super) fn insert(&mut self, key: SlotKey) -> Result<(), Memory>
        ensures ok { OnOk result ((q : SlotKey) → has self.new q ≡ (same_key key q || has self.old q)) }
        ensures err { OnErr result (self.new ≡ self.old) }
    {
        self.keys.insert(key)?;
        Ok(())
    }

    /// A key goes, if it is here; takes no memory.
    pub(super) fn remove(&mut self, key: SlotKey)
        ensures { (q : SlotKey) → has self.new q ≡ (not (same_key key q) && has self.old q) }
    {
        self.keys.remove(&key);
    }

    /// The least key.
    pub(super) fn first(&self) -> Option<SlotKey>
        ensures some { IfSome result (λ k. IsTrue (has self.now k)) }
        ensures least { IfSome result (λ k. (q : SlotKey) → IsTrue (has self.now q) → IsLeBy key_cmp k q) }
        ensures none { IfNone result ((q : SlotKey) → has self.now q ≡ false) }
    {
        self.keys.first().copied()
    }

    /// The first slot under the two numbers of a key that is not before the key's own.
    pub(super) fn slot_from(&self, from: SlotKey) -> Option<usize>
        ensures from { IfSome result (λ slot. from.slot ≤ slot) }
        ensures some { IfSome result (λ slot. IsTrue (has self.now (record from { slot = slot }))) }
        ensures first { IfSome result (λ slot. (j : ℕ) → from.slot ≤ j → IsTrue (has self.now (record from { slot = j })) → slot ≤ j) }
        ensures none { IfNone result ((j : ℕ) → from.slot ≤ j → has self.now (record from { slot = j }) ≡ false) }
    {
        let key = self.at_or_after(from)?;
        if key.major == from.major && key.minor == from.minor {
            Some(key.slot)
        } else {
            None
        }
    }

    /// No key is left.
    pub(super) fn clear(&mut self)
        ensures { self.new ≡ [] }
    {
        self.keys.clear();
    }

    /// The least key that is not below another one.
    fn at_or_after(&self, from: SlotKey) -> Option<SlotKey>
        ensures some { IfSome result (λ k. IsTrue (has self.now k)) }
        ensures from { IfSome result (λ k. IsLeBy key_cmp from k) }
        ensures least { IfSome result (λ k. (q : SlotKey) → IsLeBy key_cmp from q → IsTrue (has self.now q) → IsLeBy key_cmp k q) }
        ensures none { IfNone result ((q : SlotKey) → IsLeBy key_cmp from q → has self.now q ≡ false) }
    {
        self.keys.range(from..).next().copied()
    }
}
