//! A topic at one cluster.
ghost use Rattle.std.specs.Prelude.{◌≡◌, ◌≤◌, ◌∷◌, ◌++◌, [], length, None, Some, true, IfOk, OnOk, OnErr};
ghost use Rattle.std.specs.Option.{option_copied};
ghost use Rattle.cursor_acks.specs.Ranges.{indexes_of};
ghost use Rattle.geo_base.specs.Audit.{are_new, entry_by, is_above};
ghost use Rattle.geo_base.specs.Cursor.{with_indexes};
ghost use Rattle.geo_base.specs.Mirror.{acted, index_at, mirror_sub, no_mirror, with_cursor};
ghost use Rattle.geo_base.specs.Topic.{accepts};
ghost use Rattle.geo_base.specs.TraceItems.{Creates, Deletes, Seeks};
ghost use Rattle.trace_lines.specs.Said.{act_said};
ghost use Rattle.audit.specs.Runs.{AreAllRunsOf, AreRunsOf, all_acked_by};
ghost use Rattle.audit.specs.Topic.{IsRunsFor, MayAct};

use crate::runs::{AckCause, Runs};
use crate::stored::Stored;
use crate::sub::SubMirror;
use crate::subs::Subs;
use geo_base::{Entry, Memory, Position, Text};
use std::alloc::Global;
use std::marker::Model;
use trace_lines::{AckedRanges, Written};

/// A topic at one cluster, as the lines of a trace make it: its entries, and its subscriptions with their cursors. Beside them stands
/// what an acknowledgement may pass over, for each cause that was asked for.
#[derive(Drop)]
pub struct TopicMirror {
    stored: Stored,
    subs: Subs,
    runs: Vec<Runs>,
}

impl Model for TopicMirror {
    ghost use Rattle.geo_base.specs.Mirror.{Mirror};
    ghost use Rattle.audit.specs.Runs.{AreAllRunsOf};

    ghost Value = { Mirror };

    ghost view = { λ m. record { entries = m.stored.entries; positions = m.stored.positions; subs = m.subs } };

    ghost invariant = { λ m. AreAllRunsOf m.stored.entries m.runs.items };
}

impl TopicMirror {
    /// Nothing is stored; takes no memory.
    pub fn new(alloc: Global) -> TopicMirror
        ensures { result ≡ no_mirror }
    {
        TopicMirror {
            stored: Stored::new(alloc),
            subs: Subs::new(alloc),
            runs: Vec::new(alloc),
        }
    }

    /// The entries with their positions.
    pub fn stored(&self) -> &Stored
        ensures entries { result.now.entries ≡ self.now.entries }
        ensures positions { result.now.positions ≡ self.now.positions }
    {
        &self.stored
    }

    /// How many entries there are.
    pub fn len(&self) -> u64
        ensures { result ≡ length self.now.entries }
    {
        self.stored.entries().len() as u64
    }

    /// The index of a position; None where nothing stands there.
    pub fn index_at(&self, position: &Position) -> Option<usize>
        ensures { result ≡ index_at self.now position.now }
    {
        self.stored.index_at(position)
    }

    /// The entry at a position; None where nothing stands there.
    pub fn entry_at(&self, position: &Position) -> Option<&Entry>
        ensures { option_copied result ≡ entry_by self.now (Some position.now) }
    {
        let index = self.stored.index_at(position)?;
        self.stored.entries().get(index)
    }

    /// The subscription of a name.
    pub fn sub(&self, name: &Text) -> Option<&SubMirror>
        ensures { option_copied result ≡ mirror_sub self.now name.now }
    {
        self.subs.find(name)
    }

    /// Whether all entries of some ranges may be passed over. Each entry is gone over once, for all that are asked for.
    pub(crate) fn pass(
        &mut self,
        alloc: Global,
        what: AckCause,
        ranges: &AckedRanges,
    ) -> Result<bool, Memory>
        ensures same { self.new ≡ self.old }
        ensures pass { IfOk result (λ pass. pass ≡ all_acked_by what self.old.entries (indexes_of ranges.now)) }
    {
        let entries = self.stored.entries();
        let place = runs_for(alloc, &mut self.runs, entries, what)?;
        self.runs[place].extend(entries)?;
        Ok(self.runs[place].pass(entries, ranges.as_slice()))
    }

    /// One more entry, after the others; unchanged where memory is wanting.
    fn append(&mut self, alloc: Global, position: Position, entry: Entry) -> Result<(), Memory>
        requires above { is_above self.old.positions position ≡ true }
        requires new { accepts self.old.entries entry.ident ≡ true }
        ensures ok { OnOk result (self.new ≡ record { entries = self.old.entries ++ entry ∷ []; positions = self.old.positions ++ position ∷ []; subs = self.old.subs }) }
        ensures err { OnErr result (self.new ≡ self.old) }
    {
        self.stored.append(alloc, position, entry)
    }

    /// A subscription begins: at Latest after all that is stored. Unchanged where memory is wanting.
    fn create(&mut self, alloc: Global, sub: Text, latest: bool) -> Result<(), Memory>
        requires { mirror_sub self.old sub ≡ None }
        ensures ok { OnOk result (self.new ≡ acted self.old (Creates sub latest)) }
        ensures err { OnErr result (self.new ≡ self.old) }
    {
        let acked = if latest { self.len() } else { 0 };
        let sub = SubMirror::new(alloc, sub, acked)?;
        self.subs.create(alloc, sub)
    }

    /// A subscription ends, if it is there.
    fn delete(&mut self, sub: &Text)
        ensures { self.new ≡ acted self.old (Deletes sub.now) }
    {
        self.subs.delete(sub);
    }

    /// A subscription, if it is there, acknowledges what is stored and new for it. An `Err` is want of memory.
    fn ack(&mut self, sub: &Text, ranges: &AckedRanges) -> Result<(), Memory>
        requires { are_new self.old (mirror_sub self.old sub.now) (indexes_of ranges.now) ≡ true }
        ensures ok { OnOk result (self.new ≡ record { entries = self.old.entries; positions = self.old.positions; subs = with_cursor sub.now (λ set. with_indexes set (indexes_of ranges.now)) self.old.subs }) }
        ensures entries { self.new.entries ≡ self.old.entries }
    {
        let len = self.len();
        self.subs.ack(sub, ranges, len)
    }

    /// A subscription, if it is there, goes to an index. An `Err` is want of memory.
    fn seek(&mut self, sub: &Text, index: u64) -> Result<(), Memory>
        requires { index ≤ length self.old.entries }
        ensures ok { OnOk result (self.new ≡ acted self.old (Seeks sub.now index)) }
        ensures entries { self.new.entries ≡ self.old.entries }
    {
        let len = self.len();
        self.subs.seek(sub, index, len)
    }

    /// What was written is done. An `Err` is want of memory, and leaves the entries as they were.
    pub fn write(&mut self, alloc: Global, written: Written) -> Result<(), Memory>
        requires { MayAct self.old (act_said written) }
        ensures ok { OnOk result (self.new ≡ acted self.old (act_said written)) }
        ensures err { OnErr result (self.new.entries ≡ self.old.entries) }
    {
        match written {
            Written::Appends {
                position,
                entry,
                ..
            } => self.append(alloc, position, entry),
            Written::Creates { sub, latest } => self.create(alloc, sub, latest),
            Written::Deletes { sub } => {
                self.delete(&sub);
                Ok(())
            }
            Written::Acks { sub, ranges, .. } => self.ack(&sub, &ranges),
            Written::Seeks { sub, index } => self.seek(&sub, index),
        }
    }
}

/// Where the runs for a cause stand, after the others where they were not asked for.
fn runs_for(
    alloc: Global,
    runs: &mut Vec<Runs>,
    entries: &[Entry],
    what: AckCause,
) -> Result<usize, Memory>
    requires { AreAllRunsOf entries.now runs.old.items }
    ensures runs { AreAllRunsOf entries.now runs.new.items }
    ensures place { IfOk result (IsRunsFor what runs.new.items) }
{
    for (place, one) in runs.iter().enumerate() {
        if one.what() == what {
            return Ok(place);
        }
    }
    runs.push(Runs::new(alloc, what))?;
    Ok(runs.len() - 1)
}
