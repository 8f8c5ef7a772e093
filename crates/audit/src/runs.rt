//! Which entries an acknowledgement may pass over.
ghost use Rattle.std.specs.Prelude.{◌≡◌, ◌≤◌, [], length, nat_le, OnOk};
ghost use Rattle.std.specs.List.{list_all};
ghost use Rattle.cursor_acks.specs.Acks.{from_to};
ghost use Rattle.cursor_acks.specs.Ranges.{AreApart, indexes_of};
ghost use Rattle.audit.specs.Runs.{AreRunsOf, all_acked_by, next_start, acked_by};

use crate::entries::{is_data, is_updated};
use cursor_acks::IndexRange;
use geo_base::{Entry, Memory};
use std::alloc::Global;
use std::marker::Model;

/// What passes over an entry: a marker's acknowledgement over markers alone, and that of an update of a cluster over markers and over
/// what was meant for the cluster.
#[derive(Clone, Copy, Drop, PartialEq)]
pub enum AckCause {
    Markers,
    By(u32),
}

impl AckCause {
    /// Whether an entry may be passed over.
    fn may_ack(&self, entry: &Entry) -> bool
        ensures { result ≡ acked_by self.now entry.now }
    {
        match self {
            AckCause::Markers => !is_data(&entry.content),
            AckCause::By(cluster) => is_updated(*cluster, entry),
        }
    }
}

/// For each of a topic's first entries the least index from which on, up to the entry, all may be passed over; the next index where
/// the entry itself may not. So one look says whether all entries of a range may.
#[derive(Drop)]
pub struct Runs {
    what: AckCause,
    starts: Vec<u64>,
}

impl Model for Runs {
    ghost use Rattle.audit.specs.Runs.{RunStarts};

    ghost Value = { RunStarts };

    ghost view = { λ r. record { what = r.what; starts = r.starts.items } };
}

impl Runs {
    /// Of no entry yet; takes no memory.
    pub fn new(alloc: Global, what: AckCause) -> Runs
        ensures { result ≡ record { what = what; starts = [] } }
    {
        Runs {
            what,
            starts: Vec::new(alloc),
        }
    }

    /// What passes over the entries.
    pub fn what(&self) -> AckCause
        ensures { result ≡ self.now.what }
    {
        self.what
    }

    /// Where the run begins that ends with one more entry.
    fn next_start(&self, entry: &Entry) -> u64
        ensures { result ≡ next_start self.now entry.now }
    {
        let len = self.starts.len();
        if !self.what.may_ack(entry) {
            return len as u64 + 1;
        }
        if len == 0 {
            return 0;
        }
        self.starts[len - 1]
    }

    /// Goes on to the topic's last entry. An `Err` is want of memory.
    pub fn extend(&mut self, entries: &[Entry]) -> Result<(), Memory>
        requires { AreRunsOf entries.now self.old }
        ensures runs { AreRunsOf entries.now self.new }
        ensures what { self.new.what ≡ self.old.what }
        ensures ok { OnOk result (length self.new.starts ≡ length entries.now) }
    {
        'entries: while self.starts.len() < entries.len() {
            let start = self.next_start(&entries[self.starts.len()]);
            self.starts.push(start)?;
        }
        Ok(())
    }

    /// Whether all entries of a range may be passed over.
    fn may_ack_range(&self, entries: &[Entry], range: IndexRange) -> bool
        requires order { range.first ≤ range.last }
        requires runs { AreRunsOf entries.now self.now }
        requires whole { length self.now.starts ≡ length entries.now }
        ensures { result ≡ all_acked_by self.now.what entries.now (from_to range.first range.last) }
    {
        let len = entries.len() as u64;
        range.last < len && self.starts[range.last as usize] <= range.first
    }

    /// Whether all entries of some ranges may be passed over. It costs a look a range, however long that is.
    pub fn pass(&self, entries: &[Entry], ranges: &[IndexRange]) -> bool
        requires apart { AreApart ranges.now }
        requires runs { AreRunsOf entries.now self.now }
        requires whole { length self.now.starts ≡ length entries.now }
        ensures { result ≡ all_acked_by self.now.what entries.now (indexes_of ranges.now) }
    {
        for range in ranges {
            if !self.may_ack_range(entries, *range) {
                return false;
            }
        }
        true
    }
}

/// Whether all indexes of some ranges are at or below one.
pub fn end_by(ranges: &[IndexRange], most: u64) -> bool
    requires { AreApart ranges.now }
    ensures { result ≡ list_all (λ i. nat_le i most) (indexes_of ranges.now) }
{
    for range in ranges {
        if range.last > most {
            return false;
        }
    }
    true
}
