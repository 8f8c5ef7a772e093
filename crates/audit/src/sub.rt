//! A subscription, as the lines of a trace make it.
ghost use Rattle.std.specs.Prelude.{◌≡◌, ◌≤◌, true, IfOk, OnOk};
ghost use Rattle.std.specs.Str.{bytes_eq};
ghost use Rattle.cursor_acks.specs.Ranges.{AreApart, indexes_of};
ghost use Rattle.geo_base.specs.Cursor.{below, mark, with_indexes};
ghost use Rattle.audit.specs.Sub.{may_gain};

use cursor_acks::{Cursor, IndexRange};
use geo_base::{Memory, Text};
use std::alloc::Global;
use std::marker::Model;
use trace_lines::AckedRanges;

/// A subscription with its cursor.
#[derive(Drop)]
pub struct SubMirror {
    name: Text,
    cursor: Cursor,
}

impl Model for SubMirror {
    ghost use Rattle.geo_base.specs.Mirror.{MirrorSub};

    ghost Value = { MirrorSub };

    ghost view = { λ s. record { name = s.name; cursor = s.cursor.indexes } };
}

impl SubMirror {
    /// A subscription that has acknowledged all below an index.
    pub(crate) fn new(alloc: Global, name: Text, acked: u64) -> Result<SubMirror, Memory>
        ensures { IfOk result (λ sub. sub ≡ record { name = name; cursor = below acked }) }
    {
        Ok(SubMirror {
            name,
            cursor: Cursor::all(alloc, acked)?,
        })
    }

    /// Its name.
    pub(crate) fn name(&self) -> &Text
        ensures { result.now ≡ self.now.name }
    {
        &self.name
    }

    /// Whether it has a name.
    pub(crate) fn is_named(&self, name: &Text) -> bool
        ensures { result ≡ bytes_eq self.now.name name.now }
    {
        self.name.as_bytes() == name.as_bytes()
    }

    /// The mark-delete: how many indexes from 0 on are all acknowledged.
    pub fn mark(&self) -> u64
        ensures { result ≡ mark self.now.cursor }
    {
        self.cursor.mark_delete()
    }

    /// Whether all indexes of some ranges are below the topic's length and none of them is acknowledged. It costs a search a range,
    /// however long that is.
    pub(crate) fn may_gain(&self, ranges: &AckedRanges, len: u64) -> bool
        ensures { result ≡ may_gain self.now.cursor len ranges.now }
    {
        may_gain(&self.cursor, ranges.as_slice(), len)
    }

    /// All indexes of some ranges are acknowledged. An `Err` is want of memory, and leaves some of them acknowledged.
    pub(crate) fn ack(&mut self, ranges: &AckedRanges, len: u64) -> Result<(), Memory>
        requires { may_gain self.old.cursor len ranges.now ≡ true }
        ensures name { self.new.name ≡ self.old.name }
        ensures cursor { OnOk result (self.new.cursor ≡ with_indexes self.old.cursor (indexes_of ranges.now)) }
    {
        ack_all(&mut self.cursor, ranges.as_slice(), len)
    }

    /// All below an index is acknowledged, and nothing else. An `Err` is want of memory, with no change.
    pub(crate) fn seek(&mut self, index: u64, len: u64) -> Result<(), Memory>
        requires { index ≤ len }
        ensures name { self.new.name ≡ self.old.name }
        ensures cursor { OnOk result (self.new.cursor ≡ below index) }
    {
        self.cursor.reserve(1)?;
        match self.cursor.seek_to(index, len) {
            Ok(()) => Ok(()),
            Err(_) => unreachable!(),
        }
    }
}

/// Whether all indexes of some ranges are below a length and none of them is acknowledged. It costs a search a range.
pub fn may_gain(cursor: &Cursor, ranges: &[IndexRange], len: u64) -> bool
    requires { AreApart ranges.now }
    ensures { result ≡ may_gain cursor.now.indexes len ranges.now }
{
    for range in ranges {
        if range.last >= len || !cursor.are_free(range.first, range.last) {
            return false;
        }
    }
    true
}

/// All indexes of some ranges of a topic of `len` entries are acknowledged. An `Err` is want of memory, and leaves some of them acknowledged.
pub fn ack_all(cursor: &mut Cursor, ranges: &[IndexRange], len: u64) -> Result<(), Memory>
    requires apart { AreApart ranges.now }
    requires gains { may_gain cursor.old.indexes len ranges.now ≡ true }
    ensures { OnOk result (cursor.new.indexes ≡ with_indexes cursor.old.indexes (indexes_of ranges.now)) }
{
    for range in ranges {
        cursor.reserve(1)?;
        match cursor.ack_range(range.first, range.last, len) {
            Ok(()) => {}
            Err(_) => unreachable!(),
        }
    }
    Ok(())
}
