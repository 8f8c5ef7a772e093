//! Cursors that were read.
ghost use Rattle.std.specs.Prelude.{◌≡◌, []};
ghost use Rattle.geo_base.specs.Cursor.{has};

use cursor_acks::Cursor;
use geo_base::Text;
use std::alloc::Global;
use std::marker::Model;

/// A subscription's cursor.
#[derive(Drop)]
pub struct SubCursor {
    name: Text,
    cursor: Cursor,
}

impl Model for SubCursor {
    ghost use Rattle.geo_base.specs.Mirror.{MirrorSub};

    ghost Value = { MirrorSub };

    ghost view = { λ s. record { name = s.name; cursor = s.cursor.indexes } };
}

impl SubCursor {
    /// Of a subscription.
    pub(crate) fn new(name: Text, cursor: Cursor) -> SubCursor
        ensures { result ≡ record { name = name; cursor = cursor.indexes } }
    {
        SubCursor { name, cursor }
    }

    /// The subscription's name.
    pub(crate) fn name(&self) -> &Text
        ensures { result.now ≡ self.now.name }
    {
        &self.name
    }

    /// Whether it acknowledged an index.
    pub(crate) fn has(&self, index: usize) -> bool
        ensures { result ≡ has self.now.cursor index }
    {
        self.cursor.is_acked(index as u64)
    }
}

/// What the cursor of a replicator has; nothing where it was not read.
#[derive(Drop)]
pub(crate) struct Received {
    cursor: Cursor,
}

impl Model for Received {
    ghost use Rattle.std.specs.Prelude.{List, ℕ};

    ghost Value = { List ℕ };

    ghost view = { λ r. r.cursor.indexes };
}

impl Received {
    /// Nothing; takes no memory.
    pub(crate) fn none(alloc: Global) -> Received
        ensures { result ≡ [] }
    {
        Received {
            cursor: Cursor::none(alloc),
        }
    }

    /// What a cursor has.
    pub(crate) fn of(cursor: Cursor) -> Received
        ensures { result ≡ cursor.indexes }
    {
        Received { cursor }
    }

    /// Whether it has an index.
    pub(crate) fn has(&self, index: usize) -> bool
        ensures { result ≡ has self.now index }
    {
        self.cursor.is_acked(index as u64)
    }
}
