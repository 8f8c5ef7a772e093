//! The slot of an index in the table of what is out.
ghost use Rattle.std.specs.Prelude.{◌≡◌};
ghost use Rattle.dispatcher.specs.Slots.{emptiness, is_open, is_out, is_with_other};

use cursor_acks::Cursor;

/// An index, and the client that it is out with; none where it is out no more.
#[derive(Clone, Copy, Drop)]
pub(crate) struct Slot {
    pub(crate) index: u64,
    pub(crate) client: Option<u32>,
}

impl Slot {
    /// 1 where the slot is empty, and 0 where its index is out.
    pub(crate) fn emptiness(&self) -> usize
        ensures { result ≡ emptiness self.now.client }
    {
        match self.client {
            None => 1,
            Some(_) => 0,
        }
    }

    /// Whether its index is out.
    pub(crate) fn is_out(&self) -> bool
        ensures { result ≡ is_out self.now }
    {
        self.client.is_some()
    }

    /// Whether its index is out and not acknowledged.
    pub(crate) fn is_open(&self, cursor: &Cursor) -> bool
        ensures { result ≡ is_open cursor.now.indexes self.now }
    {
        match self.client {
            None => false,
            Some(_) => !cursor.is_acked(self.index),
        }
    }

    /// Whether its index is out with another client.
    pub(crate) fn is_with_other(&self, client: u32) -> bool
        ensures { result ≡ is_with_other client self.now }
    {
        match self.client {
            None => false,
            Some(holder) => holder != client,
        }
    }
}
