//! An end over a list of whole packets.
ghost use Rattle.std.specs.Prelude.{◌≡◌, ◌≤◌, ◌+◌, ◌-◌, [], ◌∷◌, ◌++◌, length, drop, IfOk, OnOk, OnErr, slice_get};
ghost use Rattle.wire_ends.specs.ListEnds.{list_free, list_shown};
ghost use Rattle.wire_ends.specs.Looks.{Looked, one_more};
ghost use Rattle.wire_ends.specs.Parcels.{IsWhole};

use crate::end::End;
use crate::ghost_history::GhostHistory;
use crate::packet::WirePacket;
use crate::parcel::Parcel;
use geo_base::Memory;
use std::alloc::Global;
use std::collections::VecDeque;
use std::marker::Model;

/// A list of packets with a fixed number of places, one a packet. What is sent is held until [`ListEnd::give`] hands it on; what
/// [`ListEnd::put`] brings is held until it is taken. For tests, where packets are moved by hand.
#[derive(Debug, Drop)]
pub struct ListEnd {
    alloc: Global,
    held: VecDeque<WirePacket>,
    places: usize,
    looks: u64,
    sent: GhostHistory<WirePacket>,
    taken: GhostHistory<WirePacket>,
}

impl Model for ListEnd {
    ghost use Rattle.std.specs.Prelude.{◌≤◌};
    ghost use Rattle.std.specs.VecDeque.{deque_capacity};
    ghost use Rattle.wire_ends.specs.ListEnds.{ListState};

    ghost Value = { ListState };

    ghost view = { λ e. record { held = e.held.items; places = e.places; looks = e.looks; sent = e.sent.items; taken = e.taken.items } };

    ghost invariant = { λ e. e.places ≤ deque_capacity e.held };
}

impl ListEnd {
    /// An end with room for so many packets; an `Err` is want of memory.
    pub fn new(alloc: Global, places: usize) -> Result<ListEnd, Memory>
        ensures { IfOk result (λ e. e ≡ record { held = []; places = places; looks = 0; sent = []; taken = [] }) }
    {
        Ok(ListEnd {
            alloc,
            held: VecDeque::with_capacity(alloc, places)?,
            places,
            looks: 0,
            sent: GhostHistory::new(),
            taken: GhostHistory::new(),
        })
    }

    /// Hands on the packet that was sent first and not yet given, and frees its place; `None` exactly where there is none.
    pub fn give(&mut self) -> Option<WirePacket>
        ensures value { result ≡ slice_get self.old.held 0 }
        ensures after { self.new ≡ record self.old { held = drop 1 self.old.held } }
    {
        self.held.pop_front()
    }

    /// Puts a packet after those that are still to be taken. It needs no free place; an `Err` is want of memory.
    pub fn put(&mut self, packet: WirePacket) -> Result<(), Memory>
        ensures ok { OnOk result (self.new ≡ record self.old { held = self.old.held ++ packet ∷ [] }) }
        ensures err { OnErr result (self.new ≡ self.old) }
    {
        self.held.push_back(packet)?;
        Ok(())
    }

    fn look(&mut self)
        ensures more { self.new ≡ record self.old { looks = one_more self.old.looks } }
        ensures looked { Looked self.old.looks self.new.looks }
    {
        self.looks = self.looks.saturating_add(1);
    }
}

impl End for ListEnd {
    ghost sent = { λ e. e.sent };

    ghost taken = { λ e. e.taken };

    ghost free = { λ e. list_free e };

    ghost shown = { λ e. list_shown e };

    // What was put here is shown.
    ghost waiting = { λ _. [] };

    ghost looks = { λ e. e.looks };

    ghost fits = { λ p. IsWhole p };

    fn pack(&mut self, packet: WirePacket) -> Result<Parcel, Memory> {
        Ok(Parcel::whole(self.alloc, packet))
    }

    fn free(&mut self) -> usize {
        self.look();
        self.places.saturating_sub(self.held.len())
    }

    fn send(&mut self, parcel: Parcel) {
        let packet = parcel.into_packet();
        self.sent = self.sent.and(&packet);
        self.held.push_back_reserved(packet);
    }

    fn gather(&mut self) -> Result<(), Memory> {
        self.look();
        Ok(())
    }

    fn peek(&mut self) -> Option<&WirePacket> {
        self.look();
        self.held.front()
    }

    fn take(&mut self) -> Option<WirePacket> {
        let packet = self.held.pop_front()?;
        self.taken = self.taken.and(&packet);
        Some(packet)
    }
}
