//! What a node sent, by peer.
ghost use Rattle.std.specs.Prelude.{◌≡◌, ℕ, ◌++◌, ◌∷◌, ◌==◌, [], IfOk, OnErr, OnOk, if◌then◌else◌, length, slice_get, ◌<◌};
ghost use Rattle.std.specs.Option.{option_copied};
ghost use Rattle.geo_base.specs.declared.packet.Peer.{Peer as AnyPeer};
ghost use Rattle.merge_history.specs.Peers.{sent_once, sent_to};
ghost use Rattle.merge_history.specs.Slots.{sends_in, slot};

use crate::slot::slot;
use geo_base::{Memory, Peer};
use log_parts::{Done, Sent};
use std::alloc::Global;
use std::marker::Model;
use wire_ends::WirePacket;

/// Packets in order, not owned.
#[derive(Drop)]
struct Sends<'a> {
    packets: Vec<&'a WirePacket>,
}

impl<'a> Model for Sends<'a> {
    ghost use Rattle.std.specs.Prelude.{List, map};
    ghost use Rattle.wire_ends.specs.declared.packet.WirePacket.{WirePacket};

    ghost Value = { List WirePacket };

    ghost view = { λ s. map (λ r. r.now) s.packets.items };
}

impl<'a> Sends<'a> {
    /// No packet; takes no memory.
    fn new(alloc: Global) -> Sends<'a>
        ensures { result ≡ [] }
    {
        Sends {
            packets: Vec::new(alloc),
        }
    }

    /// One more packet.
    fn push(&mut self, packet: &'a WirePacket) -> Result<(), Memory>
        ensures ok { OnOk result (self.new ≡ self.old ++ packet.now ∷ []) }
        ensures err { OnErr result (self.new ≡ self.old) }
    {
        self.packets.push(packet)?;
        Ok(())
    }

    /// The packet at a place.
    fn get(&self, place: usize) -> Option<&'a WirePacket>
        ensures { option_copied result ≡ slice_get self.now place }
    {
        if place < self.packets.len() {
            Some(self.packets[place])
        } else {
            None
        }
    }
}

/// The packets that a node sent, by the slots of its peers.
#[derive(Drop)]
pub(crate) struct Outbox<'a> {
    sends: Vec<Sends<'a>>,
}

impl<'a> Model for Outbox<'a> {
    ghost use Rattle.std.specs.Prelude.{List};
    ghost use Rattle.wire_ends.specs.declared.packet.WirePacket.{WirePacket};

    ghost Value = { List (List WirePacket) };

    ghost view = { λ o. o.sends.items };
}

impl<'a> Outbox<'a> {
    /// What a history sent.
    pub fn of(alloc: Global, history: &'a [Done]) -> Result<Outbox<'a>, Memory>
        ensures { IfOk result (λ o. (q : AnyPeer) → sends_in o (slot q) ≡ sent_to q history.now) }
    {
        let mut outbox = Outbox {
            sends: Vec::new(alloc),
        };
        for done in history {
            outbox.add(alloc, done.sent.as_slice())?;
        }
        Ok(outbox)
    }

    /// The packet that was sent to a peer at a place.
    pub fn get(&self, to: Peer, place: usize) -> Option<&'a WirePacket>
        ensures { option_copied result ≡ slice_get (sends_in self.now (slot to)) place }
    {
        let slot = slot(to);
        if slot < self.sends.len() {
            self.sends[slot].get(place)
        } else {
            None
        }
    }

    /// What an event sent.
    fn add(&mut self, alloc: Global, sent: &'a [Sent]) -> Result<(), Memory>
        ensures { OnOk result ((q : AnyPeer) → sends_in self.new (slot q) ≡ sends_in self.old (slot q) ++ sent_once q sent.now) }
    {
        for one in sent {
            self.push(alloc, slot(one.to), &one.packet)?;
        }
        Ok(())
    }

    /// One packet more in a slot.
    fn push(&mut self, alloc: Global, slot: usize, packet: &'a WirePacket) -> Result<(), Memory>
        ensures { OnOk result ((k : ℕ) → sends_in self.new k ≡ (if slot == k then sends_in self.old k ++ packet.now ∷ [] else sends_in self.old k)) }
    {
        self.reach(alloc, slot)?;
        self.sends[slot].push(packet)
    }

    /// Slots up to this one.
    #[tactic(auto, using(crate::proofs::Tables::sends_past))]
    fn reach(&mut self, alloc: Global, slot: usize) -> Result<(), Memory>
        ensures same { (k : ℕ) → sends_in self.new k ≡ sends_in self.old k }
        ensures reached { OnOk result (slot < length self.new) }
    {
        while self.sends.len() <= slot {
            self.sends.push(Sends::new(alloc))?;
        }
        Ok(())
    }
}
