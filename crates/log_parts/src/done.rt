//! An event that a node did.

use geo_base::{Event, Peer, Stamp};
use std::marker::Model;
use wire_ends::WirePacket;

/// A packet that an event sent, and to which peer.
#[derive(Drop)]
pub struct Sent {
    pub to: Peer,
    pub packet: WirePacket,
}

impl Model for Sent {
    ghost use Rattle.wire_ends.specs.declared.packet.WirePacket.{WirePacket};
    ghost use Rattle.world_laws.specs.ByteHistories.{ByteSent};

    ghost Value = { ByteSent WirePacket };

    ghost view = { λ o. record { to = o.to; packet = o.packet } };
}

/// An event of a node with the packet that it took, those that it sent, in order, and its stamp.
#[derive(Drop)]
pub struct Done {
    pub event: Event,
    pub taken: Option<WirePacket>,
    pub sent: Vec<Sent>,
    pub stamp: Stamp,
}

impl Model for Done {
    ghost use Rattle.wire_ends.specs.declared.packet.WirePacket.{WirePacket};
    ghost use Rattle.world_laws.specs.ByteHistories.{ByteEvent};

    ghost Value = { ByteEvent WirePacket };

    ghost view = { λ d. record { event = d.event; taken = d.taken; sent = d.sent.items; stamp = d.stamp } };
}
