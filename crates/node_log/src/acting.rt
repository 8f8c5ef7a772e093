//! A node does an event.
ghost use Rattle.std.specs.Prelude.{◌≡◌, ◌<◌, ◌++◌, IfOk, IsFalse, IsTrue, OnErr, vec_capacity, vec_len};
ghost use Rattle.log_parts.specs.Rows.{SamePeers, SameSends, taken_from};
ghost use Rattle.log_parts.specs.Sending.{AreAddressed, HasRoom};
ghost use Rattle.geo_base.specs.declared.packet.Peer.{Peer as AnyPeer};
ghost use Rattle.node_log.specs.Acting.{Finished};
ghost use Rattle.node_log.specs.Acts.{IsActed, IsHeld, SameLog, packet_from, shown_for};

use crate::broker_acting::act_at_broker;
use crate::client_acting::act_at_client;
use crate::log::Log;
use crate::logged::NodeLog;
use crate::packing::Packed;
use crate::state::NodeState;
use geo_base::{Event, Memory, Peer};
use log_parts::{Done, EndTable};
use std::alloc::Global;
use wire_ends::{End, WirePacket};

impl<E: End> NodeLog<E> {
    /// Does an event, with the packet that a look shows of those that it takes from. False exactly where it is not done: it is not
    /// the node's own, it is idle with that packet, an end has too few places for what it sends, or a number that it raises has
    /// no room. Then, and on an `Err`, which is want of memory, state, history, clock and what was sent and taken are as they
    /// were.
    pub fn act(&mut self, alloc: Global, event: &Event) -> Result<bool, Memory>
        ensures acted { IfOk result (λ yes. IsTrue yes → IsActed E.sent E.taken event.now self.old self.new) }
        ensures held { IfOk result (λ yes. IsFalse yes → IsHeld E.shown E.free E.looks E.fits event.now self.old self.new) }
        ensures same { IfOk result (λ yes. IsFalse yes → SameLog E.sent E.taken self.old self.new) }
        ensures err { OnErr result (SameLog E.sent E.taken self.old self.new) }
    {
        let scenario = &self.scenario;
        match &mut self.state {
            NodeState::Broker(node) => {
                act_at_broker(alloc, scenario, node, &mut self.log, &mut self.ends, event)
            }
            NodeState::Client(client) => {
                act_at_client(
                    alloc,
                    scenario,
                    client,
                    &mut self.log,
                    &mut self.ends,
                    event,
                )
            }
        }
    }
}

/// Takes the packet of an event that is ready, sends what it sends, and writes it down. It takes no memory and can't fail.
#[tactic(auto, using(crate::proofs::Packs::still_addressed, crate::proofs::Finishing::still_room))]
pub(crate) fn finish<E: End>(
    ends: &mut EndTable<E>,
    log: &mut Log,
    event: Event,
    from: Option<Peer>,
    packed: Packed,
)
    requires room { vec_len log.old.history < vec_capacity log.old.history }
    requires addressed { AreAddressed E.fits ends.old.rows.items packed.parcels.items }
    requires places { HasRoom E.free ends.old.rows.items packed.parcels.items }
    ensures finished { Finished E.shown E.sent E.taken event from packed log.old.history.items ends.old.rows.items log.new.history.items ends.new.rows.items }
    ensures clock { log.new.clock ≡ packed.stamp }
    ensures peers { SamePeers ends.old.rows.items ends.new.rows.items }
{
    let taken = take_for(ends, from);
    let Packed {
        stamp,
        sent,
        parcels,
    } = packed;
    ends.send_all(parcels);
    log.clock = stamp;
    log.history.push_reserved(Done {
        event,
        taken,
        sent,
        stamp,
    });
}

/// Takes the packet that is shown of those from the peer that an event takes from, if it takes from one.
#[tactic(auto, using(crate::proofs::Finishing::took_one, crate::proofs::Finishing::took_none, crate::proofs::Finishing::same_sends))]
fn take_for<E: End>(ends: &mut EndTable<E>, from: Option<Peer>) -> Option<WirePacket>
    ensures value { result ≡ shown_for E.shown ends.old.rows.items from }
    ensures taken { (q : AnyPeer) → taken_from E.taken ends.new.rows.items q ≡ taken_from E.taken ends.old.rows.items q ++ packet_from from result q }
    ensures sends { SameSends E.sent E.free ends.old.rows.items ends.new.rows.items }
    ensures peers { SamePeers ends.old.rows.items ends.new.rows.items }
{
    match from {
        Some(peer) => ends.take(peer),
        None => None,
    }
}
