//! Packets of histories: whether two are equal, and the two of a difference.
ghost use Rattle.std.specs.Prelude.{◌≡◌, ◌<◌, ◌^◌, IfOk, false, length, slice_get, true};
ghost use Rattle.std.specs.Option.{option_copied};
ghost use Rattle.merge_history.specs.Differences.{Takes, sent_there};
ghost use Rattle.merge_history.specs.Firsts.{IsDifference};
ghost use Rattle.merge_history.specs.Kept.{kept_by};
ghost use Rattle.merge_history.specs.Peers.{sent_to};

use crate::differences::PacketDifference;
use crate::history::History;
use crate::outbox::Outbox;
use crate::packet_layout::{FarEnd, Layout};
use geo_base::Memory;
use std::alloc::Global;
use wire_ends::WirePacket;

/// The packets of a difference: the one that was sent, where one was, and the one that was taken.
#[derive(Drop)]
pub struct Packets {
    pub sent: Option<WirePacket>,
    pub taken: WirePacket,
}

/// Copies of the packets of a difference. An `Err` is want of memory.
pub fn packets_of(
    alloc: Global,
    layout: &Layout,
    histories: &[History<'_>],
    difference: &PacketDifference,
) -> Result<Packets, Memory>
    requires few { length histories.now < 2 ^ 32 }
    requires found { IsDifference layout.now histories.now (length histories.now) difference.now }
    ensures sent { IfOk result (λ p. p.sent ≡ sent_there layout.now histories.now difference.now.node difference.now.found.place difference.now.found.peer) }
    ensures taken { IfOk result (λ p. Takes layout.now histories.now difference.now.node difference.now.found.place difference.now.found.peer p.taken) }
{
    let found = difference.found;
    let events = histories[difference.node].events();
    let done = &events[found.place];
    let taken = match &done.taken {
        Some(taken) => taken,
        None => unreachable!(),
    };
    let end = layout.end_of(difference.node, found.peer);
    let sent = sent_at(alloc, histories, end, found.index)?;
    both(alloc, sent, taken)
}

/// Copies of a packet that was taken and of the one that was sent, where one was.
fn both(alloc: Global, sent: Option<&WirePacket>, taken: &WirePacket) -> Result<Packets, Memory>
    ensures sent { IfOk result (λ p. p.sent ≡ option_copied sent.entry) }
    ensures taken { IfOk result (λ p. p.taken ≡ taken.now) }
{
    let taken = copied(alloc, taken)?;
    Ok(Packets {
        sent: copied_if(alloc, sent)?,
        taken,
    })
}

/// The packet that a node sent to a peer at a place; None where there is none.
fn sent_at<'a>(
    alloc: Global,
    histories: &[History<'a>],
    end: FarEnd,
    place: usize,
) -> Result<Option<&'a WirePacket>, Memory>
    ensures { IfOk result (λ o. option_copied o ≡ slice_get (sent_to end.peer (kept_by histories.now end.node)) place) }
{
    if end.node >= histories.len() {
        return Ok(None);
    }
    let outbox = Outbox::of(alloc, histories[end.node].events())?;
    Ok(outbox.get(end.peer, place))
}

/// A copy of a packet, where there is one.
fn copied_if(alloc: Global, packet: Option<&WirePacket>) -> Result<Option<WirePacket>, Memory>
    ensures { IfOk result (λ o. o ≡ option_copied packet.entry) }
{
    match packet {
        Some(packet) => Ok(Some(copied(alloc, packet)?)),
        None => Ok(None),
    }
}

/// A copy of a packet.
fn copied(alloc: Global, packet: &WirePacket) -> Result<WirePacket, Memory>
    ensures { IfOk result (λ p. p ≡ packet.now) }
{
    Ok(WirePacket {
        session: packet.session,
        stamp: packet.stamp,
        frame: packet.frame.copy(alloc)?,
    })
}

/// Whether two packets are equal.
pub(crate) fn same_packet(one: &WirePacket, other: &WirePacket) -> bool
    ensures same { result ≡ true → one.now ≡ other.now }
    ensures other { result ≡ false → one.now ≡ other.now → ⊥ }
{
    one.session == other.session
        && one.stamp == other.stamp
        && one.frame.as_slice() == other.frame.as_slice()
}
