//! Ends of every kind, as code sees them that is generic over an end.
ghost use Rattle.std.specs.Prelude.{◌≡◌, ◌++◌, IfOk, OnErr};
ghost use Rattle.std.specs.Option.{option_to_list};
ghost use Rattle.wire_ends.specs.Looks.{Looked};

use crate::packets::{PING, is_packet, packet, send_packet, take_packet};
use geo_base::Memory;
use link_rings::{RING_PLACES, RingEnd, RingSend, RingTake, ring};
use std::alloc::Global;
use std::test::Fail;
use wire_ends::{End, ListEnd, PART_BYTES, PieceEnd, WirePacket};

/// Takes the next packet from an end and sends a copy on another, and answers the packet; `None` where none is shown or the other
/// end has too few places for it. For want of memory, too, nothing was taken and nothing sent.
fn pass_on<E: End, F: End>(
    alloc: Global,
    from: &mut E,
    to: &mut F,
) -> Result<Option<WirePacket>, Memory>
    ensures taken { IfOk result (λ p. E.taken from.new ≡ E.taken from.old ++ option_to_list p) }
    ensures sent { IfOk result (λ p. F.sent to.new ≡ F.sent to.old ++ option_to_list p) }
    ensures err { OnErr result ((E.taken from.new ≡ E.taken from.old) × (F.sent to.new ≡ F.sent to.old)) }
    ensures looked { Looked (E.looks from.old) (E.looks from.new) }
{
    from.gather()?;
    let copy = match from.peek() {
        None => return Ok(None),
        Some(packet) => copied(alloc, packet)?,
    };
    let parcel = to.pack(copy)?;
    if to.free() < parcel.places() {
        return Ok(None);
    }
    to.send(parcel);
    Ok(from.take())
}

fn copied(alloc: Global, packet: &WirePacket) -> Result<WirePacket, Memory>
    ensures { IfOk result (λ p. p ≡ packet.now) }
{
    let frame = packet.frame.copy(alloc)?;
    Ok(WirePacket {
        session: packet.session,
        stamp: packet.stamp,
        frame,
    })
}

/// Whether it is that packet which passes from one end to another; `None` where none passes.
fn passes<E: End, F: End>(alloc: Global, from: &mut E, to: &mut F) -> Result<Option<bool>, Memory> {
    match pass_on(alloc, from, to)? {
        None => Ok(None),
        packet => Ok(Some(is_packet(packet, 4, PING))),
    }
}

/// Whether a packet passes from a list of packets over pieces and a ring into another list, and no second one.
fn are_all_updated(alloc: Global) -> Result<bool, Memory> {
    let mut list = ListEnd::new(alloc, 1)?;
    let passed = passes_list(alloc, &mut list);
    drop(list);
    passed
}

fn passes_list(alloc: Global, list: &mut ListEnd) -> Result<bool, Memory> {
    list.put(packet(alloc, 4, PING)?)?;
    let mut pieces = PieceEnd::new(alloc, PART_BYTES)?;
    let passed = passes_pieces(alloc, list, &mut pieces);
    drop(pieces);
    passed
}

fn passes_pieces(alloc: Global, list: &mut ListEnd, pieces: &mut PieceEnd) -> Result<bool, Memory> {
    if passes(alloc, list, pieces)? != Some(true) {
        return Ok(false);
    }
    let mut last = ListEnd::new(alloc, 1)?;
    let passed = passes_between(alloc, pieces, &mut last);
    drop(last);
    passed
}

/// From pieces over a ring into a list.
fn passes_between(
    alloc: Global,
    pieces: &mut PieceEnd,
    last: &mut ListEnd,
) -> Result<bool, Memory> {
    let (sends, takes) = ring(alloc, RING_PLACES, 5)?;
    let mut sends = RingEnd::Send(sends);
    let mut takes = RingEnd::Take(takes);
    let sent = passes(alloc, pieces, &mut sends);
    let taken = is_taken(alloc, &mut takes, last);
    drop(sends);
    drop(takes);
    Ok(sent? == Some(true) && taken?)
}

/// Whether the packet comes out of the ring into the list, and no second one.
fn is_taken(alloc: Global, takes: &mut RingEnd, last: &mut ListEnd) -> Result<bool, Memory> {
    let taken = passes(alloc, takes, last)?;
    let is_given = is_packet(last.give(), 4, PING);
    let second = passes(alloc, takes, last)?;
    Ok(taken == Some(true) && is_given && second.is_none())
}

#[test]
fn a_packet_passes_every_kind_of_end(rt: HostRuntime) -> Result<(), Fail> {
    let passed = are_all_updated(rt.alloc())?;
    assert!(rt; passed);
    Ok(())
}

/// Whether a packet in parts, which takes four places, passes to an end; `None` where it does not.
fn passes_to<E: End>(alloc: Global, to: &mut E) -> Result<Option<bool>, Memory> {
    let mut pieces = PieceEnd::new(alloc, 5)?;
    let passed = passes_from(alloc, &mut pieces, to);
    drop(pieces);
    passed
}

fn passes_from<E: End>(
    alloc: Global,
    pieces: &mut PieceEnd,
    to: &mut E,
) -> Result<Option<bool>, Memory> {
    let parcel = pieces.pack(packet(alloc, 4, PING)?)?;
    pieces.send(parcel);
    passes(alloc, pieces, to)
}

/// Whether it passes to a list without places.
fn passes_full(alloc: Global) -> Result<Option<bool>, Memory> {
    let mut full = ListEnd::new(alloc, 0)?;
    let passed = passes_to(alloc, &mut full);
    drop(full);
    passed
}

/// Whether it passes to a ring of so many places, and comes out of it; `None` where it does not pass.
fn passes_ring(alloc: Global, places: usize) -> Result<Option<bool>, Memory> {
    let (mut sends, mut takes) = ring(alloc, places, 5)?;
    let passed = passes_to(alloc, &mut sends);
    let taken = take_packet(&mut takes, 4, PING);
    drop(sends);
    drop(takes);
    let is_taken = taken? == Some(true);
    Ok(match passed? {
        None => None,
        Some(is_same) => Some(is_same && is_taken),
    })
}

#[test]
fn without_places_nothing_passes(rt: HostRuntime) -> Result<(), Fail> {
    let alloc = rt.alloc();
    let full = passes_full(alloc)?;
    let (three, four) = (passes_ring(alloc, 3)?, passes_ring(alloc, 4)?);
    assert_eq!(rt; (full, three, four), (None, None, Some(true)));
    Ok(())
}

/// How many places of a ring are free once a packet was sent, and once it was gathered; `None` where it has too few.
fn free_places(
    alloc: Global,
    sends: &mut RingSend,
    takes: &mut RingTake,
) -> Result<Option<(usize, usize)>, Memory> {
    if !send_packet(alloc, sends, 4, PING)? {
        return Ok(None);
    }
    let full = sends.free();
    takes.gather()?;
    Ok(Some((full, sends.free())))
}

/// The same of a new ring of four places.
fn free_places_of_four(alloc: Global) -> Result<Option<(usize, usize)>, Memory> {
    let (mut sends, mut takes) = ring(alloc, 4, 5)?;
    let free = free_places(alloc, &mut sends, &mut takes);
    drop(sends);
    drop(takes);
    free
}

/// A ring's places are free again once what stood there was gathered.
#[test]
fn places_are_free_again(rt: HostRuntime) -> Result<(), Fail> {
    assert_eq!(rt; free_places_of_four(rt.alloc())?, Some((0, 4)));
    Ok(())
}
