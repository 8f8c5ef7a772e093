//! Two frames, packets that have them, and what a ring does with them.
use geo_base::{Blob, Memory, Stamp};
use link_rings::{RingSend, RingTake};
use std::alloc::Global;
use wire_ends::{End, WirePacket};

/// The message `hi` of producer p, replicated from cluster a, as producer 1 sends it.
pub const SEND: [u8; 34] = [
    0x00, 0x00, 0x00, 0x1e, 0x00, 0x00, 0x00, 0x0a, 0x08, 0x06, 0x32, 0x06, 0x08, 0x01, 0x10, 0x00,
    0x18, 0x01, 0x00, 0x00, 0x00, 0x0a, 0x0a, 0x01, 0x70, 0x10, 0x00, 0x18, 0x00, 0x2a, 0x01, 0x61,
    0x68, 0x69,
];

pub const PING: &[u8] = &[
    0x00, 0x00, 0x00, 0x09, 0x00, 0x00, 0x00, 0x05, 0x08, 0x12, 0x92, 0x01, 0x00,
];

/// A packet of session 1.
pub fn packet(alloc: Global, stamp: u64, frame: &[u8]) -> Result<WirePacket, Memory> {
    Ok(WirePacket {
        session: 1,
        stamp: Stamp::new(stamp),
        frame: Blob::from_slice(alloc, frame)?,
    })
}

/// Whether it is such a packet.
pub fn is_packet(packet: Option<WirePacket>, stamp: u64, frame: &[u8]) -> bool {
    let is_such = match &packet {
        Some(packet) => {
            packet.session == 1
                && packet.stamp.number() == stamp
                && packet.frame.as_slice() == frame
        }
        None => false,
    };
    drop(packet);
    is_such
}

/// Sends a packet into a ring; `false` where it has too few places for it.
pub fn send_packet(
    alloc: Global,
    sends: &mut RingSend,
    stamp: u64,
    frame: &[u8],
) -> Result<bool, Memory> {
    let parcel = sends.pack(packet(alloc, stamp, frame)?)?;
    if sends.free() < parcel.places() {
        drop(parcel);
        return Ok(false);
    }
    sends.send(parcel);
    Ok(true)
}

/// Takes the packet that comes out of a ring, and says whether it is such a one; `None` where none is shown.
pub fn take_packet(takes: &mut RingTake, stamp: u64, frame: &[u8]) -> Result<Option<bool>, Memory> {
    takes.gather()?;
    if takes.peek().is_none() {
        return Ok(None);
    }
    Ok(Some(is_packet(takes.take(), stamp, frame)))
}
