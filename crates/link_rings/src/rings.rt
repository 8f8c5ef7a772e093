//! Rings.
ghost use Rattle.std.specs.Prelude.{◌≡◌, ◌<◌, [], IfOk};
ghost use Rattle.link_rings.specs.Gathering.{nothing};

use crate::send::RingSend;
use crate::take::RingTake;
use geo_base::Memory;
use rtrb::RingBuffer;
use std::alloc::Global;

/// How many places a ring of the program has (own): room for some hundred packets, so that a node that sends seldom has to wait
/// for a turn of the one that takes.
pub const RING_PLACES: usize = 1024;

/// The two ends of a ring with so many places, one a piece, whose parts have 1 to `most` bytes. An `Err` is want of memory.
pub fn ring(alloc: Global, places: usize, most: usize) -> Result<(RingSend, RingTake), Memory>
    requires { 0 < most }
    ensures send { IfOk result (λ r. r.0 ≡ record { pieces = []; places = places; most = most; looks = 0 }) }
    ensures take { IfOk result (λ r. r.1 ≡ record { received = []; known = []; waiting = []; gathered = nothing; most = most; looks = 0; taken = [] }) }
{
    let (producer, consumer) = RingBuffer::new(alloc, places)?;
    Ok((
        RingSend::new(alloc, producer, most),
        RingTake::new(alloc, consumer, most),
    ))
}
