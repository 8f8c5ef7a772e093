//! Links between threads: rings that carry pieces of packets.
//!
//! A link has two ends, which stand in two nodes. Contracts know of the one what was pushed into the ring, and of the other what
//! was popped out of it and which packets that gives. That the pieces popped are those pushed is no clause of an end, and neither
//! is it that a look finds them.
#![tactic(auto)]

mod either;
mod rings;
mod send;
mod take;

pub use either::RingEnd;
pub use rings::{RING_PLACES, ring};
pub use send::RingSend;
pub use take::RingTake;
