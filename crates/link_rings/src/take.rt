//! The end of a ring that takes.
ghost use Rattle.std.specs.Prelude.{◌≡◌, ◌≤◌, ◌<◌, ◌+◌, ◌++◌, ◌∷◌, [], List, length, drop, None, IfOk, OnOk, OnErr, slice_get};
ghost use Rattle.std.specs.Borrow.{sem};
ghost use Rattle.std.specs.Io.BufRead.{Rests};
ghost use Rattle.std.specs.Option.{option_copied, option_to_list};
ghost use Rattle.rtrb.specs.Ring.{known_items, received};
ghost use Rattle.link_rings.specs.contracts.take.RingTake.{the_row};
ghost use Rattle.link_rings.specs.Gathering.{Gives, ShowsOne, nothing};
ghost use Rattle.link_rings.specs.Rings.{ring_shown};
ghost use Rattle.wire_ends.specs.declared.packet.WirePacket.{WirePacket};
ghost use Rattle.wire_ends.specs.Looks.{Looked, Stays, one_more};
ghost use Rattle.wire_ends.specs.Parcels.{IsCut};

use geo_base::Memory;
use rtrb::Consumer;
use std::alloc::Global;
use std::fmt;
use std::marker::Model;
use wire_ends::{GhostHistory, Joiner, Parcel, Piece, WirePacket};

/// The end of a ring that takes. Pieces are brought over only while no packet is shown, so that the ring's places bound what is
/// under way. It is no [`wire_ends::End`] by itself, since nothing can be sent here; [`crate::RingEnd`] is.
#[derive(Drop)]
pub struct RingTake {
    alloc: Global,
    consumer: Consumer<Piece, Global>,
    waiting: Option<Piece>,
    gathered: Joiner,
    most: usize,
    looks: u64,
    taken: GhostHistory<WirePacket>,
}

impl Model for RingTake {
    ghost use Rattle.std.specs.Prelude.{◌<◌};
    ghost use Rattle.std.specs.Option.{option_to_list};
    ghost use Rattle.rtrb.specs.Ring.{known_items, received};
    ghost use Rattle.link_rings.specs.Gathering.{Gives};
    ghost use Rattle.link_rings.specs.Rings.{Taking};

    ghost Value = { Taking };

    ghost view = { λ e. record {
      received = received e.consumer;
      known = known_items e.consumer;
      waiting = option_to_list e.waiting;
      gathered = e.gathered;
      most = e.most;
      looks = e.looks;
      taken = e.taken.items;
    } };

    ghost invariant = { λ e. (0 < e.most) × Gives (received e.consumer) e.taken.items e.gathered (option_to_list e.waiting) };
}

impl RingTake {
    pub(crate) fn new(alloc: Global, consumer: Consumer<Piece, Global>, most: usize) -> RingTake
        requires most { 0 < most }
        requires empty { (received consumer ≡ []) × (known_items consumer ≡ []) }
        ensures { result ≡ record { received = []; known = []; waiting = []; gathered = nothing; most = most; looks = 0; taken = [] } }
    {
        RingTake {
            alloc,
            consumer,
            waiting: None,
            gathered: Joiner::new(alloc),
            most,
            looks: 0,
            taken: GhostHistory::new(),
        }
    }

    /// Counts a look at the other end.
    pub(crate) fn look(&mut self)
        ensures more { self.new ≡ record self.old { looks = one_more self.old.looks } }
        ensures looked { Looked self.old.looks self.new.looks }
    {
        self.looks = self.looks.saturating_add(1);
    }

    /// How often it looked. As of every end that takes, what was popped gives just the packets taken and then those gathered.
    pub fn looks(&self) -> u64
        ensures value { result ≡ self.now.looks }
        ensures gives { Gives self.now.received self.now.taken self.now.gathered self.now.waiting }
    {
        self.looks
    }

    /// A parcel as the ends of this ring cut them; an `Err` is want of memory.
    pub(crate) fn pack(&self, packet: WirePacket) -> Result<Parcel, Memory>
        ensures packet { IfOk result (λ p. p.packet ≡ packet) }
        ensures fits { IfOk result (λ p. IsCut p) }
    {
        Parcel::cut(self.alloc, packet, self.most)
    }

    /// Looks what came, and brings it over until a packet is shown, no piece more. Where one was shown before, it stays so and
    /// nothing is brought over. An `Err` is want of memory, and no piece is lost.
    #[tactic(auto, using(crate::proofs::Gathered::none_shown))]
    pub fn gather(&mut self) -> Result<(), Memory>
        ensures looked { Looked self.old.looks self.new.looks }
        ensures taken { self.new.taken ≡ self.old.taken }
        ensures stays { Stays (ring_shown self.old) (ring_shown self.new) }
        ensures all { OnOk result (ring_shown self.new ≡ None → self.new.waiting ++ self.new.known ≡ []) }
        ensures bound { ShowsOne self.old.received self.new.received self.old.taken }
        ensures one { 0 < length self.old.gathered.whole → self.new ≡ record self.old { looks = self.new.looks } }
    {
        self.look();
        if self.gathered.is_empty() {
            return bring(&mut self.consumer, &mut self.waiting, &mut self.gathered);
        }
        Ok(())
    }

    /// Looks at the next of the packets that were gathered; `None` exactly where none is left. Nothing changes but the count of
    /// looks.
    pub fn peek(&mut self) -> Option<&WirePacket>
        ensures* after { sem 𝓛 (Rests the_row self.entry (λ new.
            (ring_shown self.old ≡ option_copied result) × (new ≡ record self.old { looks = new.looks })
            × Looked self.old.looks new.looks)) }
    {
        self.look();
        self.gathered.next()
    }

    /// Takes the packet that is shown; `None` exactly where none is.
    #[tactic(auto, using(crate::proofs::Gathered::takes))]
    pub fn take(&mut self) -> Option<WirePacket>
        ensures value { result ≡ ring_shown self.old }
        ensures after { self.new ≡ record self.old { gathered = self.new.gathered; taken = self.old.taken ++ option_to_list result } }
        ensures gathered { self.new.gathered ≡ record { begun = self.old.gathered.begun; whole = drop 1 self.old.gathered.whole } }
    {
        let packet = self.gathered.take()?;
        self.taken = self.taken.and(&packet);
        Some(packet)
    }
}

impl fmt::Debug for RingTake {
    fn fmt<W: fmt::Write>(&self, f: &mut fmt::Formatter<W>) -> fmt::Result {
        f.write_str("RingTake")
    }
}

/// Looks once, and brings pieces over until a packet is whole or no piece that the look has shown is left.
#[tactic(auto, using(crate::proofs::Gathered::popped, crate::proofs::Gathered::last_one, wire_ends::proofs::Joining::stays_on))]
fn bring(
    consumer: &mut Consumer<Piece, Global>,
    waiting: &mut Option<Piece>,
    gathered: &mut Joiner,
) -> Result<(), Memory>
    ensures gives { (taken : List WirePacket) → Gives (received consumer.old) taken gathered.old (option_to_list waiting.old)
        → Gives (received consumer.new) taken gathered.new (option_to_list waiting.new) }
    ensures all { OnOk result (gathered.new.whole ≡ [] → known_items consumer.new ≡ []) }
    ensures none { OnOk result (waiting.new ≡ None) }
    ensures bound { (taken : List WirePacket) → Gives (received consumer.old) taken gathered.old (option_to_list waiting.old)
        → ShowsOne (received consumer.old) (received consumer.new) taken }
    ensures stays { Stays (slice_get gathered.old.whole 0) (slice_get gathered.new.whole 0) }
{
    if let Some(piece) = waiting.take() {
        join(waiting, gathered, piece)?;
    }
    let mut left = consumer.slots();
    'pieces: while left > 0 && gathered.is_empty() {
        let piece = consumer.pop_known();
        join(waiting, gathered, piece)?;
        left -= 1;
    }
    Ok(())
}

/// Joins a piece; where memory is wanting, it waits.
#[tactic(auto, using(crate::proofs::Gathered::joins, wire_ends::proofs::Joining::stays_more))]
fn join(waiting: &mut Option<Piece>, gathered: &mut Joiner, piece: Piece) -> Result<(), Memory>
    requires { waiting.old ≡ None }
    ensures gives { (received : List Piece) (taken : List WirePacket) → Gives received taken gathered.old (piece ∷ [])
        → Gives received taken gathered.new (option_to_list waiting.new) }
    ensures ok { OnOk result (waiting.new ≡ None) }
    ensures stays { Stays (slice_get gathered.old.whole 0) (slice_get gathered.new.whole 0) }
{
    if let Err(back) = gathered.join(piece) {
        *waiting = Some(back);
        return Err(Memory);
    }
    Ok(())
}
