//! An end over a list of pieces, in one thread.
ghost use Rattle.std.specs.Prelude.{◌≡◌, ◌<◌, ◌≤◌, ◌+◌, [], ◌∷◌, ◌++◌, length, drop, None, IfOk, OnOk, OnErr};
ghost use Rattle.std.specs.Borrow.{sem};
ghost use Rattle.std.specs.Int.{div_ceil};
ghost use Rattle.std.specs.Io.BufRead.{Rests};
ghost use Rattle.std.specs.List.{concat};
ghost use Rattle.std.specs.Option.{option_copied, option_to_list};
ghost use Rattle.std.specs.VecDeque.{deque_capacity, deque_len};
ghost use Rattle.wire_ends.specs.Joined.{Grows, first_whole, with_pieces};
ghost use Rattle.wire_ends.specs.Looks.{Looked, Stays, one_more};
ghost use Rattle.wire_ends.specs.Parcels.{AreParts, IsCut, pieces_of};
ghost use Rattle.wire_ends.specs.PieceEnds.{IsAtRest, piece_shown, untaken};
ghost use Rattle.wire_ends.specs.Pieces.{begun_at_end, cut_off, packets};

use crate::end::End;
use crate::ghost_history::GhostHistory;
use crate::joiner::Joiner;
use crate::packet::WirePacket;
use crate::parcel::{Parcel, Pieces};
use crate::piece::Piece;
use geo_base::Memory;
use std::alloc::Global;
use std::collections::VecDeque;
use std::marker::Model;

/// Pieces in order, sent and taken here. Its places are bounded by memory alone, and `pack` makes those that a parcel needs.
#[derive(Debug, Drop)]
pub struct PieceEnd {
    alloc: Global,
    pieces: VecDeque<Piece>,
    gathered: Joiner,
    room: usize,
    most: usize,
    looks: u64,
    sent: GhostHistory<Parcel>,
    taken: GhostHistory<WirePacket>,
}

impl Model for PieceEnd {
    ghost use Rattle.std.specs.Prelude.{◌+◌, ◌<◌, ◌≤◌};
    ghost use Rattle.std.specs.VecDeque.{deque_capacity, deque_len};
    ghost use Rattle.wire_ends.specs.Parcels.{packets_of};
    ghost use Rattle.wire_ends.specs.PieceEnds.{PieceState};

    ghost Value = { PieceState };

    ghost view = { λ e. record {
      pieces = e.pieces.items;
      gathered = e.gathered;
      room = e.room;
      most = e.most;
      looks = e.looks;
      sent = packets_of e.sent.items;
      taken = e.taken.items;
    } };

    ghost invariant = { λ e. (0 < e.most) × (deque_len e.pieces + e.room ≤ deque_capacity e.pieces) };
}

impl PieceEnd {
    /// An empty list; its parts have 1 to `most` bytes. An `Err` is want of memory.
    pub fn new(alloc: Global, most: usize) -> Result<PieceEnd, Memory>
        requires { 0 < most }
        ensures pieces { IfOk result (λ e. e.pieces ≡ []) }
        ensures gathered { IfOk result (λ e. e.gathered ≡ record { begun = None; whole = [] }) }
        ensures ghost_history { IfOk result (λ e. (e.sent ≡ []) × (e.taken ≡ [])) }
        ensures most { IfOk result (λ e. e.most ≡ most) }
        ensures unused { IfOk result (λ e. (e.room ≡ 0) × (e.looks ≡ 0)) }
    {
        Ok(PieceEnd::from_pieces(alloc, VecDeque::new(alloc), most))
    }

    /// Over any list of pieces.
    pub fn from_pieces(alloc: Global, pieces: VecDeque<Piece>, most: usize) -> PieceEnd
        requires { 0 < most }
        ensures pieces { result.pieces ≡ pieces.items }
        ensures gathered { result.gathered ≡ record { begun = None; whole = [] } }
        ensures untaken { untaken result ≡ packets pieces.items }
        ensures ghost_history { (result.sent ≡ []) × (result.taken ≡ []) }
        ensures most { result.most ≡ most }
        ensures unused { (result.room ≡ 0) × (result.looks ≡ 0) }
    {
        PieceEnd {
            alloc,
            pieces,
            gathered: Joiner::new(alloc),
            room: 0,
            most,
            looks: 0,
            sent: GhostHistory::new(),
            taken: GhostHistory::new(),
        }
    }

    /// The next of the packets that were gathered, if there is one.
    pub fn next(&self) -> Option<&WirePacket>
        ensures { option_copied result ≡ piece_shown self.now }
    {
        self.gathered.next()
    }

    /// How many packets were gathered.
    pub fn len(&self) -> usize
        ensures { result ≡ length self.now.gathered.whole }
    {
        self.gathered.len()
    }

    /// Keeps so many of the packets that were gathered, and loses all other packets and pieces.
    pub fn keep(&mut self, count: usize)
        ensures { self.new ≡ record self.old { pieces = []; gathered = first_whole count self.old.gathered } }
    {
        self.pieces.clear();
        self.gathered.keep(count);
    }

    /// Gathers a packet that comes as it is, in no pieces, after those that were gathered; unchanged where memory is wanting. What
    /// `send` sent is not counted up.
    pub fn add_whole(&mut self, packet: WirePacket) -> Result<(), Memory>
        ensures ok { OnOk result (self.new ≡ record self.old { gathered = record { begun = self.old.gathered.begun; whole = self.old.gathered.whole ++ packet ∷ [] } }) }
        ensures err { OnErr result (self.new ≡ self.old) }
    {
        self.gathered.push(packet)
    }

    fn look(&mut self)
        ensures more { self.new ≡ record self.old { looks = one_more self.old.looks } }
        ensures looked { Looked self.old.looks self.new.looks }
    {
        self.looks = self.looks.saturating_add(1);
    }

    /// Makes room for so many more pieces.
    fn make_room(&mut self, places: usize) -> Result<(), Memory>
        ensures ok { OnOk result (self.new ≡ record self.old { room = self.old.room + places }) }
        ensures err { OnErr result (self.new ≡ self.old) }
    {
        let Some(room) = self.room.checked_add(places) else {
            return Err(Memory);
        };
        self.pieces.reserve(room)?;
        self.room = room;
        Ok(())
    }

    /// Sends a parcel, for which there is room.
    fn send_pieces(&mut self, parcel: Parcel)
        requires room { parcel.places ≤ self.old.room }
        requires fit { IsCut parcel }
        ensures pieces { self.new.pieces ≡ self.old.pieces ++ pieces_of parcel }
        ensures sent { self.new.sent ≡ self.old.sent ++ parcel.packet ∷ [] }
        ensures free { self.new.room + parcel.places ≡ self.old.room }
        ensures rest { self.new ≡ record self.old { pieces = self.new.pieces; room = self.new.room; sent = self.new.sent } }
        ensures frame { concat parcel.parts ≡ parcel.packet.frame }
    {
        self.room -= parcel.places();
        self.sent = self.sent.and(&parcel);
        put(&mut self.pieces, parcel.into_pieces());
    }
}

/// Puts pieces after all others.
fn put(pieces: &mut VecDeque<Piece>, more: Pieces)
    requires { deque_len pieces.old + length more ≤ deque_capacity pieces.old }
    ensures items { pieces.new.items ≡ pieces.old.items ++ more }
    ensures len { deque_len pieces.new ≡ deque_len pieces.old + length more }
    ensures capacity { deque_capacity pieces.new ≡ deque_capacity pieces.old }
{
    let mut left = more;
    while let Some(piece) = left.next() {
        pieces.push_back_reserved(piece);
    }
}

/// Brings all pieces over; those that memory was wanting for stay.
#[tactic(auto, using(crate::proofs::Joining::next_piece, crate::proofs::Joining::no_piece, crate::proofs::Joining::grows_more, crate::proofs::Joining::grows_on))]
fn bring(pieces: &mut VecDeque<Piece>, gathered: &mut Joiner) -> Result<(), Memory>
    ensures ok { OnOk result (pieces.new.items ≡ []) }
    ensures same { with_pieces gathered.new pieces.new.items ≡ with_pieces gathered.old pieces.old.items }
    ensures grows { Grows gathered.old.whole gathered.new.whole }
    ensures len { deque_len pieces.new ≤ deque_len pieces.old }
    ensures capacity { deque_capacity pieces.new ≡ deque_capacity pieces.old }
{
    while let Some(piece) = pieces.pop_front() {
        if let Err(back) = gathered.join(piece) {
            pieces.push_front_reserved(back);
            return Err(Memory);
        }
    }
    Ok(())
}

impl End for PieceEnd {
    ghost sent = { λ e. e.sent };

    ghost taken = { λ e. e.taken };

    ghost free = { λ e. e.room };

    ghost shown = { λ e. piece_shown e };

    ghost waiting = { λ e. e.pieces };

    ghost looks = { λ e. e.looks };

    ghost fits = { λ p. IsCut p };

    fn pack(&mut self, packet: WirePacket) -> Result<Parcel, Memory>
        ensures packet { IfOk result (λ p. p.packet ≡ packet) }
        ensures fits { IfOk result (λ p. IsCut p) }
        ensures places { IfOk result (λ p. p.places ≡ div_ceil (length packet.frame) self.old.most + 1) }
        ensures sizes { IfOk result (λ p. AreParts self.old.most p.parts) }
        ensures room { IfOk result (λ p. self.new ≡ record self.old { room = self.old.room + p.places }) }
        ensures err { OnErr result (self.new ≡ self.old) }
        ensures free { self.old.room ≤ self.new.room }
    {
        let parcel = Parcel::cut(self.alloc, packet, self.most)?;
        self.make_room(parcel.places())?;
        Ok(parcel)
    }

    fn free(&mut self) -> usize {
        self.look();
        self.room
    }

    fn send(&mut self, parcel: Parcel)
        requires room { parcel.places ≤ self.old.room }
        requires fit { IsCut parcel }
        ensures pieces { self.new.pieces ≡ self.old.pieces ++ pieces_of parcel }
        ensures sent { self.new.sent ≡ self.old.sent ++ parcel.packet ∷ [] }
        ensures rest { self.new ≡ record self.old { pieces = self.new.pieces; room = self.new.room; sent = self.new.sent } }
        ensures untaken { untaken self.new ≡ untaken self.old ++ (cut_off (begun_at_end self.old.gathered.begun self.old.pieces) ++ parcel.packet ∷ []) }
        ensures whole { IsAtRest self.new }
        ensures free { self.new.room + parcel.places ≡ self.old.room }
    {
        self.send_pieces(parcel)
    }

    #[tactic(auto, using(crate::proofs::Joining::all_shown, crate::proofs::Joining::grows_stays))]
    fn gather(&mut self) -> Result<(), Memory>
        ensures all { OnOk result (self.new.pieces ≡ []) }
        ensures shows { OnOk result (self.new.gathered.whole ≡ untaken self.old) }
        ensures joined { with_pieces self.new.gathered self.new.pieces ≡ with_pieces self.old.gathered self.old.pieces }
        ensures same { self.new ≡ record self.old { pieces = self.new.pieces; gathered = self.new.gathered; looks = self.new.looks } }
        ensures untaken { untaken self.new ≡ untaken self.old }
        ensures rest { begun_at_end self.new.gathered.begun self.new.pieces ≡ begun_at_end self.old.gathered.begun self.old.pieces }
        ensures stays { Stays (piece_shown self.old) (piece_shown self.new) }
        ensures grows { Grows self.old.gathered.whole self.new.gathered.whole }
        ensures looked { Looked self.old.looks self.new.looks }
    {
        self.look();
        bring(&mut self.pieces, &mut self.gathered)
    }

    fn peek(&mut self) -> Option<&WirePacket> {
        self.look();
        self.gathered.next()
    }

    fn take(&mut self) -> Option<WirePacket>
        ensures value { result ≡ piece_shown self.old }
        ensures untaken { untaken self.new ≡ drop (length (option_to_list result)) (untaken self.old) }
        ensures after { self.new ≡ record self.old { gathered = self.new.gathered; taken = self.old.taken ++ option_to_list result } }
        ensures gathered { self.new.gathered ≡ record { begun = self.old.gathered.begun; whole = drop 1 self.old.gathered.whole } }
    {
        let packet = self.gathered.take()?;
        self.taken = self.taken.and(&packet);
        Some(packet)
    }
}
