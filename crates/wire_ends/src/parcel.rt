//! A packet that is ready to be sent.
ghost use Rattle.std.specs.Prelude.{◌≡◌, ◌<◌, ◌≤◌, ◌+◌, ℕ, IfOk, IfNone, [], ◌∷◌, ◌++◌, length, min};
ghost use Rattle.std.specs.Int.{div_ceil};
ghost use Rattle.std.specs.List.{concat};
ghost use Rattle.std.specs.Option.{option_to_list};
ghost use Rattle.wire_ends.specs.Parcels.{AreParts, IsCut, IsWhole, pieces_of};

use crate::packet::WirePacket;
use crate::piece::Piece;
use geo_base::{Blob, Memory, Stamp};
use std::alloc::Global;
use std::collections::VecDeque;
use std::marker::Model;

/// A packet that is cut into parts, and the number of places that it takes where it is sent. Its first part is the frame itself
/// where that is short enough: no byte is copied then.
#[derive(Drop)]
pub struct Parcel {
    session: u64,
    stamp: Stamp,
    first: Blob,
    rest: VecDeque<Blob>,
    len: u64,
    places: usize,
}

impl Model for Parcel {
    ghost use Rattle.std.specs.Prelude.{◌≡◌, ◌<◌, length};
    ghost use Rattle.std.specs.List.{concat};
    ghost use Rattle.wire_ends.specs.Parcels.{Packed, parts_of};

    ghost Value = { Packed };

    ghost view = { λ p. record {
      packet = record { session = p.session; stamp = p.stamp; frame = concat (parts_of p.first p.rest.items) };
      parts = parts_of p.first p.rest.items;
      places = p.places;
    } };

    ghost invariant = { λ p. (0 < p.places) × (p.len ≡ length (concat (parts_of p.first p.rest.items))) };
}

impl Parcel {
    /// A parcel of one place: the packet as it is.
    pub(crate) fn whole(alloc: Global, packet: WirePacket) -> Parcel
        ensures packet { result.packet ≡ packet }
        ensures whole { IsWhole result }
    {
        Parcel::of_one(alloc, packet, 1)
    }

    #[tactic(auto, using(crate::proofs::Cutting::one_size))]
    fn of_one(alloc: Global, packet: WirePacket, places: usize) -> Parcel
        requires { 0 < places }
        ensures packet { result.packet ≡ packet }
        ensures places { result.places ≡ places }
        ensures parts { length result.parts ≡ min 1 (length packet.frame) }
        ensures sizes { (most : ℕ) → length packet.frame ≤ most → AreParts most result.parts }
    {
        let len = packet.frame.as_slice().len() as u64;
        Parcel {
            session: packet.session,
            stamp: packet.stamp,
            first: packet.frame,
            rest: VecDeque::new(alloc),
            len,
            places,
        }
    }

    /// A parcel whose parts have at most so many bytes, with a place for each piece; an `Err` is want of memory. The bytes are
    /// copied only where one part does not take them all.
    #[tactic(auto, using(crate::proofs::Cutting::no_parts, crate::proofs::Cutting::one_part))]
    pub fn cut(alloc: Global, packet: WirePacket, most: usize) -> Result<Parcel, Memory>
        requires { 0 < most }
        ensures packet { IfOk result (λ p. p.packet ≡ packet) }
        ensures cut { IfOk result (λ p. IsCut p) }
        ensures places { IfOk result (λ p. p.places ≡ div_ceil (length packet.frame) most + 1) }
        ensures sizes { IfOk result (λ p. AreParts most p.parts) }
    {
        let len = packet.frame.as_slice().len();
        if len == 0 {
            return Ok(Parcel::of_one(alloc, packet, 1));
        }
        if len <= most {
            return Ok(Parcel::of_one(alloc, packet, 2));
        }
        Parcel::of_many(alloc, packet, most)
    }

    #[tactic(auto, using(crate::proofs::Cutting::first_part, crate::proofs::Cutting::first_more, crate::proofs::Cutting::first_sizes))]
    fn of_many(alloc: Global, packet: WirePacket, most: usize) -> Result<Parcel, Memory>
        requires few { 0 < most }
        requires many { most < length packet.frame }
        ensures packet { IfOk result (λ p. p.packet ≡ packet) }
        ensures cut { IfOk result (λ p. IsCut p) }
        ensures places { IfOk result (λ p. p.places ≡ div_ceil (length packet.frame) most + 1) }
        ensures sizes { IfOk result (λ p. AreParts most p.parts) }
    {
        let bytes = packet.frame.as_slice();
        let (front, back) = bytes.split_at(most);
        let first = Blob::from_slice(alloc, front)?;
        let rest = parts(alloc, back, most)?;
        let places = 2 + rest.len();
        Ok(Parcel {
            session: packet.session,
            stamp: packet.stamp,
            first,
            rest,
            len: bytes.len() as u64,
            places,
        })
    }

    /// How many places it takes.
    pub fn places(&self) -> usize
        ensures value { result ≡ self.now.places }
        ensures some { 0 < self.now.places }
    {
        self.places
    }

    /// The packet of a parcel of one place.
    #[tactic(auto, using(crate::proofs::Cutting::whole_frame))]
    pub(crate) fn into_packet(self) -> WirePacket
        requires { IsWhole self }
        ensures { result ≡ self.packet }
    {
        let Parcel {
            session,
            stamp,
            first,
            rest: _rest,
            len: _len,
            places: _places,
        } = self;
        WirePacket {
            session,
            stamp,
            frame: first,
        }
    }

    /// Its pieces, in order.
    pub fn into_pieces(self) -> Pieces
        ensures pieces { result ≡ pieces_of self }
        ensures frame { concat self.parts ≡ self.packet.frame }
    {
        let head = Piece::Head {
            session: self.session,
            stamp: self.stamp,
            len: self.len,
        };
        if self.first.as_slice().is_empty() {
            return Pieces::of_head(head, self.rest);
        }
        Pieces {
            head: Some(head),
            first: Some(self.first),
            rest: self.rest,
        }
    }
}

/// Bytes cut into parts of so many at most.
#[tactic(auto, using(crate::proofs::Cutting::no_parts, crate::proofs::Cutting::part_less, crate::proofs::Cutting::more_bytes, crate::proofs::Cutting::no_sizes))]
fn parts(alloc: Global, bytes: &[u8], most: usize) -> Result<VecDeque<Blob>, Memory>
    requires { 0 < most }
    ensures all { IfOk result (λ parts. concat parts.items ≡ bytes.now) }
    ensures count { IfOk result (λ parts. length parts.items ≡ div_ceil (length bytes.now) most) }
    ensures sizes { IfOk result (λ parts. AreParts most parts.items) }
{
    let mut parts = VecDeque::new(alloc);
    let mut at = 0;
    while at < bytes.len() {
        let end = at + most.min(bytes.len() - at);
        parts.push_back(Blob::from_slice(alloc, &bytes[at..end])?)?;
        at = end;
    }
    Ok(parts)
}

/// The pieces of a parcel that are left, in order.
#[derive(Drop)]
pub struct Pieces {
    head: Option<Piece>,
    first: Option<Blob>,
    rest: VecDeque<Blob>,
}

impl Model for Pieces {
    ghost use Rattle.std.specs.Prelude.{List, ◌++◌};
    ghost use Rattle.std.specs.Option.{option_to_list};
    ghost use Rattle.wire_ends.specs.declared.piece.Piece.{Piece};
    ghost use Rattle.wire_ends.specs.Parcels.{as_parts};

    ghost Value = { List Piece };

    ghost view = { λ p. option_to_list p.head ++ as_parts (option_to_list p.first ++ p.rest.items) };
}

impl Pieces {
    fn of_head(head: Piece, mut rest: VecDeque<Blob>) -> Pieces
        ensures { result ≡ head ∷ [] }
    {
        rest.clear();
        Pieces {
            head: Some(head),
            first: None,
            rest,
        }
    }

    /// The next piece; `None` exactly where none is left.
    pub fn next(&mut self) -> Option<Piece>
        ensures rest { self.old ≡ option_to_list result ++ self.new }
        ensures none { IfNone result (self.new ≡ []) }
    {
        if let Some(head) = self.head.take() {
            return Some(head);
        }
        if let Some(part) = self.first.take() {
            return Some(Piece::Part(part));
        }
        match self.rest.pop_front() {
            Some(part) => Some(Piece::Part(part)),
            None => None,
        }
    }
}
