//! What a node sends in an event: all of it, or nothing.
ghost use Rattle.std.specs.Prelude.{◌≡◌, ◌<◌, ◌≤◌, ◌^◌, true, drop, length, slice_index_or, IfSome, IfNone, IsTrue, IsFalse};
ghost use Rattle.std.specs.Vec.Iter.{into_iter_items};
ghost use Rattle.wire_ends.specs.Looks.{Looked};
ghost use Rattle.log_parts.specs.Rows.{LooksRise, SamePeers, SameSends, SameTaken, SameTakes, free_to, has_peer, looks_to};
ghost use Rattle.log_parts.specs.Sending.{AreAddressed, ArePeers, HasRoom, HasRoomFor, LacksRoom, SentAll, behind_run, places_to};
ghost use Rattle.log_parts.specs.declared.sending.Addressed.{Addressed as AddressedParcel};

use crate::peer::same_peer;
use crate::table::EndTable;
use geo_base::Peer;
use std::alloc::Global;
use std::vec::IntoIter;
use wire_ends::{End, Parcel};

/// A parcel, and the peer that it goes to.
#[derive(Drop)]
pub struct Addressed {
    pub to: Peer,
    pub parcel: Parcel,
}

/// How many places the parcels to a peer take; `None` where 64 bits can't count them.
#[tactic(auto, using(crate::proofs::Sends::more_places, crate::proofs::Sends::no_places, crate::proofs::Sends::last_places, crate::proofs::Sends::many_places))]
fn places_to(parcels: &[Addressed], to: Peer) -> Option<usize>
    ensures some { IfSome result (λ n. n ≡ places_to to parcels.now) }
    ensures none { IfNone result (2 ^ 64 ≤ places_to to parcels.now) }
{
    let mut places: usize = 0;
    for addressed in parcels {
        if same_peer(addressed.to, to) {
            places = match places.checked_add(addressed.parcel.places()) {
                Some(sum) => sum,
                None => return None,
            };
        }
    }
    Some(places)
}

/// Where the parcels end that go to the peer of the one at a place and stand side by side from there on.
#[tactic(auto, using(crate::proofs::Sends::run_begun, crate::proofs::Sends::run_on, crate::proofs::Sends::run_past, crate::proofs::Sends::run_over))]
fn run_end(parcels: &[Addressed], at: usize) -> usize
    requires { at < length parcels.now }
    ensures later { at < result }
    ensures run { (d : AddressedParcel) → drop result parcels.now ≡ behind_run (slice_index_or parcels.now at d).to (drop at parcels.now) }
{
    let to = parcels[at].to;
    let mut end = at + 1;
    while end < parcels.len() && same_peer(parcels[end].to, to) {
        end += 1;
    }
    end
}

impl<E: End> EndTable<E> {
    /// Looks whether each end has places for all that goes to its peer.
    #[tactic(auto, using(crate::proofs::Sends::room_of))]
    pub fn has_room(&mut self, parcels: &[Addressed]) -> bool
        requires { ArePeers self.old.rows.items parcels.now }
        ensures room { IsTrue result → HasRoom E.free self.new.rows.items parcels.now }
        ensures few { IsFalse result → LacksRoom E.free E.looks self.old.rows.items self.new.rows.items parcels.now }
        ensures sends { SameSends E.sent E.free self.old.rows.items self.new.rows.items }
        ensures takes { SameTakes E.taken E.shown self.old.rows.items self.new.rows.items }
        ensures peers { SamePeers self.old.rows.items self.new.rows.items }
    {
        self.has_room_from(parcels, 0)
    }

    /// The same of the parcels from one on. Those to one peer that stand side by side are summed once, as all are that an event sends.
    #[tactic(auto, using(crate::proofs::Sends::peer_at, crate::proofs::Sends::still_peers, crate::proofs::Sends::room_none, crate::proofs::Sends::room_more, crate::proofs::Sends::lacks_here, crate::proofs::Sends::lacks_later))]
    fn has_room_from(&mut self, parcels: &[Addressed], at: usize) -> bool
        requires { ArePeers self.old.rows.items parcels.now }
        ensures room { IsTrue result → HasRoomFor E.free self.new.rows.items parcels.now (drop at parcels.now) }
        ensures few { IsFalse result → LacksRoom E.free E.looks self.old.rows.items self.new.rows.items parcels.now }
        ensures looks { LooksRise E.looks self.old.rows.items self.new.rows.items }
        ensures sends { SameSends E.sent E.free self.old.rows.items self.new.rows.items }
        ensures takes { SameTakes E.taken E.shown self.old.rows.items self.new.rows.items }
        ensures peers { SamePeers self.old.rows.items self.new.rows.items }
    {
        if at >= parcels.len() {
            return true;
        }
        if !self.has_places(parcels[at].to, parcels) {
            return false;
        }
        self.has_room_from(parcels, run_end(parcels, at))
    }

    /// Looks whether the end of a peer has places for all that goes to it.
    fn has_places(&mut self, to: Peer, parcels: &[Addressed]) -> bool
        requires { has_peer self.old.rows.items to ≡ true }
        ensures room { IsTrue result → places_to to parcels.now ≤ free_to E.free self.new.rows.items to }
        ensures few { IsFalse result → free_to E.free self.new.rows.items to < places_to to parcels.now }
        ensures looked { Looked (looks_to E.looks self.old.rows.items to) (looks_to E.looks self.new.rows.items to) }
        ensures looks { LooksRise E.looks self.old.rows.items self.new.rows.items }
        ensures sends { SameSends E.sent E.free self.old.rows.items self.new.rows.items }
        ensures takes { SameTakes E.taken E.shown self.old.rows.items self.new.rows.items }
        ensures peers { SamePeers self.old.rows.items self.new.rows.items }
    {
        let free = self.free(to);
        match places_to(parcels, to) {
            Some(places) => places <= free,
            None => false,
        }
    }

    /// Sends parcels, for all of which places are known to be free, in their order.
    pub fn send_all(&mut self, parcels: Vec<Addressed>)
        requires addressed { AreAddressed E.fits self.old.rows.items parcels.items }
        requires room { HasRoom E.free self.old.rows.items parcels.items }
        ensures sent { SentAll E.sent parcels.items self.old.rows.items self.new.rows.items }
        ensures taken { SameTaken E.taken self.old.rows.items self.new.rows.items }
        ensures peers { SamePeers self.old.rows.items self.new.rows.items }
    {
        self.send_rest(parcels.into_iter());
    }

    fn send_rest(&mut self, mut parcels: IntoIter<Addressed, Global>)
        requires addressed { AreAddressed E.fits self.old.rows.items (into_iter_items parcels) }
        requires room { HasRoom E.free self.old.rows.items (into_iter_items parcels) }
        ensures sent { SentAll E.sent (into_iter_items parcels) self.old.rows.items self.new.rows.items }
        ensures taken { SameTaken E.taken self.old.rows.items self.new.rows.items }
        ensures peers { SamePeers self.old.rows.items self.new.rows.items }
    {
        let Some(first) = parcels.next() else {
            return;
        };
        let Addressed { to, parcel } = first;
        self.send(to, parcel);
        self.send_rest(parcels);
    }
}
