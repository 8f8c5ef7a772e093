//! What an event sends, made ready: for the history, and for the ends.
ghost use Rattle.std.specs.Prelude.{◌≡◌, ◌<◌, ◌++◌, ◌∷◌, [], true, false, max, IfNone, IfOk, IfSome, OnOk, vec_capacity, vec_len};
ghost use Rattle.std.specs.Vec.Iter.{into_iter_items};
ghost use Rattle.log_parts.specs.Rows.{LooksRise, SamePeers, SameSends, SameTakes, has_peer};
ghost use Rattle.log_parts.specs.Sending.{AreAddressed};
ghost use Rattle.node_log.specs.Packing.{GoToPeers, IsPacked, LacksFor, MayJoin, MayNotJoin, all_sent_at, packed_all, sent_at};

use crate::log::Log;
use geo_base::{Memory, Stamp, WireOut};
use log_parts::{Addressed, EndTable, Sent};
use std::alloc::Global;
use std::vec::IntoIter;
use wire_ends::{End, WirePacket};

/// How far a stamp may rise: no number of 64 bits wraps then (own).
pub(crate) const STAMPS: u64 = 9_223_372_036_854_775_808;

/// The packets of an event of a stamp, as the history keeps them, and their parcels.
#[derive(Drop)]
pub(crate) struct Packed {
    pub stamp: Stamp,
    pub sent: Vec<Sent>,
    pub parcels: Vec<Addressed>,
}

/// What an event sends, packed, with room in the log for the event. `shown` is the stamp of the packet that it takes, 0 where it
/// takes none. `None` where the event is idle, its stamp has no room, or a look finds that an end has too few places. An `Err` is
/// want of memory.
pub(crate) fn make_ready<E: End>(
    alloc: Global,
    ends: &mut EndTable<E>,
    log: &mut Log,
    is_idle: bool,
    shown: u64,
    outs: Vec<WireOut>,
) -> Result<Option<Packed>, Memory>
    requires peers { is_idle ≡ false → GoToPeers ends.old.rows.items outs.items }
    ensures ready { IfOk result (λ o. IfSome o (λ p. MayJoin E.free E.fits is_idle (max log.old.clock shown) outs.items ends.new.rows.items p)) }
    ensures unready { IfOk result (λ o. IfNone o (MayNotJoin E.free E.looks E.fits is_idle (max log.old.clock shown) outs.items ends.old.rows.items ends.new.rows.items)) }
    ensures room { IfOk result (λ o. IfSome o (λ p. vec_len log.new.history < vec_capacity log.new.history)) }
    ensures history { log.new.history.items ≡ log.old.history.items }
    ensures clock { log.new.clock ≡ log.old.clock }
    ensures sends { SameSends E.sent E.free ends.old.rows.items ends.new.rows.items }
    ensures takes { SameTakes E.taken E.shown ends.old.rows.items ends.new.rows.items }
    ensures peers { SamePeers ends.old.rows.items ends.new.rows.items }
{
    let last = log.clock.number().max(shown);
    if is_idle {
        return Ok(None);
    }
    if last >= STAMPS {
        return Ok(None);
    }
    pack_ready(alloc, ends, log, Stamp::new(1 + last), outs)
}

/// What an event of a stamp sends, packed, with room in the log for the event; `None` where a look finds that an end has too few
/// places for it. An `Err` is want of memory.
fn pack_ready<E: End>(
    alloc: Global,
    ends: &mut EndTable<E>,
    log: &mut Log,
    stamp: Stamp,
    outs: Vec<WireOut>,
) -> Result<Option<Packed>, Memory>
    requires peers { GoToPeers ends.old.rows.items outs.items }
    ensures packed { IfOk result (λ o. IfSome o (λ p. IsPacked E.free E.fits stamp outs.items ends.new.rows.items p)) }
    ensures full { IfOk result (λ o. IfNone o (LacksFor E.free E.looks E.fits stamp outs.items ends.old.rows.items ends.new.rows.items)) }
    ensures room { IfOk result (λ o. IfSome o (λ p. vec_len log.new.history < vec_capacity log.new.history)) }
    ensures history { log.new.history.items ≡ log.old.history.items }
    ensures clock { log.new.clock ≡ log.old.clock }
    ensures sends { SameSends E.sent E.free ends.old.rows.items ends.new.rows.items }
    ensures takes { SameTakes E.taken E.shown ends.old.rows.items ends.new.rows.items }
    ensures peers { SamePeers ends.old.rows.items ends.new.rows.items }
{
    let packed = pack_all(alloc, ends, stamp, outs)?;
    if !ends.has_room(packed.parcels.as_slice()) {
        return Ok(None);
    }
    log.history.reserve(1)?;
    Ok(Some(packed))
}

/// Packs all that an event of a stamp sends. An `Err` is want of memory.
#[tactic(auto, using(crate::proofs::Packs::packed_first))]
fn pack_all<E: End>(
    alloc: Global,
    ends: &mut EndTable<E>,
    stamp: Stamp,
    outs: Vec<WireOut>,
) -> Result<Packed, Memory>
    requires peers { GoToPeers ends.old.rows.items outs.items }
    ensures stamp { IfOk result (λ p. p.stamp ≡ stamp) }
    ensures sent { IfOk result (λ p. p.sent.items ≡ all_sent_at stamp outs.items) }
    ensures parcels { IfOk result (λ p. packed_all p.parcels.items ≡ all_sent_at stamp outs.items) }
    ensures addressed { IfOk result (λ p. AreAddressed E.fits ends.new.rows.items p.parcels.items) }
    ensures looks { LooksRise E.looks ends.old.rows.items ends.new.rows.items }
    ensures sends { SameSends E.sent E.free ends.old.rows.items ends.new.rows.items }
    ensures takes { SameTakes E.taken E.shown ends.old.rows.items ends.new.rows.items }
    ensures peers { SamePeers ends.old.rows.items ends.new.rows.items }
{
    let mut packed = Packed {
        stamp,
        sent: Vec::new(alloc),
        parcels: Vec::new(alloc),
    };
    pack_rest(alloc, ends, outs.into_iter(), &mut packed)?;
    Ok(packed)
}

#[tactic(auto, using(crate::proofs::Packs::peers_still))]
fn pack_rest<E: End>(
    alloc: Global,
    ends: &mut EndTable<E>,
    mut outs: IntoIter<WireOut, Global>,
    packed: &mut Packed,
) -> Result<(), Memory>
    requires peers { GoToPeers ends.old.rows.items (into_iter_items outs) }
    requires addressed { AreAddressed E.fits ends.old.rows.items packed.old.parcels.items }
    ensures stamp { packed.new.stamp ≡ packed.old.stamp }
    ensures sent { OnOk result (packed.new.sent.items ≡ packed.old.sent.items ++ all_sent_at packed.old.stamp (into_iter_items outs)) }
    ensures parcels { OnOk result (packed_all packed.new.parcels.items ≡ packed_all packed.old.parcels.items ++ all_sent_at packed.old.stamp (into_iter_items outs)) }
    ensures addressed { OnOk result (AreAddressed E.fits ends.new.rows.items packed.new.parcels.items) }
    ensures looks { LooksRise E.looks ends.old.rows.items ends.new.rows.items }
    ensures sends { SameSends E.sent E.free ends.old.rows.items ends.new.rows.items }
    ensures takes { SameTakes E.taken E.shown ends.old.rows.items ends.new.rows.items }
    ensures peers { SamePeers ends.old.rows.items ends.new.rows.items }
{
    let Some(out) = outs.next() else {
        return Ok(());
    };
    pack(alloc, ends, out, packed)?;
    pack_rest(alloc, ends, outs, packed)
}

/// One more packet: once for the history, and once in its parcel.
fn pack<E: End>(
    alloc: Global,
    ends: &mut EndTable<E>,
    out: WireOut,
    packed: &mut Packed,
) -> Result<(), Memory>
    requires peer { has_peer ends.old.rows.items out.to ≡ true }
    requires addressed { AreAddressed E.fits ends.old.rows.items packed.old.parcels.items }
    ensures stamp { packed.new.stamp ≡ packed.old.stamp }
    ensures sent { OnOk result (packed.new.sent.items ≡ packed.old.sent.items ++ sent_at packed.old.stamp out ∷ []) }
    ensures parcels { OnOk result (packed_all packed.new.parcels.items ≡ packed_all packed.old.parcels.items ++ sent_at packed.old.stamp out ∷ []) }
    ensures addressed { OnOk result (AreAddressed E.fits ends.new.rows.items packed.new.parcels.items) }
    ensures looks { LooksRise E.looks ends.old.rows.items ends.new.rows.items }
    ensures sends { SameSends E.sent E.free ends.old.rows.items ends.new.rows.items }
    ensures takes { SameTakes E.taken E.shown ends.old.rows.items ends.new.rows.items }
    ensures peers { SamePeers ends.old.rows.items ends.new.rows.items }
{
    let WireOut { to, session, frame } = out;
    let stamp = packed.stamp;
    packed.sent.push(Sent {
        to,
        packet: WirePacket {
            session,
            stamp,
            frame: frame.copy(alloc)?,
        },
    })?;
    let parcel = ends.pack(
        to,
        WirePacket {
            session,
            stamp,
            frame,
        },
    )?;
    packed.parcels.push(Addressed { to, parcel })?;
    Ok(())
}
