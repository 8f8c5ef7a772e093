//! The bytes of a broker's packets.
ghost use Rattle.std.specs.Prelude.{◌≡◌, true, false, Some, IfOk};
ghost use Rattle.geo_base.specs.declared.frame.Frame.TheVariants as frame;
ghost use Rattle.geo_base.specs.Offering.{source_of};
ghost use Rattle.geo_base.specs.declared.marker.ClusterRef.TheVariants as cluster_ref;
ghost use Rattle.frame_values.specs.Coded.{IsWritten, carries_entry};
ghost use Rattle.frame_values.specs.Fitting.{IsSmall};
ghost use Rattle.frame_values.specs.Texts.{is_readable};
ghost use Rattle.broker_plans.specs.Storable.{IsStorable};

use broker_state::BrokerState;
use frame_values::{write_message, write_send, write_value};
use geo_base::{Blob, ClusterRef, Entry, Frame, Memory, Position};
use std::alloc::Global;

/// The text of a frame without an entry, whose texts are short.
#[tactic(auto, using(crate::proofs::Packets::simple_writable))]
pub fn text(alloc: Global, state: &BrokerState, frame: &Frame) -> Result<Blob, Memory>
    requires simple { carries_entry frame.now ≡ false }
    requires readable { is_readable frame.now ≡ true }
    requires small { IsSmall state.now.site.clusters frame.now }
    ensures { IfOk result (IsWritten state.now.site.clusters frame.now) }
{
    write_value(alloc, state.site().clusters(), frame)
}

/// The text of a SEND of a stored entry, which the own cluster replicates.
pub fn send_text(
    alloc: Global,
    state: &BrokerState,
    id: u64,
    seq: u64,
    entry: &Entry,
) -> Result<Blob, Memory>
    requires { IsStorable state.now.site entry.now }
    ensures { IfOk result (IsWritten state.now.site.clusters (frame.Send id seq (Some (cluster_ref.Known state.now.site.own)) entry.now)) }
{
    let site = state.site();
    let source = Some(ClusterRef::Known(site.own()));
    write_send(alloc, site.clusters(), id, seq, &source, entry)
}

/// The text of a MESSAGE of a stored entry, which names the cluster that stored it first where that is another one.
pub fn message_text(
    alloc: Global,
    state: &BrokerState,
    id: u64,
    position: Position,
    entry: &Entry,
) -> Result<Blob, Memory>
    requires { IsStorable state.now.site entry.now }
    ensures { IfOk result (IsWritten state.now.site.clusters (frame.Message id position (source_of state.now.site.own entry.now) entry.now)) }
{
    let site = state.site();
    let source = source_of(site.own(), entry);
    write_message(alloc, site.clusters(), id, position, &source, entry)
}

/// The cluster that stored an entry first, where it is not the own one.
fn source_of(own: u32, entry: &Entry) -> Option<ClusterRef>
    ensures { result ≡ source_of own entry.now }
{
    if entry.ident.origin == own {
        return None;
    }
    Some(ClusterRef::Known(entry.ident.origin))
}
