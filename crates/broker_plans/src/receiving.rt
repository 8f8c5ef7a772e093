//! An entry that came: it is stored, or is a duplicate. And packets after what an event does.
ghost use Rattle.std.specs.Prelude.{◌≡◌, ◌≤◌, true, false, [], Some, IfNone, IfOk, IfSome, OnErr, OnOk};
ghost use Rattle.topic_store.specs.Table.{stream_of};
ghost use Rattle.geo_base.specs.Plan.{plan_of};
ghost use Rattle.geo_base.specs.Storing.{receipt_position, storing};
ghost use Rattle.geo_base.specs.Topic.{accepts};
ghost use Rattle.broker_state.specs.State.{SameState};
ghost use Rattle.broker_state.specs.Plan.{IsEmptyPlan};
ghost use Rattle.broker_state.specs.Room.{HasRoom};
ghost use Rattle.frame_values.specs.Coded.{carries_entry};
ghost use Rattle.frame_values.specs.Fitting.{IsSmall};
ghost use Rattle.frame_values.specs.Texts.{is_readable};
ghost use Rattle.broker_plans.specs.Prepared.{AlsoSends, IsPrepared};
ghost use Rattle.broker_plans.specs.Storable.{IsStorable};

use crate::packet::text;
use broker_state::{BrokerState, Plan, StateWrite};
use geo_base::{Entry, EntryStore, Frame, Ident, Memory, Peer, Position, WireOut};
use std::alloc::Global;
use topic_store::Stream;

/// The position of what stands no_position, -1:-1 as 64-bit numbers: the receipt of a duplicate names it, as those of Pulsar's brokers do.
pub const NO_POSITION: Position = Position {
    ledger: u64::MAX,
    entry: u64::MAX,
};

/// An event that stores an entry which came, unless it is a duplicate. The answer is the position that its receipt names. Where memory is
/// wanting, the plan has no step.
pub fn storing(
    alloc: Global,
    state: &mut BrokerState,
    entry: Entry,
    plan: &mut Plan,
) -> Result<Position, Memory>
    requires storable { IsStorable state.old.site entry }
    requires empty { IsEmptyPlan plan.old }
    ensures prepared { OnOk result (IsPrepared state.old.site state.old.broker (plan_of (storing state.old.broker entry) [] []) plan.new) }
    ensures position { IfOk result (λ p. Some p ≡ receipt_position state.old.site.per_ledger state.old.broker entry) }
    ensures room { OnOk result (HasRoom state.new.room plan.new) }
    ensures kept { SameState state.old state.new }
    ensures err { OnErr result ((plan.new.writes ≡ []) × (plan.new.changes ≡ []) × (plan.new.sent ≡ [])) }
{
    plan.begin(0);
    match new_stream(alloc, state, &entry.ident) {
        Ok(Some(stream)) => {
            plan.write(StateWrite::Append { entry, stream })?;
            Ok(state.store().next())
        }
        Ok(None) => {
            drop(entry);
            Ok(NO_POSITION)
        }
        Err(memory) => {
            drop(entry);
            Err(memory)
        }
    }
}

/// The stream of an entry that came, and room for the entry; `None` where it is a duplicate.
fn new_stream(
    alloc: Global,
    state: &mut BrokerState,
    ident: &Ident,
) -> Result<Option<Stream>, Memory>
    ensures new { IfOk result (λ o. IfSome o (λ s. (accepts state.old.broker.entries ident.now ≡ true) × (s ≡ stream_of ident.now) × (1 ≤ state.new.room.entries) × (1 ≤ state.new.room.streams))) }
    ensures duplicate { IfOk result (λ o. IfNone o (accepts state.old.broker.entries ident.now ≡ false)) }
    ensures kept { SameState state.old state.new }
{
    let stream = Stream::of(alloc, ident)?;
    if !state.accepts(&stream, ident.seq) {
        return Ok(None);
    }
    state.reserve_entries(1)?;
    Ok(Some(stream))
}

/// An event that sends, after all that it does, a packet without an entry; unchanged where memory is wanting.
pub fn also_send(
    alloc: Global,
    state: &BrokerState,
    plan: &mut Plan,
    to: Peer,
    session: u64,
    frame: &Frame,
) -> Result<(), Memory>
    requires simple { carries_entry frame.now ≡ false }
    requires readable { is_readable frame.now ≡ true }
    requires small { IsSmall state.now.site.clusters frame.now }
    ensures ok { OnOk result (AlsoSends state.now.site.clusters (record { to = to; session = session; frame = frame.now }) plan.old plan.new) }
    ensures err { OnErr result (plan.new ≡ plan.old) }
{
    let frame = text(alloc, state, frame)?;
    plan.send(WireOut { to, session, frame })
}
