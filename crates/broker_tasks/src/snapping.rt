//! Snap: a snapshot begins with a request to all other clusters, where a subscription is replicated and none is being made (PIP-33).
ghost use Rattle.std.specs.Prelude.{◌≡◌, ◌≤◌, ◌&&◌, is_none, length, IfOk, OnOk};
ghost use Rattle.std.specs.List.{list_any};
ghost use Rattle.geo_base.specs.SnapshotBuilder.{snapshot_id};
ghost use Rattle.geo_base.specs.Markers.{asks, snap};
ghost use Rattle.geo_base.specs.Subscription.{Subscription};
ghost use Rattle.broker_state.specs.Plan.{IsEmptyPlan};
ghost use Rattle.broker_state.specs.Room.{HasRoom};
ghost use Rattle.broker_state.specs.State.{SameState};
ghost use Rattle.broker_plans.specs.Prepared.{CanWrite, IsPrepared, MarkerFits};
ghost use Rattle.broker_plans.specs.Storable.{most_id};

use crate::act::begin_marker;
use crate::markers::request;
use broker_state::{BoxedBuilder, BrokerState, Plan, StateChange};
use geo_base::limits::NAME_BYTES;
use geo_base::{EntryStore, Memory, Position, Text};
use replicated_subs::SnapshotBuilder;
use std::alloc::Global;

/// What the beginning of a snapshot will do, among at least two clusters; it is not enabled where no subscription is replicated, or
/// where a snapshot is being made. Only room is made; an `Err` is want of memory.
#[tactic(auto, using(crate::proofs::Plans::not_asked, crate::proofs::Plans::idle_room, crate::proofs::Plans::asks_now))]
pub fn prepare_snap(alloc: Global, state: &mut BrokerState, plan: &mut Plan) -> Result<(), Memory>
    requires can { CanWrite state.old.site state.old.broker }
    requires remotes { 2 ≤ length state.old.site.clusters }
    requires empty { IsEmptyPlan plan.old }
    ensures prepared { OnOk result (IsPrepared state.old.site state.old.broker (snap state.old.site state.old.broker) plan.new) }
    ensures room { OnOk result (HasRoom state.new.room plan.new) }
    ensures kept { SameState state.old state.new }
{
    if !may_ask(state) {
        return Ok(());
    }
    state.reserve_entries(1)?;
    let site = state.site();
    let name = site.cluster_name(site.own()).as_str();
    let id = snapshot_id(alloc, name, state.store().next())?;
    ask(alloc, state, &id, plan)?;
    Ok(())
}

/// Whether a subscription is replicated and no snapshot is being made.
fn may_ask(state: &BrokerState) -> bool
    ensures { result ≡ (list_any (λ (s : Subscription). s.replicated) state.now.broker.subs && is_none state.now.broker.builder) }
{
    state.subs().any_replicated() && state.builder().is_none()
}

/// A request of this id is stored, and a builder begins.
#[tactic(auto, using(crate::proofs::Plans::asked, crate::proofs::Plans::asked_room, crate::proofs::Heard::started_builder))]
fn ask(alloc: Global, state: &BrokerState, id: &Text, plan: &mut Plan) -> Result<(), Memory>
    requires number { MarkerFits state.now.site state.now.broker }
    requires remotes { 2 ≤ length state.now.site.clusters }
    requires short { length id.now ≤ most_id }
    requires entries { 1 ≤ state.now.room.entries }
    requires streams { 1 ≤ state.now.room.streams }
    requires empty { IsEmptyPlan plan.old }
    ensures prepared { OnOk result (IsPrepared state.now.site state.now.broker (asks state.now.site state.now.broker id.now) plan.new) }
    ensures room { OnOk result (HasRoom state.now.room plan.new) }
{
    let asked = request(alloc, state, id.as_str())?;
    begin_marker(alloc, asked, plan)?;
    let clusters = state.site().clusters().len() as u32;
    let builder = SnapshotBuilder::start(alloc, id.as_str(), state.site().own(), clusters)?;
    plan.change(StateChange::Building {
        builder: Some(BoxedBuilder::new(alloc, builder)?),
    })?;
    Ok(())
}

/// A snapshot's id: the cluster's name and the position of its request, as `a:0:1` (own).
#[tactic(auto, using(crate::proofs::Sizes::short_id))]
fn snapshot_id(alloc: Global, cluster: &str, position: Position) -> Result<Text, Memory>
    requires { length cluster.now ≤ NAME_BYTES }
    ensures id { IfOk result (λ id. id ≡ snapshot_id cluster.now position) }
    ensures short { IfOk result (λ id. length id ≤ most_id) }
{
    let ledger = position.ledger;
    let entry = position.entry;
    Ok(Text::from_string(format!(in alloc; "{cluster}:{ledger}:{entry}")?))
}
