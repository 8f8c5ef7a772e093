//! What a cluster does with a marker of another one that its replicator reads: a request is answered, and an answer is heard.
ghost use Rattle.std.specs.Prelude.{◌≡◌, ◌≤◌, ◌<◌, ◌+◌, ◌^◌, true, [], ◌∷◌, Some, length, IfOk, IfSome, OnOk};
ghost use Rattle.geo_base.specs.declared.change.Change.TheVariants as change;
ghost use Rattle.geo_base.specs.declared.snapshot.Progress.TheVariants as progress;
ghost use Rattle.geo_base.specs.declared.write.Write.TheVariants as write;
ghost use Rattle.geo_base.specs.Entry.{means_cluster};
ghost use Rattle.geo_base.specs.Markers.{after_response, read_marker, read_response, response_marker};
ghost use Rattle.geo_base.specs.Sizes.{most_entry_size};
ghost use Rattle.geo_base.specs.Updating.{handled};
ghost use Rattle.broker_state.specs.Plan.{IsEmptyPlan};
ghost use Rattle.broker_state.specs.Room.{HasRoom};
ghost use Rattle.broker_plans.specs.Prepared.{CanWrite, IsPrepared, MarkerFits};
ghost use Rattle.broker_plans.specs.Storable.{IsBuilderOf, first_text};
ghost use Rattle.broker_tasks.specs.Reading.{IsRead, IsReading, IsReady, ReadRoom, handled_view, told_behind};

use crate::act::{ReadAct, ReadAt, acknowledge_read, begin_marker, skip};
use crate::markers::{request, response, snapshot};
use crate::updating::read_update;
use broker_state::{BoxedBuilder, BrokerState, Plan, StateChange};
use geo_base::{ClusterPosition, ClusterRef, Entry, EntryStore, Marker, Memory, Progress, Text};
use replicated_subs::SnapshotBuilder;
use std::alloc::Global;
use topic_store::or_first;

/// What is to be done with a marker of the other cluster. Its snapshots are its own affair.
pub(crate) fn read_marker(
    alloc: Global,
    state: &BrokerState,
    at: ReadAt,
    marker: &Marker,
    plan: &mut Plan,
) -> Result<ReadAct, Memory>
    requires can { CanWrite state.now.site state.now.broker }
    requires reading { IsReading state.now.site state.now.broker at.remote at.index }
    requires room { ReadRoom state.now.room }
    requires short { length (first_text marker.now) ≤ most_entry_size }
    requires empty { IsEmptyPlan plan.old }
    ensures { IfOk result (λ a. IsRead state.now.site state.now.broker state.now.room at.remote at.index (read_marker state.now.site state.now.broker at.remote at.index marker.now) a plan.new) }
{
    match marker {
        Marker::Request { id, .. } => {
            answer_request(alloc, state, at, id, plan)?;
            Ok(ReadAct::Ready)
        }
        Marker::Response { id, answer } => {
            hear_response(alloc, state, at, id, answer, plan)?;
            Ok(ReadAct::Ready)
        }
        Marker::Snapshot { .. } => {
            skip(state, at, plan)?;
            Ok(ReadAct::Ready)
        }
        Marker::Update { sub, remote } => {
            read_update(alloc, state, at, sub, remote.as_slice(), plan)
        }
    }
}

/// A request is answered.
fn answer_request(
    alloc: Global,
    state: &BrokerState,
    at: ReadAt,
    id: &Text,
    plan: &mut Plan,
) -> Result<(), Memory>
    requires number { MarkerFits state.now.site state.now.broker }
    requires reading { IsReading state.now.site state.now.broker at.remote at.index }
    requires room { ReadRoom state.now.room }
    requires short { length id.now ≤ most_entry_size }
    requires empty { IsEmptyPlan plan.old }
    ensures prepared { OnOk result (IsPrepared state.now.site state.now.broker (handled at.remote at.index (write.Append (response_marker state.now.site state.now.broker at.remote id.now) ∷ []) []) plan.new) }
    ensures room { OnOk result (HasRoom state.now.room plan.new) }
{
    let answer = response(alloc, state, at.remote, id)?;
    store_marker(alloc, state, at, answer, plan)
}

/// A marker is stored.
#[tactic(auto, using(crate::proofs::Plans::stored, crate::proofs::Plans::stored_room))]
fn store_marker(
    alloc: Global,
    state: &BrokerState,
    at: ReadAt,
    marker: Entry,
    plan: &mut Plan,
) -> Result<(), Memory>
    requires reading { IsReading state.now.site state.now.broker at.remote at.index }
    requires room { ReadRoom state.now.room }
    requires ready { IsReady state.now.site state.now.broker marker }
    requires empty { IsEmptyPlan plan.old }
    ensures prepared { OnOk result (IsPrepared state.now.site state.now.broker (handled at.remote at.index (write.Append marker ∷ []) []) plan.new) }
    ensures room { OnOk result (HasRoom state.now.room plan.new) }
{
    begin_marker(alloc, marker, plan)?;
    acknowledge_read(plan, at)
}

/// A response is heard by the snapshot that is being made; it has no effect where there is none, or where it names another cluster.
fn hear_response(
    alloc: Global,
    state: &BrokerState,
    at: ReadAt,
    id: &Text,
    answer: &ClusterPosition,
    plan: &mut Plan,
) -> Result<(), Memory>
    requires can { CanWrite state.now.site state.now.broker }
    requires reading { IsReading state.now.site state.now.broker at.remote at.index }
    requires room { ReadRoom state.now.room }
    requires empty { IsEmptyPlan plan.old }
    ensures prepared { OnOk result (IsPrepared state.now.site state.now.broker (read_response state.now.site state.now.broker at.remote at.index id.now answer.now state.now.broker.builder) plan.new) }
    ensures room { OnOk result (HasRoom state.now.room plan.new) }
{
    let Some(builder) = state.builder() else {
        return skip(state, at, plan);
    };
    if !means_cluster(at.remote, &answer.cluster) {
        return skip(state, at, plan);
    }
    let mut tried = builder.copy(alloc)?;
    let local = or_first(state.store().position_of(at.index as usize));
    let progress = tried.on_response(id.as_str(), at.remote, answer.position, local);
    act_on_progress(alloc, state, at, progress, tried, plan)
}

/// Whether a name stands for the cluster of a number.
pub(crate) fn means_cluster(cluster: u32, sub_index: &ClusterRef) -> bool
    ensures { result ≡ means_cluster cluster sub_index.now }
{
    match sub_index {
        ClusterRef::Known(number) => cluster == *number,
        ClusterRef::Stranger(_) => false,
    }
}

/// What a response came to, and what the builder has become: nothing, it counts, a second round begins, the snapshot is made.
fn act_on_progress(
    alloc: Global,
    state: &BrokerState,
    at: ReadAt,
    progress: Progress,
    builder: SnapshotBuilder,
    plan: &mut Plan,
) -> Result<(), Memory>
    requires number { MarkerFits state.now.site state.now.broker }
    requires reading { IsReading state.now.site state.now.broker at.remote at.index }
    requires room { ReadRoom state.now.room }
    requires builder { IsBuilderOf state.now.site builder }
    requires made { progress ≡ Progress.Done → builder.finished ≡ true }
    requires empty { IsEmptyPlan plan.old }
    ensures prepared { OnOk result (IsPrepared state.now.site state.now.broker (after_response state.now.site state.now.broker at.remote at.index progress builder) plan.new) }
    ensures room { OnOk result (HasRoom state.now.room plan.new) }
{
    match progress {
        Progress::Ignored => {
            drop(builder);
            skip(state, at, plan)
        }
        Progress::Kept => keep_builder(alloc, state, at, builder, plan),
        Progress::SecondRound => match request(alloc, state, builder.current_id()) {
            Ok(again) => store_with_builder(alloc, state, at, again, Some(builder), plan),
            Err(why) => {
                drop(builder);
                Err(why)
            }
        },
        Progress::Done => {
            let made = snapshot(alloc, state, &builder);
            drop(builder);
            let made = made?;
            store_with_builder(alloc, state, at, made, None, plan)
        }
    }
}

/// The snapshot that is being made has become this one.
#[tactic(auto, using(crate::proofs::Plans::kept, crate::proofs::Plans::kept_room))]
fn keep_builder(
    alloc: Global,
    state: &BrokerState,
    at: ReadAt,
    builder: SnapshotBuilder,
    plan: &mut Plan,
) -> Result<(), Memory>
    requires reading { IsReading state.now.site state.now.broker at.remote at.index }
    requires room { ReadRoom state.now.room }
    requires builder { IsBuilderOf state.now.site builder }
    requires empty { IsEmptyPlan plan.old }
    ensures prepared { OnOk result (IsPrepared state.now.site state.now.broker (handled at.remote at.index [] (change.Building (Some builder) ∷ [])) plan.new) }
    ensures room { OnOk result (HasRoom state.now.room plan.new) }
{
    plan.begin(0);
    tell_builder(alloc, at, Some(builder), plan)
}

/// A marker is stored, and the snapshot that is being made is another one or none.
#[tactic(auto, using(crate::proofs::Plans::told, crate::proofs::Plans::told_room))]
fn store_with_builder(
    alloc: Global,
    state: &BrokerState,
    at: ReadAt,
    marker: Entry,
    builder: Option<SnapshotBuilder>,
    plan: &mut Plan,
) -> Result<(), Memory>
    requires reading { IsReading state.now.site state.now.broker at.remote at.index }
    requires room { ReadRoom state.now.room }
    requires ready { IsReady state.now.site state.now.broker marker }
    requires builder { IfSome builder (IsBuilderOf state.now.site) }
    requires empty { IsEmptyPlan plan.old }
    ensures prepared { OnOk result (IsPrepared state.now.site state.now.broker (handled at.remote at.index (write.Append marker ∷ []) (change.Building builder ∷ [])) plan.new) }
    ensures room { OnOk result (HasRoom state.now.room plan.new) }
{
    match begin_marker(alloc, marker, plan) {
        Ok(()) => tell_builder(alloc, at, builder, plan),
        Err(why) => {
            drop(builder);
            Err(why)
        }
    }
}

/// An event by which the snapshot that is being made is another one or none, and what was read is acknowledged.
fn tell_builder(
    alloc: Global,
    at: ReadAt,
    builder: Option<SnapshotBuilder>,
    plan: &mut Plan,
) -> Result<(), Memory>
    requires { at.index + 1 < 2 ^ 64 }
    ensures { OnOk result (plan.new ≡ handled_view at.remote at.index (told_behind builder plan.old)) }
{
    let builder = boxed(alloc, builder)?;
    plan.change(StateChange::Building { builder })?;
    acknowledge_read(plan, at)
}

/// The snapshot that is being made, if there is one, in memory of its own.
fn boxed(alloc: Global, builder: Option<SnapshotBuilder>) -> Result<Option<BoxedBuilder>, Memory>
    ensures { IfOk result (λ b. b ≡ builder) }
{
    match builder {
        None => Ok(None),
        Some(builder) => Ok(Some(BoxedBuilder::new(alloc, builder)?)),
    }
}
