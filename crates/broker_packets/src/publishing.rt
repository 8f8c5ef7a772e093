//! A broker and its clients' messages: SEND.
ghost use Rattle.std.specs.Prelude.{◌≡◌, OnOk};
ghost use Rattle.std.specs.Option.{option_copied};
ghost use Rattle.geo_base.specs.declared.frame.Frame.TheVariants as frame;
ghost use Rattle.geo_base.specs.Answers.{answers, unknown_error};
ghost use Rattle.geo_base.specs.Entry.{is_data, with_origin};
ghost use Rattle.geo_base.specs.Producing.{is_sound, name_with, serve_send, stores};
ghost use Rattle.broker_state.specs.Plan.{IsEmptyPlan};
ghost use Rattle.broker_state.specs.Room.{HasRoom, Room};
ghost use Rattle.broker_state.specs.State.{SameState};
ghost use Rattle.broker_plans.specs.Prepared.{IsPrepared};
ghost use Rattle.broker_plans.specs.Storable.{IsReadEntry, IsStorable};
ghost use Rattle.broker_packets.specs.Producing.{published};
ghost use Rattle.broker_packets.specs.Serving.{IsOpen, open_at};

use crate::answering::{UNKNOWN_ERROR, also_answer, answer, open_producers};
use crate::producing::name_with;
use broker_plans::storing;
use broker_state::{BrokerState, Plan};
use frame_values::is_within_limit;
use geo_base::{ClusterRef, Content, Entry, Frame, Memory, Text};
use std::alloc::Global;

/// What SEND publishes.
#[derive(Drop)]
pub(crate) struct Publish {
    pub id: u64,
    pub seq: u64,
    pub source: Option<ClusterRef>,
    pub entry: Entry,
}

/// What SEND will do: a sound message of one of the session's producers is stored, or is a duplicate, and is answered either way;
/// any other is refused.
pub(crate) fn serve_send(
    alloc: Global,
    state: &mut BrokerState,
    client: u32,
    publish: Publish,
    plan: &mut Plan,
) -> Result<(), Memory>
    requires open { IsOpen state.old.broker client }
    requires read { IsReadEntry publish.entry }
    requires empty { IsEmptyPlan plan.old }
    ensures prepared { OnOk result (IsPrepared state.old.site state.old.broker (serve_send state.old.site state.old.broker client (open_at state.old.broker client) publish.id publish.seq publish.source publish.entry (name_with publish.id (open_at state.old.broker client).producers)) plan.new) }
    ensures room { OnOk result (HasRoom state.new.room plan.new) }
    ensures kept { SameState state.old state.new }
{
    if may_publish(state, client, &publish) {
        store(alloc, state, client, publish, plan)
    } else {
        let Publish { id, seq, .. } = publish;
        drop(publish);
        refuse_send(alloc, state, client, id, seq, plan)
    }
}

/// A SEND is refused.
fn refuse_send(
    alloc: Global,
    state: &BrokerState,
    client: u32,
    id: u64,
    seq: u64,
    plan: &mut Plan,
) -> Result<(), Memory>
    requires open { IsOpen state.now.broker client }
    requires empty { IsEmptyPlan plan.old }
    ensures prepared { OnOk result (IsPrepared state.now.site state.now.broker (answers client (open_at state.now.broker client) (frame.SendError id seq unknown_error)) plan.new) }
    ensures room { (room : Room) → OnOk result (HasRoom room plan.new) }
{
    let frame = Frame::SendError {
        id,
        seq,
        code: UNKNOWN_ERROR,
    };
    answer(alloc, state, client, frame, plan)
}

/// A sound message is stored, or is a duplicate, and is answered either way.
fn store(
    alloc: Global,
    state: &mut BrokerState,
    client: u32,
    publish: Publish,
    plan: &mut Plan,
) -> Result<(), Memory>
    requires open { IsOpen state.old.broker client }
    requires storable { IsStorable state.old.site (with_origin state.old.site.own publish.entry) }
    requires empty { IsEmptyPlan plan.old }
    ensures prepared { OnOk result (IsPrepared state.old.site state.old.broker (stores state.old.site state.old.broker client (open_at state.old.broker client) publish.id publish.seq (with_origin state.old.site.own publish.entry)) plan.new) }
    ensures room { OnOk result (HasRoom state.new.room plan.new) }
    ensures kept { SameState state.old state.new }
{
    let Publish {
        id,
        seq,
        source,
        mut entry,
    } = publish;
    drop(source);
    entry.ident.origin = state.site().own();
    let position = storing(alloc, state, entry, plan)?;
    let receipt = Frame::SendReceipt {
        id,
        seq,
        position: Some(position),
    };
    also_answer(alloc, state, client, plan, receipt)?;
    Ok(())
}

/// Whether a SEND is of a producer of the session, and its message is sound.
fn may_publish(state: &BrokerState, client: u32, publish: &Publish) -> bool
    requires { IsOpen state.now.broker client }
    ensures { result ≡ published state.now.site (name_with publish.now.id (open_at state.now.broker client).producers) publish.now.seq publish.now.source publish.now.entry }
{
    let name = name_with(publish.id, open_producers(state, client));
    is_published(state, name, publish)
}

/// Whether there is a producer of this name, and the message is sound for it.
fn is_published(state: &BrokerState, name: Option<&Text>, publish: &Publish) -> bool
    ensures { result ≡ published state.now.site (option_copied name.entry) publish.now.seq publish.now.source publish.now.entry }
{
    match name {
        None => false,
        Some(name) => is_sound(state, name, publish),
    }
}

/// Whether the producer of a name may publish a message: metadata and command agree, no cluster stored it before, it is no marker,
/// and it is not too large.
fn is_sound(state: &BrokerState, name: &Text, publish: &Publish) -> bool
    ensures { result ≡ is_sound state.now.site name.now publish.now.seq publish.now.source publish.now.entry }
{
    name.as_bytes() == publish.entry.ident.producer.as_bytes()
        && publish.seq == publish.entry.ident.seq
        && publish.source.is_none()
        && is_data(&publish.entry.content)
        && is_within_limit(state.site().clusters(), &publish.entry)
}

fn is_data(content: &Content) -> bool
    ensures { result ≡ is_data content.now }
{
    matches!(content, Content::Data)
}
