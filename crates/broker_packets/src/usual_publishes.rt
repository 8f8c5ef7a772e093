//! A client's message, where it comes in a SEND of the usual form: most do.
ghost use Rattle.std.specs.Prelude.{◌≡◌, ℕ, ◌<◌, ◌==◌, ◌&&◌, true, is_none, Some, length, OnOk};
ghost use Rattle.std.specs.Option.{option_copied};
ghost use Rattle.std.specs.Str.{bytes_eq};
ghost use Rattle.geo_base.specs.Producing.{is_sound, name_with};
ghost use Rattle.geo_base.specs.Serving.{serve};
ghost use Rattle.broker_state.specs.Plan.{IsEmptyPlan};
ghost use Rattle.broker_state.specs.Room.{HasRoom};
ghost use Rattle.broker_state.specs.State.{SameState};
ghost use Rattle.broker_plans.specs.Prepared.{IsPrepared};
ghost use Rattle.broker_plans.specs.Usual.{is_small, send_viewed};
ghost use Rattle.frame_values.specs.Usual.{entry_viewed, source_viewed};
ghost use Rattle.broker_packets.specs.Producing.{published};
ghost use Rattle.broker_packets.specs.Serving.{IsOpen, open_at};
ghost use Rattle.broker_packets.specs.UsualPublishes.{Publishes};

use crate::answering::open_producers;
use crate::producing::name_with;
use crate::serving::is_open;
use broker_plans::{Answered, Came, also_receipt, is_small, storing_message};
use broker_state::{BrokerState, Plan};
use geo_base::{Memory, Peer, Text};
use std::alloc::Global;

/// Whether a SEND of the usual form is published as it stands: it is of a producer of the client's open session, and its message
/// is sound and small. One that is published in the end, though its message is not small by `broker_plans::is_small`, is `false` too.
pub fn publishes(state: &BrokerState, client: u32, came: Came<'_>) -> bool
    requires { client < length state.now.broker.sessions }
    ensures only { result ≡ true → Publishes state.now.site state.now.broker client came.entry }
    ensures all { Publishes state.now.site state.now.broker client came.entry → is_small came.entry.message ≡ true → result ≡ true }
{
    if is_open(state, client, came.session) {
        is_published(state, client, came)
    } else {
        false
    }
}

/// Whether it is of a producer of the open session, and sound.
fn is_published(state: &BrokerState, client: u32, came: Came<'_>) -> bool
    requires { IsOpen state.now.broker client }
    ensures only { result ≡ true → published state.now.site (name_with came.entry.id (open_at state.now.broker client).producers) came.entry.seq (source_viewed state.now.site.clusters came.entry.message) (entry_viewed 0 came.entry.message) ≡ true }
    ensures all { published state.now.site (name_with came.entry.id (open_at state.now.broker client).producers) came.entry.seq (source_viewed state.now.site.clusters came.entry.message) (entry_viewed 0 came.entry.message) ≡ true → is_small came.entry.message ≡ true → result ≡ true }
{
    let name = name_with(came.id, open_producers(state, client));
    is_sound(state, name, came)
}

/// Whether the producer of a name, if there is one, may publish it.
fn is_sound(state: &BrokerState, name: Option<&Text>, came: Came<'_>) -> bool
    ensures only { result ≡ true → published state.now.site (option_copied name.entry) came.entry.seq (source_viewed state.now.site.clusters came.entry.message) (entry_viewed 0 came.entry.message) ≡ true }
    ensures all { published state.now.site (option_copied name.entry) came.entry.seq (source_viewed state.now.site.clusters came.entry.message) (entry_viewed 0 came.entry.message) ≡ true → is_small came.entry.message ≡ true → result ≡ true }
{
    match name {
        None => false,
        Some(name) => is_sound_for(state, name, came),
    }
}

/// Whether the producer of a name may publish it: metadata and command agree, no cluster stored it before, and it is small.
fn is_sound_for(state: &BrokerState, name: &Text, came: Came<'_>) -> bool
    ensures only { result ≡ true → is_sound state.now.site name.now came.entry.seq (source_viewed state.now.site.clusters came.entry.message) (entry_viewed 0 came.entry.message) ≡ true }
    ensures all { is_sound state.now.site name.now came.entry.seq (source_viewed state.now.site.clusters came.entry.message) (entry_viewed 0 came.entry.message) ≡ true → is_small came.entry.message ≡ true → result ≡ true }
{
    if agrees(name, came) {
        is_small(came.message)
    } else {
        false
    }
}

/// Whether metadata and command agree, and no cluster stored the message before.
fn agrees(name: &Text, came: Came<'_>) -> bool
    ensures { result ≡ (bytes_eq name.now came.entry.message.meta.producer.now && (came.entry.seq == came.entry.message.meta.seq) && is_none came.entry.message.meta.replicated_from) }
{
    name.as_bytes() == came.message.meta.producer.as_bytes()
        && came.seq == came.message.meta.seq
        && came.message.meta.replicated_from.is_none()
}

/// What such a SEND will do: its message is stored unless it is a duplicate, and answered either way. Only room is made; an `Err`
/// is want of memory.
pub fn prepare_publish(
    alloc: Global,
    state: &mut BrokerState,
    client: u32,
    came: Came<'_>,
    plan: &mut Plan,
) -> Result<(), Memory>
    requires client { client < length state.old.broker.sessions }
    requires publishes { Publishes state.old.site state.old.broker client came }
    requires empty { IsEmptyPlan plan.old }
    ensures prepared { (stamp : ℕ) → OnOk result (IsPrepared state.old.site state.old.broker (serve state.old.site state.old.broker client (Some (record { session = came.entry.session; stamp = stamp; frame = send_viewed state.old.site.clusters came.entry }))) plan.new) }
    ensures room { OnOk result (HasRoom state.new.room plan.new) }
    ensures kept { SameState state.old state.new }
{
    let own = state.site().own();
    let position = storing_message(alloc, state, own, came.message, plan)?;
    let answered = Answered {
        to: Peer::Client(client),
        session: came.session,
        id: came.id,
        seq: came.seq,
    };
    also_receipt(alloc, state, plan, answered, position)?;
    Ok(())
}
