//! SENDs of the usual form, whose parts are looked at in their place, so that an entry is made once, where it is stored.
ghost use Rattle.std.specs.Prelude.{◌≡◌, ℕ, ◌≤◌, ◌++◌, ◌∷◌, true, [], Some, IfOk, List, OnErr, OnOk};
ghost use Rattle.std.specs.Option.{option_copied};
ghost use Rattle.topic_store.specs.Table.{stream_of};
ghost use Rattle.geo_base.specs.Plan.{plan_of};
ghost use Rattle.geo_base.specs.Sizes.{entry_size, most_entry_size};
ghost use Rattle.geo_base.specs.Storing.{receipt_position, storing};
ghost use Rattle.broker_state.specs.Plan.{IsEmptyPlan};
ghost use Rattle.broker_state.specs.Room.{HasRoom};
ghost use Rattle.broker_state.specs.State.{SameState};
ghost use Rattle.broker_plans.specs.Prepared.{AlsoSends, IsPrepared};
ghost use Rattle.broker_plans.specs.Storable.{IsStorable};
ghost use Rattle.broker_plans.specs.Updates.{appending};
ghost use Rattle.broker_plans.specs.Usual.{is_small, receipt_out, text_length};
ghost use Rattle.frame_values.specs.Usual.{entry_viewed};

use crate::receiving::NO_POSITION;
use broker_state::{BrokerState, Plan, StateWrite};
use frame_values::entry_of_message;
use geo_base::limits::ENTRY_BYTES;
use geo_base::{EntryStore, Memory, Peer, Position, ProducerName, WireOut};
use pulsar_commands::CommandView;
use pulsar_frames::{MessageView, write_usual_command};
use std::alloc::Global;
use topic_store::Stream;

/// How long the texts of metadata of the usual form are at most, for an entry that is stored without a count of its bytes (own).
const SHORT: usize = 128;

/// More bytes than metadata has whose texts are short (own).
const META_BYTES: u64 = 512;

/// A SEND of the usual form, in a session.
#[derive(Clone, Copy)]
pub struct Came<'a> {
    pub session: u64,
    pub id: u64,
    pub seq: u64,
    pub message: MessageView<'a>,
}

/// Who sent a SEND, and its session, producer and number, which its receipt names.
#[derive(Clone, Copy, Drop)]
pub struct Answered {
    pub to: Peer,
    pub session: u64,
    pub id: u64,
    pub seq: u64,
}

/// Whether a message is certain to be small enough to be stored: its producer's name and its key are shorter than 128 bytes each, and
/// its payload leaves 512 bytes of a stored entry for them and the numbers. `false` says nothing more of it.
#[tactic(auto, using(crate::proofs::UsualMessages::small_size))]
pub fn is_small(message: MessageView<'_>) -> bool
    ensures is { result ≡ is_small message.entry }
    ensures small { result ≡ true → ((names : List (List ℕ)) (x : ℕ) → entry_size names (entry_viewed x message.entry) ≤ most_entry_size) }
{
    if message.meta.producer.len() >= SHORT || text_len(message.meta.key) >= SHORT {
        return false;
    }
    if message.payload.len() as u64 > ENTRY_BYTES - META_BYTES {
        return false;
    }
    true
}

/// How many bytes a text has that may be absent.
fn text_len(text: Option<&str>) -> usize
    ensures { result ≡ text_length (option_copied text.entry) }
{
    match text {
        None => 0,
        Some(text) => text.len(),
    }
}

/// An event that stores a message which came, of a cluster, unless it is a duplicate. The answer is the position that its receipt
/// names. Where memory is wanting, the plan has no change and no packet.
pub fn storing_message(
    alloc: Global,
    state: &mut BrokerState,
    origin: u32,
    message: MessageView<'_>,
    plan: &mut Plan,
) -> Result<Position, Memory>
    requires storable { IsStorable state.old.site (entry_viewed origin message) }
    requires empty { IsEmptyPlan plan.old }
    ensures prepared { OnOk result (IsPrepared state.old.site state.old.broker (plan_of (storing state.old.broker (entry_viewed origin message.entry)) [] []) plan.new) }
    ensures position { IfOk result (λ p. Some p ≡ receipt_position state.old.site.per_ledger state.old.broker (entry_viewed origin message.entry)) }
    ensures room { OnOk result (HasRoom state.new.room plan.new) }
    ensures kept { SameState state.old state.new }
    ensures err { OnErr result ((plan.new.changes ≡ []) × (plan.new.sent ≡ [])) }
{
    let stream = stream_of(alloc, origin, message)?;
    plan.begin(0);
    if !state.accepts(&stream, message.meta.seq) {
        return Ok(NO_POSITION);
    }
    state.reserve_entries(1)?;
    append_message(alloc, origin, stream, message, plan)?;
    Ok(state.store().next())
}

/// The stream of a message of a cluster.
fn stream_of(alloc: Global, origin: u32, message: MessageView<'_>) -> Result<Stream, Memory>
    ensures { IfOk result (λ s. s ≡ stream_of (entry_viewed origin message.entry).ident) }
{
    Ok(Stream {
        origin,
        producer: ProducerName::any(alloc, message.meta.producer)?,
    })
}

/// The write that stores a message of a cluster.
#[tactic(auto, using(crate::proofs::UsualMessages::appended))]
fn append_message(
    alloc: Global,
    origin: u32,
    stream: Stream,
    message: MessageView<'_>,
    plan: &mut Plan,
) -> Result<(), Memory>
    requires { stream ≡ stream_of (entry_viewed origin message).ident }
    ensures ok { OnOk result (plan.new ≡ record plan.old { writes = plan.old.writes ++ appending (entry_viewed origin message.entry) ∷ [] }) }
    ensures err { OnErr result (plan.new ≡ plan.old) }
{
    let entry = entry_of_message(alloc, origin, message)?;
    plan.write(StateWrite::Append { entry, stream })?;
    Ok(())
}

/// An event that sends, after all that it does, the receipt of a SEND. Where memory is wanting, the plan is as it was.
#[tactic(auto, using(frame_values::proofs::UsualValues::receipt_written))]
pub fn also_receipt(
    alloc: Global,
    state: &BrokerState,
    plan: &mut Plan,
    answered: Answered,
    position: Position,
) -> Result<(), Memory>
    ensures ok { OnOk result (AlsoSends state.now.site.clusters (receipt_out answered position) plan.old plan.new) }
    ensures err { OnErr result (plan.new ≡ plan.old) }
{
    let Answered {
        to,
        session,
        id,
        seq,
    } = answered;
    let command = CommandView::SendReceipt {
        producer_id: id,
        sequence_id: seq,
        message_id: position,
    };
    let frame = write_usual_command(alloc, command)?;
    plan.send(WireOut { to, session, frame })
}
