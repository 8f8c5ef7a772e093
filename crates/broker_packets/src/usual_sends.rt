//! The receiving end of a forward link, where what comes is a SEND of the usual form: most packets are.
ghost use Rattle.std.specs.Prelude.{◌≡◌, ℕ, ◌<◌, ◌≤◌, true, Some, length, OnOk};
ghost use Rattle.std.specs.Option.{option_copied, option_map};
ghost use Rattle.geo_base.specs.declared.event.Fate.TheVariants as fate;
ghost use Rattle.geo_base.specs.Forwarding.{take_packet};
ghost use Rattle.geo_base.specs.Receiver.{is_from};
ghost use Rattle.broker_state.specs.Plan.{IsEmptyPlan};
ghost use Rattle.broker_state.specs.Room.{HasRoom};
ghost use Rattle.broker_state.specs.State.{SameState};
ghost use Rattle.broker_plans.specs.Prepared.{IsPrepared};
ghost use Rattle.broker_plans.specs.Usual.{is_small, send_viewed};
ghost use Rattle.frame_values.specs.Values.{place_of};
ghost use Rattle.broker_packets.specs.UsualSends.{IsBrought, Receives};

use broker_plans::{Answered, Came, also_receipt, is_small, storing_message};
use broker_state::{BrokerState, Plan};
use frame_values::number_of;
use geo_base::limits::CLUSTERS;
use geo_base::{ClusterName, Memory, Peer};
use pulsar_frames::MessageView;
use replicator::Taken;
use std::alloc::Global;

/// Whether a SEND of the usual form is acted on as it stands: it is of the session that is open on the link from a cluster, and
/// its entry is of that cluster and small. One that is acted on in the end, though its message is not small by
/// `broker_plans::is_small`, is `false` too. A SEND opens no session.
pub fn receives(state: &BrokerState, source: u32, came: Came<'_>) -> bool
    requires { source < length state.now.broker.receivers }
    ensures only { result ≡ true → Receives state.now.site state.now.broker source came.entry }
    ensures all { Receives state.now.site state.now.broker source came.entry → is_small came.entry.message ≡ true → result ≡ true }
{
    match state.receiver(source).next_packet(came.session, false) {
        Taken::Process => is_brought(state, source, came.message),
        Taken::Opened | Taken::Discard => false,
    }
}

/// Whether a message says that a cluster stored it first, and is small.
fn is_brought(state: &BrokerState, source: u32, message: MessageView<'_>) -> bool
    ensures only { result ≡ true → IsBrought state.now.site source message.entry }
    ensures all { IsBrought state.now.site source message.entry → is_small message.entry ≡ true → result ≡ true }
{
    if is_from(
        state.site().clusters(),
        source,
        message.meta.replicated_from,
    ) {
        is_small(message)
    } else {
        false
    }
}

/// Whether a name, which may be absent, names a cluster.
fn is_from(names: &[ClusterName], cluster: u32, name: Option<&str>) -> bool
    requires { length names.now ≤ CLUSTERS }
    ensures { result ≡ is_from cluster (option_map (place_of names.now) (option_copied name.entry)) }
{
    let Some(name) = name else {
        return false;
    };
    match number_of(names, 0, name.as_bytes()) {
        Some(number) => cluster == number,
        None => false,
    }
}

/// What such a SEND will do: its entry is stored unless it is a duplicate, and answered either way. Only room is made; an `Err` is
/// want of memory.
pub fn prepare_receive(
    alloc: Global,
    state: &mut BrokerState,
    source: u32,
    came: Came<'_>,
    plan: &mut Plan,
) -> Result<(), Memory>
    requires source { source < length state.old.broker.receivers }
    requires receives { Receives state.old.site state.old.broker source came }
    requires empty { IsEmptyPlan plan.old }
    ensures prepared { (stamp : ℕ) → OnOk result (IsPrepared state.old.site state.old.broker (take_packet state.old.site state.old.broker source fate.Good (Some (record { session = came.entry.session; stamp = stamp; frame = send_viewed state.old.site.clusters came.entry }))) plan.new) }
    ensures room { OnOk result (HasRoom state.new.room plan.new) }
    ensures kept { SameState state.old state.new }
{
    let position = storing_message(alloc, state, source, came.message, plan)?;
    let answered = Answered {
        to: Peer::Back(source),
        session: came.session,
        id: came.session,
        seq: came.seq,
    };
    also_receipt(alloc, state, plan, answered, position)?;
    Ok(())
}
