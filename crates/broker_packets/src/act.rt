//! What a packet of a forward link does at a broker.
ghost use Rattle.std.specs.Prelude.{◌≡◌, ◌<◌, length};
ghost use Rattle.geo_base.specs.Broker.{receiver_at};
ghost use Rattle.geo_base.specs.Receiver.{is_from};
ghost use Rattle.replicator.specs.Events.{is_to_open};
ghost use Rattle.replicator.specs.Taking.{taken};
ghost use Rattle.broker_plans.specs.Storable.{IsReadEntry, IsReadFrame};
ghost use Rattle.broker_packets.specs.Acts.{ActStorable, act_of, command_act, opening_act, send_act, taken_act};
ghost use Rattle.broker_packets.specs.declared.act.TakeAct.TheVariants as act;

use broker_state::BrokerState;
use frame_values::is_within_limit;
use geo_base::{ClusterRef, Entry, Frame};
use replicator::Taken;

/// What a packet of a forward link does.
#[derive(Drop)]
pub(crate) enum TakeAct {
    /// It can't be read: the session closes.
    Unreadable,
    /// It opens the session of its producer id.
    Opens { id: u64, request: u64 },
    /// It belongs to no open session, and has no effect.
    Discards,
    /// The session that is open can't act on it, and closes.
    Refuses,
    /// An entry of the other cluster, which is stored unless it is a duplicate.
    Receives { seq: u64, entry: Entry },
}

/// What a frame of a session does.
pub(crate) fn act_of(state: &BrokerState, source: u32, session: u64, frame: Frame) -> TakeAct
    requires source { source < length state.now.broker.receivers }
    requires read { IsReadFrame frame }
    ensures act { result ≡ act_of state.now.site (receiver_at state.now.broker source) source session frame }
    ensures storable { ActStorable state.now.site result }
{
    match frame {
        Frame::Unreadable => TakeAct::Unreadable,
        frame => taken_act(state, source, session, frame),
    }
}

/// What a frame that can be read does, by what the receiver makes of its session.
fn taken_act(state: &BrokerState, source: u32, session: u64, frame: Frame) -> TakeAct
    requires source { source < length state.now.broker.receivers }
    requires read { IsReadFrame frame }
    ensures act { result ≡ taken_act state.now.site source frame (taken (receiver_at state.now.broker source) session (is_to_open state.now.site session frame)) }
    ensures storable { ActStorable state.now.site result }
{
    let opening = is_to_open(state, session, &frame);
    match state.receiver(source).next_packet(session, opening) {
        Taken::Opened => opening_act(state, frame),
        Taken::Process => command_act(state, source, frame),
        Taken::Discard => {
            drop(frame);
            TakeAct::Discards
        }
    }
}

/// Whether a frame is to open its session: a PRODUCER of the topic, whose producer id is the session's number.
fn is_to_open(state: &BrokerState, session: u64, frame: &Frame) -> bool
    ensures { result ≡ is_to_open state.now.site session frame.now }
{
    match frame {
        Frame::Producer { topic, id, .. } => {
            topic.as_bytes() == state.site().topic().as_str().as_bytes() && *id == session
        }
        _ => false,
    }
}

/// A PRODUCER opens its session, and is answered.
fn opening_act(state: &BrokerState, frame: Frame) -> TakeAct
    ensures act { result ≡ opening_act frame }
    ensures storable { ActStorable state.now.site result }
{
    match frame {
        Frame::Producer {
            topic: _topic,
            id,
            request,
            name: _name,
        } => TakeAct::Opens { id, request },
        other => {
            drop(other);
            TakeAct::Discards
        }
    }
}

/// Only a SEND is acted on in the session that is open.
fn command_act(state: &BrokerState, source: u32, frame: Frame) -> TakeAct
    requires { IsReadFrame frame }
    ensures act { result ≡ command_act state.now.site source frame }
    ensures storable { ActStorable state.now.site result }
{
    match frame {
        Frame::Send {
            id: _id,
            seq,
            source: from,
            entry,
        } => send_act(state, source, seq, &from, entry),
        other => {
            drop(other);
            TakeAct::Refuses
        }
    }
}

/// A SEND in the session that is open.
fn send_act(
    state: &BrokerState,
    source: u32,
    seq: u64,
    from: &Option<ClusterRef>,
    entry: Entry,
) -> TakeAct
    requires { IsReadEntry entry }
    ensures act { result ≡ send_act state.now.site source seq from.now entry }
    ensures storable { ActStorable state.now.site result }
{
    if is_from(source, from) && is_within_limit(state.site().clusters(), &entry) {
        let mut entry = entry;
        entry.ident.origin = source;
        return TakeAct::Receives { seq, entry };
    }
    drop(entry);
    TakeAct::Refuses
}

/// Whether a SEND says that a cluster stored its entry first.
fn is_from(cluster: u32, source: &Option<ClusterRef>) -> bool
    ensures { result ≡ is_from cluster source.now }
{
    match source {
        Some(ClusterRef::Known(named)) => *named == cluster,
        _ => false,
    }
}
