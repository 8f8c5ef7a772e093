//! Changes in memory, made. None takes memory or can fail.
ghost use Rattle.std.specs.Prelude.{◌≡◌, ◌<◌, ◌≤◌, ◌+◌, None, List, Option, ℕ, length, map};
ghost use Rattle.geo_base.specs.Broker.{changed};
ghost use Rattle.geo_base.specs.declared.change.Change.TheVariants as change;
ghost use Rattle.geo_base.specs.declared.session.Session.{Session};
ghost use Rattle.broker_subs.specs.Steps as sub;
ghost use Rattle.broker_subs.specs.Table.{names_of, room_at, sub_at};
ghost use Rattle.broker_state.specs.Fits.{ChangeFits, ChangePlaceFits, SameShape};
ghost use Rattle.broker_state.specs.Room.{ChangeLeaves, change_room, change_replicators};
ghost use Rattle.broker_state.specs.Replicators as replicator;
ghost use Rattle.broker_state.specs.Writes.{machine_change};

use crate::boxed::BoxedBuilder;
use crate::change::StateChange;
use crate::replicator_row::ReplicatorStep;
use crate::state::BrokerState;
use broker_subs::SubChange;
use geo_base::Session;
use replicated_subs::SnapshotBuilder;
use replicator::Receiver;

impl BrokerState {
    /// Makes one change in memory of an event about the subscription at a place.
    pub(crate) fn change(&mut self, sub_index: usize, change: StateChange)
        requires sub_index { ChangePlaceFits sub_index (length self.old.broker.subs) change }
        requires fits { ChangeFits sub_index self.old.broker change }
        requires room { change_room change ≤ (room_at self.old.room.subs sub_index).room }
        requires replicators { change_replicators change ≤ self.old.room.replicators }
        ensures broker { self.new.broker ≡ changed self.old.broker (machine_change (sub_at self.old.broker.subs sub_index).name change) }
        ensures names { names_of self.new.broker.subs ≡ names_of self.old.broker.subs }
        ensures site { self.new.site ≡ self.old.site }
        ensures shape { SameShape self.old.broker self.new.broker }
        ensures room { ChangeLeaves sub_index change self.old.room self.new.room }
    {
        match change {
            StateChange::Receiver { source, session } => self.receive(source, session),
            StateChange::Client { client, session } => self.have_open(client, session),
            StateChange::Detach { client } => self.subs.leave(client),
            StateChange::Sub(change) => self.change_sub(sub_index, change),
            StateChange::Opening { remote } => self.replicators.step(remote, ReplicatorStep::Begin),
            StateChange::Opened { remote } => self.replicators.step(remote, ReplicatorStep::Opened),
            StateChange::Pend { remote, index } => self
                .replicators
                .step(remote, ReplicatorStep::Pend(index)),
            StateChange::ReadTo { remote, index } => {
                self.replicators.step(remote, ReplicatorStep::ReadTo(index));
            }
            StateChange::Unpend { remote, number } => {
                self.replicators
                    .step(remote, ReplicatorStep::Unpend(number));
            }
            StateChange::Building { builder } => self.build(builder),
            StateChange::Forget => self.forget(),
        }
    }

    /// The session that is open on the forward link from a cluster.
    fn receive(&mut self, source: u32, session: Option<u64>)
        requires { source < length self.old.broker.receivers }
        ensures { self.new ≡ record self.old { broker = changed self.old.broker (change.Receiver source session) } }
    {
        self.receivers[source as usize] = receiver_of(session);
    }

    /// What a client has open.
    fn have_open(&mut self, client: u32, session: Option<Session>)
        requires { client < length self.old.broker.sessions }
        ensures { self.new ≡ record self.old { broker = changed self.old.broker (change.Client client session) } }
    {
        self.sessions[client as usize] = session;
    }

    /// The snapshot that is being made.
    fn build(&mut self, builder: Option<BoxedBuilder>)
        ensures { self.new ≡ record self.old { broker = changed self.old.broker (change.Building builder) } }
    {
        self.builder = unboxed(builder);
    }

    /// The consumers or snapshots of the subscription at a place change.
    fn change_sub(&mut self, sub_index: usize, change: SubChange)
        requires sub_index { sub_index < length self.old.broker.subs }
        requires room { sub.room_needed change ≤ (room_at self.old.room.subs sub_index).room }
        requires fits { sub.SubChangeFits (sub_at self.old.broker.subs sub_index) change }
        ensures broker { self.new.broker ≡ changed self.old.broker (sub.machine_sub_change (sub_at self.old.broker.subs sub_index).name change) }
        ensures names { names_of self.new.broker.subs ≡ names_of self.old.broker.subs }
        ensures site { self.new.site ≡ self.old.site }
        ensures room { (room_at self.old.room.subs sub_index).room ≡ (room_at self.new.room.subs sub_index).room + sub.room_needed change }
        ensures rest { self.new.room ≡ record self.old.room { subs = self.new.room.subs } }
    {
        self.subs.change(sub_index, change);
    }

    /// A restart: what is in memory is lost.
    fn forget(&mut self)
        ensures broker { self.new.broker ≡ changed self.old.broker change.Forget }
        ensures names { names_of self.new.broker.subs ≡ names_of self.old.broker.subs }
        ensures site { self.new.site ≡ self.old.site }
        ensures room { self.new.room ≡ self.old.room }
    {
        self.replicators.restart();
        close_each(self.receivers.as_mut_slice());
        self.subs.clear();
        end_each(self.sessions.as_mut_slice());
        self.builder = None;
    }
}

/// The snapshot that is being made, out of its box.
fn unboxed(builder: Option<BoxedBuilder>) -> Option<SnapshotBuilder>
    ensures { result ≡ builder }
{
    match builder {
        None => None,
        Some(builder) => Some(builder.into_inner()),
    }
}

/// A receiver whose session is open, if one is.
fn receiver_of(session: Option<u64>) -> Receiver
    ensures { result ≡ session }
{
    let mut receiver = Receiver::new();
    if let Some(number) = session {
        receiver.open(number);
    }
    receiver
}

/// No session is open on any forward link.
fn close_each(receivers: &mut [Receiver])
    ensures { receivers.new ≡ map (λ (r : Option ℕ). None) receivers.old }
{
    for receiver in receivers {
        receiver.close();
    }
}

/// No client has a session.
fn end_each(sessions: &mut [Option<Session>])
    ensures { sessions.new ≡ map (λ (s : Option Session). None) sessions.old }
{
    for session in sessions {
        *session = None;
    }
}
