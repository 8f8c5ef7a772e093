//! A subscription.
ghost use Rattle.std.specs.Prelude.{◌≡◌, ◌≤◌, [], length, IfOk, OnErr, OnOk};
ghost use Rattle.geo_base.specs.Dispatcher.{pick};
ghost use Rattle.geo_base.specs.Subscription.{has_consumer, is_attached, new_subscription};
ghost use Rattle.geo_base.specs.declared.frame.SubKind.TheVariants as sub_kind;
ghost use Rattle.dispatcher.specs.Acks.{ack_answer};
ghost use Rattle.dispatcher.specs.Dispatch.{dispatch_of, turns_away};
ghost use Rattle.dispatcher.specs.Offers.{ChoiceFits, choice};
ghost use Rattle.durable_parts.specs.Parts as durable;
ghost use Rattle.broker_subs.specs.SubView.{durable_of};

use crate::fresh::Fresh;
use cursor_acks::Cursor;
use dispatcher::{AckFault, Choice, Dispatcher, KeyPick};
use durable_parts::DurableSub;
use geo_base::{AckKind, Consumer, EntryStore, Memory, SubKind, SubName};
use replicated_subs::SnapshotCache;
use std::alloc::Global;
use std::marker::Model;

/// A subscription: its durable part, its consumers with what is out and due again, and its snapshots. Contracts see the machine's
/// subscription, how many more consumers or given indexes find memory (`room`), and how many more acknowledged indexes (`acks`).
#[derive(Drop)]
pub struct Sub {
    pub(crate) durable: DurableSub,
    pub(crate) dispatcher: Dispatcher<KeyPick>,
    pub(crate) cache: SnapshotCache,
    pub(crate) fresh: Fresh,
}

impl Model for Sub {
    ghost use Rattle.broker_subs.specs.SubView.{SubView};
    ghost use Rattle.broker_subs.specs.Fresh.{SubHolds};

    ghost Value = { SubView };

    ghost view = { λ s. record {
      sub = record { name = s.durable.name; kind = s.durable.kind; replicated = s.durable.replicated; cursor = s.durable.cursor.indexes; seeks = s.durable.seeks; consumers = s.dispatcher.dispatch.consumers; out = s.dispatcher.dispatch.out; due = s.dispatcher.dispatch.due; read_index = s.dispatcher.dispatch.read_index; cache = s.cache };
      room = s.dispatcher.room;
      acks = s.durable.cursor.spare;
    } };

    ghost invariant = { λ s. SubHolds s.durable.kind s.durable.cursor.indexes s.dispatcher.dispatch s.fresh };
}

impl Sub {
    /// A new subscription at Earliest, with room for so many steps and so many acknowledged indexes.
    pub fn new(
        alloc: Global,
        name: SubName,
        kind: SubKind,
        replicated: bool,
        room: usize,
        acks: usize,
    ) -> Result<Sub, Memory>
        ensures sub { IfOk result (λ s. s.sub ≡ new_subscription name kind replicated []) }
        ensures room { IfOk result (λ s. s.room ≡ room) }
        ensures acks { IfOk result (λ s. acks ≤ s.acks) }
    {
        let mut sub = Sub::restored(alloc, DurableSub::new(alloc, name, kind, replicated))?;
        sub.reserve(room, acks)?;
        Ok(sub)
    }

    /// A subscription as it is after a restart, from what is durable of it: no consumer and no snapshot, nothing out or due again,
    /// and reading begins at the first entry.
    #[tactic(auto, using(crate::proofs::Told::holds_restored))]
    pub fn restored(alloc: Global, part: DurableSub) -> Result<Sub, Memory>
        ensures { IfOk result (λ s. s.sub ≡ durable.sub_of part) }
    {
        Ok(Sub {
            durable: part,
            dispatcher: Dispatcher::new(alloc, KeyPick::new()),
            cache: SnapshotCache::new(alloc)?,
            fresh: Fresh::Nothing,
        })
    }

    /// Makes room for so many more steps, each a consumer that joins or an index that is given, and for at least so many more
    /// acknowledged indexes. Where memory is wanting there is room for as many steps as before, and for no fewer acknowledged indexes.
    /// It is the one call that takes memory.
    pub fn reserve(&mut self, room: usize, acks: usize) -> Result<(), Memory>
        ensures same { self.new.sub ≡ self.old.sub }
        ensures room { OnOk result (self.new.room ≡ room) }
        ensures acks { OnOk result (acks ≤ self.new.acks) }
        ensures more { self.old.acks ≤ self.new.acks }
        ensures err { OnErr result (self.new.room ≡ self.old.room) }
    {
        if self.durable.cursor.spare() < acks {
            self.durable.cursor.reserve(acks)?;
        }
        self.dispatcher.reserve(room)
    }

    /// What a restart leaves.
    pub fn durable(&self) -> &DurableSub
        ensures { result.now ≡ durable_of self.now }
    {
        &self.durable
    }

    /// The name.
    pub fn name(&self) -> &SubName
        ensures { result.now ≡ self.now.sub.name }
    {
        &self.durable.name
    }

    /// How the consumers share the messages.
    pub fn kind(&self) -> SubKind
        ensures { result ≡ self.now.sub.kind }
    {
        self.durable.kind
    }

    /// Whether other clusters are told of it (PIP-33).
    pub fn is_replicated(&self) -> bool
        ensures { result ≡ self.now.sub.replicated }
    {
        self.durable.replicated
    }

    /// The cursor.
    pub fn cursor(&self) -> &Cursor
        ensures { result.now ≡ record { indexes = self.now.sub.cursor; spare = self.now.acks } }
    {
        &self.durable.cursor
    }

    /// The snapshots that the cursor has not passed.
    pub fn cache(&self) -> &SnapshotCache
        ensures { result.now ≡ self.now.sub.cache }
    {
        &self.cache
    }

    /// The consumers in order.
    pub fn consumers(&self) -> &[Consumer]
        ensures { result.now ≡ self.now.sub.consumers }
    {
        self.dispatcher.consumers()
    }

    /// Whether a client has a consumer here.
    pub fn is_attached(&self, client: u32) -> bool
        ensures { result ≡ is_attached client self.now.sub }
    {
        self.dispatcher.is_attached(client)
    }

    /// Whether a client has a consumer of this id here.
    pub fn has_consumer(&self, client: u32, id: u64) -> bool
        ensures { result ≡ has_consumer client id self.now.sub }
    {
        self.dispatcher.has_consumer(client, id)
    }

    /// Whether a client's consumer of a kind can't join: the client has one here, or consumers of another kind are here, or an
    /// exclusive one.
    #[tactic(auto, using(crate::proofs::Asked::same_turning_away))]
    pub fn busy(&self, client: u32, kind: SubKind) -> bool
        ensures { result ≡ turns_away client kind self.now.sub }
    {
        self.dispatcher.busy(client, kind)
    }

    /// What an acknowledgement of a client's consumer of an id is answered: `ConsumerNotFound` exactly where it has none here, else
    /// `CumulativeNotAllowed` exactly where the kind is Cumulative on Shared or Key_Shared.
    #[tactic(auto, using(crate::proofs::Asked::same_answer))]
    pub fn on_ack(&self, client: u32, id: u64, kind: AckKind) -> Result<(), AckFault>
        ensures { result ≡ ack_answer client id kind self.now.sub }
    {
        self.dispatcher.on_ack(client, id, kind)
    }

    /// What an offer does: nothing, it skips the marker that is due first, or it gives the message that is due first to the
    /// consumer at a place.
    #[tactic(auto, using(crate::proofs::Asked::same_choice))]
    pub fn choice<S: EntryStore>(&self, store: &S) -> Choice
        ensures choice { result ≡ choice pick (dispatch_of self.now.sub) self.now.sub.cursor (S.entries store.now) }
        ensures fits { ChoiceFits (length self.now.sub.consumers) (length (S.entries store.now)) result }
    {
        self.dispatcher.choice(store, &self.durable.cursor)
    }
}
