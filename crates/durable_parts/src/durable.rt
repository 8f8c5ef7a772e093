//! What survives a stop of a broker.
ghost use Rattle.std.specs.Prelude.{◌≡◌, ◌<◌, [], IfOk};
ghost use Rattle.geo_base.specs.Broker.{new_broker};
ghost use Rattle.geo_base.specs.Replicator.{new_replicator};
ghost use Rattle.geo_base.specs.Subscription.{new_subscription};
ghost use Rattle.durable_parts.specs.Changed.{with_part};
ghost use Rattle.durable_parts.specs.Durable.{broker_of, durable_part};
ghost use Rattle.durable_parts.specs.Parts.{replicator_of, sub_of};

use crate::replicators::DurableReplicators;
use crate::subs::DurableSubs;
use cursor_acks::Cursor;
use geo_base::{Memory, NameFault, SubKind, SubName};
use std::alloc::Global;
use topic_store::TopicLedger;

/// What is durable of a subscription. `seeks` counts how often an operator reset the cursor.
#[derive(Drop)]
pub struct DurableSub {
    pub name: SubName,
    pub kind: SubKind,
    pub replicated: bool,
    pub cursor: Cursor,
    pub seeks: u64,
}

impl DurableSub {
    /// A new subscription, of which nothing is acknowledged; takes no memory.
    pub fn new(alloc: Global, name: SubName, kind: SubKind, replicated: bool) -> DurableSub
        ensures { sub_of result ≡ new_subscription name kind replicated [] }
    {
        DurableSub {
            name,
            kind,
            replicated,
            cursor: Cursor::none(alloc),
            seeks: 0,
        }
    }

    /// A copy.
    pub fn copy(&self, alloc: Global) -> Result<DurableSub, Memory>
        ensures { IfOk result (λ d. sub_of d ≡ sub_of self.now) }
    {
        let name = copy_name(alloc, &self.name)?;
        match self.cursor.copy(alloc) {
            Ok(cursor) => Ok(DurableSub {
                name,
                kind: self.kind,
                replicated: self.replicated,
                cursor,
                seeks: self.seeks,
            }),
            Err(fault) => {
                drop(name);
                Err(fault)
            }
        }
    }

    /// It has a kind, and is replicated or not.
    pub fn alter(&mut self, kind: SubKind, replicated: bool)
        ensures { self.new ≡ record self.old { kind = kind; replicated = replicated } }
    {
        self.kind = kind;
        self.replicated = replicated;
    }

    /// A part is another one.
    pub(crate) fn set(&mut self, part: SubPart)
        ensures { sub_of self.new ≡ with_part part (sub_of self.old) }
    {
        match part {
            SubPart::Kind { kind, replicated } => self.alter(kind, replicated),
            SubPart::Acks(cursor) => self.cursor = cursor,
            SubPart::Seek { cursor, seeks } => {
                self.cursor = cursor;
                self.seeks = seeks;
            }
        }
    }
}

/// A copy of a name; nothing but memory can be wanting, since a name's text is one.
fn copy_name(alloc: Global, name: &SubName) -> Result<SubName, Memory>
    ensures { IfOk result (λ c. c ≡ name.now) }
{
    match SubName::read(alloc, name.as_str()) {
        Ok(copy) => Ok(copy),
        Err(NameFault::Memory) => Err(Memory),
        Err(NameFault::Empty | NameFault::TooLong | NameFault::BadByte) => unreachable!(),
    }
}

/// What one durable write changes of a subscription: kind and replication, the cursor, or the cursor with the count of seeks.
#[derive(Drop)]
pub(crate) enum SubPart {
    Kind { kind: SubKind, replicated: bool },
    Acks(Cursor),
    Seek { cursor: Cursor, seeks: u64 },
}

/// What is durable of the replicator to a cluster: the number of its session, and what that cluster has acknowledged.
#[derive(Drop)]
pub struct DurableReplicator {
    pub session: u64,
    pub cursor: Cursor,
}

impl DurableReplicator {
    /// A new replicator, which has sent nothing; takes no memory.
    pub fn new(alloc: Global) -> DurableReplicator
        ensures { replicator_of result ≡ new_replicator }
    {
        DurableReplicator {
            session: 0,
            cursor: Cursor::none(alloc),
        }
    }
}

/// What is durable of a broker, which owns one topic at the cluster `own`: the entries and their ledgers, the subscriptions in
/// order of creation, and the replicators by the number of the cluster that they send to, the own one unused.
#[derive(Drop)]
pub struct Durable {
    pub own: u32,
    pub store: TopicLedger,
    pub subs: DurableSubs,
    pub replicators: DurableReplicators,
}

impl Durable {
    /// An empty topic whose ledgers take `per_ledger` entries, of a cluster among so many.
    #[tactic(auto, using(crate::proofs::Mapped::new_restarted))]
    pub fn new(alloc: Global, own: u32, clusters: u32, per_ledger: u64) -> Result<Durable, Memory>
        requires { 0 < per_ledger }
        ensures own { IfOk result (λ d. d.own ≡ own) }
        ensures per_ledger { IfOk result (λ d. d.store.per_ledger ≡ per_ledger) }
        ensures broker { IfOk result (λ d. broker_of d ≡ durable_part (new_broker clusters 0)) }
    {
        let replicators = DurableReplicators::new(alloc, clusters)?;
        match TopicLedger::new(alloc, per_ledger) {
            Ok(store) => Ok(Durable {
                own,
                store,
                subs: DurableSubs::new(alloc),
                replicators,
            }),
            Err(fault) => {
                drop(replicators);
                Err(fault)
            }
        }
    }
}
