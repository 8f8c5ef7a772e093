//! The durable part of a broker: as parts, and made of parts.
ghost use Rattle.std.specs.Prelude.{◌≡◌, ◌<◌, length, IfOk};
ghost use Rattle.std.specs.List.{sum};
ghost use Rattle.durable_parts.specs.Durable as restart;
ghost use Rattle.state_nodes.specs.Nodes.{broker_of};

use crate::brokers::NodeParts;
use durable_parts::Durable;
use geo_base::Memory;
use std::alloc::Global;
use topic_store::TopicLedger;

impl NodeParts {
    /// The parts of what is durable of a broker. Its entries, subscriptions and replicators are moved out; they are lost where memory
    /// for the ledgers' lengths is wanting.
    pub fn of_durable(alloc: Global, durable: Durable) -> Result<NodeParts, Memory>
        ensures broker { IfOk result (λ p. broker_of p ≡ restart.broker_of durable) }
        ensures opened { 0 < length durable.store.ledgers }
        ensures counted { sum durable.store.ledgers ≡ length durable.store.entries }
    {
        let Durable {
            own: _,
            store,
            subs,
            replicators,
        } = durable;
        let (ledgers, entries) = store.into_parts(alloc)?;
        Ok(NodeParts {
            ledgers,
            entries,
            subs,
            replicators,
        })
    }

    /// What is durable of the broker of a topic at the cluster `own`, whose ledgers take `per_ledger` entries.
    pub fn into_durable(self, alloc: Global, own: u32, per_ledger: u64) -> Result<Durable, Memory>
        requires opened { 0 < length self.ledgers.items }
        requires counted { sum self.ledgers.items ≡ length self.entries.items }
        ensures broker { IfOk result (λ d. restart.broker_of d ≡ broker_of self) }
        ensures own { IfOk result (λ d. d.own ≡ own) }
        ensures per_ledger { IfOk result (λ d. d.store.per_ledger ≡ per_ledger) }
    {
        let NodeParts {
            ledgers,
            entries,
            subs,
            replicators,
        } = self;
        let store = TopicLedger::from_parts(alloc, per_ledger, ledgers.as_slice(), entries)?;
        Ok(Durable {
            own,
            store,
            subs,
            replicators,
        })
    }
}
