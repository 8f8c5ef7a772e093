//! A broker over a restart: what is durable of it, and what it is again.
ghost use Rattle.std.specs.Prelude.{◌≡◌, ◌≤◌, length, replicate, IfOk, None};
ghost use Rattle.durable_parts.specs.Durable.{broker_of, durable_part};
ghost use Rattle.broker.specs.Node.{IsDurableOf};

use crate::broker::Broker;
use broker_state::{BrokerState, Site};
use durable_parts::Durable;
use geo_base::{Memory, SubName};
use std::alloc::Global;

impl Broker {
    /// What survives a stop. An `Err` is want of memory.
    #[tactic(auto, using(crate::proofs::Restarts::durable_is))]
    pub fn durable(&self, alloc: Global) -> Result<Durable, Memory>
        ensures broker { IfOk result (λ d. broker_of d ≡ durable_part self.now.broker) }
        ensures site { IfOk result (IsDurableOf self.now.site) }
    {
        let _site = self.state.site();
        self.state.durable(alloc)
    }

    /// The broker of a topic at a site as it is after a restart, with no session of so many clients. An `Err` is want of memory.
    pub fn from_durable(
        alloc: Global,
        topic: u32,
        site: Site,
        names: Vec<SubName>,
        durable: Durable,
        clients: usize,
    ) -> Result<Broker, Memory>
        requires durable { IsDurableOf site durable }
        requires clusters { 2 ≤ length site.clusters }
        ensures topic { IfOk result (λ v. v.topic ≡ topic) }
        ensures site { IfOk result (λ v. v.site ≡ site) }
        ensures names { IfOk result (λ v. v.names ≡ names.items) }
        ensures broker { IfOk result (λ v. v.broker ≡ record (broker_of durable) { receivers = replicate (length durable.replicators) None; sessions = replicate clients None }) }
    {
        let _parts = durable.subs.as_slice();
        let state = BrokerState::from_durable(alloc, site, durable, clients)?;
        Ok(Broker {
            topic,
            names,
            state,
        })
    }
}
