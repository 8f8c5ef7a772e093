//! The world: its parts, how it begins, and what may be read of it.
ghost use Rattle.std.specs.Prelude.{◌≡◌, ◌<◌, ◌≤◌, ◌+◌, length, IfOk, slice_index_or};
ghost use Rattle.geo_base.specs.World.{node};
ghost use Rattle.script_text.specs.Scenario.{IsScenario};
ghost use Rattle.world.specs.World.{AreNodes, IsAt, kept_of, node_at};
ghost use Rattle.kept_laws.specs.Kept.{opening_kept};
ghost use Rattle.world_laws.specs.Starts.{most_at_start};

use broker::Broker;
use broker_state::Plan;
use client::Client;
use geo_base::Memory;
use links::Links;
use script_text::Scenario;
use state_nodes::Counts;
use std::alloc::Global;
use std::boxed::Box;
use std::marker::Model;

/// Brokers are numbered by topic and then by cluster, clients in the script's order. A clock is a node's last stamp. The brokers'
/// events are prepared in one plan, which the first of them makes and whose queues keep their memory; between events it is empty.
#[derive(Drop)]
pub struct World {
    pub(crate) brokers: Vec<Broker>,
    pub(crate) clients: Vec<Client>,
    pub(crate) links: Links,
    pub(crate) broker_clocks: Vec<u64>,
    pub(crate) client_clocks: Vec<u64>,
    pub(crate) counts: Counts,
    pub(crate) plan: Option<Box<Plan>>,
}

impl Model for World {
    ghost use Rattle.std.specs.Prelude.{IfSome};
    ghost use Rattle.broker_state.specs.Plan.{IsEmptyPlan};
    ghost use Rattle.world.specs.World.{WorldView, WorldHolds};

    ghost Value = { WorldView };

    ghost view = { λ w. record {
      brokers = w.brokers.items;
      clients = w.clients.items;
      links = w.links;
      broker_clocks = w.broker_clocks.items;
      client_clocks = w.client_clocks.items;
      events = w.counts.events;
      idle = w.counts.idle;
      rounds = w.counts.rounds;
      frame_bytes = w.counts.frame_bytes;
    } };

    ghost invariant = { λ w. WorldHolds (IfSome w.plan (λ p. IsEmptyPlan p.value)) w.counts.rounds w.counts.events };
}

impl World {
    /// What was counted so far.
    pub fn counts(&self) -> Counts
        ensures { result ≡ record { events = self.now.events; idle = self.now.idle; rounds = self.now.rounds; frame_bytes = self.now.frame_bytes } }
    {
        self.counts
    }

    /// How many events were done. But for those of a file, no more rounds were counted than that.
    pub fn events(&self) -> u64
        ensures events { result ≡ self.now.events }
        ensures rounds { self.now.rounds ≤ most_at_start + self.now.events }
    {
        self.counts.events
    }

    /// The broker of a topic at a cluster.
    pub fn topic(&self, scenario: &Scenario, topic: u32, cluster: u32) -> &Broker
        requires brokers { AreNodes scenario.now.setup self.now.brokers }
        requires topic { topic < length scenario.now.setup.topics }
        requires cluster { cluster < length scenario.now.setup.clusters }
        ensures { result.now ≡ node_at self.now.brokers (node scenario.now.setup topic cluster) }
    {
        &self.brokers[node_number(scenario, topic, cluster)]
    }

    /// The client of a number.
    pub fn client(&self, client: u32) -> &Client
        requires { client < length self.now.clients }
        ensures { slice_index_or self.now.clients client result.now ≡ result.now }
    {
        &self.clients[client as usize]
    }

    /// Lets the world go, as `drop` does: a crate that calls this need not show again how each part of a world ends.
    pub fn let_go(self) {
        drop(self)
    }
}

/// The number of a broker among all.
pub(crate) fn node_number(scenario: &Scenario, topic: u32, cluster: u32) -> usize
    requires topic { topic < length scenario.now.setup.topics }
    requires cluster { cluster < length scenario.now.setup.clusters }
    ensures { result ≡ node scenario.now.setup topic cluster }
{
    topic as usize * scenario.clusters().len() + cluster as usize
}
