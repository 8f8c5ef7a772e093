//! A stop of everything.
//!
//! The brokers start again in a recursion: on the way in each takes the memory that it needs, and on the way back, which cannot
//! fail any more, each does it. So all of them start again or none.
ghost use Rattle.std.specs.Prelude.{◌≡◌, OnErr, OnOk, map};
ghost use Rattle.broker_state.specs.Plan.{IsEmptyPlan, plan_in};
ghost use Rattle.geo_base.specs.Client.{unconnected};
ghost use Rattle.geo_base.specs.Happening.{stops};
ghost use Rattle.geo_base.specs.Plan.{done};
ghost use Rattle.geo_base.specs.Seeking.{restart};
ghost use Rattle.geo_base.specs.World.{World as Machine};
ghost use Rattle.world.specs.Restarts.{IsRestarted, IsSame};
ghost use Rattle.world.specs.Steps.{Leads};
ghost use Rattle.world.specs.World.{IsAt, SameWorld, kept_of};
ghost use Rattle.broker.specs.Node.{IsReady};
ghost use Rattle.links.specs.Each.{Each};
ghost use Rattle.kept_laws.specs.Standing.{Stands};
ghost use Rattle.kept_laws.specs.Reached.{Reached};

use crate::fault::RunFault;
use crate::world::World;
use broker::Broker;
use broker_state::Plan;
use client::Client;
use geo_base::{Event, Memory};
use script_text::Scenario;
use std::alloc::Global;

impl World {
    /// Stops everything: every broker starts again, every packet that is not taken is lost, and every client loses its connection.
    /// It is one event. An `Err` changes nothing of the world: a limit of the run that it would pass, or want of memory.
    pub fn stop(&mut self, alloc: Global, scenario: &Scenario) -> Result<(), RunFault>
        requires at { IsAt scenario.now.setup self.old }
        ensures leads { (w : Machine) → Reached scenario.now.setup w → Stands scenario.now.setup (kept_of self.old) w
            → Leads scenario.now.setup self.old self.new (stops scenario.now.setup w) result }
        ensures at { IsAt scenario.now.setup self.new }
        ensures err { OnErr result (SameWorld self.old self.new) }
    {
        let _known = scenario.topics();
        self.one_more()?;
        restart_all(alloc, self.brokers.as_mut_slice())?;
        disconnect_all(self.clients.as_mut_slice());
        self.links.discard_all();
        self.counts.events += 1;
        Ok(())
    }
}

/// Starts brokers again: all of them, or none where memory is wanting.
fn restart_all(alloc: Global, brokers: &mut [Broker]) -> Result<(), Memory>
    ensures ok { OnOk result (Each IsRestarted brokers.old brokers.new) }
    ensures err { OnErr result (Each IsSame brokers.old brokers.new) }
{
    let Some((first, rest)) = brokers.split_first_mut() else {
        return Ok(());
    };
    let mut plan = Plan::new(alloc);
    prepare_restart(alloc, first, &mut plan)?;
    restart_all(alloc, rest)?;
    first.commit(&mut plan);
    Ok(())
}

/// What a broker will do to start again; it takes all the memory.
fn prepare_restart(alloc: Global, node: &mut Broker, plan: &mut Plan) -> Result<(), Memory>
    requires { IsEmptyPlan plan.old }
    ensures ready { OnOk result (IsReady node.new plan.new) }
    ensures restarts { OnOk result (done node.old.site.per_ledger node.old.broker (plan_in node.old.broker plan.new) ≡ done node.old.site.per_ledger node.old.broker restart) }
    ensures same { IsSame node.old node.new }
{
    let restart = Event::Restart {
        topic: node.topic(),
        cluster: node.cluster(),
    };
    node.prepare(alloc, &restart, None, plan)
}

/// Every client loses its connection.
fn disconnect_all(clients: &mut [Client])
    ensures { clients.new ≡ map unconnected clients.old }
{
    for client in clients {
        client.disconnect();
    }
}
