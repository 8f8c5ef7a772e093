//! One event, of a broker or of a client.
ghost use Rattle.std.specs.Prelude.{OnErr};
ghost use Rattle.geo_base.specs.Happening.{happens};
ghost use Rattle.geo_base.specs.World.{World as Machine};
ghost use Rattle.world.specs.Steps.{Leads};
ghost use Rattle.world.specs.World.{IsAt, SameWorld, kept_of};
ghost use Rattle.script_text.specs.Scenario.{IsEvent};
ghost use Rattle.kept_laws.specs.Standing.{Stands};
ghost use Rattle.kept_laws.specs.Reached.{Reached};

use crate::fault::RunFault;
use crate::world::World;
use geo_base::Event;
use script_text::Scenario;
use std::alloc::Global;

impl World {
    /// Does an event of the script; it is idle where it is not enabled. An `Err` changes nothing of the world: a limit of the run
    /// that the event would pass, or want of memory.
    #[tactic(auto, using(crate::proofs::After::err_same))]
    // Inlined with `World::step`.
    #[inline(always)]
    pub fn event(
        &mut self,
        alloc: Global,
        scenario: &Scenario,
        event: &Event,
    ) -> Result<(), RunFault>
        requires at { IsAt scenario.now.setup self.old }
        requires scripted { IsEvent scenario.now.setup event.now }
        ensures leads { (w : Machine) → Reached scenario.now.setup w → Stands scenario.now.setup (kept_of self.old) w
            → Leads scenario.now.setup self.old self.new (happens scenario.now.setup w event.now) result }
        ensures at { IsAt scenario.now.setup self.new }
        ensures err { OnErr result (SameWorld self.old self.new) }
    {
        match *event {
            Event::Go { client } => self.client_goes(alloc, scenario, client),
            Event::Get { client } => self.client_gets(alloc, scenario, client),
            Event::Reconnect { client } => self.client_reconnects(alloc, scenario, client),
            _ => self.broker_event(alloc, scenario, event),
        }
    }
}
