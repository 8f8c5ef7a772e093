//! A run with its lines: what the world's one loop asks of a trace.
ghost use Rattle.std.specs.Prelude.{◌≡◌, ◌++◌, All, OnOk};
ghost use Rattle.geo_base.specs.Run.{all_limits, run_from};
ghost use Rattle.geo_base.specs.Traced.{items_from};
ghost use Rattle.geo_base.specs.World.{World as Machine};
ghost use Rattle.script_text.specs.Scenario.{IsStep};
ghost use Rattle.world.specs.Runs.{Comes, at_world};
ghost use Rattle.world.specs.World.{IsAt, kept_of};
ghost use Rattle.kept_laws.specs.Reached.{Reached};
ghost use Rattle.kept_laws.specs.Standing.{Stands};
ghost use Rattle.trace_runs.specs.Tracing.{item_lines};

use crate::acts::add_begin;
use crate::snapshot_tables::SnapshotTables;
use crate::trace::Trace;
use geo_base::{Event, Memory};
use script_text::{Scenario, StepList};
use std::alloc::Global;
use world::{Observer, RunFault, World};

impl Trace {
    /// Has the world do steps of a script, one after another, and appends the lines of what they write. Where they do not come to their
    /// end it is left open what was appended. What was known of snapshots is forgotten first, since the world may be another.
    pub fn run(
        &mut self,
        alloc: Global,
        world: &mut World,
        scenario: &Scenario,
        steps: &StepList,
    ) -> Result<(), RunFault>
        requires at { IsAt scenario.now.setup world.old }
        requires each { All (IsStep scenario.now.setup) steps.now }
        ensures told { (w : Machine) → Reached scenario.now.setup w → Stands scenario.now.setup (kept_of world.old) w
            → OnOk result (self.new.telling.text ≡ self.old.telling.text ++ item_lines scenario.now.setup (items_from all_limits scenario.now.setup (at_world w) steps.now)) }
        ensures comes { (w : Machine) → Reached scenario.now.setup w → Stands scenario.now.setup (kept_of world.old) w
            → Comes scenario.now.setup world.new (run_from all_limits scenario.now.setup (at_world w) steps.now) result }
        ensures at { IsAt scenario.now.setup world.new }
    {
        self.telling.snapshots = SnapshotTables::new(alloc);
        world.run_with(alloc, scenario, steps, self)
    }
}

impl Observer for Trace {
    ghost use Rattle.std.specs.Prelude.{ℕ, List};
    ghost use Rattle.trace_runs.specs.Tracing.{AreTables, told_lines};

    ghost Seen = { List ℕ };

    ghost seen = { λ o. o.telling.text };

    ghost sight = { told_lines };

    ghost knows = { λ o s bs. AreTables s o.telling.snapshots bs };

    fn event(
        &mut self,
        alloc: Global,
        world: &mut World,
        scenario: &Scenario,
        event: &Event,
    ) -> Result<(), RunFault> {
        match *event {
            Event::Go { .. } | Event::Get { .. } | Event::Reconnect { .. } => {
                self.client_event(alloc, world, scenario, event)
            }
            _ => self.broker_event(alloc, world, scenario, event),
        }
    }

    fn halt(
        &mut self,
        alloc: Global,
        world: &mut World,
        scenario: &Scenario,
        writes: u32,
        event: &Event,
    ) -> Result<(), RunFault> {
        self.stop_of_broker(alloc, world, scenario, writes, event)
    }

    fn stop(
        &mut self,
        alloc: Global,
        world: &mut World,
        scenario: &Scenario,
    ) -> Result<(), RunFault> {
        add_begin(&mut self.telling.text, world.events() + 1)?;
        world.stop(alloc, scenario)
    }

    fn settles(&mut self, _world: &World, _scenario: &Scenario) -> Result<(), Memory> {
        Ok(())
    }

    fn settling(
        &mut self,
        alloc: Global,
        world: &mut World,
        scenario: &Scenario,
        event: &Event,
    ) -> Result<(), RunFault> {
        let _enabled = self.acts(alloc, world, scenario, event)?;
        Ok(())
    }

    fn settled(&mut self, _world: &World, _scenario: &Scenario) -> Result<(), Memory> {
        Ok(())
    }
}
