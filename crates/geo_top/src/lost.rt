//! What is lost of a world if a cluster goes.
ghost use Rattle.std.specs.Prelude.{◌≡◌, ◌<◌, length, IfOk};
ghost use Rattle.geo_base.specs.World.{World as Machine};
ghost use Rattle.loss_laws.specs.LostLines.{lost_text};
ghost use Rattle.world.specs.World.{IsAt};
ghost use Rattle.world_measures.specs.Worlds.{HasBrokers};

use geo_base::{Blob, Memory};
use script_text::Scenario;
use std::alloc::Global;
use world::World;
use world_measures::{Gone, add_lost_lines};

/// What is missing, what would come again, what was never told and what would be lost, line by line. An `Err` is want of memory.
pub fn lost_lines(
    alloc: Global,
    scenario: &Scenario,
    world: &World,
    gone: Gone,
) -> Result<Blob, Memory>
    requires at { IsAt scenario.now.setup world.now }
    requires cluster { gone.cluster < length scenario.now.setup.clusters }
    ensures { IfOk result (λ bytes. (w : Machine) → HasBrokers w world.now → bytes ≡ lost_text gone.with_names scenario.now.setup w gone.cluster) }
{
    let mut lines = Blob::new(alloc);
    add_lost_lines(alloc, &mut lines, scenario, world, gone)?;
    Ok(lines)
}
