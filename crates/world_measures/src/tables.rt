//! Where a topic's entries stand at each cluster.
ghost use Rattle.std.specs.Prelude.{◌≡◌, ◌<◌, [], length, IfOk, slice_index_or};
ghost use Rattle.geo_base.specs.World.{World as Machine};
ghost use Rattle.world.specs.World.{IsAt};
ghost use Rattle.world_measures.specs.Places.{TellAll};
ghost use Rattle.world_measures.specs.Worlds.{HasBrokers};

use crate::places::PlaceTable;
use geo_base::Memory;
use script_text::Scenario;
use std::alloc::Global;
use std::marker::Model;
use world::World;

/// The tables of a topic at all clusters, by the clusters' numbers.
#[derive(Drop)]
pub(crate) struct TopicTables {
    tables: Vec<PlaceTable>,
}

impl Model for TopicTables {
    ghost use Rattle.std.specs.Prelude.{List};
    ghost use Rattle.world_measures.specs.Places.{Row};

    ghost Value = { List (List Row) };

    ghost view = { λ t. t.tables.items };
}

impl TopicTables {
    /// Those of a topic of a world.
    pub(crate) fn of(
        alloc: Global,
        scenario: &Scenario,
        world: &World,
        topic: u32,
    ) -> Result<TopicTables, Memory>
        requires at { IsAt scenario.now.setup world.now }
        requires topic { topic < length scenario.now.setup.topics }
        ensures told { IfOk result (λ t. (w : Machine) → HasBrokers w world.now → TellAll scenario.now.setup w topic t) }
        ensures many { IfOk result (λ t. length t ≡ length scenario.now.setup.clusters) }
    {
        let mut tables = Vec::new(alloc);
        for cluster in 0..scenario.clusters().len() {
            let broker = world.topic(scenario, topic, cluster as u32);
            let table = PlaceTable::of(alloc, broker.store())?;
            tables.push(table)?;
        }
        Ok(TopicTables { tables })
    }

    /// That of a cluster.
    pub(crate) fn at(&self, cluster: u32) -> &PlaceTable
        requires { cluster < length self.now }
        ensures { result.now ≡ slice_index_or self.now cluster [] }
    {
        &self.tables[cluster as usize]
    }

    /// How many clusters there are.
    pub(crate) fn len(&self) -> usize
        ensures { result ≡ length self.now }
    {
        self.tables.len()
    }
}
