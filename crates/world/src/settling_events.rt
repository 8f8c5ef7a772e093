//! The events of settling, one after another.
ghost use Rattle.std.specs.Prelude.{◌≡◌, [], ◌∷◌, IfOk, OnOk};
ghost use Rattle.std.specs.List.{range_with_len};
ghost use Rattle.geo_base.specs.Run.{pairs, pairs_from, pairs_to, resets_of, round_of};
ghost use Rattle.world.specs.Settling.{Adds};

use geo_base::{Event, Fate, Memory, Sequence};
use script_text::Scenario;
use std::alloc::Global;

/// The reset of every link, and one round: for each ordered pair of clusters of each topic, by topic, source and target, a take, a
/// receipt and a read.
#[derive(Drop)]
pub struct SettlingEvents {
    pub resets: Sequence<Event>,
    pub round: Sequence<Event>,
}

impl SettlingEvents {
    /// Those of a scenario.
    pub fn of(alloc: Global, scenario: &Scenario) -> Result<SettlingEvents, Memory>
        ensures resets { IfOk result (λ es. es.resets ≡ resets_of (pairs scenario.now.setup)) }
        ensures round { IfOk result (λ es. es.round ≡ round_of (pairs scenario.now.setup)) }
    {
        let topics = scenario.topics().len() as u32;
        let clusters = scenario.clusters().len() as u32;
        let mut events = SettlingEvents {
            resets: Sequence::new(alloc),
            round: Sequence::new(alloc),
        };
        for topic in 0..topics {
            events.add_topic(topic, clusters)?;
        }
        Ok(events)
    }

    /// Those of a topic.
    fn add_topic(&mut self, topic: u32, clusters: u32) -> Result<(), Memory>
        ensures { OnOk result (Adds self.old self.new (pairs_from topic (range_with_len 0 clusters) (range_with_len 0 clusters))) }
    {
        for source in 0..clusters {
            self.add_source(topic, source, clusters)?;
        }
        Ok(())
    }

    /// Those of the links from a cluster.
    fn add_source(&mut self, topic: u32, source: u32, clusters: u32) -> Result<(), Memory>
        ensures { OnOk result (Adds self.old self.new (pairs_to topic source (range_with_len 0 clusters))) }
    {
        for target in 0..clusters {
            if source != target {
                self.add_pair(topic, source, target)?;
            }
        }
        Ok(())
    }

    /// Those of the two links between two clusters.
    fn add_pair(&mut self, topic: u32, source: u32, target: u32) -> Result<(), Memory>
        ensures { OnOk result (Adds self.old self.new (record { topic = topic; source = source; target = target } ∷ [])) }
    {
        let fate = Fate::Good;
        self.resets.push(Event::Reset {
            topic,
            source,
            target,
        })?;
        self.round.push(Event::Take {
            topic,
            source,
            target,
            fate,
        })?;
        self.round.push(Event::Receipt {
            topic,
            source,
            target,
            fate,
        })?;
        self.round.push(Event::Read {
            topic,
            source,
            target,
        })
    }
}
