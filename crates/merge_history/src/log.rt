//! Logs of nodes, as the merge sees them.
ghost use Rattle.std.specs.Prelude.{◌≡◌, IfOk, false, true};
ghost use Rattle.std.specs.Arc.{arc_value};
ghost use Rattle.merge_history.specs.Logs.{IsOwn};

use crate::difference::NodeConfig;
use geo_base::Memory;
use log_parts::Done;
use script_text::Scenario;
use std::alloc::Global;
use std::marker::Model;
use std::sync::Arc;

/// What a node kept: its configuration, its number among the nodes, and its history; not owned.
#[derive(Drop)]
pub struct LogRef<'a> {
    scenario: &'a Arc<Scenario>,
    node: u32,
    events: &'a [Done],
}

impl<'a> Model for LogRef<'a> {
    ghost use Rattle.std.specs.Arc.{arc_value};
    ghost use Rattle.merge_history.specs.Logs.{LogView};

    ghost Value = { LogView };

    ghost view = { λ b. record { scenario = arc_value b.scenario.now; node = b.node; history = b.events.now } };
}

impl<'a> LogRef<'a> {
    /// The log of a node of a configuration.
    pub fn new(scenario: &'a Arc<Scenario>, node: u32, events: &'a [Done]) -> LogRef<'a>
        ensures { result ≡ record { scenario = arc_value scenario.now; node = node; history = events.now } }
    {
        LogRef {
            scenario,
            node,
            events,
        }
    }

    /// The history.
    pub fn events(&self) -> &'a [Done]
        ensures { result.now ≡ self.now.history }
    {
        self.events
    }

    /// The configuration and the number; `Err` is want of memory.
    pub fn config(&self) -> Result<NodeConfig, Memory>
        ensures { IfOk result (λ c. c ≡ record { scenario = self.now.scenario; node = self.now.node }) }
    {
        NodeConfig::new(self.scenario, self.node)
    }

    /// Whether the log is the one of a place, under a configuration; `Err` is want of memory.
    pub fn is_own(&self, alloc: Global, scenario: &Scenario, place: usize) -> Result<bool, Memory>
        ensures own { IfOk result (λ t. t ≡ true → IsOwn scenario.now place self.now) }
        ensures strange { IfOk result (λ t. t ≡ false → IsOwn scenario.now place self.now → ⊥) }
    {
        if self.node as usize != place {
            return Ok(false);
        }
        self.scenario.is_same(alloc, scenario)
    }
}
