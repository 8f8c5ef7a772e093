//! Where logs do not fit together.
ghost use Rattle.std.specs.Prelude.{◌≡◌, IfOk};
ghost use Rattle.std.specs.Arc.{arc_value};

use geo_base::{Memory, Peer};
use script_text::Scenario;
use std::marker::Model;
use std::sync::Arc;
use wire_ends::WirePacket;

/// A configuration with the number of one of its nodes.
#[derive(Drop)]
pub struct NodeConfig {
    pub scenario: Arc<Scenario>,
    pub node: u32,
}

impl Model for NodeConfig {
    ghost use Rattle.std.specs.Arc.{arc_value};
    ghost use Rattle.merge_history.specs.Logs.{ConfigView};

    ghost Value = { ConfigView };

    ghost view = { λ c. record { scenario = arc_value c.scenario; node = c.node } };
}

impl NodeConfig {
    /// Shares the configuration; `Err` is want of memory.
    pub fn new(scenario: &Arc<Scenario>, node: u32) -> Result<NodeConfig, Memory>
        ensures { IfOk result (λ c. c ≡ record { scenario = arc_value scenario.now; node = node }) }
    {
        Ok(NodeConfig {
            scenario: Arc::try_clone(scenario)?,
            node,
        })
    }
}

/// What is the first not to fit. `Config` comes exactly where a log is strange: `node` is the place of the first such log,
/// `kept` what that log keeps and `given` what its place asks. `Packet` comes exactly where no log is strange and a packet that
/// was taken is not the one that was sent: the first such in the order of the steps, taken by `node` from `peer` after `index`
/// others from there; `sent` is what the peer sent at that place, if anything (own).
#[derive(Drop)]
pub enum Difference {
    Config {
        node: u32,
        kept: NodeConfig,
        given: NodeConfig,
    },
    Packet {
        node: u32,
        peer: Peer,
        index: u64,
        sent: Option<WirePacket>,
        taken: WirePacket,
    },
}
