//! Logs of many nodes.
ghost use Rattle.std.specs.Prelude.{◌≡◌, ◌++◌, ◌∷◌, [], OnErr, OnOk};
ghost use Rattle.std.specs.List.{AllByRecursion};
ghost use Rattle.node_log.specs.Logs.{IsReplayed};

use crate::logged::NodeLog;
use geo_base::Memory;
use std::alloc::Global;
use std::marker::Model;
use wire_ends::End;

/// A list of logs. Whoever has it knows of each that its history replays to its state.
#[derive(Drop)]
pub struct NodeLogs<E: End> {
    logs: Vec<NodeLog<E>>,
}

impl<E: End> Model for NodeLogs<E> {
    ghost use Rattle.std.specs.Prelude.{List};
    ghost use Rattle.std.specs.List.{AllByRecursion};
    ghost use Rattle.node_log.specs.Logs.{NodeLogView, IsReplayed};

    ghost Value = { List (NodeLogView E) };

    ghost view = { λ l. l.logs.items };

    ghost invariant = { λ l. AllByRecursion IsReplayed l.logs.items };
}

impl<E: End> NodeLogs<E> {
    /// No log; takes no memory.
    pub fn new(alloc: Global) -> NodeLogs<E>
        ensures { result ≡ [] }
    {
        NodeLogs {
            logs: Vec::new(alloc),
        }
    }

    /// One more log, after all others. An `Err` is want of memory, and changes nothing.
    pub fn push(&mut self, logged: NodeLog<E>) -> Result<(), Memory>
        ensures ok { OnOk result (self.new ≡ self.old ++ logged ∷ []) }
        ensures err { OnErr result (self.new ≡ self.old) }
    {
        let _replayed = logged.history();
        self.logs.push(logged)?;
        Ok(())
    }

    /// The logs in order, each of which replays.
    pub fn as_slice(&self) -> &[NodeLog<E>]
        ensures logs { result.now ≡ self.now }
        ensures replayed { AllByRecursion IsReplayed self.now }
    {
        self.logs.as_slice()
    }

    /// Lets the logs go, as `drop` does: a crate that calls this need not show again how each part of a node ends.
    pub fn let_go(self) {
        drop(self)
    }
}
