//! What three nodes did: the brokers of a topic at two clusters, and a client.
ghost use Rattle.std.specs.Prelude.{◌≡◌, IfOk};
ghost use Rattle.std.specs.Arc.{arc_value};
ghost use Rattle.geo_base.specs.Nodes.{node_count};

use geo_base::{Blob, Event, Fate, Memory, Peer, Stamp};
use log_parts::{Done, Sent};
use merge_history::{LogRef, Merged, merge_logs};
use script_text::Scenario;
use std::alloc::Global;
use std::sync::Arc;
use wire_ends::WirePacket;

/// The script of the three nodes.
pub const SCRIPT: &[u8] = b"geo 1\ncluster a\ncluster b\ntopic t\nclient p t a\n";

/// A node of the script.
#[derive(Clone, Copy, Drop)]
pub enum ScriptNode {
    West,
    East,
    Client,
}

/// A packet that an event takes: its stamp and its frame, from which peer, and how many came from there before.
#[derive(Clone, Copy, Drop)]
pub struct Taken {
    pub stamp: u64,
    pub frame: &'static str,
    pub peer: Peer,
    pub index: u64,
}

/// An event, at which node, with its stamp, the packet that it takes, and the frame that it sends to a peer.
#[derive(Clone, Copy, Drop)]
pub struct Row {
    pub place: ScriptNode,
    pub event: Event,
    pub stamp: u64,
    pub taken: Option<Taken>,
    pub sent: Option<(Peer, &'static str)>,
}

/// A message is published and replicated, and then one more is. The rows are in the order of the merge.
pub const ROWS: &[Row] = &[
    Row {
        place: ScriptNode::Client,
        event: Event::Go { client: 0 },
        stamp: 1,
        taken: None,
        sent: Some((Peer::Broker(0), "publish")),
    },
    Row {
        place: ScriptNode::West,
        event: Event::Serve {
            cluster: 0,
            client: 0,
        },
        stamp: 2,
        taken: Some(Taken {
            stamp: 1,
            frame: "publish",
            peer: Peer::Client(0),
            index: 0,
        }),
        sent: Some((Peer::Client(0), "receipt")),
    },
    Row {
        place: ScriptNode::West,
        event: READ,
        stamp: 3,
        taken: None,
        sent: Some((Peer::Forward(1), "first")),
    },
    Row {
        place: ScriptNode::Client,
        event: Event::Get { client: 0 },
        stamp: 3,
        taken: Some(Taken {
            stamp: 2,
            frame: "receipt",
            peer: Peer::Broker(0),
            index: 0,
        }),
        sent: None,
    },
    Row {
        place: ScriptNode::East,
        event: TAKE,
        stamp: 4,
        taken: Some(Taken {
            stamp: 3,
            frame: "first",
            peer: Peer::Back(0),
            index: 0,
        }),
        sent: Some((Peer::Back(0), "answer")),
    },
    Row {
        place: ScriptNode::West,
        event: Event::Receipt {
            topic: 0,
            source: 0,
            target: 1,
            fate: Fate::Good,
        },
        stamp: 5,
        taken: Some(Taken {
            stamp: 4,
            frame: "answer",
            peer: Peer::Forward(1),
            index: 0,
        }),
        sent: None,
    },
    Row {
        place: ScriptNode::West,
        event: READ,
        stamp: 6,
        taken: None,
        sent: Some((Peer::Forward(1), "second")),
    },
    Row {
        place: ScriptNode::East,
        event: TAKE,
        stamp: 7,
        taken: Some(Taken {
            stamp: 6,
            frame: "second",
            peer: Peer::Back(0),
            index: 1,
        }),
        sent: None,
    },
];

const READ: Event = Event::Read {
    topic: 0,
    source: 0,
    target: 1,
};

const TAKE: Event = Event::Take {
    topic: 0,
    source: 0,
    target: 1,
    fate: Fate::Good,
};

/// What is wrong of a row.
#[derive(Clone, Copy, Drop, PartialEq, Eq)]
pub enum Wrong {
    Session,
    Stamp,
    Frame,
    NothingSent,
}

/// The histories of the three nodes.
#[derive(Drop)]
pub struct Histories {
    pub west: Vec<Done>,
    pub east: Vec<Done>,
    pub client: Vec<Done>,
}

impl Histories {
    /// What the rows say, where some are wrong.
    pub fn of(alloc: Global, wrong: &[(usize, Wrong)]) -> Result<Histories, Memory> {
        let mut histories = Histories {
            west: Vec::new(alloc),
            east: Vec::new(alloc),
            client: Vec::new(alloc),
        };
        match histories.fill(alloc, wrong) {
            Ok(()) => Ok(histories),
            Err(fault) => {
                drop(histories);
                Err(fault)
            }
        }
    }

    fn fill(&mut self, alloc: Global, wrong: &[(usize, Wrong)]) -> Result<(), Memory> {
        for (number, row) in ROWS.iter().enumerate() {
            let done = done_of(alloc, row, wrong_of(wrong, number))?;
            self.add(row.place, done)?;
        }
        Ok(())
    }

    fn add(&mut self, place: ScriptNode, done: Done) -> Result<(), Memory> {
        match place {
            ScriptNode::West => self.west.push(done)?,
            ScriptNode::East => self.east.push(done)?,
            ScriptNode::Client => self.client.push(done)?,
        }
        Ok(())
    }

    /// Logs with these configurations and numbers.
    pub fn logs<'a>(
        &'a self,
        alloc: Global,
        configs: &'a Configs,
        numbers: [u32; 3],
    ) -> Result<Vec<LogRef<'a>>, Memory> {
        let mut logs = Vec::new(alloc);
        logs.push(LogRef::new(&configs.west, numbers[0], self.west.as_slice()))?;
        logs.push(LogRef::new(&configs.east, numbers[1], self.east.as_slice()))?;
        logs.push(LogRef::new(&configs.client, numbers[2], self.client.as_slice()))?;
        Ok(logs)
    }
}

/// The configurations that the three nodes keep.
#[derive(Drop)]
pub struct Configs {
    pub west: Arc<Scenario>,
    pub east: Arc<Scenario>,
    pub client: Arc<Scenario>,
}

impl Configs {
    /// Of all nodes the same.
    pub fn of(scenario: &Arc<Scenario>) -> Result<Configs, Memory> {
        Ok(Configs {
            west: Arc::try_clone(scenario)?,
            east: Arc::try_clone(scenario)?,
            client: Arc::try_clone(scenario)?,
        })
    }
}

/// What is wrong of a row by its number.
fn wrong_of(wrong: &[(usize, Wrong)], number: usize) -> Option<Wrong> {
    for &(row, what) in wrong {
        if row == number {
            return Some(what);
        }
    }
    None
}

/// What a row says, wrong as told.
fn done_of(alloc: Global, row: &Row, wrong: Option<Wrong>) -> Result<Done, Memory> {
    Ok(Done {
        event: row.event,
        taken: taken_of(alloc, row, wrong)?,
        sent: sent_of(alloc, row, wrong)?,
        stamp: Stamp::new(row.stamp),
    })
}

fn taken_of(alloc: Global, row: &Row, wrong: Option<Wrong>) -> Result<Option<WirePacket>, Memory> {
    match row.taken {
        Some(taken) => Ok(Some(packet(alloc, taken.stamp, taken.frame, wrong)?)),
        None => Ok(None),
    }
}

fn sent_of(alloc: Global, row: &Row, wrong: Option<Wrong>) -> Result<Vec<Sent>, Memory> {
    let mut sent = Vec::new(alloc);
    if let Some((to, frame)) = row.sent
        && wrong != Some(Wrong::NothingSent)
    {
        let packet = packet(alloc, row.stamp, frame, None)?;
        sent.push(Sent { to, packet })?;
    }
    Ok(sent)
}

/// A packet of session 1, wrong as told.
fn packet(
    alloc: Global,
    stamp: u64,
    frame: &str,
    wrong: Option<Wrong>,
) -> Result<WirePacket, Memory> {
    let mut frame = Blob::from_slice(alloc, frame.as_bytes())?;
    if wrong == Some(Wrong::Frame) {
        frame.append(b"!")?;
    }
    Ok(WirePacket {
        session: if wrong == Some(Wrong::Session) { 2 } else { 1 },
        stamp: Stamp::new(if wrong == Some(Wrong::Stamp) {
            9
        } else {
            stamp
        }),
        frame,
    })
}

/// The merge of what the rows say, where some are wrong, in logs with these configurations and numbers.
pub fn merge_of(
    alloc: Global,
    scenario: &Arc<Scenario>,
    configs: &Configs,
    numbers: [u32; 3],
    wrong: &[(usize, Wrong)],
) -> Result<Merged, Memory> {
    let histories = Histories::of(alloc, wrong)?;
    let merge = merge_in(alloc, scenario, &histories, configs, numbers);
    drop(histories);
    merge
}

fn merge_in(
    alloc: Global,
    scenario: &Arc<Scenario>,
    histories: &Histories,
    configs: &Configs,
    numbers: [u32; 3],
) -> Result<Merged, Memory> {
    let logs = histories.logs(alloc, configs, numbers)?;
    merged(alloc, scenario, logs.as_slice())
}

/// The merge of logs; want of memory where they are not as many as the scenario has nodes.
fn merged(alloc: Global, scenario: &Arc<Scenario>, logs: &[LogRef<'_>]) -> Result<Merged, Memory> {
    if logs.len() == nodes_of(scenario) {
        merge_logs(alloc, scenario, logs)
    } else {
        Err(Memory)
    }
}

/// How many nodes a scenario has.
#[tactic(auto, using(merge_history::proofs::FewNodes::few_nodes, world_laws::proofs::Merges::FewNodes::few_brokers))]
fn nodes_of(scenario: &Scenario) -> usize
    ensures { result ≡ node_count scenario.now.setup }
{
    scenario.topics().len() * scenario.clusters().len() + scenario.clients().len()
}
