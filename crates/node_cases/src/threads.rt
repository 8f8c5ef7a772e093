//! Runs on threads.
ghost use Rattle.std.specs.Prelude.{◌<◌};

use actors::node_count;
use geo_base::{EntryStore, Memory};
use geo_io::{Gate, OpenGate};
use link_rings::RingEnd;
use live_run::live;
use merge_history::{LogRef, merge_logs};
use node_log::{NodeLog, NodeLogs, NodeState};
use script_text::{Scenario, read_script};
use std::alloc::Global;
use std::sync::atomic::{AtomicBool, Ordering};
use std::sync::{Arc, Wait};
use std::test::Fail;
use std::thread::{self, Threads};

/// Two clusters, a producer and a consumer: actor 0 is the replicator from a to b, and actor 7 the dispatcher at b.
const SCRIPT: &[u8] =
    b"geo 1\ncluster a\ncluster b\ntopic t\nclient p t a\nclient c t b\ndo p produce\ndo p pub 0 * - one\ndo p pub 1 * - two\ndo p pub 2 * - three\ndo c sub s exclusive earliest replicated\ndo c flow 10\n";

const SENDER: u32 = 0;

const DISPATCHER: u32 = 7;

/// How often a held turn looks for the other one before it gives up.
const LOOKS: u64 = 100_000_000;

/// A gate that holds the first turn of the replicator until the dispatcher has one, and the other way round. They meet only where each
/// has a thread of its own.
#[derive(Drop)]
struct Meeting {
    replicator: AtomicBool,
    dispatcher: AtomicBool,
    gave_up: AtomicBool,
}

impl Meeting {
    /// Notes a first turn, and holds it until the other one is noted.
    fn meet(&self, own: &AtomicBool, other: &AtomicBool) {
        if own.swap(true, Ordering::SeqCst) {
            return;
        }
        for _ in 0..LOOKS {
            if other.load(Ordering::SeqCst) {
                return;
            }
            thread::yield_now();
        }
        self.gave_up.store(true, Ordering::SeqCst);
    }
}

impl Gate for Meeting {
    fn pass(&self, worker: u32, actor: u32, _turn: u64) {
        if worker == 0 && actor == SENDER {
            self.meet(&self.replicator, &self.dispatcher);
        }
        if worker == 1 && actor == DISPATCHER {
            self.meet(&self.dispatcher, &self.replicator);
        }
    }
}

#[test]
fn two_workers_run_side_by_side(rt: HostRuntime) -> Result<(), Fail> {
    let alloc = rt.alloc();
    let scenario = Arc::new(alloc, read_script(alloc, SCRIPT)?)?;
    let gate = Meeting {
        replicator: AtomicBool::new(false),
        dispatcher: AtomicBool::new(false),
        gave_up: AtomicBool::new(false),
    };
    let logs = logs_made(&rt, alloc, &scenario, &gate);
    let gave_up = gate.gave_up.load(Ordering::SeqCst);
    drop(gate);
    drop(scenario);
    assert!(rt; !gave_up, "side by side");
    assert_eq!(rt; logs?, 4);
    Ok(())
}

/// How many logs two workers make that go through a gate.
fn logs_made<R: Threads + Wait + Sync>(
    rt: &R,
    alloc: Global,
    scenario: &Arc<Scenario>,
    gate: &Meeting,
) -> Result<usize, Memory> {
    let logs = live(rt, alloc, scenario, 2, 200, gate)?;
    let count = logs.as_slice().len();
    logs.let_go();
    Ok(count)
}

/// How many workers, and how many turns each has.
const RUNS: &[(u32, u64)] = &[(1, 2000), (2, 1000), (4, 500)];

#[test]
fn what_is_taken_was_sent_however_threads_run(rt: HostRuntime) -> Result<(), Fail> {
    let alloc = rt.alloc();
    let scenario = Arc::new(alloc, read_script(alloc, SCRIPT)?)?;
    let other = first_other(&rt, alloc, &scenario);
    drop(scenario);
    assert_eq!(rt; other?, None);
    Ok(())
}

/// The workers of the first run whose logs do not fit together.
fn first_other<R: Threads + Wait + Sync>(
    rt: &R,
    alloc: Global,
    scenario: &Arc<Scenario>,
) -> Result<Option<u32>, Memory> {
    for &(workers, turns) in RUNS {
        if !run_fits(rt, alloc, scenario, workers, turns)? {
            return Ok(Some(workers));
        }
    }
    Ok(None)
}

/// Whether the logs of a run fit together.
fn run_fits<R: Threads + Wait + Sync>(
    rt: &R,
    alloc: Global,
    scenario: &Arc<Scenario>,
    workers: u32,
    turns: u64,
) -> Result<bool, Memory>
    requires { 0 < workers }
{
    let logs = live(rt, alloc, scenario, workers, turns, &OpenGate)?;
    let fits = fit_together(alloc, scenario, &logs);
    logs.let_go();
    fits
}

/// Whether the logs are those of the scenario's nodes in their order, and each packet that one took is the one that another sent.
fn fit_together(
    alloc: Global,
    scenario: &Arc<Scenario>,
    logs: &NodeLogs<RingEnd>,
) -> Result<bool, Memory> {
    let mut views = Vec::new(alloc);
    for log in logs.as_slice() {
        views.push(LogRef::new(log.configuration(), log.number(), log.history()))?;
    }
    if views.len() != node_count(scenario) as usize {
        return Ok(false);
    }
    let merged = merge_logs(alloc, scenario, views.as_slice())?;
    let is_right = merged.differs.is_none();
    drop(merged);
    Ok(is_right)
}

/// Two clusters, and a producer of three messages.
const STORY: &[u8] =
    b"geo 1\ncluster a\ncluster b\ntopic t\nclient p t a\ndo p produce\ndo p pub 0 * - one\ndo p pub 1 * - two\ndo p pub 2 * - three\n";

/// How many entries the log of a broker has, or how many receipts that of a client.
fn stored(log: &NodeLog<RingEnd>) -> u64 {
    match log.state() {
        NodeState::Broker(broker) => broker.store().len() as u64,
        NodeState::Client(state) => state.client.view().receipts,
    }
}

#[test]
fn one_worker_brings_all_over(rt: HostRuntime) -> Result<(), Fail> {
    let alloc = rt.alloc();
    let scenario = Arc::new(alloc, read_script(alloc, STORY)?)?;
    let brings_all = brings_all(&rt, alloc, &scenario);
    drop(scenario);
    assert!(rt; brings_all?);
    Ok(())
}

/// Whether the logs of one worker have all, and fit together.
fn brings_all<R: Threads + Wait + Sync>(
    rt: &R,
    alloc: Global,
    scenario: &Arc<Scenario>,
) -> Result<bool, Memory> {
    let logs = live(rt, alloc, scenario, 1, 2000, &OpenGate)?;
    let has_three = have_three(logs.as_slice());
    let fits = fit_together(alloc, scenario, &logs);
    logs.let_go();
    Ok(has_three && fits?)
}

/// Whether there are three logs, each with three entries or receipts.
fn have_three(logs: &[NodeLog<RingEnd>]) -> bool {
    for log in logs {
        if stored(log) != 3 {
            return false;
        }
    }
    logs.len() == 3
}
