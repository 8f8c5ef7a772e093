//! The workers.
ghost use Rattle.std.specs.Prelude.{◌≡◌, ℕ, ◌<◌, length, slice_index_or, IfOk, IsTrue};
ghost use Rattle.std.specs.Arc.{arc_value};
ghost use Rattle.geo_base.specs.Nodes.{node_count};
ghost use Rattle.live_run.specs.Crews.{crews_below, members_in};
ghost use Rattle.live_run.specs.Rotation.{IsRun};
ghost use Rattle.live_run.specs.Turns.{AllRan, TookTurns};
ghost use Rattle.live_run.specs.declared.crew.Crew.{Crew as CrewValue};
ghost use Rattle.live_run.specs.declared.crew.Ended.TheVariants as ended;

use crate::crew::Crew;
use crate::logs::{LockedLog, close, open};
use actors::roles;
use geo_base::Memory;
use geo_io::Gate;
use link_rings::RingEnd;
use node_log::NodeLogs;
use script_text::Scenario;
use std::alloc::Global;
use std::sync::atomic::AtomicBool;
use std::sync::{Arc, Wait};
use std::thread;
use std::thread::Threads;

/// The logs of a scenario's nodes after so many turns of each worker, in the order of the nodes' numbers. A worker's actors are those
/// whose numbers are the worker's, modulo the number of workers, in rotation; before each turn it passes the gate. The turns of a
/// worker whose thread can't be started are done by the caller, and every thread has ended when the call returns. An `Err` is want of
/// memory, which ends the turns of the worker that met it, and those of the others before their next one.
pub fn live<R: Threads + Wait + Sync, G: Gate + Sync>(
    rt: &R,
    alloc: Global,
    scenario: &Arc<Scenario, Global>,
    workers: u32,
    turns: u64,
    gate: &G,
) -> Result<NodeLogs<RingEnd>, Memory>
    requires { 0 < workers }
    ensures logs { IfOk result (λ logs. length logs ≡ node_count (arc_value scenario.now).setup) }
    ensures turns { IfOk result (λ logs. TookTurns (arc_value scenario.now) workers turns) }
{
    let mut crews = form_crews(alloc, scenario, workers)?;
    let locked = open(alloc, scenario)?;
    run(rt, locked.as_slice(), crews.as_mut_slice(), turns, gate);
    if !are_whole(crews.as_slice()) {
        return Err(Memory);
    }
    close(alloc, locked)
}

/// The crew of each worker, which its thread alone takes. An `Err` is want of memory.
#[tactic(auto, using(crate::proofs::Forming::no_crews, crate::proofs::Forming::one_crew))]
fn form_crews(alloc: Global, scenario: &Scenario, workers: u32) -> Result<Vec<Crew>, Memory>
    requires { 0 < workers }
    ensures crews { IfOk result (λ cs. members_in cs.items ≡ crews_below scenario.now workers workers) }
    ensures count { IfOk result (λ cs. length cs.items ≡ workers) }
{
    let roles = roles(alloc, scenario)?;
    let mut crews = Vec::new(alloc);
    for worker in 0..workers {
        crews.push(Crew::new(alloc, scenario, roles.as_slice(), worker, workers)?)?;
    }
    Ok(crews)
}

/// All workers' turns, side by side: each crew's in a thread of its own, or here where that can't be started.
fn run<R: Threads + Wait + Sync, G: Gate + Sync>(
    rt: &R,
    logs: &[LockedLog],
    crews: &mut [Crew],
    turns: u64,
    gate: &G,
)
    ensures ran { AllRan (length logs.now) turns crews.old crews.new }
    ensures count { length crews.new ≡ length crews.old }
{
    let is_short = AtomicBool::new(false);
    let count = crews.len();
    if count == 0 {
        return;
    }
    thread::for_each_mut(
        rt,
        crews,
        count,
        &|_worker, crew: &mut Crew|
            ensures { IsRun (length logs.entry.now) turns crew.entry.now.members.items crew.exit.now.members.items crew.exit.now.ended }
        { crew.run(rt, logs, turns, gate, &is_short) },
    );
}

/// Whether each crew had all its turns.
#[tactic(auto, using(crate::proofs::Turning::none_whole, crate::proofs::Turning::one_whole))]
fn are_whole(crews: &[Crew]) -> bool
    ensures { IsTrue result → (k : ℕ) (c : CrewValue) → k < length crews.now → (slice_index_or crews.now k c).ended ≡ ended.Whole }
{
    for crew in crews {
        if !crew.is_whole() {
            return false;
        }
    }
    true
}
