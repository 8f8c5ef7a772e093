//! The answer to a script whose nodes run on threads.
ghost use Rattle.std.specs.Prelude.{◌≡◌, ◌<◌, ◌≤◌, ℕ, List, IfOk, None, OnErr, length};
ghost use Rattle.std.specs.Arc.{arc_value};
ghost use Rattle.geo_io.specs.Faults.{Stood};
ghost use Rattle.geo_live.specs.LiveAnswers.{IsLiveAnswer, IsLiveRead, IsLiveReady};
ghost use Rattle.geo_top.specs.declared.top.status.Status.TheVariants as status;
ghost use Rattle.live_output.specs.LiveRuns.{TellsRun};

use crate::words::Live;
use geo_base::limits::INPUT_BYTES;
use geo_base::{Blob, Memory};
use geo_io::{Gate, ReadFault, Source, read_all};
use geo_top::{Answer, Status, refusal};
use live_output::all_events_output;
use live_run::live;
use node_log::NodeLogs;
use script_text::{Scenario, ScriptFault, read_script};
use std::alloc::Global;
use std::sync::{Arc, Wait};
use std::thread::Threads;

/// The rule that a script with a schedule of its own breaks, at its first line that schedules a step (own).
const NO_SCHEDULE: u32 = 20;

/// The answer to all that a source holds. The line of a read fault is made before anything is read, so that a fault of the source is
/// never told as want of memory.
pub(crate) fn answer_from<R: Threads + Wait + Sync, S: Source, G: Gate + Sync>(
    rt: &R,
    alloc: Global,
    asked: Live,
    source: &mut S,
    gate: &G,
) -> Result<Answer, Memory>
    requires { 0 < asked.workers }
    ensures ready { IfOk result (λ a. (input : List ℕ)
        × IsLiveRead (S.given source.old source.new) (S.left source.old) (S.faults source.old) (S.faults source.new) a.status input
        × IsLiveReady input (S.faults source.old) (S.faults source.new) a) }
    ensures wanting { OnErr result ((input : List ℕ)
        × IsLiveRead (S.given source.old source.new) (S.left source.old) (S.faults source.old) (S.faults source.new) status.OutOfMemory input) }
    ensures memory { OnErr result (Stood (S.faults source.old) (S.faults source.new)) }
{
    let read_fault = refusal(alloc, Status::ReadFault)?;
    match read_all(alloc, source, INPUT_BYTES) {
        Ok(bytes) => answer_to(rt, alloc, asked, bytes.as_slice(), gate),
        Err(ReadFault::Failed) => Ok(read_fault),
        Err(ReadFault::TooLong) => refusal(alloc, Status::TooLarge(1)),
        Err(ReadFault::Memory) => Err(Memory),
    }
}

/// The answer to an input that is not too long.
fn answer_to<R: Threads + Wait + Sync, G: Gate + Sync>(
    rt: &R,
    alloc: Global,
    asked: Live,
    input: &[u8],
    gate: &G,
) -> Result<Answer, Memory>
    requires some { 0 < asked.workers }
    requires short { length input.now ≤ INPUT_BYTES }
    ensures { IfOk result (IsLiveAnswer input.now) }
{
    match read_script(alloc, input) {
        Ok(scenario) => match scenario.first_event() {
            Some(line) => refusal(
                alloc,
                Status::BadScript {
                    line,
                    rule: NO_SCHEDULE,
                },
            ),
            None => answer_to_scenario(rt, alloc, asked, scenario, gate),
        },
        Err(ScriptFault::Rule { line, rule }) => refusal(alloc, Status::BadScript { line, rule }),
        Err(ScriptFault::Memory) => Err(Memory),
    }
}

/// What is written of a run of a script's nodes on threads.
fn answer_to_scenario<R: Threads + Wait + Sync, G: Gate + Sync>(
    rt: &R,
    alloc: Global,
    asked: Live,
    scenario: Scenario,
    gate: &G,
) -> Result<Answer, Memory>
    requires { 0 < asked.workers }
    ensures status { IfOk result (λ a. a.status ≡ status.Ok) }
    ensures tells { IfOk result (λ a. TellsRun scenario a.bytes) }
{
    let scenario = Arc::new(alloc, scenario)?;
    Ok(Answer {
        status: Status::Ok,
        bytes: output_of(rt, alloc, asked, &scenario, gate)?,
    })
}

/// The bytes of it; the logs that the threads leave are let go.
fn output_of<R: Threads + Wait + Sync, G: Gate + Sync>(
    rt: &R,
    alloc: Global,
    asked: Live,
    scenario: &Arc<Scenario>,
    gate: &G,
) -> Result<Blob, Memory>
    requires { 0 < asked.workers }
    ensures { IfOk result (TellsRun (arc_value scenario.now)) }
{
    let logs = live(rt, alloc, scenario, asked.workers, asked.turns, gate)?;
    let output = all_events_output(alloc, scenario, &logs);
    NodeLogs::let_go(logs);
    output
}
