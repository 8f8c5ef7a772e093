//! The program as a call over a runtime, a source and a sink.
ghost use Rattle.std.specs.Prelude.{◌≡◌, ◌<◌, ℕ, List, None, Some};
ghost use Rattle.geo_io.specs.Sink.{Gains};
ghost use Rattle.geo_live.specs.LiveAnswers.{IsLiveAnswered, IsLiveRead};
ghost use Rattle.geo_live.specs.Words.{live_of};
ghost use Rattle.geo_live.specs.declared.words.Live.{Live as Asked};
ghost use Rattle.geo_top.specs.Answered.{IsAnswered, IsRead, OfRun};
ghost use Rattle.geo_top.specs.Commands.{Reads, command_of};
ghost use Rattle.run_report.specs.Headline.{IsAlwaysOnce, IsAlwaysSafe, IsAlwaysSettled};
ghost use Rattle.run_report.specs.Reports.{exceeded_limit, report_of};

use crate::answering::answer_from;
use crate::words::Live;
use geo_io::{Gate, Sink, Source, write_all};
use geo_top::{Status, Word, geo_alone};
use std::alloc::Global;
use std::sync::Wait;
use std::thread::Threads;

/// The whole program. For the words of `live` it reads all of the source, which is a script without a schedule; runs the nodes that the
/// script declares on threads; and writes to the sink the report and the schedule of a run of the machine, which is what the logs that
/// the threads leave make, as far as the limits of a run allow. The gate is asked before each turn of a worker. For all other words it
/// is [`geo_alone`].
///
/// It waits for its threads: nothing is claimed of whether it returns on `live`. Every claim is of a call that returns.
pub fn geo_main<R: Threads + Wait + Sync, S: Source, K: Sink, G: Gate + Sync>(
    rt: &R,
    alloc: Global,
    words: &[Word],
    source: &mut S,
    sink: &mut K,
    gate: &G,
) -> Status
    // The headline, on `run`: with Ok what went out is the report of the written machine's run over the script that the source gave,
    // which passes no limit; and at every moment of that run each topic has its messages once, per producer in order, whatever a
    // subscription has acknowledged is settled, and after each step that settles all has come over. `alone` has all else that holds.
    ensures report { OfRun (command_of words.now) (S.given source.old source.new) result
        (λ n. K.taken sink.old sink.new (report_of n) × (exceeded_limit n ≡ None)) }
    ensures once { OfRun (command_of words.now) (S.given source.old source.new) result IsAlwaysOnce }
    ensures safe { OfRun (command_of words.now) (S.given source.old source.new) result IsAlwaysSafe }
    ensures settled { OfRun (command_of words.now) (S.given source.old source.new) result IsAlwaysSettled }

    // All that is promised on `live`, over the bytes that the source gave (where it was read to its end, all of them) and those that the
    // sink took.
    ensures live { (asked : Asked) → live_of words.now ≡ Some asked → (input output : List ℕ)
        × IsLiveRead (S.given source.old source.new) (S.left source.old) (S.faults source.old) (S.faults source.new) result input
        × K.taken sink.old sink.new output
        × Gains (K.held sink.old) (K.held sink.new) output
        × IsLiveAnswered input output (record {
          source = S.faults source.old;
          source_now = S.faults source.new;
          sink = K.faults sink.old;
          sink_now = K.faults sink.new;
        }) result }

    // For all other words, what is promised of `geo_alone`.
    ensures alone { live_of words.now ≡ None → (input output : List ℕ)
        × IsRead (command_of words.now) (S.given source.old source.new) (S.left source.old) (S.faults source.old) (S.faults source.new) result input
        × K.taken sink.old sink.new output
        × Gains (K.held sink.old) (K.held sink.new) output
        × IsAnswered (command_of words.now) input output (record {
          source = S.faults source.old;
          source_now = S.faults source.new;
          sink = K.faults sink.old;
          sink_now = K.faults sink.new;
        }) result }
    ensures unread { live_of words.now ≡ None → (Reads (command_of words.now) → ⊥) → source.new ≡ source.old }
{
    match Live::read(words) {
        Some(asked) => run_live(rt, alloc, asked, source, sink, gate),
        None => geo_alone(alloc, words, source, sink),
    }
}

/// The command that runs nodes on threads. The whole output is made before its first byte is written.
fn run_live<R: Threads + Wait + Sync, S: Source, K: Sink, G: Gate + Sync>(
    rt: &R,
    alloc: Global,
    asked: Live,
    source: &mut S,
    sink: &mut K,
    gate: &G,
) -> Status
    requires { 0 < asked.workers }
    ensures { (input output : List ℕ)
        × IsLiveRead (S.given source.old source.new) (S.left source.old) (S.faults source.old) (S.faults source.new) result input
        × K.taken sink.old sink.new output
        × Gains (K.held sink.old) (K.held sink.new) output
        × IsLiveAnswered input output (record {
          source = S.faults source.old;
          source_now = S.faults source.new;
          sink = K.faults sink.old;
          sink_now = K.faults sink.new;
        }) result }
{
    let Ok(answer) = answer_from(rt, alloc, asked, source, gate) else {
        return Status::OutOfMemory;
    };
    match write_all(sink, answer.bytes.as_slice()) {
        Ok(()) => answer.status,
        Err(_) => Status::WriteFault,
    }
}
