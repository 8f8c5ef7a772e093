//! What `live` prints, and what `run` makes of it.
use crate::program::written;
use geo_base::{Blob, Memory};
use geo_io::OpenGate;
use live_output::live_output;
use live_run::live;
use script_text::{Scenario, read_script};
use std::alloc::Global;
use std::sync::{Arc, Wait};
use std::test::Fail;
use std::thread::Threads;

/// Two clusters, and a producer of three messages.
const STORY: &[u8] =
    b"geo 1\ncluster a\ncluster b\ntopic t\nclient p t a\ndo p produce\ndo p pub 0 * - one\ndo p pub 1 * - two\ndo p pub 2 * - three\n";

/// Three clusters with losses, repeats and restarts; two producers, and a consumer that moves.
const CHANCES: &[u8] =
    b"geo 1\nledger 3\nchance 7 50 50 20\ncluster a\ncluster b\ncluster c\ntopic t\nclient p t a\nclient q t b\nclient k t a\n\
do p produce\ndo p pub 0 * - p0\ndo p pub 1 * - p1\ndo p pub 2 * - p2\ndo p pub 3 * - p3\n\
do q produce\ndo q pub 0 * - q0\ndo q pub 1 * - q1\ndo q pub 2 * - q2\n\
do k sub s shared earliest replicated\ndo k flow 20\ndo k ackall\ndo k move b\ndo k ackall\ndo k move c\ndo k ackall\n";

/// The line between a report and its schedule.
const LINE: &[u8] = b"schedule\n";

/// What stands before the line between, and what after it.
fn parts(output: &[u8]) -> Option<(&[u8], &[u8])> {
    for at in 0..output.len() {
        if let Some(schedule) = output[at..].strip_prefix(LINE) {
            return Some((&output[..at], schedule));
        }
    }
    None
}

/// How many lines of a text are this one.
fn count_of(text: &[u8], line: &[u8]) -> u64 {
    let mut count = 0u64;
    for other in text.split(|b| *b == b'\n') {
        if other == line && count < u64::MAX {
            count += 1;
        }
    }
    count
}

/// With one worker the logs are determined by the script, and what is printed is what they make: both clusters have the three
/// messages, the client all receipts, and the last line settles.
#[test]
fn one_worker_prints_what_its_logs_make(rt: HostRuntime) -> Result<(), Fail> {
    assert!(rt; prints_what_is_made(&rt, rt.alloc())?);
    Ok(())
}

fn prints_what_is_made<R: Threads + Wait + Sync>(rt: &R, alloc: Global) -> Result<bool, Fail> {
    let printed = written(rt, alloc, &["live", "1", "2000"], STORY)?;
    let made = made(rt, alloc)?;
    Ok(printed.as_slice() == made.as_slice() && tells_the_story(printed.as_slice()))
}

/// What the logs of one worker make.
fn made<R: Threads + Wait + Sync>(rt: &R, alloc: Global) -> Result<Blob, Fail> {
    let scenario = Arc::new(alloc, read_script(alloc, STORY)?)?;
    let output = made_of(rt, alloc, &scenario);
    drop(scenario);
    Ok(output?)
}

fn made_of<R: Threads + Wait + Sync>(
    rt: &R,
    alloc: Global,
    scenario: &Arc<Scenario>,
) -> Result<Blob, Memory> {
    let logs = live(rt, alloc, scenario, 1, 2000, &OpenGate)?;
    let output = live_output(alloc, scenario, &logs);
    logs.let_go();
    output
}

/// Whether both clusters have the three messages, the client has all receipts, and the last line settles.
fn tells_the_story(output: &[u8]) -> bool {
    let entries = [
        b"entry 0:0 a p 0 * data - one".as_slice(),
        b"entry 0:1 a p 1 * data - two",
        b"entry 0:2 a p 2 * data - three",
    ];
    for line in entries {
        if count_of(output, line) != 2 {
            return false;
        }
    }
    let client: &[u8] = b"client p at a lines 4/4 receipts 3 duplicates 0 errors 0";
    count_of(output, client) == 1
        && count_of(output, b"schedule") == 1
        && output.ends_with(b"\nsettle\n")
}

/// The script with the printed schedule after it makes a run with the printed report.
fn replayed<R: Threads + Wait + Sync>(
    rt: &R,
    alloc: Global,
    line: &[&str],
    script: &[u8],
) -> Result<bool, Fail> {
    let printed = written(rt, alloc, line, script)?;
    let Some((report, schedule)) = parts(printed.as_slice()) else {
        return Ok(false);
    };
    let again = run_behind(rt, alloc, script, schedule)?;
    Ok(again.as_slice() == report)
}

/// The report of a script with a schedule after it.
fn run_behind<R: Threads + Wait + Sync>(
    rt: &R,
    alloc: Global,
    script: &[u8],
    schedule: &[u8],
) -> Result<Vec<u8>, Fail> {
    let mut whole = script.to_vec(alloc)?;
    whole.extend_from_slice(schedule)?;
    written(rt, alloc, &["run"], whole.as_slice())
}

/// Whatever the order is in which the threads run.
#[test]
fn schedules_replay_to_their_reports(rt: HostRuntime) -> Result<(), Fail> {
    let alloc = rt.alloc();
    for line in [
        ["live", "1", "2000"],
        ["live", "2", "1000"],
        ["live", "4", "500"],
        ["live", "64", "30"],
    ] {
        assert!(rt; replayed(&rt, alloc, &line, STORY)?);
        assert!(rt; replayed(&rt, alloc, &line, CHANCES)?);
    }
    Ok(())
}
