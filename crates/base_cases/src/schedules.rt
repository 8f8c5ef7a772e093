//! Schedules that stand by themselves.
ghost use Rattle.std.specs.Prelude.{◌<◌, length};

use crate::kept_scripts::STORY;
use script_text::{Scenario, ScriptFault, StepList, read_schedule, read_script, write_schedule};
use std::alloc::{AllocError, Global};
use std::test::Fail;

/// A schedule of all kinds of step, as it is written.
const SCHEDULE: &[u8] =
    b"go p\nget q\nreconnect q\nserve b q\ndrop c p\nreset u a c\nread t b a\ntake t a b good\n\
receipt t c a lost\ntake u b a twice\nsnap t c\noffer t b s\nseek t a s 3:14\nseek t a s end\nrestart u b\n\
halt 0 serve a q\nhalt 8 offer t c s\nsettle\nstop\n";

/// Schedules, each with the line and the rule of its refusal, or how many steps it has and 0.
const CASES: &[(&str, u64, u32)] = &[
    ("", 0, 0),
    ("\n\n", 0, 0),
    ("# no line feed", 0, 0),
    ("#\nsettle\n\nstop\n", 2, 0),
    ("cluster d\n", 1, 6),
    ("#\n\ncluster d\n", 3, 6),
    ("ledger 7\n", 1, 6),
    ("client p u b\n", 1, 6),
    ("do p closep\n", 1, 6),
    ("go p\ngeo 1\n", 2, 6),
    ("cluster abcdefghijklmnopq\n", 1, 5),
    ("ledger\n", 1, 4),
    ("going p\n", 1, 3),
    ("go p\ngo r\n", 2, 15),
    ("offer u a s\n", 1, 17),
    ("read t a a\n", 1, 18),
    ("go p\ngo q", 2, 1),
    ("go p\n\x07\n", 2, 1),
];

/// The line and the rule of a refusal, or how many steps there are and 0.
fn answer(alloc: Global, scenario: &Scenario, schedule: &[u8]) -> Result<(u64, u32), AllocError>
    requires { length schedule.now < 1000 }
{
    match read_schedule(alloc, scenario, schedule) {
        Ok(steps) => Ok((steps.len() as u64, 0)),
        Err(ScriptFault::Rule { line, rule }) => Ok((line, rule)),
        Err(ScriptFault::Memory) => Err(AllocError),
    }
}

#[test]
fn schedules_are_read_and_written_the_same(rt: HostRuntime) -> Result<(), Fail> {
    let scenario = read_script(rt.alloc(), STORY)?;
    let is_same = is_written_the_same(rt.alloc(), &scenario);
    drop(scenario);
    assert!(rt; is_same);
    Ok(())
}

/// Whether the schedule of all kinds is read, in 19 steps, and written the same.
fn is_written_the_same(alloc: Global, scenario: &Scenario) -> bool {
    match read_schedule(alloc, scenario, SCHEDULE) {
        Ok(steps) => steps.len() == 19 && is_text_of(alloc, scenario, &steps),
        Err(_) => false,
    }
}

/// Whether the schedule of all kinds is how these steps are written.
fn is_text_of(alloc: Global, scenario: &Scenario, steps: &StepList) -> bool {
    match write_schedule(alloc, scenario, steps) {
        Ok(text) => text.as_slice() == SCHEDULE,
        Err(_) => false,
    }
}

/// The first of the schedules that is answered otherwise than its row says.
fn first_other(alloc: Global, scenario: &Scenario) -> Result<Option<&'static str>, AllocError> {
    for (schedule, line, rule) in CASES.iter() {
        if schedule.len() >= 1_000
            || answer(alloc, scenario, schedule.as_bytes())? != (*line, *rule)
        {
            return Ok(Some(*schedule));
        }
    }
    Ok(None)
}

#[test]
fn schedules_are_judged(rt: HostRuntime) -> Result<(), Fail> {
    let scenario = read_script(rt.alloc(), STORY)?;
    let other = first_other(rt.alloc(), &scenario);
    drop(scenario);
    assert_eq!(rt; other?, None);
    Ok(())
}
