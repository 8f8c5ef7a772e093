//! Short traces after a script that is read already. Longer ones stand in the folder `answers/` of the repository.
use audit::{AuditFault, Strictness, audit};
use script_text::{Scenario, read_script};
use std::alloc::{AllocError, Global};
use std::test::Fail;

const SCRIPT: &[u8] =
    b"geo 1\ncluster a\ncluster b\ntopic t\nclient p t a\nclient q t b\nclient c t a\n";

/// Each with the event and the rule of the fault; or the number of events and 0. They are judged alike however strictly.
const TRACES: &[(&str, u64, u32)] = &[
    ("", 0, 1),
    ("track\n", 0, 1),
    ("trace\n", 0, 0),
    ("trace\nevent 2\n", 0, 1),
    ("trace\ncreate t a s1 earliest\n", 0, 1),
    ("trace\nevent 1\nevent 2", 1, 1),
    ("trace\nevent 1\nevent 2\n", 2, 0),
    // m1 of a is at b, though its text is another one there, and m0 is missing: the lower rule is named
    (
        "trace\nevent 1\nappend t a 0:0 a p 0 * data - m0\nappend t a 0:1 a p 1 * data - m1\nappend t b 0:0 a p 1 * data - m2\n",
        1,
        4,
    ),
    // all of it, in order; what does not go to b is not missing there
    (
        "trace\nevent 1\nappend t a 0:0 a p 0 a data - m0\nappend t a 0:1 a p 1 * data - m1\nappend t b 0:0 a p 1 * data - m1\n",
        1,
        0,
    ),
];

/// Traces with a gap, each with the last event before it, and the number of its events.
const GAPS: &[(&str, u64, u64)] = &[
    // m1 of a is at b, and m0 is not
    (
        "trace\nevent 1\nappend t a 0:0 a p 0 * data - m0\nappend t a 0:1 a p 1 * data - m1\nevent 2\nappend t b 0:0 a p 1 * data - m1\n",
        2,
        2,
    ),
    // messages of two producers of a come in another order, which no rule on one of them refuses
    (
        "trace\nevent 1\nappend t a 0:0 a p 0 * data - m0\nappend t a 0:1 a c 0 * data - n0\nevent 2\nappend t b 0:0 a c 0 * data - n0\nevent 3\nappend t b 0:1 a p 0 * data - m0\n",
        2,
        3,
    ),
    // the first one came, and of the two after it the second
    (
        "trace\nevent 1\nappend t a 0:0 a p 0 * data - m0\nappend t a 0:1 a p 1 * data - m1\nappend t a 0:2 a p 2 * data - m2\nevent 2\nappend t b 0:0 a p 0 * data - m0\nevent 3\nappend t b 0:1 a p 2 * data - m2\n",
        3,
        3,
    ),
];

/// The event and the rule of a trace's fault, or the number of its events and 0.
fn answer(
    alloc: Global,
    scenario: &Scenario,
    strictness: Strictness,
    trace: &[u8],
) -> Result<(u64, u32), AllocError> {
    match audit(alloc, scenario, strictness, trace) {
        Ok(events) => Ok((events, 0)),
        Err(AuditFault::Rule { event, rule }) => Ok((event, rule)),
        Err(AuditFault::Memory) => Err(AllocError),
    }
}

/// The first trace that is answered otherwise than its row says.
fn first_other(
    alloc: Global,
    scenario: &Scenario,
    strictness: Strictness,
) -> Result<Option<&'static str>, AllocError> {
    for &(trace, event, rule) in TRACES {
        if answer(alloc, scenario, strictness, trace.as_bytes())? != (event, rule) {
            return Ok(Some(trace));
        }
    }
    Ok(None)
}

/// The first trace with a gap that the plain audit does not accept, or the whole one does not refuse for it.
fn first_gap(alloc: Global, scenario: &Scenario) -> Result<Option<&'static str>, AllocError> {
    for &(trace, event, events) in GAPS {
        let plain = answer(alloc, scenario, Strictness::Plain, trace.as_bytes())?;
        let whole = answer(alloc, scenario, Strictness::Whole, trace.as_bytes())?;
        if plain != (events, 0) || whole != (event, 12) {
            return Ok(Some(trace));
        }
    }
    Ok(None)
}

#[test]
fn short_traces_are_accepted_or_refused(rt: HostRuntime) -> Result<(), Fail> {
    let alloc = rt.alloc();
    let scenario = read_script(alloc, SCRIPT)?;
    let plain = first_other(alloc, &scenario, Strictness::Plain);
    let whole = first_other(alloc, &scenario, Strictness::Whole);
    drop(scenario);
    assert_eq!(rt; plain?, None);
    assert_eq!(rt; whole?, None);
    Ok(())
}

#[test]
fn gaps_are_refused_where_they_are_judged(rt: HostRuntime) -> Result<(), Fail> {
    let alloc = rt.alloc();
    let scenario = read_script(alloc, SCRIPT)?;
    let gap = first_gap(alloc, &scenario);
    drop(scenario);
    assert_eq!(rt; gap?, None);
    Ok(())
}
