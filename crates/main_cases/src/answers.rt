//! What the program answers to its words, and to a source and a sink that fail. Answers to inputs stand in the folder `answers/` of the
//! repository.
use crate::asked::{AT_ONCE, Asked, Pace, USAGE, ends_with};
use geo_top::Status;
use std::alloc::Global;
use std::test::Fail;

/// A message that goes to another cluster, and its receipt.
const ONE_MESSAGE: &[u8] =
    b"geo 1\ncluster a\ncluster b\ntopic t\nclient p t a\ndo p produce\ndo p pub 0 * - hi\n\
reconnect p\nserve a p\ngo p\nserve a p\ngo p\nserve a p\nget p\nget p\nget p\n\
reset t a b\ntake t a b good\nreceipt t a b good\nread t a b\ntake t a b good\nreceipt t a b good\n";

/// A source that fails at once.
const UNREAD: Pace = Pace { most: 7, fails: 1 };

const NO_COMMANDS: &[&[&str]] = &[
    &[],
    &["run", "x"],
    &["--help"],
    &["Run"],
    &[""],
    &["live", "1", "1"],
    &["big"],
    &["big", ""],
    &["big", "x"],
    &["big", "01"],
    &["big", "+1"],
    &["big", "-1"],
    &["big", "4294967296"],
    &["big", "1", "2"],
    &["Big", "1"],
    &["save", "x"],
    &["resume", "x"],
    &["Save"],
    &["audit", "x"],
    &["Audit"],
    &["compact"],
    &["compact", "2000001"],
    &["compact", "01"],
    &["compact", "1", "2"],
    &["Compact", "1"],
    &["tiered"],
    &["tiered", "1000001"],
    &["tiered", "01"],
    &["tiered", "1", "2"],
    &["Tiered", "1"],
    &["trace", "x"],
    &["Trace"],
];

/// Nothing is read for them: the source would fail.
#[test]
fn words_that_are_no_command(rt: HostRuntime) -> Result<(), Fail> {
    for &line in NO_COMMANDS {
        assert!(rt; are_no_command(rt.alloc(), line)?);
    }
    Ok(())
}

fn are_no_command(alloc: Global, line: &[&str]) -> Result<bool, Fail> {
    let asked = Asked {
        line,
        input: ONE_MESSAGE,
        source: UNREAD,
        sink: AT_ONCE,
    };
    ends_with(alloc, &asked, Status::Usage, USAGE, false)
}

/// A script, the call at which a sink fails that takes ten bytes in a call, and what went out before: a part of the report, or of a
/// refusal's line.
const SENT: &[(&[u8], u64, &[u8])] = &[
    (ONE_MESSAGE, 1, b""),
    (ONE_MESSAGE, 2, b"events 15 "),
    (ONE_MESSAGE, 3, b"events 15 idle 0 rou"),
    (ONE_MESSAGE, 4, b"events 15 idle 0 rounds 0\ntopi"),
    (
        ONE_MESSAGE,
        5,
        b"events 15 idle 0 rounds 0\ntopic t at a\ne",
    ),
    (b"geo", 2, b"bad script"),
];

#[test]
fn each_call_of_a_sink_fails_in_turn(rt: HostRuntime) -> Result<(), Fail> {
    for &(script, call, sent) in SENT {
        assert!(rt;
            is_write_fault(rt.alloc(), script, call, sent)?,
            "at call {call}"
        );
    }
    Ok(())
}

fn is_write_fault(alloc: Global, script: &[u8], call: u64, sent: &[u8]) -> Result<bool, Fail> {
    let asked = Asked {
        line: &["run"],
        input: script,
        source: Pace { most: 7, fails: 0 },
        sink: Pace {
            most: 10,
            fails: call,
        },
    };
    ends_with(alloc, &asked, Status::WriteFault, sent, false)
}

/// It gives 80 bytes in a call, and fails at one of the first five: the script comes in four, and the fifth sees its end.
#[test]
fn each_call_of_a_source_fails_in_turn(rt: HostRuntime) -> Result<(), Fail> {
    for call in 1..6 {
        assert!(rt; is_read_fault(rt.alloc(), call)?, "at call {call}");
    }
    Ok(())
}

fn is_read_fault(alloc: Global, call: u64) -> Result<bool, Fail> {
    let asked = Asked {
        line: &["run"],
        input: ONE_MESSAGE,
        source: Pace {
            most: 80,
            fails: call,
        },
        sink: AT_ONCE,
    };
    ends_with(alloc, &asked, Status::ReadFault, b"read fault\n", false)
}

/// What the program itself ends with then.
#[test]
fn statuses_have_numbers(rt: HostRuntime) -> Result<(), Fail> {
    let numbers = [
        Status::ReadFault.number(),
        Status::WriteFault.number(),
        Status::TooLarge(1).number(),
        Status::TooLarge(2).number(),
        Status::TooLarge(3).number(),
    ];
    assert!(rt; numbers == [4, 5, 6, 6, 6]);
    Ok(())
}

/// The run of a number: every message comes to every cluster, and all is quiet at the end. Nothing is read for it: the source would
/// fail.
#[test]
fn a_generated_run_is_summed_up(rt: HostRuntime) -> Result<(), Fail> {
    assert!(rt; is_summed_up(rt.alloc())?);
    Ok(())
}

fn is_summed_up(alloc: Global) -> Result<bool, Fail> {
    let asked = Asked {
        line: &["big", "7"],
        input: b"",
        source: UNREAD,
        sink: AT_ONCE,
    };
    let lines: &[u8] = b"big 7 clusters 3 messages 2000\n\
stored a 2000\nstored b 2000\nstored c 2000\nquiet\nevents ";
    ends_with(alloc, &asked, Status::Ok, lines, true)
}
