//! Inputs and runs at the limits of the program, and after them.
use crate::asked::{AT_ONCE, Asked, bytes_of, ends_with};
use geo_top::Status;
use std::alloc::Global;
use std::test::Fail;

const DECLARATIONS: &[u8] =
    b"geo 1\ncluster a\ncluster b\ntopic t\nclient p t a\ndo p produce\ndo p pub 0 * - hi\n";

/// An event that is idle where nothing came.
const IDLE: &[u8] = b"get p\n";

/// So many copies of a line after a text.
fn with_lines(alloc: Global, text: &[u8], line: &[u8], count: u64) -> Result<Vec<u8>, Fail> {
    let mut script = text.to_vec(alloc)?;
    for copy in 0..count {
        script.extend_from_slice(line)?;
    }
    Ok(script)
}

/// 256 messages of 1,024 bytes that wait for their receipts, which each of 5,000 reconnects sends again.
fn unanswered(alloc: Global) -> Result<Vec<u8>, Fail> {
    let mut script = b"geo 1\ncluster a\ncluster b\ntopic t\nclient p t a\ndo p produce\n".to_vec(
        alloc,
    )?;
    let text = vec![in alloc; b'x'; 1_024]?;
    for seq in 0..256 {
        let words = format!(in alloc; "do p pub {seq} * - ")?;
        script.extend_from_slice(words.as_bytes())?;
        script.extend_from_slice(text.as_slice())?;
        script.push(b'\n')?;
    }
    script.extend_from_slice(b"reconnect p\n")?;
    let sent = with_lines(alloc, script.as_slice(), b"go p\n", 257)?;
    with_lines(alloc, sent.as_slice(), b"reconnect p\n", 5_000)
}

/// Whether a command answers an input by a status and a text.
fn is_answer(
    alloc: Global,
    word: &str,
    input: &[u8],
    status: Status,
    text: &[u8],
) -> Result<bool, Fail> {
    let asked = Asked {
        line: &[word],
        input,
        source: AT_ONCE,
        sink: AT_ONCE,
    };
    ends_with(alloc, &asked, status, text, false)
}

/// One byte more than are read.
#[test]
fn an_input_is_too_long(rt: HostRuntime) -> Result<(), Fail> {
    let alloc = rt.alloc();
    let longer = vec![in alloc; b'\n'; 67_108_865]?;
    let is_refused = is_answer(
        alloc,
        "run",
        longer.as_slice(),
        Status::TooLarge(1),
        b"too large 1\n",
    );
    drop(longer);
    assert!(rt; is_refused?);
    Ok(())
}

/// One event more than are done, idle ones here; the stop of `save` is an event, and what a state counted counts on.
#[test]
fn events_are_too_many(rt: HostRuntime) -> Result<(), Fail> {
    let alloc = rt.alloc();
    assert!(rt; is_too_much(alloc, "run", DECLARATIONS, 2_000_001)?);
    assert!(rt; is_too_much(alloc, "save", DECLARED, 2_000_000)?);
    assert!(rt; resumes_too_much(alloc)?);
    Ok(())
}

/// Whether a text with so many idle events after it passes the limit of events.
fn is_too_much(alloc: Global, word: &str, text: &[u8], idle: u64) -> Result<bool, Fail> {
    let input = with_lines(alloc, text, IDLE, idle)?;
    is_answer(
        alloc,
        word,
        input.as_slice(),
        Status::TooLarge(2),
        b"too large 2\n",
    )
}

fn resumes_too_much(alloc: Global) -> Result<bool, Fail> {
    let file = bytes_of(alloc, "save", ON_THE_LINK)?;
    is_too_much(alloc, "resume", file.as_slice(), 2_000_000)
}

/// Declarations, after which a client gets nothing.
const DECLARED: &[u8] = b"geo 1\ncluster a\ncluster b\ntopic t\nclient p t a\n";

/// A message that goes to another cluster.
const ON_THE_LINK: &[u8] =
    b"geo 1\nledger 7\ncluster a\ncluster b\ntopic t\nclient p t a\nclient q t b\n\
do p produce\ndo p pub 0 * - hi\ndo p pub 1 * - ho\ndo q sub s exclusive earliest replicated\ndo q flow 5\n\
reconnect p\nserve a p\ngo p\nserve a p\ngo p\nserve a p\nget p\nget p\nget p\n\
reset t a b\ntake t a b good\nreceipt t a b good\nread t a b\ntake t a b good\n";

/// More than a gibibyte of frames.
#[test]
fn frames_are_too_many(rt: HostRuntime) -> Result<(), Fail> {
    assert!(rt; sends_too_much(rt.alloc())?);
    Ok(())
}

fn sends_too_much(alloc: Global) -> Result<bool, Fail> {
    let input = unanswered(alloc)?;
    is_answer(
        alloc,
        "run",
        input.as_slice(),
        Status::TooLarge(3),
        b"too large 3\n",
    )
}

#[test]
fn the_most_events_are_done(rt: HostRuntime) -> Result<(), Fail> {
    assert!(rt; does_the_most(rt.alloc())?);
    Ok(())
}

fn does_the_most(alloc: Global) -> Result<bool, Fail> {
    let input = with_lines(alloc, DECLARATIONS, IDLE, 2_000_000)?;
    let report: &[u8] = b"events 0 idle 2000000 rounds 0\n\
topic t at a\nsender b session 0 closed mark 0\ntopic t at b\nsender a session 0 closed mark 0\n\
client p at a lines 0/2 receipts 0 duplicates 0 errors 0\n";
    is_answer(alloc, "run", input.as_slice(), Status::Ok, report)
}
