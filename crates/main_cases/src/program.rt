//! The whole program over bytes in memory.
use crate::asked::words_of;
use geo_io::{MemSink, MemSource, OpenGate};
use geo_live::geo_main;
use geo_top::{Status, Word};
use std::alloc::Global;
use std::sync::Wait;
use std::test::Fail;
use std::thread::Threads;

/// More than a call of these tests moves.
const AT_ONCE: usize = 10_000_000;

/// Whether the program answers words and an input by a status of this number and these bytes.
pub fn is_answered<R: Threads + Wait + Sync>(
    rt: &R,
    alloc: Global,
    line: &[&str],
    input: &[u8],
    number: u8,
    bytes: &[u8],
) -> Result<bool, Fail> {
    let mut sink = MemSink::new(alloc, AT_ONCE, &[])?;
    let given = answer(rt, alloc, line, input, &mut sink)?;
    Ok(given.number() == number && sink.bytes() == bytes)
}

/// What the program writes for words and an input that it takes.
pub fn written<R: Threads + Wait + Sync>(
    rt: &R,
    alloc: Global,
    line: &[&str],
    input: &[u8],
) -> Result<Vec<u8>, Fail> {
    let mut sink = MemSink::new(alloc, AT_ONCE, &[])?;
    let given = answer(rt, alloc, line, input, &mut sink);
    let bytes = sink.bytes().to_vec(alloc);
    drop(sink);
    if given? == Status::Ok {
        Ok(bytes?)
    } else {
        Err(Fail::new("another answer"))
    }
}

/// What the program answers to words and an input; what it writes is in the sink.
fn answer<R: Threads + Wait + Sync>(
    rt: &R,
    alloc: Global,
    line: &[&str],
    input: &[u8],
    sink: &mut MemSink,
) -> Result<Status, Fail> {
    let words = words_of(alloc, line)?;
    let mut source = MemSource::new(alloc, input, AT_ONCE, &[])?;
    Ok(ended(rt, alloc, words.as_slice(), &mut source, sink))
}

fn ended<R: Threads + Wait + Sync>(
    rt: &R,
    alloc: Global,
    words: &[Word],
    source: &mut MemSource,
    sink: &mut MemSink,
) -> Status {
    geo_main(rt, alloc, words, source, sink, &OpenGate)
}
