//! Ends in memory, and calls that fail in turn.
ghost use Rattle.std.specs.Prelude.{◌≤◌, ◌<◌, length, OnOk};
ghost use Rattle.geo_io.specs.Sink.{Gains};
ghost use Rattle.geo_io.specs.Ends.{held_of};

use geo_base::Memory;
use geo_io::{
    MemSink, MemSource, ReadFault, Sink, SteadySink, SteadySource, WriteFault, read_all, write_all,
};
use std::alloc::Global;
use std::test::Fail;

const TEN: &[u8] = b"0123456789";

/// Calls of a sink that takes three of ten bytes in each: how many bytes went out before, and which.
const CALLS: &[(u64, u64, &str)] = &[
    (1, 0, ""),
    (2, 3, "012"),
    (3, 6, "012345"),
    (4, 9, "012345678"),
];

/// Whether this is the answer to a read of at most `max` bytes, of a source with so many bytes at most in a call, which fails at
/// some calls.
fn is_read(
    alloc: Global,
    input: &[u8],
    most: usize,
    fails: &[u64],
    max: usize,
    answer: Result<&[u8], ReadFault>,
) -> bool
    requires { 0 < most }
{
    match MemSource::new(alloc, input, most, fails) {
        Ok(mut source) => {
            let read = read_all(alloc, &mut source, max);
            drop(source);
            match &read {
                Ok(bytes) => answer == Ok(bytes.as_slice()),
                Err(fault) => answer == Err(*fault),
            }
        }
        Err(_) => false,
    }
}

/// Whether this is the answer to a write of an output, and the sink then holds these bytes: one that takes so many bytes at most
/// in a call, and fails at a call.
fn is_written(
    alloc: Global,
    output: &[u8],
    most: usize,
    call: u64,
    answer: Result<(), WriteFault>,
    held: &[u8],
) -> bool
    requires { 0 < most }
{
    match MemSink::new(alloc, most, &[call]) {
        Ok(mut sink) => {
            let written = write_all(&mut sink, output);
            let is_held = sink.bytes() == held;
            drop(sink);
            is_held && written == answer
        }
        Err(_) => false,
    }
}

/// Ten bytes by three in a call: the calls of a sink end after 3, 6, 9 and 10 bytes, and a source
/// needs a fifth call to see its end.
#[test]
fn each_call_fails_in_turn(rt: HostRuntime) {
    for (call, out, held) in CALLS.iter() {
        assert!(rt; is_failing(rt.alloc(), *call, *out, held), "call {call}");
    }
    assert!(rt; is_read(rt.alloc(), TEN, 3, &[5], 10, Err(ReadFault::Failed)));
}

/// Whether a source and a sink that fail at a call are told, the sink with how many bytes went out, and which.
fn is_failing(alloc: Global, call: u64, out: u64, held: &str) -> bool {
    let answer = Err(WriteFault { out });
    is_read(alloc, TEN, 3, &[call], 10, Err(ReadFault::Failed))
        && is_written(alloc, TEN, 3, call, answer, held.as_bytes())
}

#[test]
fn a_source_in_memory_gives_all(rt: HostRuntime) {
    assert!(rt; is_read(rt.alloc(), TEN, 3, &[6], usize::MAX, Ok(TEN)));
}

#[test]
fn a_sink_in_memory_takes_all(rt: HostRuntime) {
    assert!(rt; is_written(rt.alloc(), TEN, 3, 5, Ok(()), TEN));
}

/// The report of one message into a sink that takes 10 bytes in a call and fails at its third.
#[test]
fn a_failing_sink_holds_what_went_out(rt: HostRuntime) {
    let report = b"events 15 idle 0 rounds 0\n";
    let answer = Err(WriteFault { out: 20 });
    assert!(rt; is_written(rt.alloc(), report, 10, 3, answer, b"events 15 idle 0 rou"));
}

/// How many of four bytes may come, and the answer to a read of them.
const LIMITS: &[(usize, Result<&str, ReadFault>)] = &[
    (3, Err(ReadFault::TooLong)),
    (4, Ok("abcd")),
    (5, Ok("abcd")),
    (0, Err(ReadFault::TooLong)),
];

#[test]
fn too_long_is_above_the_limit(rt: HostRuntime) {
    for (max, answer) in LIMITS.iter() {
        let answer = answer.map(|text| text.as_bytes());
        assert!(rt;
            is_read(rt.alloc(), b"abcd", 2, &[], *max, answer),
            "max {max}"
        );
    }
    assert!(rt; is_read(rt.alloc(), b"", 1, &[], 0, Ok(b"")));
}

/// An input of several chunks.
#[test]
fn a_steady_source_never_fails(rt: HostRuntime) -> Result<(), Fail> {
    let input = vec![in rt.alloc(); 7u8; 40_000]?;
    let is_given = is_given(rt.alloc(), &input);
    drop(input);
    assert!(rt; is_given);
    Ok(())
}

/// Whether a steady source gives all.
fn is_given(alloc: Global, input: &[u8]) -> bool {
    match read_all(alloc, &mut SteadySource::new(input), input.len()) {
        Ok(bytes) => bytes.as_slice() == input,
        Err(_) => false,
    }
}

/// An output that overflows its buffer.
#[test]
fn a_steady_sink_never_fails(rt: HostRuntime) {
    let mut buffer = [0u8; 5];
    assert!(rt; overflows(&mut SteadySink::new(&mut buffer)));
}

/// Whether an empty sink of five bytes takes three bytes, four and one, and keeps the first five of them.
fn overflows(sink: &mut SteadySink<'_>) -> bool {
    is_kept(sink, b"abc", b"abc") && sink.write(b"defg") == Ok(4) && is_kept(sink, b"h", b"abcde")
}

/// Whether a write succeeds, after which the sink keeps these bytes.
fn is_kept(sink: &mut SteadySink<'_>, bytes: &[u8], kept: &[u8]) -> bool {
    write_all(sink, bytes).is_ok() && sink.bytes() == kept
}

/// What the clauses give a caller: between ends that never fail, the whole input arrives, and only
/// want of memory keeps it back.
fn copied(alloc: Global, input: &[u8], output: &mut SteadySink<'_>) -> Result<(), Memory>
    requires { length input.now ≤ 100 }
    ensures { OnOk result (Gains (held_of output.old) (held_of output.new) input.now) }
{
    let bytes = match read_all(alloc, &mut SteadySource::new(input), 100) {
        Ok(bytes) => bytes,
        Err(ReadFault::Memory) => return Err(Memory),
        Err(ReadFault::Failed | ReadFault::TooLong) => unreachable!(),
    };
    match write_all(output, bytes.as_slice()) {
        Ok(()) => Ok(()),
        Err(_) => unreachable!(),
    }
}

#[test]
fn clauses_compose(rt: HostRuntime) {
    let mut buffer = [0u8; 5];
    let mut sink = SteadySink::new(&mut buffer);
    let is_copied = copied(rt.alloc(), b"abc", &mut sink).is_ok();
    assert!(rt; is_copied && sink.bytes() == b"abc".as_slice());
}
