//! What is told of a broker that takes a packet.
ghost use Rattle.std.specs.Prelude.{◌≡◌};
ghost use Rattle.byte_answers.specs.Setting.{setting};

use crate::fault::Fault;
use crate::hostile::{count, kept, node, stop, take};
use crate::output::put_hex;
use broker::Broker;
use geo_base::{Content, EntryStore, Memory, WireOut};
use std::alloc::Global;
use std::io::Write;

/// The session that the broker has open.
const OPEN: u64 = 1;

/// PRODUCER of topic t with producer id and request id 1, named pulsar.repl.a: it opens session 1.
const OPENING: &[u8] =
    b"\x00\x00\x00\x1e\x00\x00\x00\x1a\x08\x05\x2a\x16\x0a\x01t\x10\x01\x18\x01\x22\x0dpulsar.repl.a";

/// SEND of producer id 1 with number 9: metadata of 10 bytes, of producer p with sequence id 9, publish time 0 and source a; text x.
const HONEST: &[u8] =
    b"\x00\x00\x00\x1b\x00\x00\x00\x08\x08\x06\x32\x04\x08\x01\x10\x09\x00\x00\x00\x0a\x0a\x01p\x10\x09\x18\x00\x2a\x01ax";

/// The same with number and sequence id 10.
const LATER: &[u8] =
    b"\x00\x00\x00\x1b\x00\x00\x00\x08\x08\x06\x32\x04\x08\x01\x10\x0a\x00\x00\x00\x0a\x0a\x01p\x10\x0a\x18\x00\x2a\x01ax";

/// Tells what a broker does with a packet of a session: what it sent and stored, how many packets answered an honest SEND then, and
/// how many entries were left after a stop.
pub fn tell(alloc: Global, session: u64, frame: &[u8], out: &mut Vec<u8>) -> Result<(), Fault> {
    let mut node = node(alloc)?;
    let told = tell_of(alloc, &mut node, session, frame, out);
    node.let_go();
    told
}

/// The same of this broker, once the session is open.
fn tell_of(
    alloc: Global,
    node: &mut Broker,
    session: u64,
    frame: &[u8],
    out: &mut Vec<u8>,
) -> Result<(), Fault>
    requires { node.old.site ≡ setting }
{
    let _opened = count(alloc, node, OPEN, OPENING)?;
    put_taken(alloc, node, session, frame, out)?;
    let stored = first_of(node);
    let then = count(alloc, node, OPEN, HONEST)?;
    stop(alloc, node, OPEN, LATER)?;
    let kept = kept(alloc, node)?;
    Ok(put_rest(out, stored, then, kept)?)
}

/// Tells what is sent when the broker takes the packet.
fn put_taken(
    alloc: Global,
    node: &mut Broker,
    session: u64,
    frame: &[u8],
    out: &mut Vec<u8>,
) -> Result<(), Fault>
    ensures { node.new.site ≡ node.old.site }
{
    let answers = take(alloc, node, session, frame)?;
    let put = put_answers(out, answers.as_slice());
    drop(answers);
    Ok(put?)
}

/// The frames that were sent, `-` for none.
fn put_answers(out: &mut Vec<u8>, answers: &[WireOut]) -> Result<(), Memory> {
    out.extend_from_slice(b"answers")?;
    if answers.is_empty() {
        out.extend_from_slice(b" -")?;
    }
    for answer in answers {
        put_hex(out, answer.frame.as_slice())?;
    }
    Ok(())
}

/// What stands after the answers in a line.
fn put_rest(out: &mut Vec<u8>, stored: &str, then: usize, kept: usize) -> Result<(), Memory> {
    match writeln!(out, " stored {stored} then {then} kept {kept}") {
        Ok(()) => Ok(()),
        Err(_) => Err(Memory),
    }
}

/// What a topic's first entry is.
fn first_of(node: &Broker) -> &'static str {
    match node.store().get(0) {
        None => "nothing",
        Some(entry) => match entry.content {
            Content::Data => "message",
            Content::Marked(_) => "marker",
            // a marker whose type or payload has no reading
            Content::Unread(_) => "unread marker",
        },
    }
}
