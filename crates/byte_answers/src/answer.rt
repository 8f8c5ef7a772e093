//! What a codec says of a message.

ghost use Rattle.std.specs.Prelude.{◌≡◌, ◌≤◌, [], length, IfOk};
ghost use Rattle.byte_answers.specs.Answers.{IsFieldsAnswer, IsMetaAnswer, IsMarkerAnswer, IsCommandAnswer, IsFrameAnswer, IsNoFrame, IsWritten, IsValueAnswer, IsValueText, IsAnswer};
ghost use Rattle.message_meta.specs.Known.{IsRest};
ghost use Rattle.frame_values.specs.Texts.{unread_bytes};
ghost use Rattle.pulsar_frames.specs.Canonical.{IsComplete};
ghost use Rattle.pulsar_frames.specs.Streams.{fresh};

use crate::output::{put_bytes_line, put_hex, put_line};
use frame_values::{is_readable, read_value, try_write_value};
use geo_base::limits::CLUSTERS;
use geo_base::{Blob, ClusterName, Frame as Value, Memory};
use marker_codec::{Marker, MarkerFault};
use message_meta::{Meta, MetaFault};
use pb_fields::{PbFault, read_fields, write_fields};
use pulsar_commands::{Command, CommandFault};
use pulsar_frames::{Frame, FrameFault, FrameReader, write_frame};
use std::alloc::Global;

/// What a vector's bytes are read as.
#[derive(Clone, Copy)]
pub enum Kind {
    /// A list of protobuf fields.
    Fields,
    /// The metadata of a message.
    Meta,
    /// A marker of the number's kind.
    Marker(u64),
    /// A command.
    Command,
    /// The first frame of a stream.
    Frame,
    /// The machine's value of one frame, where no cluster has a name.
    Value,
}

/// The canonical bytes of what was read, or why it was not.
#[derive(Drop)]
pub enum Answer {
    Canonical(Blob),
    NoFields(PbFault),
    NoMeta(MetaFault),
    NoMarker(MarkerFault),
    NoCommand(CommandFault),
    NoFrame(FrameFault),
    /// No whole frame stands in the bytes, and none is refused.
    Incomplete,
    /// The bytes are a text of no frame.
    Unreadable,
    BadLine,
}

/// Writes an answer: `ok` and the bytes, two digits each, `-` for none; or why there are none.
pub fn put_answer(out: &mut Vec<u8>, answer: &Answer) -> Result<(), Memory> {
    match answer {
        Answer::Canonical(bytes) => put_canonical(out, bytes.as_slice()),
        Answer::NoFields(fault) => put_line(out, fault),
        Answer::NoMeta(fault) => put_line(out, fault),
        Answer::NoMarker(fault) => put_line(out, fault),
        Answer::NoCommand(fault) => put_line(out, fault),
        Answer::NoFrame(fault) => put_line(out, fault),
        Answer::Incomplete => put_bytes_line(out, b"incomplete"),
        Answer::Unreadable => put_bytes_line(out, b"unreadable"),
        Answer::BadLine => put_bytes_line(out, b"bad line"),
    }
}

fn put_canonical(out: &mut Vec<u8>, bytes: &[u8]) -> Result<(), Memory> {
    if bytes.is_empty() {
        return put_bytes_line(out, b"ok -");
    }
    out.extend_from_slice(b"ok")?;
    put_hex(out, bytes)?;
    out.push(b'\n')?;
    Ok(())
}

/// The answer for the bytes of a message.
pub fn answer_of(alloc: Global, kind: Kind, bytes: &[u8]) -> Result<Answer, Memory>
    ensures { IfOk result (IsAnswer kind bytes.now) }
{
    match kind {
        Kind::Fields => fields_answer(alloc, bytes),
        Kind::Meta => meta_answer(alloc, bytes),
        Kind::Marker(number) => marker_answer(alloc, number, bytes),
        Kind::Command => command_answer(alloc, bytes),
        Kind::Frame => frame_answer(alloc, bytes),
        Kind::Value => value_answer(alloc, bytes),
    }
}

fn fields_answer(alloc: Global, bytes: &[u8]) -> Result<Answer, Memory>
    ensures { IfOk result (IsFieldsAnswer bytes.now) }
{
    let fields = match read_fields(alloc, bytes) {
        Ok(fields) => fields,
        Err(PbFault::Memory) => return Err(Memory),
        Err(fault) => return Ok(Answer::NoFields(fault)),
    };
    let mut out = Blob::new(alloc);
    let written = write_fields(&mut out, &fields);
    drop(fields);
    match written {
        Ok(()) => Ok(Answer::Canonical(out)),
        Err(_) => {
            drop(out);
            Err(Memory)
        }
    }
}

fn meta_answer(alloc: Global, bytes: &[u8]) -> Result<Answer, Memory>
    ensures { IfOk result (IsMetaAnswer bytes.now) }
{
    let meta = match Meta::read(alloc, bytes) {
        Ok(meta) => meta,
        Err(MetaFault::Memory) => return Err(Memory),
        Err(fault) => return Ok(Answer::NoMeta(fault)),
    };
    let out = meta.write(alloc);
    drop(meta);
    Ok(Answer::Canonical(out?))
}

fn marker_answer(alloc: Global, number: u64, bytes: &[u8]) -> Result<Answer, Memory>
    ensures { IfOk result (IsMarkerAnswer number bytes.now) }
{
    let marker = match Marker::read(alloc, number, bytes) {
        Ok(marker) => marker,
        Err(fault) => match fault {
            MarkerFault::Memory => return Err(Memory),
            _ => return Ok(Answer::NoMarker(fault)),
        },
    };
    let out = marker.write(alloc);
    drop(marker);
    Ok(Answer::Canonical(out?))
}

fn command_answer(alloc: Global, bytes: &[u8]) -> Result<Answer, Memory>
    ensures { IfOk result (IsCommandAnswer bytes.now) }
{
    let command = match Command::read(alloc, bytes) {
        Ok(command) => command,
        Err(fault) => match fault {
            CommandFault::Memory => return Err(Memory),
            _ => return Ok(Answer::NoCommand(fault)),
        },
    };
    let out = command.write(alloc);
    drop(command);
    Ok(Answer::Canonical(out?))
}

fn frame_answer(alloc: Global, bytes: &[u8]) -> Result<Answer, Memory>
    ensures { IfOk result (IsFrameAnswer bytes.now) }
{
    let mut reader = FrameReader::new(alloc);
    let answer = first_answer(alloc, &mut reader, bytes);
    drop(reader);
    answer
}

/// What a reader that has taken nothing says of the bytes.
fn first_answer(alloc: Global, reader: &mut FrameReader, bytes: &[u8]) -> Result<Answer, Memory>
    requires { reader.old ≡ fresh }
    ensures { IfOk result (IsFrameAnswer bytes.now) }
{
    let fed = reader.feed(bytes);
    match reader.next() {
        Some(frame) => {
            let answer = written_frame(alloc, &frame);
            drop(frame);
            answer
        }
        None => no_frame(fed),
    }
}

fn no_frame(answer: Result<(), FrameFault>) -> Result<Answer, Memory>
    ensures { IfOk result (IsNoFrame answer) }
{
    match answer {
        Ok(()) => Ok(Answer::Incomplete),
        Err(fault) => match fault {
            FrameFault::Memory => Err(Memory),
            _ => Ok(Answer::NoFrame(fault)),
        },
    }
}

fn written_frame(alloc: Global, frame: &Frame) -> Result<Answer, Memory>
    requires { IsComplete frame.now }
    ensures { IfOk result (IsWritten frame.now) }
{
    match write_frame(alloc, frame) {
        Ok(out) => Ok(Answer::Canonical(out)),
        Err(fault) => match fault {
            FrameFault::Memory => Err(Memory),
            _ => Ok(Answer::NoFrame(fault)),
        },
    }
}

/// The value is read and written again, under no cluster's name.
fn value_answer(alloc: Global, bytes: &[u8]) -> Result<Answer, Memory>
    ensures { IfOk result (IsValueAnswer [] bytes.now) }
{
    named_answer(alloc, &[], bytes)
}

/// The same under these names.
fn named_answer(alloc: Global, names: &[ClusterName], bytes: &[u8]) -> Result<Answer, Memory>
    requires { length names.now ≤ CLUSTERS }
    ensures { IfOk result (IsValueAnswer names.now bytes.now) }
{
    match read_value(alloc, names, bytes) {
        Ok(value) => {
            let answer = written_value(alloc, names, &value);
            drop(value);
            answer
        }
        Err(_) => Err(Memory),
    }
}

#[tactic(auto, using(crate::proofs::Values::unreadable_is))]
fn written_value(alloc: Global, names: &[ClusterName], value: &Value) -> Result<Answer, Memory>
    requires { IsRest (unread_bytes value.now) }
    ensures { IfOk result (IsValueText names.now value.now) }
{
    if !is_readable(value) {
        return Ok(Answer::Unreadable);
    }
    match try_write_value(alloc, names, value) {
        Ok(out) => Ok(Answer::Canonical(out)),
        Err(fault) => match fault {
            FrameFault::Memory => Err(Memory),
            _ => Ok(Answer::NoFrame(fault)),
        },
    }
}
