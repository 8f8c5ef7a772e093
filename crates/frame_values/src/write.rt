//! Writing a value as its canonical text.
ghost use Rattle.std.specs.Prelude.{◌≡◌, ◌≤◌, ◌-◌, true, false, List, ℕ, length, IfOk, IfErr};
ghost use Rattle.geo_base.specs.declared.frame.Frame.TheVariants as frame;
ghost use Rattle.geo_base.specs.FrameSizes.{frame_size};
ghost use Rattle.message_meta.specs.Known.{IsRest};
ghost use Rattle.pulsar_commands.specs.Parts.{kind_of};
ghost use Rattle.pulsar_commands.specs.Usual.{command_viewed};
ghost use Rattle.pulsar_frames.specs.declared.fault.FrameFault.TheVariants as fault;
ghost use Rattle.pulsar_frames.specs.Canonical.{IsTooLarge};
ghost use Rattle.pulsar_frames.specs.Frames.{carries};
ghost use Rattle.frame_values.specs.Coded.{IsCarriedFault, IsCarriedText, IsWritable, IsWritten, carries_entry};
ghost use Rattle.frame_values.specs.Texts.{is_readable, unread_bytes};

use crate::command::command_of;
use crate::content::canonical_payload;
use crate::entry::known_of;
use crate::usual::usual_text;
use geo_base::limits::ACKED_AT_ONCE;
use geo_base::{AckKind, Blob, ClusterName, ClusterRef, Entry, Frame, Memory, Position};
use pulsar_commands::{AckView, Command, CommandView};
use pulsar_frames::{
    Frame as WireFrame, FrameFault, write_carrying, write_frame, write_usual_ack,
    write_usual_command,
};
use std::alloc::Global;

/// The canonical text of the frame that a value is written as; `names` are those of the clusters, by their numbers. Where
/// the machine says nothing, CONNECT names the client `geo-client`, CONNECTED the server `geo-broker`, the text of an error
/// is `error`, and a SEND is one message (own). `Memory` where there is no room for it.
#[tactic(auto, using(crate::proofs::Writing::not_large))]
pub fn write_value(alloc: Global, names: &[ClusterName], frame: &Frame) -> Result<Blob, Memory>
    requires { IsWritable names.now frame.now }
    ensures { IfOk result (IsWritten names.now frame.now) }
{
    match try_write_value(alloc, names, frame) {
        Ok(bytes) => Ok(bytes),
        Err(why) => match why {
            FrameFault::Memory => Err(Memory),
            _ => unreachable!(),
        },
    }
}

/// Whether a value has a text: bytes that can't be read are written by nobody.
#[tactic(auto, using(crate::proofs::Entries::unreadable_is))]
pub fn is_readable(value: &Frame) -> bool
    ensures readable { result ≡ is_readable value.now }
    ensures unreadable { result ≡ false → value.now ≡ frame.Unreadable }
{
    !matches!(value, Frame::Unreadable)
}

/// The same of a value whose size nobody judged: `TooLarge` where its text passes the limit on frames, and `Memory` are
/// all that can be wrong.
pub fn try_write_value(
    alloc: Global,
    names: &[ClusterName],
    frame: &Frame,
) -> Result<Blob, FrameFault>
    requires readable { is_readable frame.now ≡ true }
    requires rest { IsRest (unread_bytes frame.now) }
    ensures written { IfOk result (IsWritten names.now frame.now) }
    // The size that the machine computes, without its own four bytes, is all that can be too large.
    ensures fault { IfErr result (IsTooLarge (frame_size names.now frame.now - 4)) }
{
    match frame {
        Frame::Send {
            id,
            seq,
            source,
            entry,
        } => send_text(alloc, names, *id, *seq, source, entry),
        Frame::Message {
            id,
            position,
            source,
            entry,
        } => message_text(alloc, names, *id, *position, source, entry),
        Frame::SendReceipt { id, seq, position } => {
            receipt_text(alloc, names, *id, *seq, *position)
        }
        Frame::Ack {
            id,
            kind,
            positions,
        } if positions.len() <= ACKED_AT_ONCE => {
            ack_text(alloc, *id, *kind, positions.as_slice())
        }
        _ => simple_text(alloc, names, frame),
    }
}

/// The canonical text of a SEND of an entry, which is written from where it is stored, without a copy of it.
#[tactic(auto, using(crate::proofs::Writing::not_large))]
pub fn write_send(
    alloc: Global,
    names: &[ClusterName],
    id: u64,
    seq: u64,
    source: &Option<ClusterRef>,
    entry: &Entry,
) -> Result<Blob, Memory>
    requires { IsWritable names.now (frame.Send id seq source.now entry.now) }
    ensures { IfOk result (IsWritten names.now (frame.Send id seq source.now entry.now)) }
{
    match send_text(alloc, names, id, seq, source, entry) {
        Ok(bytes) => Ok(bytes),
        Err(why) => match why {
            FrameFault::Memory => Err(Memory),
            _ => unreachable!(),
        },
    }
}

/// The canonical text of a MESSAGE of an entry, which is written from where it is stored, without a copy of it.
#[tactic(auto, using(crate::proofs::Writing::not_large))]
pub fn write_message(
    alloc: Global,
    names: &[ClusterName],
    id: u64,
    position: Position,
    source: &Option<ClusterRef>,
    entry: &Entry,
) -> Result<Blob, Memory>
    requires { IsWritable names.now (frame.Message id position source.now entry.now) }
    ensures { IfOk result (IsWritten names.now (frame.Message id position source.now entry.now)) }
{
    match message_text(alloc, names, id, position, source, entry) {
        Ok(bytes) => Ok(bytes),
        Err(why) => match why {
            FrameFault::Memory => Err(Memory),
            _ => unreachable!(),
        },
    }
}

#[tactic(auto, using(crate::proofs::Writing::send_written, crate::proofs::Writing::send_fault))]
fn send_text(
    alloc: Global,
    names: &[ClusterName],
    id: u64,
    seq: u64,
    source: &Option<ClusterRef>,
    entry: &Entry,
) -> Result<Blob, FrameFault>
    requires { IsRest entry.now.meta.rest }
    ensures written { IfOk result (IsWritten names.now (frame.Send id seq source.now entry.now)) }
    ensures fault { IfErr result (IsTooLarge (frame_size names.now (frame.Send id seq source.now entry.now) - 4)) }
{
    let command = CommandView::Send {
        producer_id: id,
        sequence_id: seq,
        num_messages: 1,
    };
    carried_text(alloc, names, command, source, entry)
}

#[tactic(auto, using(crate::proofs::Writing::message_written, crate::proofs::Writing::message_fault))]
fn message_text(
    alloc: Global,
    names: &[ClusterName],
    id: u64,
    position: Position,
    source: &Option<ClusterRef>,
    entry: &Entry,
) -> Result<Blob, FrameFault>
    requires { IsRest entry.now.meta.rest }
    ensures written { IfOk result (IsWritten names.now (frame.Message id position source.now entry.now)) }
    ensures fault { IfErr result (IsTooLarge (frame_size names.now (frame.Message id position source.now entry.now) - 4)) }
{
    let command = CommandView::Message {
        consumer_id: id,
        message_id: position,
    };
    carried_text(alloc, names, command, source, entry)
}

/// The text of a frame of a command that carries an entry: in one pass where it has the usual form.
fn carried_text(
    alloc: Global,
    names: &[ClusterName],
    command: CommandView,
    source: &Option<ClusterRef>,
    entry: &Entry,
) -> Result<Blob, FrameFault>
    requires carries { carries (kind_of (command_viewed command)) ≡ true }
    requires rest { IsRest entry.now.meta.rest }
    ensures text { IfOk result (IsCarriedText names.now (command_viewed command) source.now entry.now) }
    ensures fault { IfErr result (IsCarriedFault names.now (command_viewed command) source.now entry.now) }
{
    match usual_text(alloc, names, command, source, entry)? {
        Some(text) => Ok(text),
        None => {
            let command = command.to_command();
            let text = any_carried_text(alloc, names, &command, source, entry);
            // by a call, so that the end of a command is proved once
            drop(command);
            text
        }
    }
}

/// The same of any entry, from where its parts stand.
fn any_carried_text(
    alloc: Global,
    names: &[ClusterName],
    command: &Command,
    source: &Option<ClusterRef>,
    entry: &Entry,
) -> Result<Blob, FrameFault>
    requires carries { carries (kind_of command.now) ≡ true }
    requires rest { IsRest entry.now.meta.rest }
    ensures text { IfOk result (IsCarriedText names.now command.now source.now entry.now) }
    ensures fault { IfErr result (IsCarriedFault names.now command.now source.now entry.now) }
{
    let known = known_of(names, source, entry);
    let rest = entry.meta.rest();
    match canonical_payload(alloc, names, &entry.content, &entry.payload)? {
        None => write_carrying(alloc, command, known, rest, entry.payload.as_slice()),
        Some(text) => write_carrying(alloc, command, known, rest, text.as_slice()),
    }
}

/// The text of the receipt of a SEND: in one pass where it says a position.
#[tactic(auto, using(crate::proofs::UsualValues::receipt_written))]
fn receipt_text(
    alloc: Global,
    names: &[ClusterName],
    id: u64,
    seq: u64,
    position: Option<Position>,
) -> Result<Blob, FrameFault>
    ensures written { IfOk result (IsWritten names.now (frame.SendReceipt id seq position)) }
    ensures fault { IfErr result (IsTooLarge (frame_size names.now (frame.SendReceipt id seq position) - 4)) }
{
    match position {
        None => {
            let frame = Frame::SendReceipt { id, seq, position };
            let text = simple_text(alloc, names, &frame);
            drop(frame);
            text
        }
        Some(placed) => {
            let command = CommandView::SendReceipt {
                producer_id: id,
                sequence_id: seq,
                message_id: placed,
            };
            Ok(write_usual_command(alloc, command)?)
        }
    }
}

/// The text of an ACK, in one pass. No cluster is named in it.
#[tactic(auto, using(crate::proofs::UsualValues::ack_written))]
fn ack_text(
    alloc: Global,
    id: u64,
    kind: AckKind,
    positions: &[Position],
) -> Result<Blob, FrameFault>
    requires { length positions.now ≤ ACKED_AT_ONCE }
    ensures written { (names : List (List ℕ)) → IfOk result (IsWritten names (frame.Ack id kind positions.now)) }
    ensures fault { IfErr result (λ why. why ≡ fault.Memory) }
{
    let ack = AckView {
        consumer_id: id,
        ack_type: kind,
        message_id: positions,
    };
    Ok(write_usual_ack(alloc, ack)?)
}

/// The text of a frame that carries no message.
fn simple_text(alloc: Global, names: &[ClusterName], frame: &Frame) -> Result<Blob, FrameFault>
    requires simple { carries_entry frame.now ≡ false }
    requires readable { is_readable frame.now ≡ true }
    ensures written { IfOk result (IsWritten names.now frame.now) }
    ensures fault { IfErr result (IsTooLarge (frame_size names.now frame.now - 4)) }
{
    let command = command_of(alloc, frame)?;
    let whole = WireFrame {
        command,
        body: None,
    };
    let text = write_frame(alloc, &whole);
    drop(whole);
    text
}
