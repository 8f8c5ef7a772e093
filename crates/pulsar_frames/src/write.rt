//! Writing frames.

ghost use Rattle.std.specs.Prelude.{◌≡◌, ◌+◌, ◌<◌, ◌≤◌, ◌^◌, ◌++◌, length, IfOk, IfErr, IsErrOf, OnOk, Err, true};
ghost use Rattle.pb_fields.specs.Faults.{Answers};
ghost use Rattle.pb_fields.specs.Canonical.{text};
ghost use Rattle.message_meta.specs.Canonical.{canonical_fields};
ghost use Rattle.message_meta.specs.Metadata.{IsMetaText};
ghost use Rattle.pulsar_frames.specs.Counted.{counted};
ghost use Rattle.pulsar_frames.specs.Layout.{size, sized, content_text, frame_limit, layout_text, Fits};
ghost use Rattle.pulsar_frames.specs.Viewed.{layout};
ghost use Rattle.message_meta.specs.Known.{IsRest};
ghost use Rattle.pulsar_commands.specs.Parts.{kind_of};
ghost use Rattle.pulsar_frames.specs.Frames.{IsFrameText, carries};
ghost use Rattle.pulsar_frames.specs.Carrying.{IsCarryingText, IsCarryingFault};
ghost use Rattle.pulsar_frames.specs.Canonical.{frame_text, frame_size, IsComplete, IsTooLarge, with_body};

use crate::fault::FrameFault;
use crate::frame::{Body, Frame};
use crate::layout::{BodyParts, FrameParts, SIZE_BYTES};
use geo_base::limits::FRAME_BYTES;
use geo_base::{Blob, Memory};
use message_meta::KnownMeta;
use pulsar_commands::Command;
use std::alloc::Global;

/// The canonical text of a frame whose message is there exactly where its command carries one: the canonical texts of
/// its command and its metadata, each after its size.
pub fn write_frame(alloc: Global, frame: &Frame) -> Result<Blob, FrameFault>
    requires { IsComplete frame.now }
    ensures canonical { IfOk result (λ bytes. bytes ≡ frame_text frame.now) }
    ensures text { IfOk result (λ bytes. IsFrameText bytes frame.now) }
    // A frame is refused for its size alone.
    ensures fault { IfErr result (IsTooLarge (frame_size frame.now)) }
    // One whose size passes the limit is refused, unless memory runs out.
    ensures too_large { frame_limit < frame_size frame.now → Answers FrameFault.Memory result (Err (FrameFault.TooLarge (counted (frame_size frame.now)))) }
{
    let command = frame.command.write(alloc)?;
    match &frame.body {
        None => write_parts(
            alloc,
            FrameParts {
                command: command.as_slice(),
                body: None,
            },
        ),
        Some(body) => write_message(alloc, command.as_slice(), body),
    }
}

/// The text of a frame of a command that carries a message.
fn write_message<'a>(alloc: Global, command: &'a [u8], body: &'a Body) -> Result<Blob, FrameFault>
    ensures ok { IfOk result (λ bytes. bytes ≡ layout_text (with_body command.now body.now)) }
    ensures fits { OnOk result (Fits (with_body command.now body.now)) }
    ensures meta { OnOk result (IsMetaText (text (canonical_fields body.now.meta)) body.now.meta) }
    ensures err { IfErr result (IsTooLarge (length (content_text (with_body command.now body.now)))) }
{
    let meta = body.meta.write(alloc)?;
    write_parts(
        alloc,
        FrameParts {
            command,
            body: Some(BodyParts {
                meta: meta.as_slice(),
                payload: body.payload.as_slice(),
            }),
        },
    )
}

/// The canonical text of a frame of a command that carries a message, which is written from where its parts stand: the
/// known fields of its metadata, `rest`, the canonical text of the others, and its payload. No part is copied but into
/// the frame.
#[tactic(auto, using(crate::proofs::Carrying::carrying_is, crate::proofs::Carrying::carrying_fault))]
pub fn write_carrying(
    alloc: Global,
    command: &Command,
    known: KnownMeta<'_>,
    rest: &[u8],
    payload: &[u8],
) -> Result<Blob, FrameFault>
    requires carries { carries (kind_of command.now) ≡ true }
    requires rest { IsRest rest.now }
    ensures text { IfOk result (IsCarryingText command.now known.entry rest.now payload.now) }
    // A frame is refused for its size alone.
    ensures fault { IfErr result (IsCarryingFault command.now known.entry rest.now payload.now) }
{
    let command = command.write(alloc)?;
    let meta = known.write_with(alloc, rest)?;
    write_parts(
        alloc,
        FrameParts {
            command: command.as_slice(),
            body: Some(BodyParts {
                meta: meta.as_slice(),
                payload,
            }),
        },
    )
}

/// The text of parts, each after its size.
fn write_parts(alloc: Global, parts: FrameParts<'_>) -> Result<Blob, FrameFault>
    ensures ok { IfOk result (λ bytes. bytes ≡ layout_text (layout parts.entry)) }
    ensures fits { OnOk result (Fits (layout parts.entry)) }
    ensures err { IfErr result (IsTooLarge (length (content_text (layout parts.entry)))) }
    // Memory is wanting only for what is within the limit.
    ensures memory { IsErrOf result FrameFault.Memory → length (content_text (layout parts.entry)) ≤ frame_limit }
{
    let total = total_size(parts);
    if total > FRAME_BYTES {
        return Err(FrameFault::TooLarge { size: total });
    }
    Ok(join(alloc, total, parts)?)
}

/// How many bytes follow the total size; more than 64 bits, which are in no memory, count as the greatest number of 64.
fn total_size(parts: FrameParts<'_>) -> u64
    ensures { result ≡ counted (length (content_text (layout parts.entry))) }
{
    let command = 4 + parts.command.len() as u64;
    match parts.body {
        None => command,
        Some(body) => {
            let framed = command.saturating_add(4 + body.meta.len() as u64);
            framed.saturating_add(body.payload.len() as u64)
        }
    }
}

/// The parts one after another, after the total size.
fn join(alloc: Global, total: u64, parts: FrameParts<'_>) -> Result<Blob, Memory>
    requires total { total ≡ length (content_text (layout parts)) }
    requires fits { total ≤ frame_limit }
    ensures { IfOk result (λ bytes. bytes ≡ layout_text (layout parts.entry)) }
{
    let mut out = Blob::from_vec(Vec::with_capacity(alloc, SIZE_BYTES + total as usize)?);
    append_size(&mut out, total)?;
    append_sized(&mut out, parts.command)?;
    match parts.body {
        None => Ok(out),
        Some(body) => {
            append_sized(&mut out, body.meta)?;
            out.append(body.payload)?;
            Ok(out)
        }
    }
}

/// Appends a size, four bytes, the greatest first.
#[tactic(auto, unfolding(crate::specs::Layout::size))]
fn append_size(out: &mut Blob, bytes: u64) -> Result<(), Memory>
    requires { bytes < 2 ^ 32 }
    ensures { OnOk result (out.new ≡ out.old ++ size bytes) }
{
    out.append(&(bytes as u32).to_be_bytes())
}

fn append_sized(out: &mut Blob, bytes: &[u8]) -> Result<(), Memory>
    requires { length bytes.now < 2 ^ 32 }
    ensures { OnOk result (out.new ≡ out.old ++ sized bytes.now) }
{
    append_size(out, bytes.len() as u64)?;
    out.append(bytes)
}
