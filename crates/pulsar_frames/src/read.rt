//! Reading frames.

ghost use Rattle.std.specs.Prelude.{◌≡◌, ◌≤◌, length, drop, MatchOption, IfOk, IfErr};
ghost use Rattle.pulsar_frames.specs.Layout.{IsUnfinished};
ghost use Rattle.pulsar_frames.specs.Viewed.{layout, body_layout};
ghost use Rattle.pulsar_frames.specs.declared.frame.Frame.{Frame};
ghost use Rattle.pulsar_frames.specs.Frames.{carries, IsFrameText, MeansBody, MeansFrame, TakesFrame, WrongFrame, HasFault, IsFaultOrMemory, WrongBody};
ghost use Rattle.message_meta.specs.Metadata.{IsMetaText};
ghost use Rattle.std.specs.List.{AllByRecursion};
ghost use Rattle.pulsar_frames.specs.Canonical.{IsComplete};
ghost use Rattle.pulsar_frames.specs.Streams.{IsStream};
ghost use Rattle.pulsar_commands.specs.Parts.{kind_of};

use crate::fault::FrameFault;
use crate::frame::{Body, Frame};
use crate::layout::{BodyParts, FrameParts, parts_at};
use crate::queue::Queue;
use geo_base::{Blob, Memory};
use message_meta::Meta;
use pulsar_commands::{Command, Kind};
use std::alloc::Global;

/// Whether the command carries a message.
pub fn carries_message(command: &Command) -> bool
    ensures { result ≡ carries (kind_of command.now) }
{
    carries(command.kind())
}

/// Whether commands of a type carry a message.
pub(crate) fn carries(kind: Kind) -> bool
    ensures { result ≡ carries kind }
{
    matches!(kind, Kind::Send | Kind::Message)
}

/// What the parts of a frame say.
fn frame_of(alloc: Global, parts: FrameParts<'_>) -> Result<Frame, FrameFault>
    ensures ok { IfOk result (MeansFrame (layout parts.entry)) }
    ensures err { IfErr result (IsFaultOrMemory (WrongFrame (layout parts.entry))) }
{
    let command = Command::read(alloc, parts.command)?;
    if parts.body.is_some() != carries_message(&command) {
        drop(command);
        return Err(FrameFault::Sizes);
    }
    match parts.body {
        None => Ok(Frame {
            command,
            body: None,
        }),
        Some(body) => match body_of(alloc, body) {
            Ok(body) => Ok(Frame {
                command,
                body: Some(body),
            }),
            Err(why) => {
                drop(command);
                Err(why)
            }
        },
    }
}

/// What the parts of a message say.
fn body_of(alloc: Global, parts: BodyParts<'_>) -> Result<Body, FrameFault>
    ensures ok { IfOk result (λ b. IsMetaText parts.entry.meta.now b.meta × (b.payload ≡ parts.entry.payload.now)) }
    ensures err { IfErr result (WrongBody parts.entry.meta.now) }
{
    let meta = Meta::read(alloc, parts.meta)?;
    let Ok(payload) = Blob::from_slice(alloc, parts.payload) else {
        drop(meta);
        return Err(FrameFault::Memory);
    };
    Ok(Body { meta, payload })
}

/// The frame at the front of the bytes, and the bytes after it, where the whole of it is there.
fn frame_at(alloc: Global, bytes: &[u8]) -> Result<Option<(Frame, &[u8])>, FrameFault>
    ensures ok { IfOk result (λ o. MatchOption o (IsUnfinished bytes.now) (λ x. TakesFrame bytes.now x.0 x.1.now)) }
    ensures err { IfErr result (IsFaultOrMemory (HasFault bytes.now)) }
{
    match parts_at(bytes)? {
        None => Ok(None),
        Some((parts, rest)) => match frame_of(alloc, parts) {
            Ok(frame) => Ok(Some((frame, rest))),
            Err(why) => Err(why),
        },
    }
}

/// The frame that the bytes are a text of; None exactly where they are a text of none. They are read once, and nothing is
/// kept of them beside the frame.
pub fn read_frame(alloc: Global, bytes: &[u8]) -> Result<Option<Frame>, Memory>
    ensures { IfOk result (λ o. MatchOption o ((f : Frame) → IsFrameText bytes.now f → ⊥) (IsFrameText bytes.now)) }
{
    match frame_at(alloc, bytes) {
        Ok(Some((frame, rest))) => {
            if rest.is_empty() {
                Ok(Some(frame))
            } else {
                drop(frame);
                Ok(None)
            }
        }
        Ok(None) => Ok(None),
        Err(why) => match why {
            FrameFault::Memory => Err(Memory),
            _ => Ok(None),
        },
    }
}

/// The frames of bytes, how many bytes they take, and why what follows them is refused, if it is.
pub(crate) struct Parsed {
    pub frames: Queue<Frame>,
    pub used: usize,
    pub fault: Option<FrameFault>,
}

/// The frames at the front of the bytes, as many as are whole.
pub(crate) fn parse(alloc: Global, bytes: &[u8]) -> Result<Parsed, Memory>
    ensures used { IfOk result (λ p. p.used ≤ length bytes.now) }
    ensures complete { IfOk result (λ p. AllByRecursion IsComplete p.frames) }
    ensures stream { IfOk result (λ p. IsStream bytes.now p.frames (drop p.used bytes.now) p.fault) }
{
    let mut frames = Queue::new(alloc);
    let mut rest = bytes;
    'each: loop {
        match frame_at(alloc, rest) {
            Ok(Some((frame, after))) => {
                let Ok(()) = frames.push(frame) else {
                    drop(frames);
                    return Err(Memory);
                };
                rest = after;
            }
            Ok(None) => return Ok(up_to_rest(bytes, frames, rest, None)),
            Err(why) => match why {
                FrameFault::Memory => {
                    drop(frames);
                    return Err(Memory);
                }
                _ => return Ok(up_to_rest(bytes, frames, rest, Some(why))),
            },
        }
    }
}

/// What was parsed, where no frame begins the rest.
fn up_to_rest(bytes: &[u8], frames: Queue<Frame>, rest: &[u8], fault: Option<FrameFault>) -> Parsed
    requires { IsStream bytes.now frames rest.now fault }
    ensures used { result.used ≤ length bytes.now }
    ensures complete { AllByRecursion IsComplete result.frames }
    ensures stream { IsStream bytes.now result.frames (drop result.used bytes.now) result.fault }
{
    Parsed {
        frames,
        used: bytes.len() - rest.len(),
        fault,
    }
}
