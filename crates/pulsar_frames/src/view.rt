//! Frames of the usual form, looked at in their place: of the usual commands, and with metadata of the usual form where one carries
//! a message. Most frames are such; the others are read part by part.

ghost use Rattle.std.specs.Prelude.{◌≡◌, [], IfSome};
ghost use Rattle.message_meta.specs.Metadata.{IsMetaText};
ghost use Rattle.message_meta.specs.Usual.{meta_viewed};
ghost use Rattle.pulsar_frames.specs.Frames.{IsFrameText};
ghost use Rattle.pulsar_frames.specs.Layout.{TakesLayout};
ghost use Rattle.pulsar_frames.specs.Usual.{frame_viewed};
ghost use Rattle.pulsar_frames.specs.Viewed.{layout};

use crate::layout::{BodyParts, FrameParts, parts_at};
use crate::read::carries;
use message_meta::{MetaView, usual_meta};
use pulsar_commands::{CommandView, usual_command};

/// A frame of the usual form, each part where it stands. It takes no memory.
#[derive(Clone, Copy)]
pub struct FrameView<'a> {
    /// The command.
    pub command: CommandView,
    /// The message, where the command carries one.
    pub message: Option<MessageView<'a>>,
}

/// A message in a frame of the usual form.
#[derive(Clone, Copy)]
pub struct MessageView<'a> {
    /// Its metadata.
    pub meta: MetaView<'a>,
    /// Its payload, as it came.
    pub payload: &'a [u8],
}

/// The frame that the bytes are a text of, where they have the usual form; None says nothing of the bytes.
#[tactic(auto, using(crate::proofs::UsualFrames::bare_is, crate::proofs::UsualFrames::carrying_is))]
pub fn usual_frame(bytes: &[u8]) -> Option<FrameView<'_>>
    ensures { IfSome result (λ v. IsFrameText bytes.now (frame_viewed v)) }
{
    let parts = whole_parts(bytes)?;
    let command = usual_command(parts.command)?;
    if carries(command.kind()) {
        let body = parts.body?;
        let message = usual_message(body)?;
        Some(FrameView {
            command,
            message: Some(message),
        })
    } else {
        match parts.body {
            None => Some(FrameView {
                command,
                message: None,
            }),
            Some(_) => None,
        }
    }
}

/// The message that follows a command.
fn usual_message(parts: BodyParts<'_>) -> Option<MessageView<'_>>
    ensures meta { IfSome result (λ m. IsMetaText parts.entry.meta.now (meta_viewed m.meta)) }
    ensures payload { IfSome result (λ m. m.payload.now ≡ parts.entry.payload.now) }
{
    let meta = usual_meta(parts.meta)?;
    Some(MessageView {
        meta,
        payload: parts.payload,
    })
}

/// The parts of the frame that the bytes are as far as sizes go, with nothing after it.
#[tactic(auto, using(crate::proofs::UsualFrames::whole_layout))]
fn whole_parts(bytes: &[u8]) -> Option<FrameParts<'_>>
    ensures { IfSome result (λ parts. TakesLayout bytes.now (layout parts) []) }
{
    match parts_at(bytes) {
        Ok(Some((parts, rest))) => { if rest.is_empty() { Some(parts) } else { None } }
        Ok(None) => None,
        Err(_) => None,
    }
}
