//! Frames as far as their sizes go.

ghost use Rattle.std.specs.Prelude.{◌≡◌, ◌≢◌, ◌<◌, ◌≤◌, ◌^◌, ◌++◌, [], length, MatchOption, IfOk, IfErr, IsTrue, ◌↔◌};
ghost use Rattle.pulsar_frames.specs.Layout.{size, sized, content_text, TakesLayout, IsUnfinished, IsCut, HasChecksum, BrokenContent, BrokenLayout};
ghost use Rattle.pulsar_frames.specs.Viewed.{layout};

use crate::fault::FrameFault;
use geo_base::limits::FRAME_BYTES;

/// What precedes a checksum (Pulsar binary protocol, "Payload commands").
const CHECKSUM: [u8; 2] = [0x0e, 0x01];

/// Bytes of a size (Pulsar binary protocol, "Framing").
pub(crate) const SIZE_BYTES: usize = 4;

/// The parts of a frame.
#[derive(Clone, Copy)]
pub(crate) struct FrameParts<'a> {
    pub command: &'a [u8],
    /// What follows the command, if anything does.
    pub body: Option<BodyParts<'a>>,
}

/// What follows the command in a payload frame.
#[derive(Clone, Copy)]
pub(crate) struct BodyParts<'a> {
    pub meta: &'a [u8],
    pub payload: &'a [u8],
}

/// The size in the first four bytes, and the bytes after them.
fn size_at(bytes: &[u8]) -> Option<(u32, &[u8])>
    ensures { MatchOption result (length bytes.now < 4) (λ x. (x.0 < 2 ^ 32) × (bytes.now ≡ size x.0 ++ x.1.now)) }
{
    let Some((front, after)) = bytes.split_first_chunk::<4>() else {
        return None;
    };
    Some((u32::from_be_bytes(*front), after))
}

/// The bytes that the size in front of them counts, and those after them.
fn sized_at(bytes: &[u8]) -> Option<(&[u8], &[u8])>
    ensures { MatchOption result (IsCut bytes.now) (λ x. bytes.now ≡ sized x.0.now ++ x.1.now) }
{
    let Some((count, after)) = size_at(bytes) else {
        return None;
    };
    if count as usize > after.len() {
        return None;
    }
    Some(after.split_at(count as usize))
}

/// Whether a checksum stands at the front.
fn has_checksum(after: &[u8]) -> bool
    ensures { IsTrue result ↔ HasChecksum after.now }
{
    after.starts_with(&CHECKSUM)
}

/// The parts of what the total size counts.
fn parts_of(content: &[u8]) -> Result<FrameParts<'_>, FrameFault>
    ensures ok { IfOk result (λ p. content.now ≡ content_text (layout p)) }
    ensures err { IfErr result (BrokenContent content.now) }
{
    let Some((command, after)) = sized_at(content) else {
        return Err(FrameFault::Sizes);
    };
    if after.is_empty() {
        return Ok(FrameParts {
            command,
            body: None,
        });
    }
    if has_checksum(after) {
        return Err(FrameFault::Checksum);
    }
    let Some((meta, payload)) = sized_at(after) else {
        return Err(FrameFault::Sizes);
    };
    Ok(FrameParts {
        command,
        body: Some(BodyParts { meta, payload }),
    })
}

/// The parts of the frame at the front of the bytes, and the bytes after it, where the whole of it is there.
pub(crate) fn parts_at(bytes: &[u8]) -> Result<Option<(FrameParts<'_>, &[u8])>, FrameFault>
    ensures ok { IfOk result (λ o. MatchOption o (IsUnfinished bytes.now) (λ x. TakesLayout bytes.now (layout x.0) x.1.now)) }
    ensures err { IfErr result (BrokenLayout bytes.now) }
{
    let Some((size, after)) = size_at(bytes) else {
        return Ok(None);
    };
    let total = u64::from(size);
    if total > FRAME_BYTES {
        return Err(FrameFault::TooLarge { size: total });
    }
    if size as usize > after.len() {
        return Ok(None);
    }
    let (content, rest) = after.split_at(size as usize);
    match parts_of(content) {
        Ok(parts) => Ok(Some((parts, rest))),
        Err(why) => Err(why),
    }
}
