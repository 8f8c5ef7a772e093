//! Frames of the usual form, written in one pass into one piece of memory of their size.

ghost use Rattle.std.specs.Prelude.{◌≡◌, ◌+◌, ◌<◌, ◌≤◌, ◌^◌, ◌++◌, length, true, false, IfOk, IfSome};
ghost use Rattle.pb_fields.specs.Buffer.{Puts};
ghost use Rattle.pulsar_commands.specs.Parts.{kind_of};
ghost use Rattle.pulsar_commands.specs.Usual.{command_viewed};
ghost use Rattle.pulsar_frames.specs.Frames.{carries};
ghost use Rattle.pulsar_frames.specs.Layout.{size};
ghost use Rattle.pulsar_frames.specs.Usual.{IsUsualText, acking_viewed, bare_viewed, carrying_viewed};

use crate::layout::SIZE_BYTES;
use crate::view::MessageView;
use geo_base::limits::{ACKED_AT_ONCE, FRAME_BYTES};
use geo_base::{Blob, Memory};
use pb_fields::Buffer;
use pulsar_commands::{AckView, CommandView};
use std::alloc::Global;

/// The canonical text of a frame of a command that carries no message; `Memory` where there is no room for it.
pub fn write_usual_command(alloc: Global, command: CommandView) -> Result<Blob, Memory>
    requires { carries (kind_of (command_viewed command)) ≡ false }
    ensures { IfOk result (IsUsualText (bare_viewed command)) }
{
    let size = command.size();
    let mut out = begun(alloc, SIZE_BYTES + size, size)?;
    command.put(&mut out, size);
    Ok(out.into_blob())
}

/// The canonical text of a frame of an ACK; `Memory` where there is no room for it.
pub fn write_usual_ack(alloc: Global, ack: AckView<'_>) -> Result<Blob, Memory>
    requires { length ack.message_id.now ≤ ACKED_AT_ONCE }
    ensures { IfOk result (IsUsualText (acking_viewed ack.entry)) }
{
    let body = ack.body_size();
    let size = ack.size(body);
    let mut out = begun(alloc, SIZE_BYTES + size, size)?;
    ack.put(&mut out, body);
    Ok(out.into_blob())
}

/// The canonical text of a frame of a command with the message that it carries. `None` where the frame passes the limit on frames,
/// or one of the texts in its metadata is not shorter than `pb_fields::SHORT`; `Memory` where there is no room for it.
pub fn write_usual_message(
    alloc: Global,
    command: CommandView,
    message: MessageView<'_>,
) -> Result<Option<Blob>, Memory>
    requires { carries (kind_of (command_viewed command)) ≡ true }
    ensures { IfOk result (λ text. IfSome text (IsUsualText (carrying_viewed command message.entry))) }
{
    let Some(meta) = message.meta.size() else {
        return Ok(None);
    };
    let size = command.size();
    let total = 2 * SIZE_BYTES + size + meta + message.payload.len();
    if total as u64 > FRAME_BYTES {
        return Ok(None);
    }
    let mut out = begun(alloc, total, size)?;
    command.put(&mut out, size);
    put_size(&mut out, meta);
    message.meta.put(&mut out);
    out.put(message.payload);
    Ok(Some(out.into_blob()))
}

/// The two sizes that a frame begins with, in memory for the whole of it.
fn begun(alloc: Global, total: usize, command: usize) -> Result<Buffer, Memory>
    requires total { total < 2 ^ 32 }
    requires command { command < 2 ^ 32 }
    requires room { 4 ≤ total }
    ensures text { IfOk result (λ out. out.bytes ≡ size total ++ size command) }
    ensures spare { IfOk result (λ out. total ≤ out.spare + 4) }
{
    let mut out = Buffer::with_capacity(alloc, SIZE_BYTES + total)?;
    put_size(&mut out, total);
    put_size(&mut out, command);
    Ok(out)
}

/// Puts a size, four bytes, the greatest first.
#[tactic(auto, unfolding(crate::specs::Layout::size))]
fn put_size(out: &mut Buffer, bytes: usize)
    requires size { bytes < 2 ^ 32 }
    requires room { 4 ≤ out.old.spare }
    ensures { Puts out.old (size bytes) out.new }
{
    out.put(&(bytes as u32).to_be_bytes());
}
