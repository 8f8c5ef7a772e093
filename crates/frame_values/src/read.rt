//! Reading the value that bytes stand for.
ghost use Rattle.std.specs.Prelude.{◌≡◌, ◌≤◌, length, IfOk};
ghost use Rattle.message_meta.specs.Known.{IsRest};
ghost use Rattle.frame_values.specs.Standing.{Reads};
ghost use Rattle.frame_values.specs.Texts.{unread_bytes};
ghost use Rattle.frame_values.specs.Values.{SaysValue, carrying};

use crate::command::simple_frame;
use crate::entry::{Carried, entry_of};
use crate::usual::usual_value;
use geo_base::limits::CLUSTERS;
use geo_base::{ClusterName, ClusterRef, Entry, Frame, Memory};
use pulsar_commands::Command;
use pulsar_frames::{Frame as WireFrame, read_frame, usual_frame};
use std::alloc::Global;

/// The value that the bytes stand for: that of the frame that they are a text of, and `Unreadable` exactly where they are
/// a text of none. `names` are those of the clusters, by their numbers. What the machine does not ask of a command is not
/// kept; the cluster that stored an entry first does not stand in the bytes, and is 0 here.
pub fn read_value(alloc: Global, names: &[ClusterName], bytes: &[u8]) -> Result<Frame, Memory>
    requires { length names.now ≤ CLUSTERS }
    ensures value { IfOk result (Reads names.now bytes.now) }
    // The bytes that an entry keeps of fields that nobody reads are their canonical text, so that it can be written again.
    ensures rest { IfOk result (λ f. IsRest (unread_bytes f)) }
{
    match usual_frame(bytes) {
        Some(view) => usual_value(alloc, names, view),
        None => any_value(alloc, names, bytes),
    }
}

/// The same, by all parts of the frame.
#[tactic(auto, using(crate::proofs::Entries::no_rest))]
fn any_value(alloc: Global, names: &[ClusterName], bytes: &[u8]) -> Result<Frame, Memory>
    requires { length names.now ≤ CLUSTERS }
    ensures value { IfOk result (Reads names.now bytes.now) }
    ensures rest { IfOk result (λ f. IsRest (unread_bytes f)) }
{
    match read_frame(alloc, bytes)? {
        None => Ok(Frame::Unreadable),
        Some(frame) => value_of(alloc, names, frame),
    }
}

/// The value that a frame stands for.
fn value_of(alloc: Global, names: &[ClusterName], frame: WireFrame) -> Result<Frame, Memory>
    requires { length names.now ≤ CLUSTERS }
    ensures value { IfOk result (SaysValue names.now frame) }
    ensures rest { IfOk result (λ f. IsRest (unread_bytes f)) }
{
    let WireFrame { command, body } = frame;
    match body {
        None => Ok(simple_frame(command)),
        Some(body) => match entry_of(alloc, names, body) {
            Ok(Carried { source, entry }) => Ok(carrying(command, source, entry)),
            Err(why) => {
                drop(command);
                Err(why)
            }
        },
    }
}

/// A command with the message that it carries.
fn carrying(command: Command, source: Option<ClusterRef>, entry: Entry) -> Frame
    ensures { result ≡ carrying command source entry }
{
    match command {
        Command::Send {
            producer_id,
            sequence_id,
            ..
        } => Frame::Send {
            id: producer_id,
            seq: sequence_id,
            source,
            entry,
        },
        Command::Message {
            consumer_id,
            message_id,
        } => Frame::Message {
            id: consumer_id,
            position: message_id,
            source,
            entry,
        },
        other => {
            drop(other);
            unreadable(source, entry)
        }
    }
}

/// No frame of the machine: the message is let go.
fn unreadable(_source: Option<ClusterRef>, _entry: Entry) -> Frame
    ensures { result ≡ Frame.Unreadable }
{
    Frame::Unreadable
}
