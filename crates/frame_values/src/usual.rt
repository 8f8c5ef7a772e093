//! Frames of the usual form as values of the machine, and entries as messages of the usual form. Most frames are such, and are
//! neither read field by field nor written in parts.

ghost use Rattle.std.specs.Prelude.{◌≡◌, ◌≤◌, [], length, true, IfOk, IfSome};
ghost use Rattle.std.specs.Option.{option_copied, option_map};
ghost use Rattle.message_meta.specs.Known.{IsRest};
ghost use Rattle.pulsar_commands.specs.Parts.{kind_of};
ghost use Rattle.pulsar_commands.specs.Usual.{command_viewed};
ghost use Rattle.pulsar_frames.specs.Frames.{carries};
ghost use Rattle.pulsar_frames.specs.Usual.{frame_viewed, message_viewed};
ghost use Rattle.frame_values.specs.Coded.{IsCarriedText};
ghost use Rattle.frame_values.specs.Texts.{body_of, unread_bytes};
ghost use Rattle.frame_values.specs.Usual.{entry_viewed, is_usual};
ghost use Rattle.frame_values.specs.Values.{IsEntryOf, SaysValue, carrying, place_of, simple_frame};

use crate::entry::{Carried, source_name};
use crate::place::number_of;
use geo_base::limits::CLUSTERS;
use geo_base::{
    Blob, ClusterName, ClusterRef, Content, Entry, Frame, Ident, Memory, Metadata, ProducerName,
    Targets, Text, optional_text,
};
use message_meta::MetaView;
use pulsar_commands::CommandView;
use pulsar_frames::{FrameView, MessageView, write_usual_message};
use std::alloc::Global;

/// The value that a frame of the usual form stands for.
#[tactic(auto, using(crate::proofs::Entries::carrying_rest, crate::proofs::UsualValues::viewed_carries, crate::proofs::UsualValues::viewed_simple))]
pub(crate) fn usual_value(
    alloc: Global,
    names: &[ClusterName],
    view: FrameView<'_>,
) -> Result<Frame, Memory>
    requires { length names.now ≤ CLUSTERS }
    ensures value { IfOk result (SaysValue names.now (frame_viewed view.entry)) }
    ensures rest { IfOk result (λ f. IsRest (unread_bytes f)) }
{
    match view.message {
        None => Ok(simple_value(view.command)),
        Some(message) => {
            let Carried { source, entry } = usual_entry(alloc, names, message)?;
            Ok(carrying_value(view.command, source, entry))
        }
    }
}

/// What a command without a message says.
#[tactic(auto, using(crate::proofs::Entries::no_rest))]
fn simple_value(command: CommandView) -> Frame
    ensures value { result ≡ simple_frame (command_viewed command) }
    ensures rest { IsRest (unread_bytes result) }
{
    match command {
        CommandView::SendReceipt {
            producer_id,
            sequence_id,
            message_id,
        } => Frame::SendReceipt {
            id: producer_id,
            seq: sequence_id,
            position: Some(message_id),
        },
        CommandView::Send { .. } | CommandView::Message { .. } => Frame::Unreadable,
    }
}

/// What a command with a message says.
fn carrying_value(command: CommandView, source: Option<ClusterRef>, entry: Entry) -> Frame
    ensures { result ≡ carrying (command_viewed command) source entry }
{
    match command {
        CommandView::Send {
            producer_id,
            sequence_id,
            ..
        } => Frame::Send {
            id: producer_id,
            seq: sequence_id,
            source,
            entry,
        },
        CommandView::Message {
            consumer_id,
            message_id,
        } => Frame::Message {
            id: consumer_id,
            position: message_id,
            source,
            entry,
        },
        CommandView::SendReceipt { .. } => Frame::Unreadable,
    }
}

/// The entry that a message is, and where it says that it was stored first.
fn usual_entry(
    alloc: Global,
    names: &[ClusterName],
    message: MessageView<'_>,
) -> Result<Carried, Memory>
    requires { length names.now ≤ CLUSTERS }
    ensures is { IfOk result (λ c. IsEntryOf names.now (message_viewed message.entry) c.source c.entry) }
    ensures rest { IfOk result (λ c. IsRest c.entry.meta.rest) }
{
    let source = place_named(alloc, names, message.meta.replicated_from)?;
    let entry = entry_of_message(alloc, 0, message)?;
    Ok(Carried { source, entry })
}

/// The entry that a message of the usual form is, where a cluster stored it first.
pub fn entry_of_message(
    alloc: Global,
    origin: u32,
    message: MessageView<'_>,
) -> Result<Entry, Memory>
    ensures { IfOk result (λ e. e ≡ entry_viewed origin message.entry) }
{
    let MessageView { meta, payload } = message;
    let producer = ProducerName::any(alloc, meta.producer)?;
    match optional_text(alloc, meta.key) {
        Ok(key) => match Blob::from_slice(alloc, payload) {
            Ok(payload) => Ok(Entry {
                ident: Ident {
                    origin,
                    producer,
                    seq: meta.seq,
                },
                content: Content::Data,
                to: Targets::All,
                meta: Metadata::usual(meta.publish_time, key),
                payload,
            }),
            Err(why) => {
                drop(producer);
                drop(key);
                Err(why)
            }
        },
        Err(why) => {
            drop(producer);
            Err(why)
        }
    }
}

/// The cluster that a name names, or a copy of the name, where it names none.
fn place_named(
    alloc: Global,
    names: &[ClusterName],
    name: Option<&str>,
) -> Result<Option<ClusterRef>, Memory>
    requires { length names.now ≤ CLUSTERS }
    ensures { IfOk result (λ place. place ≡ option_map (place_of names.now) (option_copied name.entry)) }
{
    let Some(name) = name else {
        return Ok(None);
    };
    match number_of(names, 0, name.as_bytes()) {
        Some(number) => Ok(Some(ClusterRef::Known(number))),
        None => Ok(Some(ClusterRef::Stranger(Text::from_str(alloc, name)?))),
    }
}

/// The text of a frame of a command with an entry, where it has the usual form; None says nothing of them.
pub(crate) fn usual_text(
    alloc: Global,
    names: &[ClusterName],
    command: CommandView,
    source: &Option<ClusterRef>,
    entry: &Entry,
) -> Result<Option<Blob>, Memory>
    requires { carries (kind_of (command_viewed command)) ≡ true }
    ensures { IfOk result (λ text. IfSome text (IsCarriedText names.now (command_viewed command) source.now entry.now)) }
{
    if is_usual(entry) {
        write_usual_message(alloc, command, message_of(names, source, entry))
    } else {
        Ok(None)
    }
}

/// An entry of the usual form as a message, each part where it stands.
#[tactic(auto, using(crate::proofs::UsualValues::message_is))]
fn message_of<'a>(
    names: &'a [ClusterName],
    source: &'a Option<ClusterRef>,
    entry: &'a Entry,
) -> MessageView<'a>
    requires { is_usual entry.now ≡ true }
    ensures { message_viewed result ≡ body_of names.entry.now source.entry.now entry.entry.now [] }
{
    MessageView {
        meta: MetaView {
            producer: entry.ident.producer.as_str(),
            seq: entry.ident.seq,
            publish_time: entry.meta.publish_time(),
            replicated_from: source_name(names, source),
            key: key_of(entry.meta.key()),
        },
        payload: entry.payload.as_slice(),
    }
}

fn key_of(key: &Option<Text>) -> Option<&str>
    ensures { option_copied result ≡ key.entry.now }
{
    match key {
        None => None,
        Some(key) => Some(key.as_str()),
    }
}

/// Whether an entry is a message to all clusters, with no field that nobody reads.
fn is_usual(entry: &Entry) -> bool
    ensures { result ≡ is_usual entry.now }
{
    match &entry.content {
        Content::Data => entry.meta.names().is_empty() && entry.meta.rest().is_empty(),
        _ => false,
    }
}
