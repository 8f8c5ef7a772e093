//! The frames that a client sends for its lines.
ghost use Rattle.std.specs.Prelude.{◌≡◌, ◌≤◌, [], ◌++◌, true, length, Some, None, IfOk, IfSome, OnOk};
ghost use Rattle.std.specs.Option.{option_copied};
ghost use Rattle.geo_base.specs.declared.frame.Frame.TheVariants as frame;
ghost use Rattle.geo_base.specs.Client.{command, id_of, published, target_names};
ghost use Rattle.geo_base.specs.Message.{is_message};
ghost use Rattle.geo_base.specs.Scripted.{is_optional_name};
ghost use Rattle.geo_base.specs.Setup.{topic_name};
ghost use Rattle.frame_values.specs.Fitting.{IsShort};
ghost use Rattle.pulsar_frames.specs.Usual.{message_viewed};
ghost use Rattle.frame_values.specs.Coded.{IsWritten};
ghost use Rattle.client.specs.Site.{is_short_line};
ghost use Rattle.client.specs.Usual.{message_published};
ghost use Rattle.client.specs.Changing.{as_connected};

use crate::client::Client;
use crate::client::outgoing::{ClientOut, Connection, add};
use crate::site::ClientSite;
use geo_base::limits::{CLUSTERS, TEXT_BYTES};
use geo_base::{
    Blob, ClusterName, Content, Entry, Frame, Ident, Line, Memory, Metadata, Sequence, Targets,
    Text, optional_text_copy,
};
use message_meta::MetaView;
use pulsar_commands::CommandView;
use pulsar_frames::{MessageView, write_usual_message};
use std::alloc::Global;

/// What a `pub` line says, where it stands.
#[derive(Clone, Copy)]
pub struct PubLine<'a> {
    seq: u64,
    to: Targets,
    key: &'a Option<Text>,
    text: &'a Blob,
}

impl<'a> PubLine<'a> {
    pub(super) fn new(seq: u64, to: Targets, key: &'a Option<Text>, text: &'a Blob) -> PubLine<'a>
        ensures seq { result.seq ≡ seq }
        ensures to { result.to ≡ to }
        ensures key { result.key.now ≡ key.now }
        ensures text { result.text.now ≡ text.now }
    {
        PubLine { seq, to, key, text }
    }
}

impl Client {
    /// Adds what is sent on a connection for a line that is in force or unanswered; other lines are sent once. A line's index is
    /// its request id.
    #[tactic(auto, using(crate::proofs::Published::key_is_name, crate::proofs::Published::text_is_short))]
    pub(super) fn add_command(
        &self,
        alloc: Global,
        site: &ClientSite,
        connection: Connection,
        index: usize,
        line: &Line,
        sent: &mut Vec<ClientOut>,
    ) -> Result<(), Memory>
        requires { is_short_line line.now ≡ true }
        ensures { OnOk result (sent.new.items ≡ sent.old.items ++ command site.now.setup site.now.declared (as_connected connection self.now) index (Some line.now)) }
    {
        let frame = match line {
            Line::Produce => {
                let (topic, name) = site_names(alloc, site)?;
                Frame::Producer {
                    topic,
                    id: index as u64,
                    request: index as u64,
                    name: Some(name),
                }
            }
            Line::Pub { seq, to, key, text } => Frame::Send {
                id: id_of(self.produce),
                seq: *seq,
                source: None,
                entry: self.published(alloc, site, connection, PubLine::new(*seq, *to, key, text))?,
            },
            Line::Sub {
                sub,
                kind,
                earliest,
                replicated,
            } => {
                let sub = sub.copy(alloc)?;
                let (topic, name) = site_names(alloc, site)?;
                Frame::Subscribe {
                    topic,
                    sub,
                    kind: *kind,
                    id: index as u64,
                    request: index as u64,
                    consumer: Some(name),
                    earliest: *earliest,
                    replicated: *replicated,
                }
            }
            Line::Flow { permits } => Frame::Flow {
                id: id_of(self.sub),
                permits: *permits as u64,
            },
            // the others are sent once
            _ => return Ok(()),
        };
        add(sent, connection.to_broker(frame))
    }

    /// The SEND that a `pub` line publishes, written from where the line's parts stand; None where it is not for all clusters or has
    /// not the usual form.
    #[tactic(auto, using(crate::proofs::Publishing::written_publish))]
    pub(super) fn publish_text(
        &self,
        alloc: Global,
        site: &ClientSite,
        line: PubLine<'_>,
    ) -> Result<Option<Blob>, Memory>
        ensures { IfOk result (λ text. IfSome text (IsWritten site.now.setup.clusters (frame.Send (id_of self.now.produce) line.entry.seq None (published site.now.setup site.now.declared self.now line.entry.seq line.entry.to line.entry.key.now line.entry.text.now)))) }
    {
        match line.to {
            Targets::All => {
                let command = CommandView::Send {
                    producer_id: id_of(self.produce),
                    sequence_id: line.seq,
                    num_messages: 1,
                };
                write_usual_message(alloc, command, message_of(site, line))
            }
            Targets::Only(_) => Ok(None),
        }
    }

    /// The message that a `pub` line publishes on a connection.
    fn published(
        &self,
        alloc: Global,
        site: &ClientSite,
        connection: Connection,
        line: PubLine<'_>,
    ) -> Result<Entry, Memory>
        requires key { is_optional_name line.key.now ≡ true }
        requires text { length line.text.now ≤ TEXT_BYTES }
        ensures entry { IfOk result (λ e. e ≡ published site.now.setup site.now.declared (as_connected connection self.now) line.entry.seq line.entry.to line.entry.key.now line.entry.text.now) }
        ensures message { IfOk result (λ e. is_message e ≡ true) }
    {
        let payload = line.text.copy(alloc)?;
        let producer = site.name().copy(alloc)?;
        let meta = published_meta(alloc, site.clusters(), line)?;
        Ok(Entry {
            ident: Ident {
                origin: connection.cluster,
                producer,
                seq: line.seq,
            },
            content: Content::Data,
            to: line.to,
            meta,
            payload,
        })
    }
}

/// The names of the client's topic and of the client.
fn site_names(alloc: Global, site: &ClientSite) -> Result<(Text, Text), Memory>
    ensures topic { IfOk result (λ names. names.0 ≡ topic_name site.now.setup site.now.declared.topic) }
    ensures name { IfOk result (λ names. names.1 ≡ site.now.declared.name) }
    ensures short { IfOk result (λ names. IsShort names.0 × IsShort names.1) }
{
    let topic = Text::from_str(alloc, site.topic_name())?;
    let name = Text::from_str(alloc, site.name().as_str())?;
    Ok((topic, name))
}

/// The metadata of the message that a `pub` line publishes.
fn published_meta(
    alloc: Global,
    clusters: &[ClusterName],
    line: PubLine<'_>,
) -> Result<Metadata, Memory>
    requires { length clusters.now ≤ CLUSTERS }
    ensures { IfOk result (λ m. m ≡ record { publish_time = 0; key = line.entry.key.now; names = target_names 0 line.entry.to clusters.now; rest = [] }) }
{
    let key = optional_text_copy(alloc, line.key)?;
    let names = target_names(alloc, clusters, line.to)?;
    let meta = Metadata::new(alloc, 0, key, names, Blob::new(alloc))?;
    Ok(meta)
}

/// The message of a `pub` line for all clusters, each part where it stands.
fn message_of<'a>(site: &'a ClientSite, line: PubLine<'a>) -> MessageView<'a>
    ensures { message_viewed result ≡ message_published site.now.declared line.entry.seq line.entry.key.now line.entry.text.now }
{
    MessageView {
        meta: MetaView {
            producer: site.name().as_str(),
            seq: line.seq,
            publish_time: 0,
            replicated_from: None,
            key: key_of(line.key),
        },
        payload: line.text.as_slice(),
    }
}

fn key_of(key: &Option<Text>) -> Option<&str>
    ensures { option_copied result ≡ key.entry.now }
{
    match key {
        None => None,
        Some(key) => Some(key.as_str()),
    }
}

/// The id of a producer or a consumer: the index of its line in force.
pub(super) fn id_of(line: Option<usize>) -> u64
    ensures { result ≡ id_of line }
{
    match line {
        Some(index) => index as u64,
        None => 0,
    }
}

/// The names of a target list's clusters, in cluster order; none where it is for all.
fn target_names(
    alloc: Global,
    clusters: &[ClusterName],
    to: Targets,
) -> Result<Sequence<Text>, Memory>
    requires { length clusters.now ≤ CLUSTERS }
    ensures { IfOk result (λ names. names ≡ target_names 0 to clusters.now) }
{
    let mut names = Sequence::new(alloc);
    match to {
        Targets::All => Ok(names),
        Targets::Only(bits) => {
            add_named(alloc, clusters, bits, &mut names)?;
            Ok(names)
        }
    }
}

fn add_named(
    alloc: Global,
    clusters: &[ClusterName],
    bits: u8,
    names: &mut Sequence<Text>,
) -> Result<(), Memory>
    requires { length clusters.now ≤ CLUSTERS }
    ensures { OnOk result (names.new ≡ names.old ++ target_names 0 (Targets.Only bits) clusters.now) }
{
    for (number, name) in clusters.iter().enumerate() {
        if Targets::Only(bits).contains(number as u32) {
            names.push(Text::from_str(alloc, name.as_str())?)?;
        }
    }
    Ok(())
}
