//! `get`: a client takes the next packet of its current cluster's link.
ghost use Rattle.std.specs.Prelude.{Option, Some, ◌≡◌, ◌<◌, [], ◌∷◌, ◌++◌, true, false, not, length, remove, IfOk, OnOk, OnErr, IfSome, IfNone};
ghost use Rattle.std.specs.List.{list_any};
ghost use Rattle.std.specs.Option.{option_copied};
ghost use Rattle.geo_base.specs.Getting.{answered, get, got_frame, got_message, is_duplicate, is_number, publishes, received, with_error, with_receipt, without_seq};
ghost use Rattle.geo_base.specs.declared.packet.Packet.{Packet};
ghost use Rattle.client.specs.Counted.{CanCount};
ghost use Rattle.client.specs.Packets.{IsDiscarded, IsSaid, StandsFor, StandsForNext};
ghost use Rattle.client.specs.Usual.{carrying_viewed, value_viewed};
ghost use Rattle.frame_values.specs.Standing.{Reads};
ghost use Rattle.frame_values.specs.Usual.{entry_viewed, source_viewed};
ghost use Rattle.frame_values.specs.Values.{simple_frame};
ghost use Rattle.pulsar_commands.specs.Usual.{command_viewed};
ghost use Rattle.pulsar_frames.specs.Frames.{IsFrameText};
ghost use Rattle.pulsar_frames.specs.Usual.{frame_viewed};

use crate::client::Client;
use crate::held::HeldTable;
use crate::site::ClientSite;
use frame_values::{number_of, read_value};
use geo_base::{ClusterRef, Entry, Frame, Held, Ident, Line, Memory, Position, ProducerName};
use message_meta::MetaView;
use pulsar_commands::CommandView;
use pulsar_frames::{FrameView, MessageView, usual_frame};
use std::alloc::Global;
use wire_ends::WirePacket;

impl Client {
    /// A client takes a packet, or finds none, which is idle; the answer is whether it took one. What was sent on another
    /// connection, and bytes that can't be read, are discarded. An `Err` is want of memory, and changes nothing.
    #[tactic(auto, using(crate::proofs::Wire::said_none))]
    pub fn get(
        &mut self,
        alloc: Global,
        site: &ClientSite,
        input: Option<&WirePacket>,
    ) -> Result<bool, Memory>
        requires { CanCount self.old }
        // For each packet of the machine that the next packet stands for, the client is the machine's after it.
        ensures client { (v : Option Packet) → StandsForNext site.now.setup.clusters (option_copied input.entry) v → OnOk result (self.new ≡ (get site.now.declared self.old v).client) }
        ensures took { (v : Option Packet) → StandsForNext site.now.setup.clusters (option_copied input.entry) v → IfOk result (λ took. not took ≡ (get site.now.declared self.old v).idle) }
        ensures discarded { IfSome (option_copied input.entry) (λ i. IsDiscarded self.old i → OnOk result (self.new ≡ self.old)) }
        ensures said { OnOk result (IsSaid site.now.setup.clusters (option_copied input.entry)) }
        ensures err { OnErr result (self.new ≡ self.old) }
    {
        match input {
            None => Ok(false),
            Some(packet) => {
                self.take(alloc, site, packet)?;
                Ok(true)
            }
        }
    }

    /// A packet came. Also one of another connection is looked at, so that it is known to have a value.
    fn take(&mut self, alloc: Global, site: &ClientSite, packet: &WirePacket) -> Result<(), Memory>
        requires { CanCount self.old }
        ensures client { (p : Packet) → StandsFor site.now.setup.clusters packet.now p → OnOk result (self.new ≡ (get site.now.declared self.old (Some p)).client) }
        ensures discarded { IsDiscarded self.old packet.now → OnOk result (self.new ≡ self.old) }
        ensures said { OnOk result (IsSaid site.now.setup.clusters (Some packet.now)) }
        ensures err { OnErr result (self.new ≡ self.old) }
    {
        match usual_frame(packet.frame.as_slice()) {
            Some(view) => self.take_usual(alloc, site, packet, view),
            None => self.take_any(alloc, site, packet),
        }
    }

    /// A packet of the usual form came, which is looked at where it stands.
    fn take_usual(
        &mut self,
        alloc: Global,
        site: &ClientSite,
        packet: &WirePacket,
        view: FrameView<'_>,
    ) -> Result<(), Memory>
        requires text { IsFrameText packet.now.frame (frame_viewed view) }
        requires counts { CanCount self.old }
        ensures client { (p : Packet) → StandsFor site.now.setup.clusters packet.now p → OnOk result (self.new ≡ (get site.now.declared self.old (Some p)).client) }
        ensures discarded { IsDiscarded self.old packet.now → OnOk result (self.new ≡ self.old) }
        ensures said { OnOk result (IsSaid site.now.setup.clusters (Some packet.now)) }
        ensures err { OnErr result (self.new ≡ self.old) }
    {
        if packet.session != self.connection {
            return Ok(());
        }
        self.get_usual(alloc, site, view)?;
        Ok(())
    }

    /// A packet of any form came.
    fn take_any(
        &mut self,
        alloc: Global,
        site: &ClientSite,
        packet: &WirePacket,
    ) -> Result<(), Memory>
        requires { CanCount self.old }
        ensures client { (p : Packet) → StandsFor site.now.setup.clusters packet.now p → OnOk result (self.new ≡ (get site.now.declared self.old (Some p)).client) }
        ensures discarded { IsDiscarded self.old packet.now → OnOk result (self.new ≡ self.old) }
        ensures said { OnOk result (IsSaid site.now.setup.clusters (Some packet.now)) }
        ensures err { OnErr result (self.new ≡ self.old) }
    {
        let frame = read_value(alloc, site.clusters(), packet.frame.as_slice())?;
        let taken = self.take_frame(alloc, site, packet, &frame);
        // by a call, so that the end of a frame is proved by itself
        drop(frame);
        taken
    }

    /// A packet came whose bytes were read.
    fn take_frame(
        &mut self,
        alloc: Global,
        site: &ClientSite,
        packet: &WirePacket,
        frame: &Frame,
    ) -> Result<(), Memory>
        requires value { Reads site.now.setup.clusters packet.now.frame frame.now }
        requires counts { CanCount self.old }
        ensures client { (p : Packet) → StandsFor site.now.setup.clusters packet.now p → OnOk result (self.new ≡ (get site.now.declared self.old (Some p)).client) }
        ensures discarded { IsDiscarded self.old packet.now → OnOk result (self.new ≡ self.old) }
        ensures said { OnOk result (IsSaid site.now.setup.clusters (Some packet.now)) }
        ensures err { OnErr result (self.new ≡ self.old) }
    {
        if packet.session != self.connection {
            return Ok(());
        }
        self.get_frame(alloc, site, frame)?;
        Ok(())
    }

    /// A frame of the usual form came on the current connection.
    fn get_usual(
        &mut self,
        alloc: Global,
        site: &ClientSite,
        view: FrameView<'_>,
    ) -> Result<(), Memory>
        requires { CanCount self.old }
        ensures ok { OnOk result (self.new ≡ got_frame site.now.declared self.old (value_viewed site.now.setup.clusters view.entry)) }
        ensures err { OnErr result (self.new ≡ self.old) }
    {
        match view.message {
            None => {
                self.get_command(site, view.command);
                Ok(())
            }
            Some(message) => self.get_carrying(alloc, site, view.command, message),
        }
    }

    /// A command without a message came.
    fn get_command(&mut self, site: &ClientSite, command: CommandView)
        requires { CanCount self.old }
        ensures { self.new ≡ got_frame site.now.declared self.old (simple_frame (command_viewed command)) }
    {
        match command {
            CommandView::SendReceipt {
                sequence_id,
                message_id,
                ..
            } => self.get_receipt(site, sequence_id, Some(message_id)),
            CommandView::Send { .. } | CommandView::Message { .. } => {}
        }
    }

    /// A command with a message came: only MESSAGE tells the client something.
    fn get_carrying(
        &mut self,
        alloc: Global,
        site: &ClientSite,
        command: CommandView,
        message: MessageView<'_>,
    ) -> Result<(), Memory>
        ensures ok { OnOk result (self.new ≡ got_frame site.now.declared self.old (carrying_viewed site.now.setup.clusters command message.entry)) }
        ensures err { OnErr result (self.new ≡ self.old) }
    {
        match command {
            CommandView::Message {
                consumer_id,
                message_id,
            } => self.get_viewed(alloc, site, consumer_id, message_id, message),
            CommandView::Send { .. } | CommandView::SendReceipt { .. } => Ok(()),
        }
    }

    /// A message of the usual form came: its origin is the cluster that it was replicated from, else the client's own.
    fn get_viewed(
        &mut self,
        alloc: Global,
        site: &ClientSite,
        id: u64,
        position: Position,
        message: MessageView<'_>,
    ) -> Result<(), Memory>
        ensures ok { OnOk result (self.new ≡ got_message self.old id position (source_viewed site.now.setup.clusters message.entry) (entry_viewed 0 message.entry)) }
        ensures err { OnErr result (self.new ≡ self.old) }
    {
        let MetaView { producer, seq, .. } = message.meta;
        match message.meta.replicated_from {
            None => self.receive(alloc, id, position, self.cluster, producer, seq),
            Some(name) => match number_of(site.clusters(), 0, name.as_bytes()) {
                Some(origin) => self.receive(alloc, id, position, origin, producer, seq),
                None => Ok(()),
            },
        }
    }

    /// A frame of the current connection came.
    fn get_frame(&mut self, alloc: Global, site: &ClientSite, frame: &Frame) -> Result<(), Memory>
        requires { CanCount self.old }
        ensures ok { OnOk result (self.new ≡ got_frame site.now.declared self.old frame.now) }
        ensures err { OnErr result (self.new ≡ self.old) }
    {
        match frame {
            Frame::SendReceipt { seq, position, .. } => {
                self.get_receipt(site, *seq, *position);
            }
            Frame::SendError { seq, .. } => self.get_refusal(site, *seq),
            Frame::Error { .. } => self.errors += 1,
            Frame::Message {
                id,
                position,
                source,
                entry,
            } => {
                return self.get_message(alloc, *id, *position, source, entry);
            }
            _ => {}
        }
        Ok(())
    }

    /// A message came: its origin is the cluster that it was replicated from, else the client's own.
    fn get_message(
        &mut self,
        alloc: Global,
        id: u64,
        position: Position,
        source: &Option<ClusterRef>,
        entry: &Entry,
    ) -> Result<(), Memory>
        ensures ok { OnOk result (self.new ≡ got_message self.old id position source.now entry.now) }
        ensures err { OnErr result (self.new ≡ self.old) }
    {
        let origin = match source {
            None => self.cluster,
            Some(ClusterRef::Known(cluster)) => *cluster,
            Some(ClusterRef::Stranger(_)) => return Ok(()),
        };
        self.receive(
            alloc,
            id,
            position,
            origin,
            entry.ident.producer.as_str(),
            entry.ident.seq,
        )
    }

    /// A message that was first stored at `origin` came for a consumer's id. It is held and got where that is the one of the `sub`
    /// line in force.
    fn receive(
        &mut self,
        alloc: Global,
        id: u64,
        position: Position,
        origin: u32,
        producer: &str,
        seq: u64,
    ) -> Result<(), Memory>
        ensures ok { OnOk result (self.new ≡ received self.old id (record { origin = origin; producer = producer.now; seq = seq }) position) }
        ensures err { OnErr result (self.new ≡ self.old) }
    {
        if !is_line(self.sub, id) {
            return Ok(());
        }
        let ident = Ident {
            origin,
            producer: ProducerName::any(alloc, producer)?,
            seq,
        };
        hold(alloc, &mut self.held, &mut self.got, ident, position)
    }

    /// The receipt of a publish came: of a stored entry, or of a duplicate.
    fn get_receipt(&mut self, site: &ClientSite, seq: u64, position: Option<Position>)
        requires { CanCount self.old }
        ensures { self.new ≡ answered site.now.declared self.old seq (with_receipt self.old (is_duplicate position)) }
    {
        let Some(at) = first_publish(site, &self.unanswered, seq) else {
            return;
        };
        self.unanswered.remove(at);
        if is_duplicate(position) {
            self.duplicates += 1;
        } else {
            self.receipts += 1;
        }
    }

    /// A publish was refused.
    fn get_refusal(&mut self, site: &ClientSite, seq: u64)
        requires { CanCount self.old }
        ensures { self.new ≡ answered site.now.declared self.old seq (with_error self.old) }
    {
        let Some(at) = first_publish(site, &self.unanswered, seq) else {
            return;
        };
        self.unanswered.remove(at);
        self.errors += 1;
    }
}

/// A message is held and got; neither where memory is wanting.
fn hold(
    alloc: Global,
    held: &mut HeldTable,
    got: &mut Vec<Ident>,
    ident: Ident,
    position: Position,
) -> Result<(), Memory>
    ensures held { OnOk result (held.new ≡ held.old ++ record { ident = ident; position = position } ∷ []) }
    ensures got { OnOk result (got.new.items ≡ got.old.items ++ ident ∷ []) }
    ensures same_held { OnErr result (held.new ≡ held.old) }
    ensures same_got { OnErr result (got.new.items ≡ got.old.items) }
{
    got.reserve(1)?;
    let copy = ident.copy(alloc)?;
    held.push(Held { ident, position })?;
    got.push_reserved(copy);
    Ok(())
}

/// Whether an id is that of a line in force.
fn is_line(line: Option<usize>, id: u64) -> bool
    ensures { result ≡ is_number id line }
{
    match line {
        Some(index) => index as u64 == id,
        None => false,
    }
}

/// Whether a receipt's position is the one of what stands no_position.
fn is_duplicate(position: Option<Position>) -> bool
    ensures { result ≡ is_duplicate position }
{
    matches!(
        position,
        Some(Position {
            ledger: u64::MAX,
            entry: u64::MAX
        })
    )
}

/// The place of the first publish of a sequence id among indexes of lines.
fn first_publish(site: &ClientSite, unanswered: &[usize], seq: u64) -> Option<usize>
    ensures within { IfSome result (λ at. at < length unanswered.now) }
    ensures found { IfSome result (λ at. list_any (publishes site.now.declared seq) unanswered.now ≡ true) }
    ensures rest { IfSome result (λ at. without_seq site.now.declared unanswered.now seq ≡ remove unanswered.now at) }
    ensures none { IfNone result (list_any (publishes site.now.declared seq) unanswered.now ≡ false) }
{
    for (at, index) in unanswered.iter().enumerate() {
        if publishes(site, *index, seq) {
            return Some(at);
        }
    }
    None
}

/// Whether a client's line at an index publishes a sequence id.
fn publishes(site: &ClientSite, index: usize, seq: u64) -> bool
    ensures { result ≡ publishes site.now.declared seq index }
{
    match site.line(index) {
        Some(line) => matches!(line, Line::Pub { seq: published, .. } if *published == seq),
        None => false,
    }
}
