//! What the bytes of the next packet of a link say.
ghost use Rattle.std.specs.Prelude.{IfOk, IfSome};
ghost use Rattle.broker_plans.specs.Storable.{IsReadFrame};
ghost use Rattle.broker.specs.Input.{IsReceiptOf, IsSendOf, ReadsPacket};

use broker_plans::Came;
use broker_state::Site;
use frame_values::read_value;
use geo_base::{Memory, Packet, Position};
use pulsar_commands::CommandView;
use pulsar_frames::usual_frame;
use std::alloc::Global;
use wire_ends::WirePacket;

/// The packet that the next one says.
pub(crate) fn read_packet(alloc: Global, site: &Site, packet: &WirePacket) -> Result<Packet, Memory>
    ensures said { IfOk result (ReadsPacket site.now.clusters packet.now) }
    ensures read { IfOk result (λ p. IsReadFrame p.frame) }
{
    let frame = read_value(alloc, site.clusters(), packet.frame.as_slice())?;
    Ok(Packet {
        session: packet.session,
        stamp: packet.stamp,
        frame,
    })
}

/// The SEND that a packet is, where it has the usual form; None says nothing of it.
pub(crate) fn usual_send(packet: &WirePacket) -> Option<Came<'_>>
    ensures { IfSome result (IsSendOf packet.entry.now) }
{
    let view = usual_frame(packet.frame.as_slice())?;
    let message = view.message?;
    match view.command {
        CommandView::Send {
            producer_id,
            sequence_id,
            ..
        } => Some(Came {
            session: packet.session,
            id: producer_id,
            seq: sequence_id,
            message,
        }),
        _ => None,
    }
}

/// The receipt of a SEND.
#[derive(Clone, Copy, Drop)]
pub(crate) struct Receipt {
    pub id: u64,
    pub seq: u64,
    pub position: Position,
}

/// The receipt that a packet is, where it has the usual form; None says nothing of it.
pub(crate) fn usual_receipt(packet: &WirePacket) -> Option<Receipt>
    ensures { IfSome result (IsReceiptOf packet.now) }
{
    let view = usual_frame(packet.frame.as_slice())?;
    match view.message {
        Some(_) => None,
        None => match view.command {
            CommandView::SendReceipt {
                producer_id,
                sequence_id,
                message_id,
            } => Some(Receipt {
                id: producer_id,
                seq: sequence_id,
                position: message_id,
            }),
            _ => None,
        },
    }
}
