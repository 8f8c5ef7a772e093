//! Frames as they are written: byte for byte, in the usual form, and up to the greatest size.
use crate::packets::{PING, SEND};
use crate::texts::is_told;
use geo_base::{AckKind, Blob, Memory, Position, Sequence, Text};
use message_meta::{Meta, MetaView};
use pb_fields::FieldList;
use pulsar_commands::{AckView, Command, CommandView};
use pulsar_frames::*;
use std::alloc::{AllocError, Global};
use std::test::Fail;

/// The receipt of producer 1's message 0, stored at 0:1.
const RECEIPT: &[u8] = &[
    0x00, 0x00, 0x00, 0x12, 0x00, 0x00, 0x00, 0x0e, 0x08, 0x07, 0x3a, 0x0a, 0x08, 0x01, 0x10, 0x00,
    0x1a, 0x04, 0x08, 0x00, 0x10, 0x01,
];

/// The ACK of consumer 1 for 0:1 and 1:128.
const ACK: [u8; 29] = [
    0x00, 0x00, 0x00, 0x19, 0x00, 0x00, 0x00, 0x15, 0x08, 0x0a, 0x52, 0x11, 0x08, 0x01, 0x10, 0x00,
    0x1a, 0x04, 0x08, 0x00, 0x10, 0x01, 0x1a, 0x05, 0x08, 0x01, 0x10, 0x80, 0x01,
];

/// The same with its first position before its two numbers.
const TURNED_ACK: [u8; 29] = [
    0x00, 0x00, 0x00, 0x19, 0x00, 0x00, 0x00, 0x15, 0x08, 0x0a, 0x52, 0x11, 0x1a, 0x04, 0x08, 0x00,
    0x10, 0x01, 0x08, 0x01, 0x10, 0x00, 0x1a, 0x05, 0x08, 0x01, 0x10, 0x80, 0x01,
];

/// The metadata of the SEND that `packets` has.
fn meta_of_send(alloc: Global) -> Result<Meta, Memory> {
    let producer = Text::from_str(alloc, "p")?;
    let origin = Text::from_str(alloc, "a")?;
    Ok(Meta {
        producer,
        seq: 0,
        publish_time: 0,
        replicated_from: Some(origin),
        key: None,
        replicate_to: Sequence::new(alloc),
        marker: None,
        rest: FieldList::new(alloc),
    })
}

/// That SEND with any payload, written.
fn write_send(alloc: Global, payload: Blob) -> Result<Blob, FrameFault> {
    let meta = meta_of_send(alloc)?;
    let send = Frame {
        command: Command::Send {
            producer_id: 1,
            sequence_id: 0,
            num_messages: 1,
        },
        body: Some(Body { meta, payload }),
    };
    let written = write_frame(alloc, &send);
    drop(send);
    written
}

/// A PING, written.
fn write_ping(alloc: Global) -> Result<Blob, FrameFault> {
    let ping = Frame {
        command: Command::Ping,
        body: None,
    };
    let written = write_frame(alloc, &ping);
    drop(ping);
    written
}

/// How many bytes that SEND takes with a payload of so many.
fn size_of_send(alloc: Global, payload: usize) -> Result<usize, FrameFault> {
    let payload = Blob::from_vec(vec![in alloc; 0u8; payload]?);
    let written = write_send(alloc, payload)?;
    Ok(written.as_slice().len())
}

/// Whether a text tells that size, or the fault.
fn is_size_of_send(alloc: Global, payload: usize, text: &str) -> Result<bool, AllocError> {
    match size_of_send(alloc, payload) {
        Ok(bytes) => is_told(alloc, &bytes, text),
        Err(why) => is_told(alloc, &why, text),
    }
}

/// Whether a SEND with a payload is written as these bytes.
fn is_send(alloc: Global, payload: &[u8], wanted: &[u8]) -> Result<bool, FrameFault> {
    let written = write_send(alloc, Blob::from_slice(alloc, payload)?)?;
    Ok(written.as_slice() == wanted)
}

/// Whether a PING is written as these bytes.
fn is_ping(alloc: Global, wanted: &[u8]) -> Result<bool, FrameFault> {
    let written = write_ping(alloc)?;
    Ok(written.as_slice() == wanted)
}

#[test]
fn frames_are_written_byte_for_byte(rt: HostRuntime) -> Result<(), Fail> {
    assert!(rt; is_send(rt.alloc(), b"hi", &SEND)?);
    assert!(rt; is_ping(rt.alloc(), PING)?);
    Ok(())
}

/// The message of that SEND, of a producer of any name.
fn message_of<'a>(producer: &'a str, payload: &'a [u8]) -> MessageView<'a> {
    MessageView {
        meta: MetaView {
            producer,
            seq: 0,
            publish_time: 0,
            replicated_from: Some("a"),
            key: None,
        },
        payload,
    }
}

/// That SEND of a producer of any name, written in the usual form.
fn usual_send(alloc: Global, producer: &str) -> Result<Option<Blob>, Memory> {
    let send = CommandView::Send {
        producer_id: 1,
        sequence_id: 0,
        num_messages: 1,
    };
    write_usual_message(alloc, send, message_of(producer, b"hi"))
}

/// Whether it is written as these bytes; none where it is not written.
fn is_usual_send(alloc: Global, producer: &str, wanted: &[u8]) -> Result<Option<bool>, Memory> {
    match usual_send(alloc, producer)? {
        Some(written) => Ok(Some(written.as_slice() == wanted)),
        None => Ok(None),
    }
}

/// Whether it is written where the producer's name has so many bytes.
fn is_written_named(alloc: Global, bytes: usize) -> Result<Option<bool>, Memory> {
    let name = vec![in alloc; b'p'; bytes]?;
    match str::from_utf8(name.as_slice()) {
        Ok(name) => Ok(Some(usual_send(alloc, name)?.is_some())),
        Err(_) => Ok(None),
    }
}

/// Whether that receipt is written as these bytes.
fn is_usual_receipt(alloc: Global, wanted: &[u8]) -> Result<bool, Memory> {
    let receipt = CommandView::SendReceipt {
        producer_id: 1,
        sequence_id: 0,
        message_id: Position {
            ledger: 0,
            entry: 1,
        },
    };
    let written = write_usual_command(alloc, receipt)?;
    Ok(written.as_slice() == wanted)
}

#[test]
fn frames_of_the_usual_form_are_written_byte_for_byte(rt: HostRuntime) -> Result<(), Fail> {
    let alloc = rt.alloc();
    assert!(rt; is_usual_send(alloc, "p", &SEND)? == Some(true));
    assert!(rt; is_usual_receipt(alloc, RECEIPT)?);
    assert!(rt; is_written_named(alloc, 128)? == Some(false));
    Ok(())
}

/// Whether that SEND is seen where it stands; none where it is not, or has no message.
fn is_send_seen() -> Option<bool> {
    let view = usual_frame(&SEND)?;
    let message = view.message?;
    let meta = message.meta;
    let is_named = meta.producer == "p" && meta.replicated_from == Some("a");
    Some(is_named && message.payload == b"hi".as_slice())
}

#[test]
fn frames_of_the_usual_form_are_seen_where_they_stand(rt: HostRuntime) -> Result<(), Fail> {
    assert!(rt; is_send_seen() == Some(true));
    assert!(rt; usual_frame(RECEIPT).is_some());
    assert!(rt; usual_frame(PING).is_none());
    Ok(())
}

/// Whether the command of a frame that is read is written as these bytes.
fn is_command(alloc: Global, text: &[u8], wanted: &[u8]) -> Result<bool, Fail> {
    let frame = read_frame(alloc, text)?.ok_or("no frame")?;
    let written = frame.command.write(alloc);
    drop(frame);
    Ok(written?.as_slice() == wanted)
}

/// Whether that ACK is written in the usual form as these bytes.
fn is_usual_ack(alloc: Global, wanted: &[u8]) -> Result<bool, Memory> {
    let positions = [
        Position {
            ledger: 0,
            entry: 1,
        },
        Position {
            ledger: 1,
            entry: 128,
        },
    ];
    let ack = AckView {
        consumer_id: 1,
        ack_type: AckKind::Individual,
        message_id: &positions,
    };
    let written = write_usual_ack(alloc, ack)?;
    Ok(written.as_slice() == wanted)
}

#[test]
fn acks_are_read_in_either_form_and_written_in_one(rt: HostRuntime) -> Result<(), Fail> {
    let alloc = rt.alloc();
    assert!(rt; is_usual_ack(alloc, &ACK)?);
    assert!(rt; is_command(alloc, &ACK, &ACK[8..])?);
    assert!(rt; is_command(alloc, &TURNED_ACK, &ACK[8..])?);
    Ok(())
}

#[test]
fn a_frame_has_at_most_the_limit(rt: HostRuntime) -> Result<(), Fail> {
    assert!(rt; is_size_of_send(rt.alloc(), 5_253_092, "5253124")?);
    assert!(rt; is_size_of_send(rt.alloc(), 5_253_093, "TooLarge(1, 5253121)")?);
    Ok(())
}
