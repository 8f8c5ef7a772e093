//! Streams of frames as they are read: judged in order, however they are cut, and refused from the first frame that breaks a rule.
use crate::packets::{PING, SEND};
use crate::texts::is_told;
use pulsar_frames::*;
use std::alloc::{AllocError, Global};
use std::test::Fail;

/// Whether a reader has one more frame.
fn has_frame(reader: &mut FrameReader) -> bool {
    match reader.next() {
        Some(frame) => {
            drop(frame);
            true
        }
        None => false,
    }
}

/// How many frames a reader has, of the next hundred.
fn count_frames(reader: &mut FrameReader) -> u64 {
    let mut frames = 0u64;
    for _ in 0..100 {
        if has_frame(reader) {
            frames = frames.wrapping_add(1);
        }
    }
    frames
}

/// What a reader has come to: how many frames, and how many bytes after them.
fn came_to(reader: &mut FrameReader) -> (u64, usize) {
    let frames = count_frames(reader);
    (frames, reader.rest())
}

/// Whether a text tells the fault that is answered; an empty one tells that there is none.
fn is_answered(
    alloc: Global,
    answer: Result<(), FrameFault>,
    text: &str,
) -> Result<bool, AllocError> {
    match answer {
        Ok(()) => Ok(text.is_empty()),
        Err(why) => is_told(alloc, &why, text),
    }
}

/// Rows are a stream, how many frames come of it, how many bytes stand after them, and the fault of a refused one.
const TABLE: &[(&[u8], (u64, usize), &str)] = &[
    (&[], (0, 0), ""),
    (&[0x00, 0x00, 0x00], (0, 3), ""),
    (PING, (1, 0), ""),
    (&SEND, (1, 0), ""),
    // a PONG, a PING, and the beginning of another frame
    (
        &[
            0x00, 0x00, 0x00, 0x09, 0x00, 0x00, 0x00, 0x05, 0x08, 0x13, 0x9a, 0x01, 0x00, 0x00,
            0x00, 0x00, 0x09, 0x00, 0x00, 0x00, 0x05, 0x08, 0x12, 0x92, 0x01, 0x00, 0x00, 0x50,
            0x28, 0x00,
        ],
        (2, 4),
        "",
    ),
    // the greatest size, and one more
    (&[0x00, 0x50, 0x28, 0x00, 0x00], (0, 5), ""),
    (&[0x00, 0x50, 0x28, 0x01], (0, 4), "TooLarge(1, 5253121)"),
    (&[0xff, 0xff, 0xff, 0xff], (0, 4), "TooLarge(1, 4294967295)"),
    // a total size without room for the command's size, and a command longer than its frame
    (
        &[0x00, 0x00, 0x00, 0x03, 0x00, 0x00, 0x00],
        (0, 7),
        "Sizes(2)",
    ),
    (
        &[0x00, 0x00, 0x00, 0x05, 0x00, 0x00, 0x00, 0x05, 0x08],
        (0, 9),
        "Sizes(2)",
    ),
    // a checksum after the command, also after one without a reading
    (
        &[
            0x00, 0x00, 0x00, 0x13, 0x00, 0x00, 0x00, 0x05, 0x08, 0x12, 0x92, 0x01, 0x00, 0x0e,
            0x01, 0x00, 0x00, 0x00, 0x00, 0x00, 0x00, 0x00, 0x00,
        ],
        (0, 23),
        "Checksum(3)",
    ),
    (
        &[0x00, 0x00, 0x00, 0x06, 0x00, 0x00, 0x00, 0x00, 0x0e, 0x01],
        (0, 10),
        "Checksum(3)",
    ),
    // less than a size after the command, and a metadata's size that does not fit
    (
        &[0x00, 0x00, 0x00, 0x06, 0x00, 0x00, 0x00, 0x01, 0xff, 0x0e],
        (0, 10),
        "Sizes(2)",
    ),
    (
        &[
            0x00, 0x00, 0x00, 0x12, 0x00, 0x00, 0x00, 0x0a, 0x08, 0x06, 0x32, 0x06, 0x08, 0x01,
            0x10, 0x00, 0x18, 0x01, 0x00, 0x00, 0x00, 0x01,
        ],
        (0, 22),
        "Sizes(2)",
    ),
    // commands without a reading, one of them with a message
    (
        &[0x00, 0x00, 0x00, 0x06, 0x00, 0x00, 0x00, 0x02, 0x08, 0x10],
        (0, 10),
        "Command(4, Missing(16))",
    ),
    (
        &[0x00, 0x00, 0x00, 0x04, 0x00, 0x00, 0x00, 0x00],
        (0, 8),
        "Command(4, Missing(1))",
    ),
    (
        &[
            0x00, 0x00, 0x00, 0x0a, 0x00, 0x00, 0x00, 0x02, 0x08, 0x01, 0x00, 0x00, 0x00, 0x00,
        ],
        (0, 14),
        "Command(4, UnknownType(1))",
    ),
    // a PING with a message, and a SEND without one
    (
        &[
            0x00, 0x00, 0x00, 0x0d, 0x00, 0x00, 0x00, 0x05, 0x08, 0x12, 0x92, 0x01, 0x00, 0x00,
            0x00, 0x00, 0x00,
        ],
        (0, 17),
        "Sizes(2)",
    ),
    (
        &[
            0x00, 0x00, 0x00, 0x0e, 0x00, 0x00, 0x00, 0x0a, 0x08, 0x06, 0x32, 0x06, 0x08, 0x01,
            0x10, 0x00, 0x18, 0x01,
        ],
        (0, 18),
        "Sizes(2)",
    ),
    // metadata without a reading
    (
        &[
            0x00, 0x00, 0x00, 0x12, 0x00, 0x00, 0x00, 0x0a, 0x08, 0x06, 0x32, 0x06, 0x08, 0x01,
            0x10, 0x00, 0x18, 0x01, 0x00, 0x00, 0x00, 0x00,
        ],
        (0, 22),
        "Meta(5, Missing(1))",
    ),
    // a frame before a refused one
    (
        &[
            0x00, 0x00, 0x00, 0x09, 0x00, 0x00, 0x00, 0x05, 0x08, 0x12, 0x92, 0x01, 0x00, 0x00,
            0x50, 0x28, 0x01,
        ],
        (1, 4),
        "TooLarge(1, 5253121)",
    ),
];

/// What a reader answers last that is fed bytes one by one.
fn feed_bytes(reader: &mut FrameReader, bytes: &[u8]) -> Result<(), FrameFault> {
    let mut last = reader.feed(&[]);
    for byte in bytes {
        last = reader.feed(&[*byte]);
    }
    last
}

/// What a new reader answers to a stream last, in one piece or byte by byte, and what it comes to.
fn read_as(alloc: Global, stream: &[u8], in_bytes: bool) -> (Result<(), FrameFault>, (u64, usize)) {
    let mut reader = FrameReader::new(alloc);
    let answer = if in_bytes {
        feed_bytes(&mut reader, stream)
    } else {
        reader.feed(stream)
    };
    let came = came_to(&mut reader);
    drop(reader);
    (answer, came)
}

/// Whether this comes of a stream, in one piece and byte by byte.
fn is_read(
    alloc: Global,
    stream: &[u8],
    wanted: (u64, usize),
    fault: &str,
) -> Result<bool, AllocError> {
    Ok(
        is_read_as(alloc, stream, false, wanted, fault)?
            && is_read_as(alloc, stream, true, wanted, fault)?,
    )
}

/// Whether this comes of a stream, in one piece or byte by byte.
fn is_read_as(
    alloc: Global,
    stream: &[u8],
    in_bytes: bool,
    wanted: (u64, usize),
    fault: &str,
) -> Result<bool, AllocError> {
    let (answer, came) = read_as(alloc, stream, in_bytes);
    Ok(came == wanted && is_answered(alloc, answer, fault)?)
}

#[test]
fn streams_are_judged_in_order_however_they_are_cut(rt: HostRuntime) -> Result<(), Fail> {
    let alloc = rt.alloc();
    for (stream, came, fault) in TABLE.iter() {
        assert!(rt; is_read(alloc, stream, *came, fault)?, "at {stream:?}");
    }
    Ok(())
}

/// Whether a reader has one more frame, which carries no message.
fn has_command(reader: &mut FrameReader) -> bool {
    match reader.next() {
        Some(frame) => {
            let carries = carries_message(&frame.command);
            drop(frame);
            !carries
        }
        None => false,
    }
}

/// Whether a reader takes bytes one by one, and has no frame before the last of them.
fn is_fed(reader: &mut FrameReader, bytes: &[u8]) -> bool {
    for byte in bytes {
        if has_frame(reader) || reader.feed(&[*byte]).is_err() {
            return false;
        }
    }
    true
}

/// Whether one frame comes of bytes, with the last of them, and carries no message.
fn comes_last(alloc: Global, bytes: &[u8]) -> bool {
    let mut reader = FrameReader::new(alloc);
    let is_fed = is_fed(&mut reader, bytes);
    let is_read = has_command(&mut reader);
    let is_last = !has_frame(&mut reader);
    drop(reader);
    is_fed && is_read && is_last
}

#[test]
fn a_frame_comes_with_its_last_byte(rt: HostRuntime) -> Result<(), Fail> {
    assert!(rt; comes_last(rt.alloc(), PING));
    Ok(())
}

/// Pieces of a stream that is refused, and the fault that each is answered.
const PIECES: &[(&[u8], &str)] = &[
    (PING, ""),
    (&[0; 4], "Sizes(2)"),
    (PING, "Sizes(2)"),
    (&[], "Sizes(2)"),
];

/// Whether a reader answers those pieces, one by one.
fn are_answered(alloc: Global, reader: &mut FrameReader) -> Result<bool, AllocError> {
    for (piece, fault) in PIECES.iter() {
        let answer = reader.feed(piece);
        if !is_answered(alloc, answer, fault)? {
            return Ok(false);
        }
    }
    Ok(true)
}

/// Whether a new one does, and what it comes to.
fn read_pieces(alloc: Global) -> Result<(bool, (u64, usize)), AllocError> {
    let mut reader = FrameReader::new(alloc);
    let are_answered = are_answered(alloc, &mut reader);
    let came = came_to(&mut reader);
    drop(reader);
    Ok((are_answered?, came))
}

#[test]
fn a_refused_stream_stays_refused(rt: HostRuntime) -> Result<(), Fail> {
    assert!(rt; read_pieces(rt.alloc())? == (true, (1, 4)));
    Ok(())
}
