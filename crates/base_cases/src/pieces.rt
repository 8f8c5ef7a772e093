//! Lists of pieces, and the packets that an end over them shows, by the rule: a head begins a packet; parts are joined to it until
//! its bytes came, and bytes beyond them are cut off; a head of no byte is a packet at once; a part that no packet waits for is
//! dropped; a head that comes too early leaves the packet before it without bytes; a last one that is not finished is not given.
ghost use Rattle.std.specs.Prelude.{◌<◌, ◌≤◌};

use crate::packets::{PING, SEND, is_packet, packet};
use geo_base::{Blob, Memory, Stamp};
use std::alloc::Global;
use std::collections::VecDeque;
use std::test::Fail;
use wire_ends::{End, PART_BYTES, Piece, PieceEnd};

/// A piece of a packet of session 1.
#[derive(Clone, Copy)]
enum Sent<'a> {
    /// Its stamp, and how many bytes its frame has.
    Head(u64, u64),
    Part(&'a [u8]),
}

/// A packet shown: its stamp and its frame.
type Shown<'a> = (u64, &'a [u8]);

fn piece(alloc: Global, sent: Sent<'_>) -> Result<Piece, Memory> {
    Ok(match sent {
        Sent::Head(stamp, len) => Piece::Head {
            session: 1,
            stamp: Stamp::new(stamp),
            len,
        },
        Sent::Part(bytes) => Piece::Part(Blob::from_slice(alloc, bytes)?),
    })
}

/// Adds these pieces, but for the one dropped.
fn add_pieces(
    alloc: Global,
    sent: &[Sent<'_>],
    dropped: usize,
    pieces: &mut VecDeque<Piece>,
) -> Result<(), Memory> {
    for (at, sent) in sent.iter().enumerate() {
        if at != dropped {
            pieces.push_back(piece(alloc, *sent)?)?;
        }
    }
    Ok(())
}

/// Whether an end gives just these packets.
fn shows(end: &mut PieceEnd, shown: &[Shown<'_>]) -> Result<bool, Memory> {
    end.gather()?;
    for (stamp, frame) in shown {
        if !is_packet(end.take(), *stamp, *frame) {
            return Ok(false);
        }
    }
    let rest = end.take();
    let is_last = rest.is_none();
    drop(rest);
    Ok(is_last)
}

/// Whether these pieces, but for the one dropped, give just these packets.
fn gives(
    alloc: Global,
    sent: &[Sent<'_>],
    dropped: usize,
    shown: &[Shown<'_>],
) -> Result<bool, Memory> {
    let mut pieces = VecDeque::new(alloc);
    let added = add_pieces(alloc, sent, dropped, &mut pieces);
    let mut end = PieceEnd::from_pieces(alloc, pieces, PART_BYTES);
    let given = shows(&mut end, shown);
    drop(end);
    added?;
    given
}

/// No piece is dropped.
const NONE: usize = usize::MAX;

/// A PING in two parts.
const FRONT: &[u8] = &[0x00, 0x00, 0x00, 0x09, 0x00];

const BACK: &[u8] = &[0x00, 0x00, 0x05, 0x08, 0x12, 0x92, 0x01, 0x00];

const IN_TWO: &[Sent<'static>] = &[Sent::Head(4, 13), Sent::Part(FRONT), Sent::Part(BACK)];

/// What it is about, the pieces, the one dropped of them, and the packets that the others give.
type Row = (
    &'static str,
    &'static [Sent<'static>],
    usize,
    &'static [Shown<'static>],
);

const ROWS: &[Row] = &[
    // Parts are joined.
    ("nothing", &[], NONE, &[]),
    ("two parts", IN_TWO, NONE, &[(4, PING)]),
    ("not finished", IN_TWO, 2, &[]),
    ("no head", IN_TWO, 0, &[]),
    (
        "a part of no byte",
        &[Sent::Head(4, 13), Sent::Part(&[]), Sent::Part(PING)],
        NONE,
        &[(4, PING)],
    ),
    // Bytes too many are cut off.
    (
        "bytes too many",
        &[Sent::Head(4, 13), Sent::Part(FRONT), Sent::Part(PING)],
        NONE,
        &[(4, &[0, 0, 0, 9, 0, 0, 0, 0, 9, 0, 0, 0, 5])],
    ),
    (
        "a part too many",
        &[
            Sent::Head(4, 13),
            Sent::Part(PING),
            Sent::Part(PING),
            Sent::Head(5, 13),
            Sent::Part(PING),
        ],
        NONE,
        &[(4, PING), (5, PING)],
    ),
    // A head cuts an unfinished packet off.
    (
        "behind a part",
        &[
            Sent::Head(4, 13),
            Sent::Part(FRONT),
            Sent::Head(5, 13),
            Sent::Part(PING),
        ],
        NONE,
        &[(4, &[]), (5, PING)],
    ),
    (
        "before any part, by a head of no byte",
        &[
            Sent::Head(4, 13),
            Sent::Head(5, 0),
            Sent::Head(6, 13),
            Sent::Part(PING),
        ],
        NONE,
        &[(4, &[]), (5, &[]), (6, PING)],
    ),
];

/// What the first row is about that does not hold.
fn first_wrong(alloc: Global) -> Result<Option<&'static str>, Memory> {
    for (about, sent, dropped, shown) in ROWS.iter() {
        if !gives(alloc, *sent, *dropped, *shown)? {
            return Ok(Some(*about));
        }
    }
    Ok(None)
}

#[test]
fn pieces_give_packets(rt: HostRuntime) -> Result<(), Fail> {
    let wrong = first_wrong(rt.alloc())?;
    assert_eq!(rt; wrong, None);
    Ok(())
}

/// Of a SEND in two parts and a PING: the piece dropped, and the packets that the others give.
const DROPPED: &[(usize, &[Shown<'static>])] = &[
    (0, &[(5, PING)]),
    (1, &[(4, &[]), (5, PING)]),
    (2, &[(4, &[]), (5, PING)]),
    (3, &[(4, &SEND)]),
    (4, &[(4, &SEND)]),
    (NONE, &[(4, &SEND), (5, PING)]),
];

/// The first piece dropped of a SEND, cut there, and a PING, with which the others give something else.
fn wrong_without(alloc: Global, cut: usize) -> Result<Option<usize>, Memory>
    requires { cut ≤ 34 }
{
    let (front, back) = SEND.as_slice().split_at(cut);
    let sent = [
        Sent::Head(4, 34),
        Sent::Part(front),
        Sent::Part(back),
        Sent::Head(5, 13),
        Sent::Part(PING),
    ];
    for (dropped, shown) in DROPPED.iter() {
        if !gives(alloc, &sent, *dropped, *shown)? {
            return Ok(Some(*dropped));
        }
    }
    Ok(None)
}

#[test]
fn every_cut_of_a_send_and_every_piece_dropped(rt: HostRuntime) -> Result<(), Fail> {
    for cut in 1..SEND.len() {
        let wrong = wrong_without(rt.alloc(), cut)?;
        assert_eq!(rt; wrong, None, "cut at {cut}");
    }
    Ok(())
}

/// How many bytes a part has at most, and the places of a PING.
const PLACES: &[(usize, usize)] = &[
    (1, 14),
    (4, 5),
    (5, 4),
    (6, 4),
    (7, 3),
    (12, 3),
    (13, 2),
    (PART_BYTES, 2),
];

/// With which parts a PING takes other places than these, or a frame of no byte another number than one.
fn wrong_places(alloc: Global) -> Result<Option<usize>, Memory> {
    for (most, places) in PLACES.iter() {
        if *most == 0
            || places_of(alloc, *most, PING)? != *places
            || places_of(alloc, *most, &[])? != 1
        {
            return Ok(Some(*most));
        }
    }
    Ok(None)
}

#[test]
fn a_parcel_takes_a_place_for_each_piece(rt: HostRuntime) -> Result<(), Fail> {
    let wrong = wrong_places(rt.alloc())?;
    assert_eq!(rt; wrong, None);
    Ok(())
}

/// The places of a packet on an end whose parts have at most so many bytes; 0 where it does not come out of the end as it was.
fn places_of(alloc: Global, most: usize, frame: &[u8]) -> Result<usize, Memory>
    requires { 0 < most }
{
    let mut end = PieceEnd::new(alloc, most)?;
    let places = places_at(alloc, &mut end, frame);
    drop(end);
    places
}

fn places_at(alloc: Global, end: &mut PieceEnd, frame: &[u8]) -> Result<usize, Memory> {
    let parcel = end.pack(packet(alloc, 4, frame)?)?;
    let places = parcel.places();
    if end.free() < places {
        drop(parcel);
        return Ok(0);
    }
    end.send(parcel);
    end.gather()?;
    Ok(if is_packet(end.take(), 4, frame) {
        places
    } else {
        0
    })
}
