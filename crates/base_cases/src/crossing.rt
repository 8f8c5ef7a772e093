//! With ample memory nothing is refused: what is sent comes out on its own link, in order, and a stop loses it.
use geo_base::{Blob, Memory, Peer, Stamp, WireOut};
use links::*;
use std::alloc::Global;
use std::collections::VecDeque;
use std::test::Fail;

/// A packet of two bytes.
fn packet(alloc: Global, to: Peer, byte: u8) -> Result<WireOut, Memory> {
    Ok(WireOut {
        to,
        session: 7,
        frame: Blob::from_slice(alloc, &[byte, byte])?,
    })
}

/// Sends two packets.
fn send_two(alloc: Global, sent: &mut VecDeque<WireOut>, to: Peer) -> Result<(), Memory> {
    sent.push_back(packet(alloc, to, 1)?)?;
    sent.push_back(packet(alloc, to, 2)?)?;
    Ok(())
}

/// What a node sends in an event is two packets; says how many bytes they have.
fn deliver_two(
    alloc: Global,
    links: &mut Links,
    from: Node,
    sent: &mut VecDeque<WireOut>,
    to: Peer,
) -> Result<u64, Memory> {
    send_two(alloc, sent, to)?;
    let bytes = frame_bytes(sent)?;
    links.deliver(from, Stamp::new(9), sent)?;
    Ok(bytes)
}

/// The same from no packet.
fn cross(alloc: Global, links: &mut Links, from: Node, to: Peer) -> Result<u64, Memory> {
    let mut sent = VecDeque::new(alloc);
    let bytes = deliver_two(alloc, links, from, &mut sent, to);
    drop(sent);
    bytes
}

/// Whether the next packet of a link is the first of two.
fn takes_first(links: &mut Links, link: LinkName) -> bool {
    let port = links.port(Some(link));
    match links.take(port) {
        Some(packet) => {
            let is_first = packet.frame.as_slice() == [1u8, 1].as_slice();
            drop(packet);
            is_first
        }
        None => false,
    }
}

/// Whether the first of two packets of an event comes out on its link with the event's stamp, and a stop loses the second.
fn comes_first(
    alloc: Global,
    links: &mut Links,
    from: Node,
    to: Peer,
    link: LinkName,
) -> Result<bool, Memory> {
    let bytes = cross(alloc, links, from, to)?;
    let is_first = takes_first(links, link);
    let port = links.port(Some(link));
    let stamp = links.stamp(port);
    links.discard_all();
    Ok(bytes == 4 && is_first && stamp == 9 && links.next(port).is_none())
}

/// The broker of topic 1 at cluster 0.
const WEST: Node = Node::Broker {
    topic: 1,
    cluster: 0,
};

const CLIENT: Node = Node::Client { client: 1 };

/// Rows are who sends, to whom, and on which link it comes out.
const TABLE: &[(Node, Peer, LinkName)] = &[
    (
        WEST,
        Peer::Forward(2),
        LinkName::Forward {
            topic: 1,
            source: 0,
            target: 2,
        },
    ),
    (
        WEST,
        Peer::Back(2),
        LinkName::Back {
            topic: 1,
            source: 2,
            target: 0,
        },
    ),
    (
        WEST,
        Peer::Client(1),
        LinkName::ToClient {
            client: 1,
            cluster: 0,
        },
    ),
    (
        CLIENT,
        Peer::Broker(0),
        LinkName::ToBroker {
            client: 1,
            cluster: 0,
        },
    ),
];

/// How many rows hold, one after another, before the first that does not.
fn count_rows(alloc: Global, links: &mut Links) -> Result<u64, Memory> {
    let mut rows = 0u64;
    for &(from, to, link) in TABLE {
        if !comes_first(alloc, links, from, to, link)? {
            return Ok(rows);
        }
        rows = rows.wrapping_add(1);
    }
    Ok(rows)
}

/// The same on new links.
fn rows_that_hold(alloc: Global) -> Result<u64, Memory> {
    let mut links = Links::new(alloc, 2, 3, 2)?;
    let rows = count_rows(alloc, &mut links);
    drop(links);
    rows
}

#[test]
fn what_is_sent_comes_on_its_link(rt: HostRuntime) -> Result<(), Fail> {
    assert_eq!(rt; rows_that_hold(rt.alloc())?, 4);
    Ok(())
}
