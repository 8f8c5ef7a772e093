//! The links of the world, which carry bytes.
//!
//! A packet is the bytes of its frame, with the session that it was sent in and the stamp of the event that sent it. The
//! machine's link is all that was ever sent on it and a count of what was taken; a link here keeps what is not taken yet and
//! nothing else, so that memory falls as packets are taken. Each packet crosses it in pieces, all in one event. All links stand in
//! one list, and an event looks the one that it takes from up once, which is its port. What the one stands for of the other is
//! `LinksStand`: packet by packet, bytes that are the canonical text of the machine's frame. The laws say that each operation keeps
//! it.
#![tactic(auto)]

mod counting;
mod laws;
mod link;
mod links;
mod name;
mod port;

pub use counting::frame_bytes;
pub use laws::{
    law_broker, law_bytes, law_client, law_discarded, law_next, law_opening, law_taken,
};
pub use links::Links;
pub use name::{LinkName, Node};
pub use port::Port;
pub use wire_ends::WirePacket;
