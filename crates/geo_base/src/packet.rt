//! What crosses a link.
ghost use Rattle.std.specs.Prelude.{◌≡◌};

use crate::bytes::Blob;
use crate::frame::Frame;
use std::marker::Model;

/// The time of an event in events: 1 plus the greater of the node's last stamp and that of the packet that it took.
#[derive(Clone, Copy, Debug, Drop, PartialEq, Eq)]
pub struct Stamp {
    number: u64,
}

impl Model for Stamp {
    ghost use Rattle.std.specs.Prelude.{ℕ};

    ghost Value = { ℕ };

    ghost view = { λ s. s.number };

    ghost inverse = { λ n. record { number = n } };
}

impl Stamp {
    /// The stamp of a number.
    pub fn new(number: u64) -> Stamp
        ensures { result ≡ number }
    {
        Stamp { number }
    }

    /// The number.
    pub fn number(self) -> u64
        ensures { result ≡ self }
    {
        self.number
    }
}

/// A frame with the session, or a client's connection, that it was sent in.
#[derive(Drop)]
pub struct Packet {
    pub session: u64,
    pub stamp: Stamp,
    pub frame: Frame,
}

/// The other end of a link, as its node names it. At a broker `Forward(y)` is the link that it replicates to `y` on,
/// with the back link that answers it, and `Back(x)` the link from `x`; at a client `Broker(x)` is the broker at `x`.
#[derive(Clone, Copy, Drop, PartialEq, Eq)]
pub enum Peer {
    Forward(u32),
    Back(u32),
    Client(u32),
    Broker(u32),
}

/// What a node sends in an event; the event gives it its stamp.
#[derive(Drop)]
pub struct Out {
    pub to: Peer,
    pub session: u64,
    pub frame: Frame,
}

/// What a node sends in an event, as links carry it: the bytes of a frame.
#[derive(Drop)]
pub struct WireOut {
    pub to: Peer,
    pub session: u64,
    pub frame: Blob,
}
