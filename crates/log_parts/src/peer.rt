//! Whether two peers are one.
ghost use Rattle.std.specs.Prelude.{◌≡◌};
ghost use Rattle.log_parts.specs.Peers.{same_peer};

use geo_base::Peer;

/// Whether two names of peers are one.
pub(crate) fn same_peer(a: Peer, b: Peer) -> bool
    ensures { result ≡ same_peer a b }
{
    match (a, b) {
        (Peer::Forward(x), Peer::Forward(y)) => x == y,
        (Peer::Back(x), Peer::Back(y)) => x == y,
        (Peer::Client(x), Peer::Client(y)) => x == y,
        (Peer::Broker(x), Peer::Broker(y)) => x == y,
        _ => false,
    }
}
