//! What a client sends, and the connection that it sends it on.
ghost use Rattle.std.specs.Prelude.{◌≡◌, ◌∷◌, [], ◌++◌, OnOk, OnErr, IfOk};
ghost use Rattle.client.specs.Packets.{AreWritten, IsWrittenOut};
ghost use Rattle.client.specs.Sent.{IsSent};

use frame_values::write_value;
use geo_base::{Blob, ClusterName, Frame, Memory, Out, Peer, WireOut};
use std::alloc::Global;
use std::marker::Model;

/// What a client sends, which has a text.
#[derive(Drop)]
pub struct ClientOut {
    out: Out,
}

impl Model for ClientOut {
    ghost use Rattle.geo_base.specs.declared.packet.Out.{Out};
    ghost use Rattle.client.specs.Sent.{IsSent};

    ghost Value = { Out };

    ghost view = { λ o. o.out };

    ghost invariant = { λ o. IsSent o.out.frame };
}

impl ClientOut {
    /// The packet, written; `names` are those of the clusters.
    #[tactic(auto, using(crate::proofs::Writable::writable))]
    pub(super) fn write(&self, alloc: Global, names: &[ClusterName]) -> Result<WireOut, Memory>
        ensures { IfOk result (λ w. IsWrittenOut names.now w self.now) }
    {
        Ok(WireOut {
            to: self.out.to,
            session: self.out.session,
            frame: write_value(alloc, names, &self.out.frame)?,
        })
    }
}

/// A connection of a client: the cluster that it leads to, and its number, from 1.
#[derive(Clone, Copy, Drop)]
pub struct Connection {
    pub cluster: u32,
    pub number: u64,
}

impl Connection {
    /// A frame to the broker that is written.
    pub(super) fn written(self, frame: Blob) -> WireOut
        ensures { result ≡ record { to = Peer.Broker self.cluster; session = self.number; frame = frame } }
    {
        WireOut {
            to: Peer::Broker(self.cluster),
            session: self.number,
            frame,
        }
    }

    /// A frame to the broker.
    pub(super) fn to_broker(self, frame: Frame) -> ClientOut
        requires { IsSent frame }
        ensures { result ≡ record { to = Peer.Broker self.cluster; session = self.number; frame = frame } }
    {
        ClientOut {
            out: Out {
                to: Peer::Broker(self.cluster),
                session: self.number,
                frame,
            },
        }
    }
}

/// One more packet to send.
pub(super) fn add(sent: &mut Vec<ClientOut>, out: ClientOut) -> Result<(), Memory>
    ensures ok { OnOk result (sent.new.items ≡ sent.old.items ++ out ∷ []) }
    ensures err { OnErr result (sent.new.items ≡ sent.old.items) }
{
    sent.push(out)?;
    Ok(())
}

/// All packets, written in order.
#[tactic(auto, using(crate::proofs::Writable::written_more))]
pub(super) fn write_all(
    alloc: Global,
    names: &[ClusterName],
    sent: &[ClientOut],
) -> Result<Vec<WireOut>, Memory>
    ensures { IfOk result (λ ws. AreWritten names.now ws.items sent.now) }
{
    let mut written = Vec::new(alloc);
    for out in sent {
        add_written(&mut written, out.write(alloc, names)?)?;
    }
    Ok(written)
}

/// One more written packet.
fn add_written(written: &mut Vec<WireOut>, out: WireOut) -> Result<(), Memory>
    ensures { OnOk result (written.new.items ≡ written.old.items ++ out ∷ []) }
{
    written.push(out)?;
    Ok(())
}
