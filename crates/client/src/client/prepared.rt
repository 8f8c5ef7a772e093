//! What an event will do at a client, its packets as bytes.
ghost use Rattle.std.specs.Prelude.{◌≡◌, [], ◌∷◌, not, is_some, IfOk, Some, None};
ghost use Rattle.client.specs.Packets.{AreWritten};

use crate::client::change::ClientChange;
use crate::client::outgoing::write_all;
use crate::client::plan::Plan;
use geo_base::{ClusterName, Memory, WireOut};
use std::alloc::Global;
use std::collections::VecDeque;
use std::marker::Model;

/// What the client changes, nothing where the event is idle, and the packets that it sends, in order.
#[derive(Drop)]
pub struct Prepared {
    change: Option<ClientChange>,
    sent: Vec<WireOut>,
}

impl Model for Prepared {
    ghost use Rattle.client.specs.Prepared.{PreparedClient};

    ghost Value = { PreparedClient };

    ghost view = { λ p. record { change = p.change; sent = p.sent.items } };
}

impl Prepared {
    /// The event is not enabled; takes no memory.
    pub(super) fn idle(alloc: Global) -> Prepared
        ensures { result ≡ record { change = None; sent = [] } }
    {
        Prepared {
            change: None,
            sent: Vec::new(alloc),
        }
    }

    /// The client changes, and sends one packet.
    pub(super) fn sends(
        alloc: Global,
        change: ClientChange,
        out: WireOut,
    ) -> Result<Prepared, Memory>
        ensures { IfOk result (λ p. p ≡ record { change = Some change; sent = out ∷ [] }) }
    {
        let mut sent = Vec::with_capacity(alloc, 1)?;
        sent.push(out)?;
        Ok(Prepared {
            change: Some(change),
            sent,
        })
    }

    /// A plan whose packets are written; `names` are those of the clusters.
    pub(super) fn write(
        alloc: Global,
        names: &[ClusterName],
        plan: Plan,
    ) -> Result<Prepared, Memory>
        ensures change { IfOk result (λ p. p.change ≡ plan.change) }
        ensures sent { IfOk result (λ p. AreWritten names.now p.sent plan.sent) }
    {
        let Plan { change, sent } = plan;
        let written = write_all(alloc, names, sent.as_slice());
        drop(sent);
        match written {
            Ok(sent) => Ok(Prepared { change, sent }),
            Err(memory) => {
                drop(change);
                Err(memory)
            }
        }
    }

    /// Whether the event is not enabled.
    pub fn is_idle(&self) -> bool
        ensures { result ≡ not (is_some self.now.change) }
    {
        self.change.is_none()
    }

    /// What is sent, which is taken out.
    pub fn take_sent(&mut self, alloc: Global) -> VecDeque<WireOut>
        ensures sent { result.items ≡ self.old.sent }
        ensures rest { self.new ≡ record self.old { sent = [] } }
    {
        VecDeque::from_vec(std::mem::replace(&mut self.sent, Vec::new(alloc)))
    }

    /// What the client changes.
    pub(super) fn into_change(self) -> Option<ClientChange>
        ensures { result ≡ self.change }
    {
        self.change
    }
}
