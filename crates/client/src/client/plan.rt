//! What an event will do at a client, its packets as the machine's.
ghost use Rattle.std.specs.Prelude.{◌≡◌, [], ◌∷◌, IfOk, None, Some};

use crate::client::change::ClientChange;
use crate::client::outgoing::{ClientOut, add};
use geo_base::Memory;
use std::alloc::Global;
use std::marker::Model;

/// What the client changes, nothing where the event is idle, and what it sends.
#[derive(Drop)]
pub struct Plan {
    pub(super) change: Option<ClientChange>,
    pub(super) sent: Vec<ClientOut>,
}

impl Model for Plan {
    ghost use Rattle.client.specs.Changing.{ClientPlan};

    ghost Value = { ClientPlan };

    ghost view = { λ p. record { change = p.change; sent = p.sent.items } };
}

impl Plan {
    /// The event is not enabled: the client stays as it is.
    pub(super) fn idle(alloc: Global) -> Plan
        ensures { result ≡ record { change = None; sent = [] } }
    {
        Plan {
            change: None,
            sent: Vec::new(alloc),
        }
    }

    /// The client changes, and sends.
    pub(super) fn new(change: ClientChange, sent: Vec<ClientOut>) -> Plan
        ensures { result ≡ record { change = Some change; sent = sent.items } }
    {
        Plan {
            change: Some(change),
            sent,
        }
    }

    /// The client changes, and sends one frame.
    pub(super) fn sends(alloc: Global, change: ClientChange, out: ClientOut) -> Result<Plan, Memory>
        ensures { IfOk result (λ p. p ≡ record { change = Some change; sent = out ∷ [] }) }
    {
        let mut sent = Vec::new(alloc);
        match add(&mut sent, out) {
            Ok(()) => Ok(Plan::new(change, sent)),
            // by calls, so that the ends of both are proved once
            Err(memory) => {
                drop(change);
                drop(sent);
                Err(memory)
            }
        }
    }
}
