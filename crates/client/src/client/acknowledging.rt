//! The lines that acknowledge what a client holds.
ghost use Rattle.std.specs.Prelude.{◌≡◌, ◌<◌, ◌≤◌, ◌^◌, ◌∷◌, [], length, Some, IfOk};
ghost use Rattle.geo_base.specs.Client.{id_of, to_broker};
ghost use Rattle.geo_base.specs.Going.{acks_all, acks_one, acks_to, first_held};
ghost use Rattle.client.specs.Changing.{ClientFits, acted};

use crate::client::Client;
use crate::client::change::ClientChange;
use crate::client::commands::id_of;
use crate::client::plan::Plan;
use geo_base::limits::ACKED_AT_ONCE;
use geo_base::{AckKind, Frame, Ident, Memory, Position, Sequence};
use std::alloc::Global;

impl Client {
    /// `ack`: the first held message of an identity is acknowledged.
    pub(super) fn acknowledges(&self, alloc: Global, ident: &Ident) -> Result<Plan, Memory>
        requires { self.now.done < 2 ^ 63 }
        ensures acted { IfOk result (λ p. acted p self.now ≡ acks_one self.now ident.now (first_held self.now.held ident.now)) }
        ensures fits { IfOk result (λ p. ClientFits p.change self.now) }
    {
        let Some(position) = self.held.first(ident) else {
            return Ok(Plan::idle(alloc));
        };
        self.acks(
            alloc,
            ClientChange::Acknowledges(ident.copy(alloc)?),
            AckKind::Individual,
            one(alloc, position)?,
        )
    }

    /// `ackto`: all that is held up to the first held message of an identity is acknowledged.
    pub(super) fn acknowledges_to(&self, alloc: Global, ident: &Ident) -> Result<Plan, Memory>
        requires { self.now.done < 2 ^ 63 }
        ensures acted { IfOk result (λ p. acted p self.now ≡ acks_to self.now (first_held self.now.held ident.now)) }
        ensures fits { IfOk result (λ p. ClientFits p.change self.now) }
    {
        let Some(position) = self.held.first(ident) else {
            return Ok(Plan::idle(alloc));
        };
        self.acks(
            alloc,
            ClientChange::AcknowledgesTo(position),
            AckKind::Cumulative,
            one(alloc, position)?,
        )
    }

    /// `ackall`: all that is held is acknowledged, or as much of it as one ACK may name.
    #[tactic(auto, using(crate::proofs::HeldLists::acks_none))]
    pub(super) fn acknowledges_all(&self, alloc: Global) -> Result<Plan, Memory>
        requires { self.now.done < 2 ^ 63 }
        ensures acted { IfOk result (λ p. acted p self.now ≡ acks_all self.now self.now.held) }
        ensures fits { IfOk result (λ p. ClientFits p.change self.now) }
    {
        if self.held.is_empty() {
            return Ok(Plan::idle(alloc));
        }
        self.acknowledges_first(alloc)
    }

    fn acknowledges_first(&self, alloc: Global) -> Result<Plan, Memory>
        requires some { 0 < length self.now.held }
        requires more { self.now.done < 2 ^ 63 }
        ensures acted { IfOk result (λ p. acted p self.now ≡ acks_all self.now self.now.held) }
        ensures fits { IfOk result (λ p. ClientFits p.change self.now) }
    {
        let positions = self.held.positions(alloc, ACKED_AT_ONCE)?;
        let prepared = self.acks(
            alloc,
            ClientChange::AcknowledgesAll,
            AckKind::Individual,
            positions,
        )?;
        Ok(prepared)
    }

    /// The next line makes a change, and an ACK of these positions is sent.
    fn acks(
        &self,
        alloc: Global,
        change: ClientChange,
        kind: AckKind,
        positions: Sequence<Position>,
    ) -> Result<Plan, Memory>
        requires { length positions ≤ ACKED_AT_ONCE }
        ensures { IfOk result (λ p. p ≡ record { change = Some change; sent = to_broker self.now (Frame.Ack (id_of self.now.sub) kind positions) }) }
    {
        let frame = Frame::Ack {
            id: id_of(self.sub),
            kind,
            positions,
        };
        Plan::sends(alloc, change, self.connection().to_broker(frame))
    }
}

/// The one position of an ACK.
fn one(alloc: Global, position: Position) -> Result<Sequence<Position>, Memory>
    ensures { IfOk result (λ ps. ps ≡ position ∷ []) }
{
    let mut positions = Sequence::new(alloc);
    positions.push(position)?;
    Ok(positions)
}
