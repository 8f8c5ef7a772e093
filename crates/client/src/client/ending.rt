//! The lines that end what is in force, and `ping`.
ghost use Rattle.std.specs.Prelude.{◌≡◌, ◌<◌, ◌^◌, ◌==◌, ◌&&◌, if◌then◌else◌, length, is_some, IfOk, None};
ghost use Rattle.geo_base.specs.declared.frame.Frame.TheVariants as frame;
ghost use Rattle.geo_base.specs.Client.{becomes, id_of, stays, to_broker};
ghost use Rattle.geo_base.specs.Going.{ends_sub, past};
ghost use Rattle.client.specs.Changing.{ClientFits, acted};

use crate::client::Client;
use crate::client::change::ClientChange;
use crate::client::commands::id_of;
use crate::client::plan::Plan;
use geo_base::{Frame, Memory};
use std::alloc::Global;

impl Client {
    /// `unsub`: the subscription is given up.
    pub(super) fn unsubscribes(&self, alloc: Global) -> Result<Plan, Memory>
        requires { self.now.done < 2 ^ 63 }
        ensures acted { IfOk result (λ p. acted p self.now ≡ ends_sub self.now (frame.Unsubscribe (id_of self.now.sub) self.now.done)) }
        ensures fits { IfOk result (λ p. ClientFits p.change self.now) }
    {
        if self.sub.is_none() {
            return Ok(Plan::idle(alloc));
        }
        let frame = Frame::Unsubscribe {
            id: id_of(self.sub),
            request: self.done as u64,
        };
        Plan::sends(
            alloc,
            ClientChange::EndsSub,
            self.connection().to_broker(frame),
        )
    }

    /// `close`: the consumer ends, and the subscription stays.
    pub(super) fn closes_consumer(&self, alloc: Global) -> Result<Plan, Memory>
        requires { self.now.done < 2 ^ 63 }
        ensures acted { IfOk result (λ p. acted p self.now ≡ ends_sub self.now (frame.CloseConsumer (id_of self.now.sub) self.now.done)) }
        ensures fits { IfOk result (λ p. ClientFits p.change self.now) }
    {
        if self.sub.is_none() {
            return Ok(Plan::idle(alloc));
        }
        let frame = Frame::CloseConsumer {
            id: id_of(self.sub),
            request: self.done as u64,
        };
        Plan::sends(
            alloc,
            ClientChange::EndsSub,
            self.connection().to_broker(frame),
        )
    }

    /// `closep`: the producer ends, once all its publishes have their receipts.
    pub(super) fn closes_producer(&self, alloc: Global) -> Result<Plan, Memory>
        requires { self.now.done < 2 ^ 63 }
        ensures acted { IfOk result (λ p. acted p self.now ≡ (if is_some self.now.produce && (length self.now.unanswered == 0)
            then becomes (record (past self.now) { produce = None }) (to_broker self.now (frame.CloseProducer (id_of self.now.produce) self.now.done))
            else stays self.now)) }
        ensures fits { IfOk result (λ p. ClientFits p.change self.now) }
    {
        if self.produce.is_none() || !self.unanswered.is_empty() {
            return Ok(Plan::idle(alloc));
        }
        let frame = Frame::CloseProducer {
            id: id_of(self.produce),
            request: self.done as u64,
        };
        Plan::sends(
            alloc,
            ClientChange::EndsProducer,
            self.connection().to_broker(frame),
        )
    }

    /// `ping`: the broker is asked for a PONG.
    pub(super) fn pings(&self, alloc: Global) -> Result<Plan, Memory>
        requires { self.now.done < 2 ^ 63 }
        ensures acted { IfOk result (λ p. acted p self.now ≡ becomes (past self.now) (to_broker self.now frame.Ping)) }
        ensures fits { IfOk result (λ p. ClientFits p.change self.now) }
    {
        Plan::sends(
            alloc,
            ClientChange::LineDone,
            self.connection().to_broker(Frame::Ping),
        )
    }
}
