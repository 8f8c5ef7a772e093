//! `go`: a client does its next line.
ghost use Rattle.std.specs.Prelude.{◌≡◌, ◌<◌, ◌^◌, ◌&&◌, ◌∷◌, [], true, nat_lt, length, is_some, Some, IfOk, IfSome, OnSome};
ghost use Rattle.std.specs.Option.{option_copied};
ghost use Rattle.geo_base.specs.declared.packet.Peer.TheVariants as peer;
ghost use Rattle.geo_base.specs.Setup.{Setup};
ghost use Rattle.geo_base.specs.Client.{command};
ghost use Rattle.geo_base.specs.Going.{go, go_line, most_unanswered};
ghost use Rattle.client.specs.declared.client.change.ClientChange.TheVariants as change;
ghost use Rattle.client.specs.Site.{is_short_line};
ghost use Rattle.client.specs.Changing.{ClientFits, acted, as_connected};
ghost use Rattle.client.specs.Counted.{CanConnect};
ghost use Rattle.client.specs.Prepared.{IsPrepared};

use crate::client::Client;
use crate::client::change::ClientChange;
use crate::client::commands::PubLine;
use crate::client::plan::Plan;
use crate::client::prepared::Prepared;
use crate::site::ClientSite;
use geo_base::limits::UNANSWERED;
use geo_base::{Blob, Line, Memory};
use std::alloc::Global;

impl Client {
    /// What will be done where a client does its next line. It is idle where the client is not connected, has no line left,
    /// publishes without a `produce` line in force or with 256 publishes without receipt, gives permits or ends its consumer
    /// without a `sub` line in force, ends its producer without a `produce` line in force or with a publish without receipt, or
    /// acknowledges what it does not hold. Nothing changes; an `Err` is want of memory.
    #[tactic(auto, using(crate::proofs::Publishing::waits))]
    pub fn prepare_go(&self, alloc: Global, site: &ClientSite) -> Result<Prepared, Memory>
        requires { CanConnect self.now }
        ensures prepared { IfOk result (λ p. IsPrepared site.now.setup.clusters self.now p (go site.now.setup site.now.declared self.now)) }
        ensures fits { IfOk result (λ p. ClientFits p.change self.now) }
    {
        match self.next_line(site) {
            Some(line) => self.prepare_line(alloc, site, line),
            None => Ok(Prepared::idle(alloc)),
        }
    }

    /// The next line, where the client is connected and has one left.
    #[tactic(auto, unfolding(geo_base::specs::Going::go))]
    fn next_line<'a>(&self, site: &'a ClientSite) -> Option<&'a Line>
        ensures line { (s : Setup) → go s site.entry.now.declared self.now ≡ go_line s site.entry.now.declared self.now (option_copied result) }
        ensures short { IfSome result (λ l. is_short_line l.now ≡ true) }
        ensures more { OnSome result (self.now.done < 2 ^ 63) }
    {
        if self.is_connected {
            site.line(self.done)
        } else {
            None
        }
    }

    /// What will be done where a client does a line. A line that waits, and a publish to all clusters, take no plan.
    #[tactic(auto, using(crate::proofs::Publishing::waits, crate::proofs::Publishing::publishes, crate::proofs::HeldLists::acks_none))]
    fn prepare_line(
        &self,
        alloc: Global,
        site: &ClientSite,
        line: &Line,
    ) -> Result<Prepared, Memory>
        requires short { is_short_line line.now ≡ true }
        requires more { self.now.done < 2 ^ 63 }
        requires connection { CanConnect self.now }
        ensures prepared { IfOk result (λ p. IsPrepared site.now.setup.clusters self.now p (go_line site.now.setup site.now.declared self.now (Some line.now))) }
        ensures fits { IfOk result (λ p. ClientFits p.change self.now) }
    {
        match line {
            Line::Pub { seq, to, key, text } => {
                if !self.can_publish() {
                    return Ok(Prepared::idle(alloc));
                }
                let published = PubLine::new(*seq, *to, key, text);
                match self.publish_text(alloc, site, published)? {
                    Some(text) => self.prepare_publish(alloc, text),
                    None => self.prepare_any(alloc, site, line),
                }
            }
            Line::AckAll => {
                if self.held.is_empty() {
                    return Ok(Prepared::idle(alloc));
                }
                self.prepare_any(alloc, site, line)
            }
            _ => self.prepare_any(alloc, site, line),
        }
    }

    /// The next line publishes, by a SEND that is written.
    fn prepare_publish(&self, alloc: Global, text: Blob) -> Result<Prepared, Memory>
        ensures { IfOk result (λ p. p ≡ record { change = Some change.Publishes; sent = record { to = peer.Broker self.now.cluster; session = self.now.connection; frame = text } ∷ [] }) }
    {
        Prepared::sends(
            alloc,
            ClientChange::Publishes,
            self.connection().written(text),
        )
    }

    /// What will be done where a client does a line, by a plan of it.
    #[tactic(auto, using(crate::proofs::Preparing::prepared_is, crate::proofs::Preparing::prepared_fits))]
    fn prepare_any(&self, alloc: Global, site: &ClientSite, line: &Line) -> Result<Prepared, Memory>
        requires short { is_short_line line.now ≡ true }
        requires more { self.now.done < 2 ^ 63 }
        requires connection { CanConnect self.now }
        ensures prepared { IfOk result (λ p. IsPrepared site.now.setup.clusters self.now p (go_line site.now.setup site.now.declared self.now (Some line.now))) }
        ensures fits { IfOk result (λ p. ClientFits p.change self.now) }
    {
        let plan = self.goes(alloc, site, line)?;
        let prepared = Prepared::write(alloc, site.clusters(), plan)?;
        Ok(prepared)
    }

    /// What a line does.
    fn goes(&self, alloc: Global, site: &ClientSite, line: &Line) -> Result<Plan, Memory>
        requires short { is_short_line line.now ≡ true }
        requires more { self.now.done < 2 ^ 63 }
        requires connection { CanConnect self.now }
        ensures acted { IfOk result (λ p. acted p self.now ≡ go_line site.now.setup site.now.declared self.now (Some line.now)) }
        ensures fits { IfOk result (λ p. ClientFits p.change self.now) }
    {
        match line {
            Line::Produce => self.sends(alloc, site, ClientChange::Produces, line),
            Line::Pub { .. } => {
                if !self.can_publish() {
                    return Ok(Plan::idle(alloc));
                }
                self.sends(alloc, site, ClientChange::Publishes, line)
            }
            Line::Sub { .. } => self.sends(alloc, site, ClientChange::Subscribes, line),
            Line::Flow { .. } => {
                if self.sub.is_none() {
                    return Ok(Plan::idle(alloc));
                }
                self.sends(alloc, site, ClientChange::Permits, line)
            }
            Line::Ack { ident } => self.acknowledges(alloc, ident),
            Line::AckTo { ident } => self.acknowledges_to(alloc, ident),
            Line::AckAll => self.acknowledges_all(alloc),
            Line::Unsub => self.unsubscribes(alloc),
            Line::Close => self.closes_consumer(alloc),
            Line::CloseProducer => self.closes_producer(alloc),
            Line::Ping => self.pings(alloc),
            Line::Move { cluster } => self.moves(alloc, site, *cluster),
        }
    }

    /// Whether a `produce` line is in force, and one more publish may wait for its receipt.
    fn can_publish(&self) -> bool
        ensures { result ≡ (is_some self.now.produce && nat_lt (length self.now.unanswered) most_unanswered) }
    {
        self.produce.is_some() && self.unanswered.len() < UNANSWERED
    }

    /// The next line makes a change, and its command is sent.
    fn sends(
        &self,
        alloc: Global,
        site: &ClientSite,
        change: ClientChange,
        line: &Line,
    ) -> Result<Plan, Memory>
        requires { is_short_line line.now ≡ true }
        ensures { IfOk result (λ p. p ≡ record { change = Some change; sent = command site.now.setup site.now.declared (as_connected (record { cluster = self.now.cluster; number = self.now.connection }) self.now) self.now.done (Some line.now) }) }
    {
        let mut sent = Vec::new(alloc);
        match self.add_command(alloc, site, self.connection(), self.done, line, &mut sent) {
            Ok(()) => Ok(Plan::new(change, sent)),
            Err(memory) => {
                drop(change);
                drop(sent);
                Err(memory)
            }
        }
    }
}
