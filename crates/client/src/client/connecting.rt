//! `reconnect` and `move`, which send all that is in force or unanswered again.
ghost use Rattle.std.specs.Prelude.{◌≡◌, ◌<◌, ◌^◌, ◌++◌, Some, IfOk, OnOk};
ghost use Rattle.geo_base.specs.Client.{command_at, commands_at, connected_to, connects, reconnect};
ghost use Rattle.geo_base.specs.Going.{past};
ghost use Rattle.client.specs.Changing.{ClientFits, acted, as_connected};
ghost use Rattle.client.specs.Counted.{CanConnect};
ghost use Rattle.client.specs.Prepared.{IsPrepared};

use crate::client::Client;
use crate::client::change::ClientChange;
use crate::client::outgoing::{ClientOut, Connection, add};
use crate::client::plan::Plan;
use crate::client::prepared::Prepared;
use crate::site::ClientSite;
use geo_base::{Frame, Memory};
use std::alloc::Global;

impl Client {
    /// What will be done where a client connects again to its cluster: CONNECT, then the commands of the lines in force,
    /// `produce`, `sub` and `flow`, then each publish without receipt in order. Nothing changes; an `Err` is want of memory.
    #[tactic(auto, using(crate::proofs::Preparing::prepared_is, crate::proofs::Preparing::prepared_fits))]
    pub fn prepare_reconnect(&self, alloc: Global, site: &ClientSite) -> Result<Prepared, Memory>
        requires { CanConnect self.now }
        ensures prepared { IfOk result (λ p. IsPrepared site.now.setup.clusters self.now p (reconnect site.now.setup site.now.declared self.now)) }
        ensures fits { IfOk result (λ p. ClientFits p.change self.now) }
    {
        let plan = self.plan_reconnect(alloc, site)?;
        let prepared = Prepared::write(alloc, site.clusters(), plan)?;
        Ok(prepared)
    }

    #[tactic(auto, unfolding(geo_base::specs::Client::reconnect))]
    fn plan_reconnect(&self, alloc: Global, site: &ClientSite) -> Result<Plan, Memory>
        requires { CanConnect self.now }
        ensures acted { IfOk result (λ p. acted p self.now ≡ reconnect site.now.setup site.now.declared self.now) }
        ensures fits { IfOk result (λ p. ClientFits p.change self.now) }
    {
        self.connects(alloc, site, self.cluster, ClientChange::Reconnects)
    }

    /// `move`: the line is done, and the client connects to another cluster.
    #[tactic(auto, using(crate::proofs::Connecting::moved))]
    pub(super) fn moves(
        &self,
        alloc: Global,
        site: &ClientSite,
        cluster: u32,
    ) -> Result<Plan, Memory>
        requires more { self.now.done < 2 ^ 63 }
        requires connection { CanConnect self.now }
        ensures acted { IfOk result (λ p. acted p self.now ≡ connects site.now.setup site.now.declared (connected_to cluster (past self.now))) }
        ensures fits { IfOk result (λ p. ClientFits p.change self.now) }
    {
        self.connects(alloc, site, cluster, ClientChange::Moves(cluster))
    }

    /// A change connects the client to a cluster, and it sends what it sends on a new connection.
    fn connects(
        &self,
        alloc: Global,
        site: &ClientSite,
        cluster: u32,
        change: ClientChange,
    ) -> Result<Plan, Memory>
        requires { CanConnect self.now }
        ensures { IfOk result (λ p. p ≡ record { change = Some change; sent = (connects site.now.setup site.now.declared (connected_to cluster self.now)).sent }) }
    {
        let connection = Connection {
            cluster,
            number: self.connection + 1,
        };
        let mut sent = Vec::new(alloc);
        match self.add_all(alloc, site, connection, &mut sent) {
            Ok(()) => Ok(Plan::new(change, sent)),
            Err(memory) => {
                drop(change);
                drop(sent);
                Err(memory)
            }
        }
    }

    /// Adds CONNECT, the commands of the lines in force, and those of the publishes without receipt.
    fn add_all(
        &self,
        alloc: Global,
        site: &ClientSite,
        connection: Connection,
        sent: &mut Vec<ClientOut>,
    ) -> Result<(), Memory>
        ensures { OnOk result (sent.new.items ≡ sent.old.items ++ (connects site.now.setup site.now.declared (as_connected connection self.now)).sent) }
    {
        add(sent, connection.to_broker(Frame::Connect))?;
        self.add_command_at(alloc, site, connection, self.produce, sent)?;
        self.add_command_at(alloc, site, connection, self.sub, sent)?;
        self.add_command_at(alloc, site, connection, self.flow, sent)?;
        self.add_unanswered(alloc, site, connection, sent)
    }

    fn add_unanswered(
        &self,
        alloc: Global,
        site: &ClientSite,
        connection: Connection,
        sent: &mut Vec<ClientOut>,
    ) -> Result<(), Memory>
        ensures { OnOk result (sent.new.items ≡ sent.old.items ++ commands_at site.now.setup site.now.declared (as_connected connection self.now) self.now.unanswered) }
    {
        let unanswered = self.unanswered.as_slice();
        for index in unanswered {
            self.add_command_at(alloc, site, connection, Some(*index), sent)?;
        }
        Ok(())
    }

    /// The command of the line at an index, if there is one. The lines in force and unanswered are such lines.
    fn add_command_at(
        &self,
        alloc: Global,
        site: &ClientSite,
        connection: Connection,
        index: Option<usize>,
        sent: &mut Vec<ClientOut>,
    ) -> Result<(), Memory>
        ensures { OnOk result (sent.new.items ≡ sent.old.items ++ command_at site.now.setup site.now.declared (as_connected connection self.now) index) }
    {
        let Some(index) = index else {
            return Ok(());
        };
        match site.line(index) {
            Some(line) => self.add_command(alloc, site, connection, index, line, sent),
            None => Ok(()),
        }
    }
}
