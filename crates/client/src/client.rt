//! A client: what it keeps, and its three events. `go` and `reconnect` are prepared, which takes all their memory and
//! changes nothing, and then committed, which cannot fail. `get` sends nothing, so that it is done at once.
//!
//! What is prepared is a change of the client and no copy of it: what it holds and got grows with the run.
ghost use Rattle.std.specs.Prelude.{◌≡◌, ◌<◌, ◌+◌, ◌^◌, ◌↔◌, [], IfOk, IsTrue, None};
ghost use Rattle.geo_base.specs.Client.{connected_to, new_client, unconnected};
ghost use Rattle.geo_base.specs.Going.{past};
ghost use Rattle.client.specs.Counted.{CanConnect, CanCount};
ghost use Rattle.client.specs.Changing.{ChangeFits, ClientFits, changed, client_after};

mod acknowledging;
mod change;
mod commands;
mod connecting;
mod ending;
mod getting;
mod going;
mod outgoing;
mod plan;
mod prepared;
mod state;

use crate::client::change::ClientChange;
use crate::client::outgoing::Connection;
use crate::held::HeldTable;
use crate::site::ClientSite;
use geo_base::limits::{ACKED_AT_ONCE, UNANSWERED};
use geo_base::{Ident, Memory};
pub use prepared::Prepared;
pub use state::{ClientState, ClientView};
use std::alloc::Global;
use std::marker::Model;

/// What the numbers of a client that only count stay below.
const COUNTS: u64 = 9_223_372_036_854_775_808;

/// The connection to the current cluster, how many lines are done, the indexes of the lines in force, the indexes of the
/// publishes that wait for their receipts, what receipts came, the messages that came on this subscription and were not
/// acknowledged, and all that came.
#[derive(Drop)]
pub struct Client {
    cluster: u32,
    connection: u64,
    is_connected: bool,
    done: usize,
    produce: Option<usize>,
    sub: Option<usize>,
    flow: Option<usize>,
    unanswered: Vec<usize>,
    held: HeldTable,
    receipts: u64,
    duplicates: u64,
    errors: u64,
    got: Vec<Ident>,
}

impl Model for Client {
    ghost use Rattle.geo_base.specs.Going.{most_unanswered};
    ghost use Rattle.std.specs.Prelude.{◌≤◌, vec_capacity};
    ghost use Rattle.geo_base.specs.Client.{Client};

    ghost Value = { Client };

    ghost view = { λ k. record {
      cluster = k.cluster;
      connection = k.connection;
      connected = k.is_connected;
      done = k.done;
      produce = k.produce;
      sub = k.sub;
      flow = k.flow;
      unanswered = k.unanswered.items;
      held = k.held;
      receipts = k.receipts;
      duplicates = k.duplicates;
      errors = k.errors;
      got = k.got.items;
    } };

    ghost invariant = { λ k. most_unanswered ≤ vec_capacity k.unanswered };
}

impl Client {
    /// A client that has done nothing yet. Its window of unanswered publishes has its memory from here on.
    pub fn new(alloc: Global, site: &ClientSite) -> Result<Client, Memory>
        ensures { IfOk result (λ k. k ≡ new_client site.now.declared) }
    {
        Ok(Client {
            cluster: site.cluster(),
            connection: 0,
            is_connected: false,
            done: 0,
            produce: None,
            sub: None,
            flow: None,
            unanswered: Vec::with_capacity(alloc, UNANSWERED)?,
            held: HeldTable::new(alloc),
            receipts: 0,
            duplicates: 0,
            errors: 0,
            got: Vec::new(alloc),
        })
    }

    /// Whether the connection's number is below 2 ^ 63, so that `go` and `reconnect` can still raise it.
    pub fn can_connect(&self) -> bool
        ensures { IsTrue result ↔ CanConnect self.now }
    {
        self.connection < COUNTS
    }

    /// Whether the numbers of receipts, duplicates and errors are below 2 ^ 63, so that `get` can still raise each.
    pub fn can_count(&self) -> bool
        ensures { IsTrue result ↔ CanCount self.now }
    {
        self.receipts < COUNTS && self.duplicates < COUNTS && self.errors < COUNTS
    }

    /// Does what was prepared; takes no memory.
    pub fn commit(&mut self, prepared: Prepared)
        requires { ClientFits prepared.change self.old }
        ensures { self.new ≡ client_after prepared.change self.old }
    {
        if let Some(change) = prepared.into_change() {
            self.change(change);
        }
    }

    /// Loses its connection, and what it holds from it: a stop of everything does so to each client. It takes no memory.
    pub fn disconnect(&mut self)
        ensures { self.new ≡ unconnected self.old }
    {
        self.is_connected = false;
        self.held.clear();
    }

    fn change(&mut self, change: ClientChange)
        requires { ChangeFits change self.old }
        ensures { self.new ≡ changed change self.old }
    {
        match change {
            ClientChange::LineDone => {
                self.finish_line();
            }
            ClientChange::Produces => self.produce = Some(self.finish_line()),
            ClientChange::Publishes => {
                let line = self.finish_line();
                self.unanswered.push_reserved(line);
            }
            ClientChange::Subscribes => {
                self.sub = Some(self.finish_line());
                self.flow = None;
                self.held.clear();
            }
            ClientChange::Permits => self.flow = Some(self.finish_line()),
            ClientChange::Acknowledges(ident) => {
                self.finish_line();
                self.held.forget(&ident);
            }
            ClientChange::AcknowledgesTo(position) => {
                self.finish_line();
                self.held.forget_to(position);
            }
            ClientChange::AcknowledgesAll => {
                self.finish_line();
                self.held.forget_first(ACKED_AT_ONCE);
            }
            ClientChange::EndsSub => self.end_sub(),
            ClientChange::EndsProducer => {
                self.finish_line();
                self.produce = None;
            }
            ClientChange::Moves(cluster) => {
                self.finish_line();
                self.connect(cluster);
            }
            ClientChange::Reconnects => self.connect(self.cluster),
        }
    }

    /// The next line ends the `sub` and the `flow` line.
    fn end_sub(&mut self)
        requires { self.old.done + 1 < 2 ^ 64 }
        ensures { self.new ≡ record (past self.old) { sub = None; flow = None; held = [] } }
    {
        self.finish_line();
        self.sub = None;
        self.flow = None;
        self.held.clear();
    }

    /// A new connection, to a cluster.
    fn connect(&mut self, cluster: u32)
        requires { self.old.connection + 1 < 2 ^ 64 }
        ensures { self.new ≡ connected_to cluster self.old }
    {
        self.cluster = cluster;
        self.connection += 1;
        self.is_connected = true;
        self.held.clear();
    }

    /// The next line is done; its index.
    fn finish_line(&mut self) -> usize
        requires { self.old.done + 1 < 2 ^ 64 }
        ensures line { result ≡ self.old.done }
        ensures client { self.new ≡ past self.old }
    {
        self.done += 1;
        self.done - 1
    }

    /// The connection that it has.
    fn connection(&self) -> Connection
        ensures { result ≡ record { cluster = self.now.cluster; number = self.now.connection } }
    {
        Connection {
            cluster: self.cluster,
            number: self.connection,
        }
    }
}
