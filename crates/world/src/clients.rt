//! An event of a client: prepared there, its packets delivered, committed.
ghost use Rattle.std.specs.Prelude.{◌≡◌, ℕ, ◌<◌, ◌+◌, ◌^◌, length, IfOk, OnErr, OnOk, None, Some, Err, slice_set};
ghost use Rattle.client.specs.Changing.{ClientFits, client_after};
ghost use Rattle.geo_base.specs.declared.event.Event.TheVariants as event;
ghost use Rattle.geo_base.specs.Happening.{happens};
ghost use Rattle.geo_base.specs.World.{World as Machine};
ghost use Rattle.world.specs.ClientSteps.{ClientDone, IsSent, client_in};
ghost use Rattle.world.specs.declared.fault.RunFault.TheVariants as fault;
ghost use Rattle.world.specs.Steps.{Leads, stamp_over};
ghost use Rattle.world.specs.World.{AreNodes, IsAt, IsWithin, kept_of};
ghost use Rattle.links.specs.Queues.{bytes_of};
ghost use Rattle.kept_laws.specs.Kept.{stamp_at};
ghost use Rattle.kept_laws.specs.Standing.{Stands, limit_of};
ghost use Rattle.kept_laws.specs.Reached.{Reached};

use crate::fault::RunFault;
use crate::world::World;
use client::Prepared;
use links::Node;
use node_starts::site_of;
use script_text::Scenario;
use std::alloc::Global;

/// The stamp that an event sees which takes no packet, as `Links::stamp` answers it.
const NOTHING_TAKEN: u64 = 0;

impl World {
    /// A client does what its next line says, or can't yet.
    pub(crate) fn client_goes(
        &mut self,
        alloc: Global,
        scenario: &Scenario,
        client: u32,
    ) -> Result<(), RunFault>
        requires at { IsAt scenario.now.setup self.old }
        requires client { client < length scenario.now.setup.clients }
        ensures leads { (w : Machine) → Reached scenario.now.setup w → Stands scenario.now.setup (kept_of self.old) w
            → Leads scenario.now.setup self.old self.new (happens scenario.now.setup w (event.Go client)) result }
        ensures brokers { AreNodes scenario.now.setup self.new.brokers }
        ensures err { OnErr result (self.new ≡ self.old) }
    {
        let site = site_of(scenario, client);
        let prepared = self.clients[client as usize].prepare_go(alloc, &site)?;
        self.client_does(alloc, client, prepared)
    }

    /// A client connects again where its connection was lost.
    pub(crate) fn client_reconnects(
        &mut self,
        alloc: Global,
        scenario: &Scenario,
        client: u32,
    ) -> Result<(), RunFault>
        requires at { IsAt scenario.now.setup self.old }
        requires client { client < length scenario.now.setup.clients }
        ensures leads { (w : Machine) → Reached scenario.now.setup w → Stands scenario.now.setup (kept_of self.old) w
            → Leads scenario.now.setup self.old self.new (happens scenario.now.setup w (event.Reconnect client)) result }
        ensures brokers { AreNodes scenario.now.setup self.new.brokers }
        ensures err { OnErr result (self.new ≡ self.old) }
    {
        let site = site_of(scenario, client);
        let prepared = self.clients[client as usize].prepare_reconnect(alloc, &site)?;
        self.client_does(alloc, client, prepared)
    }

    /// Does what was prepared at a client: an idle event is counted, and any other one is sent and done.
    fn client_does(
        &mut self,
        alloc: Global,
        client: u32,
        prepared: Prepared,
    ) -> Result<(), RunFault>
        requires client { client < length self.old.clients }
        requires clock { client < length self.old.client_clocks }
        requires fits { ClientFits prepared.change (client_in self.old.clients client) }
        requires within { IsWithin self.old }
        requires stamp { stamp_at self.old.client_clocks client self.old.links None < 2 ^ 64 }
        ensures done { ClientDone client prepared self.old self.new result }
        ensures err { OnErr result (self.new ≡ self.old) }
    {
        if prepared.is_idle() {
            // by a call, so that the end of what was prepared is proved by itself
            drop(prepared);
            return self.idles();
        }
        self.client_sends(alloc, client, prepared)
    }

    /// Sends what was prepared at a client, and does it; nothing of all that where a limit would be passed, or memory is wanting.
    fn client_sends(
        &mut self,
        alloc: Global,
        client: u32,
        prepared: Prepared,
    ) -> Result<(), RunFault>
        requires client { client < length self.old.clients }
        requires clock { client < length self.old.client_clocks }
        requires fits { ClientFits prepared.change (client_in self.old.clients client) }
        requires within { IsWithin self.old }
        requires stamp { stamp_at self.old.client_clocks client self.old.links None < 2 ^ 64 }
        ensures ok { OnOk result (IsSent client prepared self.old self.new) }
        ensures within { OnOk result (limit_of (self.old.events + 1) self.old.idle (self.old.frame_bytes + bytes_of prepared.sent) ≡ None) }
        ensures large { (n : ℕ) → result ≡ Err (fault.TooLarge n) → limit_of (self.old.events + 1) self.old.idle (self.old.frame_bytes + bytes_of prepared.sent) ≡ Some n }
        ensures err { OnErr result (self.new ≡ self.old) }
    {
        let mut prepared = prepared;
        let mut sent = prepared.take_sent(alloc);
        let stamp = self.client_stamp(client, NOTHING_TAKEN);
        match self.deliver(Node::Client { client }, stamp, &mut sent) {
            Ok(()) => {
                self.client_commits(client, prepared, stamp);
                Ok(())
            }
            Err(fault) => {
                drop(prepared);
                Err(fault)
            }
        }
    }

    /// Does what was prepared at a client whose packets were delivered.
    fn client_commits(&mut self, client: u32, prepared: Prepared, stamp: u64)
        requires client { client < length self.old.clients }
        requires clock { client < length self.old.client_clocks }
        requires fits { ClientFits prepared.change (client_in self.old.clients client) }
        requires count { self.old.events + 1 < 2 ^ 64 }
        ensures { self.new ≡ record self.old {
          clients = slice_set self.old.clients client (client_after prepared.change (client_in self.old.clients client));
          client_clocks = slice_set self.old.client_clocks client stamp;
          events = self.old.events + 1;
        } }
    {
        self.clients[client as usize].commit(prepared);
        self.client_clocks[client as usize] = stamp;
        self.counts.events += 1;
    }

    /// The stamp of an event at a client: 1 plus the greater of its last one and that of the packet that it takes, 0 where it takes none.
    pub(crate) fn client_stamp(&self, client: u32, taken: u64) -> u64
        requires clock { client < length self.now.client_clocks }
        requires fits { stamp_over self.now.client_clocks client taken < 2 ^ 64 }
        ensures { result ≡ stamp_over self.now.client_clocks client taken }
    {
        1 + self.client_clocks[client as usize].max(taken)
    }
}
