//! A client takes a packet.
ghost use Rattle.std.specs.Prelude.{◌≡◌, ◌<◌, ◌+◌, ◌^◌, length, IfOk, OnErr, OnOk};
ghost use Rattle.client.specs.Counted.{CanCount};
ghost use Rattle.geo_base.specs.declared.event.Event.TheVariants as event;
ghost use Rattle.geo_base.specs.Happening.{happens};
ghost use Rattle.geo_base.specs.World.{World as Machine};
ghost use Rattle.world.specs.ClientSteps.{IsGot, after_got, client_in};
ghost use Rattle.world.specs.Steps.{Leads, stamp_over};
ghost use Rattle.world.specs.World.{AreNodes, IsAt, kept_of};
ghost use Rattle.links.specs.Queues.{packet_in, stamp_of};
ghost use Rattle.kept_laws.specs.Standing.{Stands};
ghost use Rattle.kept_laws.specs.Reached.{Reached};

use crate::fault::RunFault;
use crate::world::World;
use client::ClientSite;
use geo_base::Memory;
use links::{LinkName, Port};
use node_starts::site_of;
use script_text::Scenario;
use std::alloc::Global;

impl World {
    /// A client takes the next packet that the broker of its cluster sent to it, or finds none.
    pub(crate) fn client_gets(
        &mut self,
        alloc: Global,
        scenario: &Scenario,
        client: u32,
    ) -> Result<(), RunFault>
        requires at { IsAt scenario.now.setup self.old }
        requires client { client < length scenario.now.setup.clients }
        ensures leads { (w : Machine) → Reached scenario.now.setup w → Stands scenario.now.setup (kept_of self.old) w
            → Leads scenario.now.setup self.old self.new (happens scenario.now.setup w (event.Get client)) result }
        ensures brokers { AreNodes scenario.now.setup self.new.brokers }
        ensures err { OnErr result (self.new ≡ self.old) }
    {
        self.one_more()?;
        let site = site_of(scenario, client);
        let cluster = self.clients[client as usize].view().cluster;
        let takes = self
            .links
            .port(Some(LinkName::ToClient { client, cluster }));
        let took = self.get_at(alloc, &site, client, takes)?;
        self.counts_get(client, takes, took);
        Ok(())
    }

    /// What a packet does at a client, which stays on its link; whether there was one.
    #[tactic(auto, using(crate::proofs::Getting::got, crate::proofs::Getting::not_got))]
    fn get_at(
        &mut self,
        alloc: Global,
        site: &ClientSite,
        client: u32,
        takes: Port,
    ) -> Result<bool, Memory>
        requires client { client < length self.old.clients }
        requires counts { CanCount (client_in self.old.clients client) }
        ensures ok { IfOk result (IsGot site.now.setup.clusters site.now.declared client (packet_in self.old.links takes) self.old self.new) }
        ensures err { OnErr result (self.new ≡ self.old) }
    {
        self.clients[client as usize].get(alloc, site, self.links.next(takes))
    }

    /// The packet is taken, and the event counted, or the idle one.
    fn counts_get(&mut self, client: u32, takes: Port, took: bool)
        requires clock { client < length self.old.client_clocks }
        requires stamp { stamp_over self.old.client_clocks client (stamp_of (packet_in self.old.links takes)) < 2 ^ 64 }
        requires events { self.old.events + 1 < 2 ^ 64 }
        requires idle { self.old.idle + 1 < 2 ^ 64 }
        ensures { self.new ≡ after_got client takes took self.old }
    {
        if !took {
            self.counts.idle += 1;
            return;
        }
        let stamp = self.client_stamp(client, self.links.stamp(takes));
        let _taken = self.links.take(takes);
        self.client_clocks[client as usize] = stamp;
        self.counts.events += 1;
    }
}
