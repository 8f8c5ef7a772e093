//! An event with what it changed: its node is noted before it, and told after it.
ghost use Rattle.std.specs.Prelude.{◌≡◌, ◌==◌, ℕ, ◌<◌, false, true, length, Err, Ok, OnErr, OnOk};
ghost use Rattle.geo_base.specs.Broker.{Broker as Machine};
ghost use Rattle.geo_base.specs.Client.{Client as MachineClient};
ghost use Rattle.geo_base.specs.Happening.{halts_planned, happens};
ghost use Rattle.geo_base.specs.Planned.{planned};
ghost use Rattle.geo_base.specs.Setup.{declared_at};
ghost use Rattle.geo_base.specs.World.{World as MachineWorld, node};
ghost use Rattle.script_text.specs.Scenario.{IsEvent};
ghost use Rattle.step_laws.specs.Steps.{did_or_idle};
ghost use Rattle.step_lines.specs.Backlogs.{AreBacklogs, MayFollow};
ghost use Rattle.step_lines.specs.Noted.{noted_client};
ghost use Rattle.step_lines.specs.Resting.{IsSeen, MayRest, are_apart};
ghost use Rattle.step_lines.specs.Telling.{IsActed, IsClients, IsTelling, client_step, tells_at, tells_step};
ghost use Rattle.step_lines.specs.Texts.{telling_of};
ghost use Rattle.world.specs.ClientSteps.{client_in};
ghost use Rattle.world.specs.declared.fault.RunFault.TheVariants as fault;
ghost use Rattle.world.specs.Steps.{Acts, IsBrokerOf, IsLater, Leads};
ghost use Rattle.world.specs.World.{IsAt, SameWorld, kept_of, node_at};
ghost use Rattle.kept_laws.specs.Events.{IsBrokers, node_of};
ghost use Rattle.kept_laws.specs.Reached.{Reached};
ghost use Rattle.kept_laws.specs.Standing.{Stands};

use crate::broker_changes::{add_broker_changes, add_replicator_changes};
use crate::client_changes::add_client_changes;
use crate::heads::{Indent, topic_name};
use crate::noted::{NotedClient, client_of};
use crate::replicator_writes::writes_replicators_alone;
use crate::steps::Steps;
use crate::sub_names::are_apart;
use geo_base::{Event, Memory};
use script_text::{ClientDecl, Scenario};
use std::alloc::Global;
use world::{BrokerRef, RunFault, World};

impl<'a> Steps<'a> {
    /// An event of a client, and what it changed there.
    pub(crate) fn client_event(
        &mut self,
        alloc: Global,
        world: &mut World,
        scenario: &Scenario,
        client: u32,
        event: &Event,
    ) -> Result<(), RunFault>
        requires at { IsAt scenario.now.setup world.old }
        requires knows { IsTelling scenario.now.setup self.old.telling.names self.old.telling.number self.old.telling.said }
        requires backlogs { AreBacklogs self.old.backlogs (kept_of world.old).brokers }
        requires client { IsClients client event.now }
        requires scripted { IsEvent scenario.now.setup event.now }
        ensures told { (w : MachineWorld) → Reached scenario.now.setup w → Stands scenario.now.setup (kept_of world.old) w
            → OnOk result (telling_of self.new.telling ≡ tells_step scenario.now.setup (telling_of self.old.telling) (did_or_idle scenario.now.setup w (happens scenario.now.setup w event.now) event.now)) }
        ensures leads { (w : MachineWorld) → Reached scenario.now.setup w → Stands scenario.now.setup (kept_of world.old) w
            → Leads scenario.now.setup world.old world.new (happens scenario.now.setup w event.now) result }
        ensures at { IsAt scenario.now.setup world.new }
        ensures knows { OnOk result (IsTelling scenario.now.setup self.new.telling.names self.new.telling.number self.new.telling.said) }
        ensures backlogs { OnOk result (AreBacklogs self.new.backlogs (kept_of world.new).brokers) }
        ensures past { (n : ℕ) → result ≡ Err (fault.TooLarge n) → SameWorld world.old world.new }
    {
        let before = world.events();
        let noted = client_of(world.client(client));
        world.event(alloc, scenario, event)?;
        self.tell_client(world, scenario, client, before, &noted)?;
        Ok(())
    }

    /// What an event changed at the client that was noted, after so many events.
    fn tell_client(
        &mut self,
        world: &World,
        scenario: &Scenario,
        client: u32,
        before: u64,
        noted: &NotedClient,
    ) -> Result<(), Memory>
        requires declared { client < length scenario.now.setup.clients }
        requires client { client < length world.now.clients }
        requires knows { IsTelling scenario.now.setup self.old.telling.names self.old.telling.number self.old.telling.said }
        ensures told { (k : MachineClient) → noted.now ≡ noted_client k
            → OnOk result (telling_of self.new.telling ≡ tells_step scenario.now.setup (telling_of self.old.telling) (client_step scenario.now.setup client (world.now.events == before) k (client_in world.now.clients client))) }
        ensures knows { IsTelling scenario.now.setup self.new.telling.names self.new.telling.number self.new.telling.said }
        ensures backlogs { self.new.backlogs ≡ self.old.backlogs }
    {
        if world.events() == before {
            return self.telling.add_step(true);
        }
        self.telling.add_step(false)?;
        let declared = declared_at(scenario, client);
        let now = world.client(client);
        add_client_changes(&mut self.telling.text, scenario, declared, now, noted)
    }

    /// An event of a broker, which is counted where it is idle.
    pub(crate) fn broker_event(
        &mut self,
        alloc: Global,
        world: &mut World,
        scenario: &Scenario,
        event: &Event,
    ) -> Result<(), RunFault>
        requires at { IsAt scenario.now.setup world.old }
        requires knows { IsTelling scenario.now.setup self.old.telling.names self.old.telling.number self.old.telling.said }
        requires backlogs { AreBacklogs self.old.backlogs (kept_of world.old).brokers }
        requires broker { IsBrokers event.now }
        requires scripted { IsEvent scenario.now.setup event.now }
        ensures told { (w : MachineWorld) → Reached scenario.now.setup w → Stands scenario.now.setup (kept_of world.old) w
            → OnOk result (telling_of self.new.telling ≡ tells_step scenario.now.setup (telling_of self.old.telling) (did_or_idle scenario.now.setup w (happens scenario.now.setup w event.now) event.now)) }
        ensures leads { (w : MachineWorld) → Reached scenario.now.setup w → Stands scenario.now.setup (kept_of world.old) w
            → Leads scenario.now.setup world.old world.new (happens scenario.now.setup w event.now) result }
        ensures at { IsAt scenario.now.setup world.new }
        ensures knows { OnOk result (IsTelling scenario.now.setup self.new.telling.names self.new.telling.number self.new.telling.said) }
        ensures backlogs { OnOk result (AreBacklogs self.new.backlogs (kept_of world.new).brokers) }
        ensures past { (n : ℕ) → result ≡ Err (fault.TooLarge n) → SameWorld world.old world.new }
    {
        if self.acts(alloc, world, scenario, event, Indent::Step)? {
            return Ok(());
        }
        self.telling.add_step(true)?;
        world.idles()
    }

    /// An event of a broker, which is done where it is enabled, and what it changed there; whether it was.
    pub(crate) fn acts(
        &mut self,
        alloc: Global,
        world: &mut World,
        scenario: &Scenario,
        event: &Event,
        indent: Indent,
    ) -> Result<bool, RunFault>
        requires at { IsAt scenario.now.setup world.old }
        requires knows { IsTelling scenario.now.setup self.old.telling.names self.old.telling.number self.old.telling.said }
        requires backlogs { AreBacklogs self.old.backlogs (kept_of world.old).brokers }
        requires broker { IsBrokers event.now }
        requires scripted { IsEvent scenario.now.setup event.now }
        ensures told { (w : MachineWorld) → Reached scenario.now.setup w → Stands scenario.now.setup (kept_of world.old) w
            → IsActed indent scenario.now.setup w event.now (telling_of self.old.telling) (telling_of self.new.telling) result }
        ensures acts { (w : MachineWorld) → Reached scenario.now.setup w → Stands scenario.now.setup (kept_of world.old) w
            → Acts scenario.now.setup world.old world.new (happens scenario.now.setup w event.now) result }
        ensures at { IsAt scenario.now.setup world.new }
        ensures later { IsLater world.old world.new }
        ensures knows { IsTelling scenario.now.setup self.new.telling.names self.new.telling.number self.new.telling.said }
        ensures backlogs { OnOk result (AreBacklogs self.new.backlogs (kept_of world.new).brokers) }
        ensures idle { result ≡ Ok false → SameWorld world.old world.new }
        ensures past { (n : ℕ) → result ≡ Err (fault.TooLarge n) → SameWorld world.old world.new }
    {
        let broker_ref = world.broker_ref(scenario, event);
        self.plan.clear();
        let is_ready = world.prepare(alloc, scenario, event, broker_ref, &mut self.plan)?;
        if !is_ready {
            return Ok(false);
        }
        let may_rest = writes_replicators_alone(&self.plan);
        self.note(alloc, world, scenario, event, broker_ref, may_rest)?;
        self.follow(alloc, world, scenario, event, broker_ref)?;
        world.finish(alloc, scenario, event, broker_ref, &mut self.plan)?;
        self.tell_event(alloc, world, scenario, event, broker_ref, indent)?;
        Ok(true)
    }

    /// A stop of a broker after the first `writes` durable writes of an event, and what it changed there.
    pub(crate) fn stop_of_broker(
        &mut self,
        alloc: Global,
        world: &mut World,
        scenario: &Scenario,
        writes: u32,
        event: &Event,
    ) -> Result<(), RunFault>
        requires at { IsAt scenario.now.setup world.old }
        requires knows { IsTelling scenario.now.setup self.old.telling.names self.old.telling.number self.old.telling.said }
        requires backlogs { AreBacklogs self.old.backlogs (kept_of world.old).brokers }
        requires broker { IsBrokers event.now }
        requires scripted { IsEvent scenario.now.setup event.now }
        ensures told { (w : MachineWorld) → Reached scenario.now.setup w → Stands scenario.now.setup (kept_of world.old) w
            → OnOk result (telling_of self.new.telling ≡ tells_step scenario.now.setup (telling_of self.old.telling) (did_or_idle scenario.now.setup w (halts_planned scenario.now.setup w writes (planned scenario.now.setup w event.now)) event.now)) }
        ensures leads { (w : MachineWorld) → Reached scenario.now.setup w → Stands scenario.now.setup (kept_of world.old) w
            → Leads scenario.now.setup world.old world.new (halts_planned scenario.now.setup w writes (planned scenario.now.setup w event.now)) result }
        ensures at { IsAt scenario.now.setup world.new }
        ensures knows { OnOk result (IsTelling scenario.now.setup self.new.telling.names self.new.telling.number self.new.telling.said) }
        ensures backlogs { OnOk result (AreBacklogs self.new.backlogs (kept_of world.new).brokers) }
        ensures past { (n : ℕ) → result ≡ Err (fault.TooLarge n) → SameWorld world.old world.new }
    {
        let broker_ref = world.broker_ref(scenario, event);
        self.note(alloc, world, scenario, event, broker_ref, false)?;
        self.backlogs.forget(number_of(scenario, broker_ref));
        world.halt(alloc, scenario, writes, event)?;
        self.tell_event(alloc, world, scenario, event, broker_ref, Indent::Step)?;
        Ok(())
    }

    /// Notes the broker of an event, its replicators alone where it may rest and no two of its subscriptions have one name.
    fn note(
        &mut self,
        alloc: Global,
        world: &World,
        scenario: &Scenario,
        event: &Event,
        broker_ref: BrokerRef,
        may_rest: bool,
    ) -> Result<(), Memory>
        requires at { IsAt scenario.now.setup world.now }
        requires broker { IsBrokers event.now }
        requires scripted { IsEvent scenario.now.setup event.now }
        requires broker_ref { IsBrokerOf scenario.now.setup event.now broker_ref }
        requires backlogs { AreBacklogs self.old.backlogs (kept_of world.now).brokers }
        ensures noted { OnOk result (IsSeen self.new.rests (length scenario.now.setup.clusters) (node_at world.now.brokers (node_of scenario.now.setup event.now)).broker self.new.noted) }
        ensures rests { self.new.rests ≡ true → (may_rest ≡ true) × (are_apart (node_at world.now.brokers (node_of scenario.now.setup event.now)).broker.subs ≡ true) }
        ensures telling { self.new.telling ≡ self.old.telling }
        ensures plan { self.new.plan ≡ self.old.plan }
        ensures has { OnOk result (self.new.rests ≡ false → node_of scenario.now.setup event.now < length self.new.backlogs) }
        ensures backlogs { OnOk result (AreBacklogs self.new.backlogs (kept_of world.now).brokers) }
    {
        let broker = world.topic(scenario, broker_ref.topic, broker_ref.cluster);
        self.rests = may_rest && are_apart(broker);
        if self.rests {
            return self.noted.note_replicators(broker);
        }
        let number = number_of(scenario, broker_ref);
        self.backlogs.know(alloc, number, broker)?;
        self.noted.note(alloc, broker, self.backlogs.counts(number))
    }

    /// Counts the backlogs of an event's broker on over the event, which is prepared, unless they rest.
    fn follow(
        &mut self,
        alloc: Global,
        world: &World,
        scenario: &Scenario,
        event: &Event,
        broker_ref: BrokerRef,
    ) -> Result<(), Memory>
        requires at { IsAt scenario.now.setup world.now }
        requires broker { IsBrokers event.now }
        requires scripted { IsEvent scenario.now.setup event.now }
        requires broker_ref { IsBrokerOf scenario.now.setup event.now broker_ref }
        requires has { self.old.rests ≡ false → node_of scenario.now.setup event.now < length self.old.backlogs }
        requires backlogs { AreBacklogs self.old.backlogs (kept_of world.now).brokers }
        ensures followed { (per : ℕ) → OnOk result (MayFollow self.old.rests (node_of scenario.now.setup event.now) per (node_at world.now.brokers (node_of scenario.now.setup event.now)).broker self.old.plan self.old.backlogs self.new.backlogs) }
        ensures telling { self.new.telling ≡ self.old.telling }
        ensures plan { self.new.plan ≡ self.old.plan }
        ensures noted { self.new.noted ≡ self.old.noted }
        ensures rests { self.new.rests ≡ self.old.rests }
    {
        if self.rests {
            return Ok(());
        }
        let broker = world.topic(scenario, broker_ref.topic, broker_ref.cluster);
        let number = number_of(scenario, broker_ref);
        self.backlogs.follow(alloc, number, broker, &self.plan)
    }

    /// The head of an event that was done, and what it changed at the broker that was noted.
    fn tell_event(
        &mut self,
        alloc: Global,
        world: &World,
        scenario: &Scenario,
        event: &Event,
        broker_ref: BrokerRef,
        indent: Indent,
    ) -> Result<(), Memory>
        requires at { IsAt scenario.now.setup world.now }
        requires knows { IsTelling scenario.now.setup self.old.telling.names self.old.telling.number self.old.telling.said }
        requires broker { IsBrokers event.now }
        requires scripted { IsEvent scenario.now.setup event.now }
        requires broker_ref { IsBrokerOf scenario.now.setup event.now broker_ref }
        requires noted { length self.old.noted.replicators.items ≡ length scenario.now.setup.clusters }
        requires backlogs { AreBacklogs self.old.backlogs (kept_of world.now).brokers }
        ensures told { (b : Machine) → IsSeen self.old.rests (length scenario.now.setup.clusters) b self.old.noted
            → MayRest self.old.rests b (node_at world.now.brokers (node_of scenario.now.setup event.now)).broker
            → OnOk result (telling_of self.new.telling ≡ tells_at indent scenario.now.setup world.now.events event.now b (node_at world.now.brokers (node_of scenario.now.setup event.now)).broker (telling_of self.old.telling)) }
        ensures knows { IsTelling scenario.now.setup self.new.telling.names self.new.telling.number self.new.telling.said }
        ensures backlogs { OnOk result (AreBacklogs self.new.backlogs (kept_of world.now).brokers) }
    {
        self.telling.begin(alloc, indent, world.events(), event)?;
        let topic = topic_name(scenario.topics(), broker_ref.topic);
        let broker = world.topic(scenario, broker_ref.topic, broker_ref.cluster);
        if self.rests {
            let noted = self.noted.replicators.as_slice();
            return add_replicator_changes(&mut self.telling.text, indent, topic, broker, noted);
        }
        let number = number_of(scenario, broker_ref);
        self.backlogs.know(alloc, number, broker)?;
        let backlogs = self.backlogs.counts(number);
        add_broker_changes(
            &mut self.telling.text,
            indent,
            topic,
            broker,
            &self.noted,
            backlogs,
        )
    }
}

/// The number of a broker among all.
fn number_of(scenario: &Scenario, broker_ref: BrokerRef) -> usize
    requires topic { broker_ref.topic < length scenario.now.setup.topics }
    requires cluster { broker_ref.cluster < length scenario.now.setup.clusters }
    ensures { result ≡ node scenario.now.setup broker_ref.topic broker_ref.cluster }
{
    broker_ref.topic as usize * scenario.clusters().len() + broker_ref.cluster as usize
}

/// What is declared of a client.
fn declared_at(scenario: &Scenario, client: u32) -> &ClientDecl
    requires { client < length scenario.now.setup.clients }
    ensures { result.now ≡ declared_at scenario.entry.now.setup client }
{
    &scenario.clients()[client as usize]
}
