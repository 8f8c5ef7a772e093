//! A stop of a broker in the midst of an event's durable writes.
ghost use Rattle.std.specs.Prelude.{◌≡◌, ℕ, ◌<◌, ◌+◌, ◌^◌, length, OnErr, OnOk, None, Some, Err};
ghost use Rattle.geo_base.specs.Happening.{halts_planned};
ghost use Rattle.geo_base.specs.Planned.{planned};
ghost use Rattle.geo_base.specs.World.{World as Machine};
ghost use Rattle.world.specs.declared.fault.RunFault.TheVariants as fault;
ghost use Rattle.world.specs.Steps.{IsHalted, IsStopped, Leads};
ghost use Rattle.world.specs.World.{IsAt, IsWithin, SameWorld, kept_of, node_at};
ghost use Rattle.script_text.specs.Scenario.{IsEvent};
ghost use Rattle.links.specs.Queues.{packet_in};
ghost use Rattle.broker.specs.Events.{IsOfNode, NumbersRise};
ghost use Rattle.kept_laws.specs.Events.{IsBrokers};
ghost use Rattle.kept_laws.specs.Standing.{Stands, limit_of};
ghost use Rattle.kept_laws.specs.Reached.{Reached};

use crate::brokers::EVENT_LIMIT;
use crate::fault::RunFault;
use crate::world::{World, node_number};
use geo_base::limits::EVENTS;
use geo_base::{Event, Memory};
use links::Port;
use script_text::Scenario;
use std::alloc::Global;

impl World {
    /// Stops a broker after the first `writes` durable writes of an event of it: what they wrote stays, what is in memory is lost,
    /// nothing is sent, and the packet that the event takes is gone. An `Err` changes nothing of the world: a limit of the run that
    /// the stop would pass, or want of memory.
    pub fn halt(
        &mut self,
        alloc: Global,
        scenario: &Scenario,
        writes: u32,
        event: &Event,
    ) -> Result<(), RunFault>
        requires at { IsAt scenario.now.setup self.old }
        requires broker { IsBrokers event.now }
        requires scripted { IsEvent scenario.now.setup event.now }
        ensures leads { (w : Machine) → Reached scenario.now.setup w → Stands scenario.now.setup (kept_of self.old) w
            → Leads scenario.now.setup self.old self.new (halts_planned scenario.now.setup w writes (planned scenario.now.setup w event.now)) result }
        ensures at { IsAt scenario.now.setup self.new }
        ensures err { OnErr result (SameWorld self.old self.new) }
    {
        let broker_ref = self.broker_ref(scenario, event);
        let number = node_number(scenario, broker_ref.topic, broker_ref.cluster);
        self.one_more()?;
        self.stop_at(alloc, number, writes, event, broker_ref.takes)?;
        Ok(())
    }

    /// Whether one more event is within the limits; it changes nothing.
    #[tactic(auto, using(crate::proofs::Limits::more_events, crate::proofs::Limits::too_many_events))]
    pub(crate) fn one_more(&self) -> Result<(), RunFault>
        requires { IsWithin self.now }
        ensures within { OnOk result (limit_of (self.now.events + 1) self.now.idle self.now.frame_bytes ≡ None) }
        ensures large { (n : ℕ) → result ≡ Err (fault.TooLarge n) → limit_of (self.now.events + 1) self.now.idle self.now.frame_bytes ≡ Some n }
        ensures fits { OnOk result (self.now.events + 1 < 2 ^ 64) }
    {
        if self.counts.events + self.counts.idle >= EVENTS {
            return Err(RunFault::TooLarge(EVENT_LIMIT));
        }
        Ok(())
    }

    /// The stop, with the packet that the event takes; nothing has changed where memory is wanting.
    #[tactic(auto, using(crate::proofs::Halting::stopped))]
    fn stop_at(
        &mut self,
        alloc: Global,
        number: usize,
        writes: u32,
        event: &Event,
        takes: Port,
    ) -> Result<(), Memory>
        requires node { number < length self.old.brokers }
        requires of { IsOfNode (node_at self.old.brokers number) event.now }
        requires numbers { NumbersRise (node_at self.old.brokers number) event.now }
        requires count { self.old.events + 1 < 2 ^ 64 }
        ensures ok { OnOk result (IsStopped number takes event.now writes self.old self.new) }
        ensures err { OnErr result (SameWorld self.old self.new) }
    {
        self.halt_at(alloc, number, writes, event, takes)?;
        let _taken = self.links.take(takes);
        self.counts.events += 1;
        Ok(())
    }

    /// Halts the broker.
    #[tactic(auto, using(crate::proofs::Halting::halts, crate::proofs::Halting::halt_same))]
    fn halt_at(
        &mut self,
        alloc: Global,
        number: usize,
        writes: u32,
        event: &Event,
        takes: Port,
    ) -> Result<(), Memory>
        requires node { number < length self.old.brokers }
        requires of { IsOfNode (node_at self.old.brokers number) event.now }
        requires numbers { NumbersRise (node_at self.old.brokers number) event.now }
        ensures ok { OnOk result (IsHalted number (packet_in self.old.links takes) event.now writes self.old self.new) }
        ensures err { OnErr result (SameWorld self.old self.new) }
    {
        self.brokers[number].halt(alloc, writes, event, self.links.next(takes))
    }
}
