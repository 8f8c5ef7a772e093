//! The steps of a run in the telling: what the world's one loop asks of them.
ghost use Rattle.std.specs.Prelude.{◌≡◌, [], OnOk};
ghost use Rattle.step_lines.specs.Telling.{Rises};
ghost use Rattle.step_lines.specs.Texts.{telling_of};

use crate::backlog_rows::BacklogRows;
use crate::heads::Indent;
use crate::noted::NotedBroker;
use crate::telling::Telling;
use broker_state::Plan;
use geo_base::{Blob, Event, Memory};
use report_lines::add_head_line;
use script_rows::Names;
use script_text::{SaidLines, Scenario};
use std::alloc::Global;
use world::{Observer, RunFault, World};

/// The lines so far, a plan, in which events of brokers are prepared one after another, and what is noted of the broker at hand, its replicators
/// alone where its entries and its subscriptions rest in the event: the plan's queues and the notes keep their memory.
#[derive(Drop)]
pub struct Steps<'a> {
    pub(crate) telling: Telling<'a>,
    pub(crate) plan: Plan,
    pub(crate) noted: NotedBroker,
    pub(crate) rests: bool,
    pub(crate) backlogs: BacklogRows,
}

impl<'a> Steps<'a> {
    /// Steps after a text, which goes before their lines, of a run whose names these are, and whose steps these lines say, from its first
    /// on. It takes no memory.
    pub fn behind(alloc: Global, text: Blob, names: Names<'a>, said: SaidLines<'a>) -> Steps<'a>
        ensures seen { telling_of result.telling ≡ record { text = text; number = 0; said = said.entry } }
        ensures names { result.telling.names ≡ names.entry }
        ensures backlogs { result.backlogs ≡ [] }
    {
        Steps {
            telling: Telling {
                text,
                number: 0,
                said,
                names,
            },
            plan: Plan::new(alloc),
            noted: NotedBroker::new(alloc),
            rests: false,
            backlogs: BacklogRows::new(alloc),
        }
    }

    /// The text.
    pub fn into_text(self) -> Blob
        ensures { result ≡ self.entry.telling.text }
    {
        self.telling.text
    }
}

impl<'a> Observer for Steps<'a> {
    ghost use Rattle.step_lines.specs.Backlogs.{KnowsSteps};
    ghost use Rattle.step_lines.specs.Telling.{Telling, told_steps};
    ghost use Rattle.step_lines.specs.Texts.{telling_of};

    ghost Seen = { Telling };

    ghost seen = { λ o. telling_of o.telling };

    ghost sight = { told_steps };

    ghost knows = { λ o s bs. KnowsSteps s o.telling.names o.telling.number o.telling.said o.backlogs bs };

    fn event(
        &mut self,
        alloc: Global,
        world: &mut World,
        scenario: &Scenario,
        event: &Event,
    ) -> Result<(), RunFault> {
        match *event {
            Event::Go { client } | Event::Get { client } | Event::Reconnect { client } => {
                self.client_event(alloc, world, scenario, client, event)
            }
            _ => self.broker_event(alloc, world, scenario, event),
        }
    }

    fn halt(
        &mut self,
        alloc: Global,
        world: &mut World,
        scenario: &Scenario,
        writes: u32,
        event: &Event,
    ) -> Result<(), RunFault> {
        self.stop_of_broker(alloc, world, scenario, writes, event)
    }

    fn stop(
        &mut self,
        alloc: Global,
        world: &mut World,
        scenario: &Scenario,
    ) -> Result<(), RunFault> {
        self.stop_of_all(alloc, world, scenario)
    }

    fn settles(&mut self, _world: &World, _scenario: &Scenario) -> Result<(), Memory> {
        self.telling.add_step(false)
    }

    fn settling(
        &mut self,
        alloc: Global,
        world: &mut World,
        scenario: &Scenario,
        event: &Event,
    ) -> Result<(), RunFault> {
        let _enabled = self.acts(alloc, world, scenario, event, Indent::Event)?;
        Ok(())
    }

    fn settled(&mut self, world: &World, _scenario: &Scenario) -> Result<(), Memory> {
        let counts = world.counts();
        self.telling.text.append(b"  ")?;
        add_head_line(
            &mut self.telling.text,
            counts.events,
            counts.idle,
            counts.rounds,
        )
    }
}
