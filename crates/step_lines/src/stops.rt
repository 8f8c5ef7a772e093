//! A stop of everything with what it changed at each broker.
ghost use Rattle.std.specs.Prelude.{◌≡◌, ℕ, ◌<◌, ◌++◌, List, length, Err, IfOk, OnErr, OnOk};
ghost use Rattle.broker.specs.Node.{BrokerView};
ghost use Rattle.geo_base.specs.Happening.{stops};
ghost use Rattle.geo_base.specs.World.{World as MachineWorld};
ghost use Rattle.step_laws.specs.Steps.{Did, changed_in};
ghost use Rattle.step_lines.specs.declared.heads.Indent.TheVariants as indent;
ghost use Rattle.step_lines.specs.Backlogs.{AreBacklogs};
ghost use Rattle.step_lines.specs.Changes.{stood_lines};
ghost use Rattle.step_lines.specs.Stops.{AreNoted, AreNotedTopics, AreTopics, AreWhole, clusters_told, topics_told};
ghost use Rattle.step_lines.specs.Telling.{IsTelling, tells_step};
ghost use Rattle.step_lines.specs.Texts.{telling_of};
ghost use Rattle.world.specs.declared.fault.RunFault.TheVariants as fault;
ghost use Rattle.world.specs.Steps.{Leads};
ghost use Rattle.world.specs.World.{AreNodes, IsAt, SameWorld, kept_of};
ghost use Rattle.kept_laws.specs.Reached.{Reached};
ghost use Rattle.kept_laws.specs.Standing.{Stands};

use crate::backlogs::add_backlogs;
use crate::broker_changes::add_broker_changes;
use crate::heads::{Indent, topic_name};
use crate::noted::NotedBroker;
use crate::steps::Steps;
use geo_base::{Blob, Memory};
use script_text::Scenario;
use std::alloc::Global;
use world::{RunFault, World};

/// What is noted of a topic's brokers, by the clusters' numbers.
#[derive(Drop)]
pub struct NotedTopic {
    pub brokers: Vec<NotedBroker>,
}

impl<'a> Steps<'a> {
    /// A stop of everything, and what it changed.
    pub(crate) fn stop_of_all(
        &mut self,
        alloc: Global,
        world: &mut World,
        scenario: &Scenario,
    ) -> Result<(), RunFault>
        requires at { IsAt scenario.now.setup world.old }
        requires knows { IsTelling scenario.now.setup self.old.telling.names self.old.telling.number self.old.telling.said }
        ensures told { (w : MachineWorld) → Reached scenario.now.setup w → Stands scenario.now.setup (kept_of world.old) w
            → OnOk result (telling_of self.new.telling ≡ tells_step scenario.now.setup (telling_of self.old.telling) (Did (changed_in scenario.now.setup w (stops scenario.now.setup w) 0 scenario.now.setup.topics))) }
        ensures leads { (w : MachineWorld) → Reached scenario.now.setup w → Stands scenario.now.setup (kept_of world.old) w
            → Leads scenario.now.setup world.old world.new (stops scenario.now.setup w) result }
        ensures at { IsAt scenario.now.setup world.new }
        ensures knows { OnOk result (IsTelling scenario.now.setup self.new.telling.names self.new.telling.number self.new.telling.said) }
        ensures backlogs { OnOk result (AreBacklogs self.new.backlogs (kept_of world.new).brokers) }
        ensures past { (n : ℕ) → result ≡ Err (fault.TooLarge n) → SameWorld world.old world.new }
    {
        let noted = noted_topics(alloc, world, scenario)?;
        world.stop(alloc, scenario)?;
        self.backlogs.forget_all();
        self.telling.add_step(false)?;
        add_topics(
            alloc,
            &mut self.telling.text,
            world,
            scenario,
            noted.as_slice(),
        )?;
        Ok(())
    }
}

/// Notes all brokers, topic by topic.
#[tactic(auto, using(crate::proofs::AllBrokers::no_topics))]
fn noted_topics(
    alloc: Global,
    world: &World,
    scenario: &Scenario,
) -> Result<Vec<NotedTopic>, Memory>
    requires { AreNodes scenario.now.setup world.now.brokers }
    ensures { IfOk result (λ noted. AreNotedTopics scenario.now.setup world.now.brokers (length scenario.now.setup.topics) noted.items) }
{
    let mut topics = Vec::new(alloc);
    for topic in 0..scenario.topics().len() {
        topics.push(noted_topic(alloc, world, scenario, topic as u32)?)?;
    }
    Ok(topics)
}

/// Notes the brokers of a topic.
#[tactic(auto, using(crate::proofs::AllBrokers::none_noted))]
fn noted_topic(
    alloc: Global,
    world: &World,
    scenario: &Scenario,
    topic: u32,
) -> Result<NotedTopic, Memory>
    requires brokers { AreNodes scenario.now.setup world.now.brokers }
    requires topic { topic < length scenario.now.setup.topics }
    ensures { IfOk result (λ noted. AreNoted scenario.now.setup world.now.brokers topic (length scenario.now.setup.clusters) noted.brokers.items) }
{
    let mut brokers = Vec::new(alloc);
    for cluster in 0..scenario.clusters().len() {
        let mut noted = NotedBroker::new(alloc);
        let broker = world.topic(scenario, topic, cluster as u32);
        let mut backlogs = Vec::new(alloc);
        add_backlogs(&mut backlogs, broker)?;
        noted.note(alloc, broker, backlogs.as_slice())?;
        drop(backlogs);
        brokers.push(noted)?;
    }
    Ok(NotedTopic { brokers })
}

/// Appends what is other at all brokers than it was noted.
fn add_topics(
    alloc: Global,
    lines: &mut Blob,
    world: &World,
    scenario: &Scenario,
    noted: &[NotedTopic],
) -> Result<(), Memory>
    requires brokers { AreNodes scenario.now.setup world.now.brokers }
    requires topics { AreTopics scenario.now.setup noted.now }
    ensures { (bs : List BrokerView) → AreNotedTopics scenario.now.setup bs (length scenario.now.setup.topics) noted.now
        → OnOk result (lines.new ≡ lines.old ++ stood_lines indent.Step (topics_told scenario.now.setup bs world.now.brokers 0 scenario.now.setup.topics)) }
{
    for topic in 0..scenario.topics().len() {
        let brokers = noted[topic].brokers.as_slice();
        add_topic(alloc, lines, world, scenario, topic as u32, brokers)?;
    }
    Ok(())
}

/// Appends what is other at the brokers of a topic.
fn add_topic(
    alloc: Global,
    lines: &mut Blob,
    world: &World,
    scenario: &Scenario,
    topic: u32,
    noted: &[NotedBroker],
) -> Result<(), Memory>
    requires brokers { AreNodes scenario.now.setup world.now.brokers }
    requires topic { topic < length scenario.now.setup.topics }
    requires noted { AreWhole (length scenario.now.setup.clusters) noted.now }
    ensures { (bs : List BrokerView) → AreNoted scenario.now.setup bs topic (length scenario.now.setup.clusters) noted.now
        → OnOk result (lines.new ≡ lines.old ++ stood_lines indent.Step (clusters_told scenario.now.setup bs world.now.brokers topic 0 scenario.now.setup.clusters)) }
{
    let name = topic_name(scenario.topics(), topic);
    for cluster in 0..scenario.clusters().len() {
        let broker = world.topic(scenario, topic, cluster as u32);
        let mut backlogs = Vec::new(alloc);
        add_backlogs(&mut backlogs, broker)?;
        add_broker_changes(
            lines,
            Indent::Step,
            name,
            broker,
            &noted[cluster],
            backlogs.as_slice(),
        )?;
        drop(backlogs);
    }
    Ok(())
}
