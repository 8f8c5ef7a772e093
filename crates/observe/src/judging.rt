//! The judge: all rules over all topics and clusters.
ghost use Rattle.std.specs.Prelude.{◌≡◌, ◌<◌, ◌++◌, length, IfOk, OnOk};
ghost use Rattle.observation.specs.Findings.{by_cluster, by_topic, by_topic_and_cluster, findings_of, lost, skipped, told};
ghost use Rattle.observe.specs.Rules.{found_at};
ghost use Rattle.observe.specs.Topics.{AreSized, IsOf};

use crate::logs::Logs;
use crate::observed::{At, Observed, cluster_count, topic_count};
use crate::skipped::find_skipped;
use crate::told::Updates;
use geo_base::Memory;
use observation::Finding;
use script_text::Scenario;
use std::alloc::Global;

/// The rules of a topic at a cluster that need no logs, in the order in which what they find is told.
#[derive(Clone, Copy, Drop)]
pub(crate) enum Rule {
    Twice,
    Brought,
    Apart,
    Unreceived,
    Cuts,
}

/// All that is found against an observation of a scenario's topics: rule by rule, in each by topics, clusters and indexes. An `Err` is want of
/// memory.
#[tactic(auto, unfolding(observation::specs::Findings::findings_of), using(crate::proofs::Each::eight_found))]
pub fn judge(
    alloc: Global,
    scenario: &Scenario,
    observed: &Observed,
) -> Result<Vec<Finding>, Memory>
    requires { IsOf scenario.now.setup observed.now }
    ensures { IfOk result (λ found. found.items ≡ findings_of scenario.now.setup observed.now) }
{
    let mut found = Vec::new(alloc);
    observed.find_all_lost(alloc, scenario, &mut found)?;
    observed.find_all(alloc, scenario, Rule::Twice, &mut found)?;
    observed.find_all(alloc, scenario, Rule::Brought, &mut found)?;
    observed.find_all(alloc, scenario, Rule::Apart, &mut found)?;
    observed.find_all(alloc, scenario, Rule::Unreceived, &mut found)?;
    observed.find_all(alloc, scenario, Rule::Cuts, &mut found)?;
    find_all_told(alloc, scenario, observed, &mut found)?;
    find_all_skipped(alloc, scenario, observed, &mut found)?;
    Ok(found)
}

impl Observed {
    /// Adds for each topic what is lost.
    fn find_all_lost(
        &self,
        alloc: Global,
        scenario: &Scenario,
        found: &mut Vec<Finding>,
    ) -> Result<(), Memory>
        requires { IsOf scenario.now.setup self.now }
        ensures { OnOk result (found.new.items ≡ found.old.items ++ by_topic scenario.now.setup (lost scenario.now.setup self.now)) }
    {
        for topic in 0..topic_count(scenario) {
            self.find_lost(alloc, scenario, topic, found)?;
        }
        Ok(())
    }

    /// Adds for each topic at each cluster what a rule finds.
    fn find_all(
        &self,
        alloc: Global,
        scenario: &Scenario,
        rule: Rule,
        found: &mut Vec<Finding>,
    ) -> Result<(), Memory>
        requires { AreSized scenario.now.setup self.now }
        ensures { OnOk result (found.new.items ≡ found.old.items ++ by_topic_and_cluster scenario.now.setup (found_at scenario.now.setup self.now rule)) }
    {
        for topic in 0..topic_count(scenario) {
            self.find_in(alloc, scenario, rule, topic, found)?;
        }
        Ok(())
    }

    /// Adds for a topic at each cluster what a rule finds.
    fn find_in(
        &self,
        alloc: Global,
        scenario: &Scenario,
        rule: Rule,
        topic: u32,
        found: &mut Vec<Finding>,
    ) -> Result<(), Memory>
        requires sized { AreSized scenario.now.setup self.now }
        requires topic { topic < length scenario.now.setup.topics }
        ensures { OnOk result (found.new.items ≡ found.old.items ++ by_cluster scenario.now.setup (found_at scenario.now.setup self.now rule topic)) }
    {
        for cluster in 0..cluster_count(scenario) {
            self.find_at(alloc, scenario, rule, At { topic, cluster }, found)?;
        }
        Ok(())
    }

    /// Adds what a rule finds for a topic at a cluster.
    fn find_at(
        &self,
        alloc: Global,
        scenario: &Scenario,
        rule: Rule,
        at: At,
        found: &mut Vec<Finding>,
    ) -> Result<(), Memory>
        requires sized { AreSized scenario.now.setup self.now }
        requires topic { at.topic < length scenario.now.setup.topics }
        requires cluster { at.cluster < length scenario.now.setup.clusters }
        ensures { OnOk result (found.new.items ≡ found.old.items ++ found_at scenario.now.setup self.now rule at.topic at.cluster) }
    {
        match rule {
            Rule::Twice => self.find_twice(alloc, scenario, at, found),
            Rule::Brought => self.find_all_brought(scenario, at, found),
            Rule::Apart => self.find_all_apart(scenario, at, found),
            Rule::Unreceived => self.find_all_unreceived(scenario, at, found),
            Rule::Cuts => self.find_cuts(alloc, scenario, at, found),
        }
    }
}

/// Adds for each topic at each cluster which updates tell what nobody dealt with.
fn find_all_told(
    alloc: Global,
    scenario: &Scenario,
    observed: &Observed,
    found: &mut Vec<Finding>,
) -> Result<(), Memory>
    requires { IsOf scenario.now.setup observed.now }
    ensures { OnOk result (found.new.items ≡ found.old.items ++ by_topic_and_cluster scenario.now.setup (told scenario.now.setup observed.now)) }
{
    for topic in 0..topic_count(scenario) {
        let logs = Logs::of(alloc, scenario, observed, topic)?;
        find_told_in(alloc, &logs, found)?;
    }
    Ok(())
}

/// Adds those of one topic.
fn find_told_in(alloc: Global, logs: &Logs<'_>, found: &mut Vec<Finding>) -> Result<(), Memory>
    ensures { OnOk result (found.new.items ≡ found.old.items ++ by_cluster logs.now.setup (told logs.now.setup logs.now.observed logs.now.topic)) }
{
    let mut updates = Updates::new(alloc, logs);
    for cluster in 0..logs.clusters() {
        updates.find_told(alloc, cluster, found)?;
    }
    Ok(())
}

/// Adds for each topic at each cluster what its cursors skip.
fn find_all_skipped(
    alloc: Global,
    scenario: &Scenario,
    observed: &Observed,
    found: &mut Vec<Finding>,
) -> Result<(), Memory>
    requires { IsOf scenario.now.setup observed.now }
    ensures { OnOk result (found.new.items ≡ found.old.items ++ by_topic_and_cluster scenario.now.setup (skipped scenario.now.setup observed.now)) }
{
    for topic in 0..topic_count(scenario) {
        let logs = Logs::of(alloc, scenario, observed, topic)?;
        find_skipped_in(alloc, &logs, found)?;
    }
    Ok(())
}

/// Adds those of one topic.
fn find_skipped_in(alloc: Global, logs: &Logs<'_>, found: &mut Vec<Finding>) -> Result<(), Memory>
    ensures { OnOk result (found.new.items ≡ found.old.items ++ by_cluster logs.now.setup (skipped logs.now.setup logs.now.observed logs.now.topic)) }
{
    for cluster in 0..logs.clusters() {
        find_skipped(alloc, logs, cluster, found)?;
    }
    Ok(())
}
