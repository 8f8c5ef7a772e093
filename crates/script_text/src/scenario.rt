//! What an accepted script says.
ghost use Rattle.std.specs.Prelude.{◌≡◌, slice_get, All, IfOk, IfSome, OnOk};
ghost use Rattle.std.specs.Option.{option_copied};
ghost use Rattle.geo_base.specs.Scripted.{IsScripted};
ghost use Rattle.geo_base.specs.Setup.{sub_names};
ghost use Rattle.script_text.specs.Canonical.{declared_alone};
ghost use Rattle.script_text.specs.Drafts.{IsDeclared};
ghost use Rattle.script_text.specs.Naming.{names_of};
ghost use Rattle.script_text.specs.Rules.{script_with};
ghost use Rattle.script_text.specs.Scenario.{IsChance, IsClient, IsScenario, IsStep};

use crate::chance::Chance;
use crate::client::ClientDecl;
use crate::declarations::Declarations;
use crate::schedule::AT_EVENTS;
use crate::setup::SetupParts;
use crate::step_list::StepList;
use crate::steps::Steps;
use geo_base::{ClusterName, Memory, Sequence, SubName, TopicName};
use script_rows::Names;
use std::alloc::Global;
use std::marker::Model;

/// What a scenario that no text said is made of: how many entries a ledger takes, clusters, topics and clients, each
/// numbered from 0 in its order, and the schedule. Contracts see it as a script without chances and without lines.
#[derive(Drop)]
pub struct ScenarioParts {
    pub per_ledger: u64,
    pub clusters: Sequence<ClusterName>,
    pub topics: Sequence<TopicName>,
    pub clients: Sequence<ClientDecl>,
    pub steps: StepList,
}

impl Model for ScenarioParts {
    ghost use Rattle.script_text.specs.Script.{Script, unsaid};

    ghost Value = { Script };

    ghost view = { λ p. unsaid p.per_ledger p.clusters p.topics p.clients p.steps };
}

/// An accepted script, or what one could declare and schedule: clusters, topics and clients, each numbered from 0 in the script's order, and the schedule.
/// Contracts see it as the definition's script.
#[derive(Drop)]
pub struct Scenario {
    declared: Declarations,
    steps: Steps,
}

impl Model for Scenario {
    ghost use Rattle.script_text.specs.Rules.{script_with};
    ghost use Rattle.script_text.specs.Scenario.{IsScenario};
    ghost use Rattle.script_text.specs.Script.{Script};

    ghost Value = { Script };

    ghost view = { λ s. script_with (record { declared = s.declared; steps = s.steps }) };

    ghost invariant = { λ s. IsScenario (script_with (record { declared = s.declared; steps = s.steps })) };
}

impl Scenario {
    /// The scenario of parts that no text said. An `Err` is want of memory.
    #[tactic(auto, using(crate::proofs::Accepted::declared_scripted))]
    pub fn of_parts(alloc: Global, parts: ScenarioParts) -> Result<Scenario, Memory>
        requires { IsScenario parts }
        ensures { IfOk result (λ scenario. scenario ≡ parts) }
    {
        let ScenarioParts {
            per_ledger,
            clusters,
            topics,
            clients,
            steps,
        } = parts;
        let setup = SetupParts::new(per_ledger, clusters, topics, clients);
        let declared = Declarations::new(alloc, AT_EVENTS, None, setup)?;
        Ok(Scenario::new(declared, Steps::of_list(steps)))
    }

    /// The script of what is declared and of its steps.
    pub(crate) fn new(declared: Declarations, steps: Steps) -> Scenario
        requires { IsScenario (script_with (record { declared = declared; steps = steps })) }
        ensures { result ≡ script_with (record { declared = declared; steps = steps }) }
    {
        Scenario { declared, steps }
    }

    /// What is declared, without a schedule; takes no memory.
    pub fn without_steps(self, alloc: Global) -> Scenario
        ensures { result ≡ declared_alone self.setup self.chance }
    {
        Scenario {
            declared: self.declared,
            steps: Steps::new(alloc),
        }
    }

    /// How many entries a ledger takes.
    pub fn per_ledger(&self) -> u64
        ensures { result ≡ self.now.setup.per_ledger }
    {
        self.declared.setup().per_ledger()
    }

    /// The clusters' names.
    pub fn clusters(&self) -> &[ClusterName]
        ensures names { result.now ≡ self.now.setup.clusters }
        ensures known { IsScripted self.now.setup }
    {
        self.declared.setup().clusters()
    }

    /// The topics' names.
    pub fn topics(&self) -> &[TopicName]
        ensures names { result.now ≡ self.now.setup.topics }
        ensures known { IsScripted self.now.setup }
    {
        self.declared.setup().topics()
    }

    /// The clients.
    pub fn clients(&self) -> &[ClientDecl]
        ensures clients { result.now ≡ self.now.setup.clients }
        ensures known { IsScripted self.now.setup }
        ensures each { All IsClient self.now.setup.clients }
    {
        self.declared.setup().clients()
    }

    /// The name that a number of a subscription of a topic stands for; None exactly where there is none. The names are
    /// numbered from 0 in the order of the topic's clients and, within a client, of its `sub` lines; a name that came
    /// before keeps its number.
    pub fn sub_name(&self, topic: u32, sub: u32) -> Option<&SubName>
        ensures { option_copied result ≡ slice_get (sub_names self.now.setup topic) sub }
    {
        self.declared.sub_names(topic).get(sub as usize)
    }

    /// The chances of a run on threads; None where no line says them.
    pub fn chance(&self) -> Option<Chance>
        ensures chance { result ≡ self.now.chance }
        ensures known { IfSome self.now.chance IsChance }
    {
        self.declared.chance()
    }

    /// The number of the first line that schedules a step; None where there is none, as where no text said the scenario. A run
    /// on threads takes no schedule.
    pub fn first_event(&self) -> Option<u64>
        ensures { result ≡ self.now.first_event }
    {
        self.steps.first()
    }

    /// The schedule.
    pub fn steps(&self) -> &StepList
        ensures steps { result.now ≡ self.now.steps }
        ensures each { All (IsStep self.now.setup) self.now.steps }
    {
        self.steps.list()
    }

    /// What the events of the script may name. `Memory` comes where memory is wanting.
    pub fn names(&self, alloc: Global) -> Result<Names<'_>, Memory>
        ensures names { IfOk result (λ names. names ≡ names_of self.now.setup) }
        ensures known { OnOk result (IsDeclared self.now.setup) }
        ensures whole { OnOk result (IsScenario self.now) }
    {
        self.declared.names(alloc)
    }
}
