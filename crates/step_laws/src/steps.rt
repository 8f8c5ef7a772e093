//! A reader of a run's steps who keeps the last line of each thing has the report.
ghost use Rattle.step_laws.specs.StepsFold.{LawStepsFold};

/// Who has read the report of where a run begins, and then its steps, has the report of where it ends. It holds for every list of steps,
/// under whatever limits, with settling, stops inside events and stops of everything, where there is a broker for each node with a replicator
/// for each cluster, whose ledgers hold its entries and whose subscriptions have names of their own, and a client for each that is declared.
pub fn law_steps_fold()
    ensures { LawStepsFold }
{}
