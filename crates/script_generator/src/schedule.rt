//! The schedule: all connect, turns at random, each producer does all its lines, and all settles.
ghost use Rattle.std.specs.Prelude.{◌≡◌, ◌∷◌, [], ◌++◌, IfOk, OnOk};
ghost use Rattle.script_generator.specs.Schedule.{connects, finishes, generated_steps, opens, round, rounds, turns};

use crate::draws::{Draws, Pair, pair_at};
use geo_base::{Event, Memory, Step};
use script_text::StepList;
use std::alloc::Global;

/// The clients, all of which connect first.
const CLIENTS: u32 = 4;

/// The ordered pairs of clusters, each of which has a link.
const PAIRS: u32 = 6;

/// Turns at random.
const TURNS: u32 = 20_000;

/// The producers, whose numbers are those of their clusters.
const PRODUCERS: u32 = 3;

/// Rounds of a producer at the end: more than it has lines and packets to take.
const ROUNDS: u32 = 4_000;

/// The steps of a run's number.
pub(crate) fn steps(alloc: Global, number: u32) -> Result<StepList, Memory>
    ensures { IfOk result (λ ss. ss ≡ generated_steps number) }
{
    let mut steps = StepList::new(alloc);
    match add_steps(&mut steps, number) {
        Ok(()) => Ok(steps),
        Err(Memory) => {
            drop(steps);
            Err(Memory)
        }
    }
}

#[tactic(auto, unfolding(crate::specs::Schedule::generated_steps))]
fn add_steps(steps: &mut StepList, number: u32) -> Result<(), Memory>
    requires fresh { steps.old ≡ [] }
    ensures { OnOk result (steps.new ≡ generated_steps number) }
{
    add_connects(steps)?;
    add_opens(steps)?;
    add_turns(steps, Draws::new(number))?;
    add_finishes(steps)?;
    steps.push(Step::Settle)?;
    Ok(())
}

#[tactic(auto, using(crate::proofs::Counting::connects_next, crate::proofs::Counting::connects_none, std::proofs::lemmas::Grind::common_steps))]
fn add_connects(steps: &mut StepList) -> Result<(), Memory>
    ensures { OnOk result (steps.new ≡ steps.old ++ connects 4) }
{
    for client in 0..CLIENTS {
        steps.push(Step::Plain(Event::Reconnect { client }))?;
    }
    Ok(())
}

#[tactic(auto, using(crate::proofs::Counting::opens_next, crate::proofs::Counting::opens_none, std::proofs::lemmas::Grind::common_steps))]
fn add_opens(steps: &mut StepList) -> Result<(), Memory>
    ensures { OnOk result (steps.new ≡ steps.old ++ opens 6) }
{
    for number in 0..PAIRS {
        let Pair { source, target } = pair_at(number);
        steps.push(Step::Plain(Event::Reset {
            topic: 0,
            source,
            target,
        }))?;
    }
    Ok(())
}

#[tactic(auto, using(crate::proofs::Counting::turns_next, crate::proofs::Counting::turns_none, std::proofs::lemmas::Grind::common_steps))]
fn add_turns(steps: &mut StepList, mut draws: Draws) -> Result<(), Memory>
    ensures { OnOk result (steps.new ≡ steps.old ++ (turns 20000 draws).steps) }
{
    for turn in 0..TURNS {
        steps.push(Step::Plain(draws.turn(turn)))?;
    }
    Ok(())
}

#[tactic(auto, using(crate::proofs::Counting::finishes_next, crate::proofs::Counting::finishes_none, std::proofs::lemmas::Grind::common_steps))]
fn add_finishes(steps: &mut StepList) -> Result<(), Memory>
    ensures { OnOk result (steps.new ≡ steps.old ++ finishes 3) }
{
    for client in 0..PRODUCERS {
        steps.push(Step::Plain(Event::Reconnect { client }))?;
        add_rounds(steps, client)?;
    }
    Ok(())
}

#[tactic(auto, using(crate::proofs::Counting::rounds_next, crate::proofs::Counting::rounds_none, std::proofs::lemmas::Grind::common_steps))]
fn add_rounds(steps: &mut StepList, client: u32) -> Result<(), Memory>
    ensures { OnOk result (steps.new ≡ steps.old ++ rounds client 4000) }
{
    for number in 0..ROUNDS {
        add_round(steps, client)?;
    }
    Ok(())
}

fn add_round(steps: &mut StepList, client: u32) -> Result<(), Memory>
    ensures { OnOk result (steps.new ≡ steps.old ++ round client) }
{
    let cluster = client;
    steps.push(Step::Plain(Event::Go { client }))?;
    steps.push(Step::Plain(Event::Serve { cluster, client }))?;
    steps.push(Step::Plain(Event::Get { client }))?;
    steps.push(Step::Plain(Event::Get { client }))
}
