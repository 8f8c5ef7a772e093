//! The order in which recorded events are merged.
ghost use Rattle.std.specs.Prelude.{◌≡◌, ◌++◌, ◌<◌, ◌^◌, ℕ, All, List, IfOk, OnOk, length, map};
ghost use Rattle.std.specs.List.Sorted.{IsPermutation};
ghost use Rattle.geo_base.specs.History.{RecordedEvent};
ghost use Rattle.geo_base.specs.Merge.{history_of, merge_of, steps_of};
ghost use Rattle.merge_history.specs.Kept.{kept_stamp};
ghost use Rattle.merge_history.specs.Turns.{AlikeAll, AreSorted, IsIn, Rise, all_turns, event_at, step_at, turns_from};

use crate::History;
use crate::turn::Turn;
use geo_base::{Event, Memory, Step};
use log_parts::Done;
use script_text::StepList;
use std::alloc::Global;

/// The steps that nodes recorded, by stamp and, among equal stamps, by node. An `Err` is want of memory.
#[tactic(auto, using(crate::proofs::Merging::steps_are))]
pub(crate) fn merged_steps(alloc: Global, histories: &[History<'_>]) -> Result<StepList, Memory>
    requires { length histories.now < 2 ^ 32 }
    ensures { IfOk result (λ steps. (hs : List (List RecordedEvent)) → AlikeAll histories.now hs → ((n : ℕ) → Rise (history_of hs n))
        → steps ≡ steps_of (merge_of hs)) }
{
    let turns = merged_turns(alloc, histories)?;
    steps_at(alloc, histories, turns.as_slice())
}

/// The turns of all that nodes recorded, sorted. The sort keeps the runs that it finds, and each node's turns are one.
fn merged_turns(alloc: Global, histories: &[History<'_>]) -> Result<Vec<Turn>, Memory>
    requires { length histories.now < 2 ^ 32 }
    ensures moved { IfOk result (λ ts. IsPermutation (all_turns kept_stamp 0 histories.now) ts.items) }
    ensures sorted { IfOk result (λ ts. AreSorted ts.items) }
{
    let mut turns = Vec::new(alloc);
    for (node, history) in histories.iter().enumerate() {
        add_turns(&mut turns, node as u32, history.events())?;
    }
    turns.sort()?;
    Ok(turns)
}

/// The turns of what a node recorded.
fn add_turns(turns: &mut Vec<Turn>, node: u32, events: &[Done]) -> Result<(), Memory>
    ensures { OnOk result (turns.new.items ≡ turns.old.items ++ turns_from kept_stamp node 0 events.now) }
{
    for (place, done) in events.iter().enumerate() {
        turns.push(Turn {
            stamp: done.stamp.number(),
            node,
            place,
        })?;
    }
    Ok(())
}

/// The steps at turns.
fn steps_at(alloc: Global, histories: &[History<'_>], turns: &[Turn]) -> Result<StepList, Memory>
    requires { All (IsIn histories.now) turns.now }
    ensures { IfOk result (λ steps. steps ≡ map (step_at histories.now) turns.now) }
{
    let mut steps = StepList::new(alloc);
    for turn in turns {
        steps.push(Step::Plain(event_of(histories, turn)))?;
    }
    Ok(steps)
}

/// The event at a turn.
#[tactic(auto, using(crate::proofs::Merging::place_in, crate::proofs::Merging::event_there))]
fn event_of(histories: &[History<'_>], turn: &Turn) -> Event
    requires { IsIn histories.now turn.now }
    ensures { result ≡ event_at histories.now turn.now }
{
    let events = histories[turn.node as usize].events();
    let done = &events[turn.place];
    done.event
}
