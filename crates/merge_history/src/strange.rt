//! Which logs are those of their places, and what counts of them.
ghost use Rattle.std.specs.Prelude.{◌≡◌, ◌<◌, ℕ, IfOk, IfSome, None, length, slice_index_or, true};
ghost use Rattle.merge_history.specs.Logs.{AreTold, IsFirstFalse, counted_of, kept_of};

use crate::History;
use crate::log::LogRef;
use geo_base::Memory;
use script_text::Scenario;
use std::alloc::Global;

/// Of each log, whether it is the one of its place, and the history that counts.
#[derive(Drop)]
pub(crate) struct Judged<'a> {
    pub own: Vec<bool>,
    pub histories: Vec<History<'a>>,
}

/// Judges each log by a scenario; `Err` is want of memory.
pub(crate) fn judge_logs<'a>(
    alloc: Global,
    scenario: &Scenario,
    logs: &[LogRef<'a>],
) -> Result<Judged<'a>, Memory>
    ensures told { IfOk result (λ j. AreTold scenario.now logs.now j.own.items) }
    ensures kept { IfOk result (λ j. j.histories.items ≡ kept_of j.own.items logs.now) }
{
    let own = own_logs(alloc, scenario, logs)?;
    let histories = own_histories(alloc, logs, own.as_slice())?;
    Ok(Judged { own, histories })
}

/// Of each log, whether it is the one of its place.
#[tactic(auto, using(crate::proofs::Judging::told_more, crate::proofs::Judging::told_all))]
fn own_logs(alloc: Global, scenario: &Scenario, logs: &[LogRef<'_>]) -> Result<Vec<bool>, Memory>
    ensures { IfOk result (λ ts. AreTold scenario.now logs.now ts.items) }
{
    let mut own = Vec::new(alloc);
    for (place, log) in logs.iter().enumerate() {
        own.push(log.is_own(alloc, scenario, place)?)?;
    }
    Ok(own)
}

/// The place of the first strange log.
#[tactic(auto, using(crate::proofs::Judging::true_more, crate::proofs::Judging::all_true))]
pub(crate) fn first_strange(own: &[bool]) -> Option<usize>
    ensures some { IfSome result (λ n. IsFirstFalse own.now n) }
    ensures none { result ≡ None → (k : ℕ) → slice_index_or own.now k true ≡ true }
{
    for (place, &is_own) in own.iter().enumerate() {
        if !is_own {
            return Some(place);
        }
    }
    None
}

/// The histories that count: those of the logs that are their places' own, and none in the place of a strange one.
fn own_histories<'a>(
    alloc: Global,
    logs: &[LogRef<'a>],
    own: &[bool],
) -> Result<Vec<History<'a>>, Memory>
    requires { length own.now ≡ length logs.now }
    ensures { IfOk result (λ hs. hs.items ≡ kept_of own.now logs.now) }
{
    let mut histories = Vec::new(alloc);
    for (place, log) in logs.iter().enumerate() {
        histories.push(counted(log, own[place]))?;
    }
    Ok(histories)
}

/// What counts of a log.
fn counted<'a>(log: &LogRef<'a>, is_own: bool) -> History<'a>
    ensures { result ≡ counted_of is_own log.now }
{
    if is_own {
        History::new(log.events())
    } else {
        History::new(&[])
    }
}
