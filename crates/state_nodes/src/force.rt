//! The lines of a client that are in force, and its publishes that wait for their receipts.
ghost use Rattle.std.specs.Prelude.{◌≡◌, ℕ, List, []};
ghost use Rattle.state_items.specs.Reading.{Gives, many};
ghost use Rattle.state_nodes.specs.Clients.{force_at, index_at, index_of, is_done, is_in_force, kind_test, publish_at, unanswered_at};

use geo_base::Line;
use geo_base::limits::UNANSWERED;
use state_items::{ItemFault, Rule, judge, number_at};
use std::alloc::Global;

/// A kind of line that can be in force, or wait for its receipt.
#[derive(Clone, Copy, Drop)]
pub(crate) enum LineKind {
    Produce,
    Sub,
    Flow,
    Publish,
}

/// The indexes of the lines in force.
#[derive(Clone, Copy, Drop)]
pub(crate) struct Force {
    pub(crate) produce: Option<usize>,
    pub(crate) sub: Option<usize>,
    pub(crate) flow: Option<usize>,
}

/// The lines in force of a client that has done some of its lines.
#[tactic(auto, unfolding(crate::specs::Clients::force_at))]
pub(crate) fn force_at<'a>(
    lines: &[Line],
    done: usize,
    bytes: &'a [u8],
) -> Result<(Force, &'a [u8]), ItemFault>
    ensures { Gives (λ x. (x.0, x.1.now)) result (force_at lines.now done bytes.now) }
{
    let (produce, rest) = index_at(LineKind::Produce, lines, done, bytes)?;
    let (sub, behind) = index_at(LineKind::Sub, lines, done, rest)?;
    let (flow, rest) = index_at(LineKind::Flow, lines, done, behind)?;
    judge(flow.is_none() || sub.is_some(), behind, Rule::Client)?;
    Ok((Force { produce, sub, flow }, rest))
}

/// The index of a line of a kind that is done, if there is one.
#[tactic(auto, unfolding(crate::specs::Clients::index_at))]
fn index_at<'a>(
    kind: LineKind,
    lines: &[Line],
    done: usize,
    bytes: &'a [u8],
) -> Result<(Option<usize>, &'a [u8]), ItemFault>
    ensures { Gives (λ x. (x.0, x.1.now)) result (index_at (kind_test kind) lines.now done bytes.now) }
{
    let (number, rest) = number_at(bytes)?;
    let index = index_of(number);
    judge(is_in_force(kind, lines, done, index), bytes, Rule::Client)?;
    Ok((index, rest))
}

/// A line's index from its number, which is one more; 0 stands for none.
fn index_of(number: u64) -> Option<usize>
    ensures { result ≡ index_of number }
{
    if number == 0 {
        None
    } else {
        Some((number - 1) as usize)
    }
}

/// Whether no line is in force, or one of a kind that is done.
fn is_in_force(kind: LineKind, lines: &[Line], done: usize, index: Option<usize>) -> bool
    ensures { result ≡ is_in_force (kind_test kind) lines.now done index }
{
    match index {
        None => true,
        Some(index) => is_done(kind, lines, done, index),
    }
}

/// Whether a line of a kind stands at an index below those that are done.
fn is_done(kind: LineKind, lines: &[Line], done: usize, index: usize) -> bool
    ensures { result ≡ is_done (kind_test kind) lines.now done index }
{
    if index >= done {
        return false;
    }
    match lines.get(index) {
        None => false,
        Some(line) => is_of_kind(kind, line),
    }
}

/// Whether a line is of a kind.
fn is_of_kind(kind: LineKind, line: &Line) -> bool
    ensures { result ≡ kind_test kind line.now }
{
    match kind {
        LineKind::Produce => matches!(line, Line::Produce),
        LineKind::Sub => matches!(line, Line::Sub { .. }),
        LineKind::Flow => matches!(line, Line::Flow { .. }),
        LineKind::Publish => matches!(line, Line::Pub { .. }),
    }
}

/// The indexes of the publishes that wait for their receipts.
#[tactic(auto, unfolding(crate::specs::Clients::unanswered_at))]
pub(crate) fn unanswered_at<'a>(
    alloc: Global,
    lines: &[Line],
    done: usize,
    produce: Option<usize>,
    bytes: &'a [u8],
) -> Result<(Vec<usize>, &'a [u8]), ItemFault>
    ensures { Gives (λ x. (x.0.items, x.1.now)) result (unanswered_at lines.now done produce bytes.now) }
{
    let (count, rest) = number_at(bytes)?;
    let few = count <= UNANSWERED as u64 && (count == 0 || produce.is_some());
    judge(few, bytes, Rule::Client)?;
    counted_publishes(alloc, lines, done, count, rest)
}

/// So many publishes.
fn counted_publishes<'a>(
    alloc: Global,
    lines: &[Line],
    done: usize,
    count: u64,
    bytes: &'a [u8],
) -> Result<(Vec<usize>, &'a [u8]), ItemFault>
    ensures { Gives (λ x. (x.0.items, x.1.now)) result (many (publish_at lines.now done) count [] bytes.now) }
{
    let mut publishes: Vec<usize> = Vec::new(alloc);
    let mut rest = bytes;
    for _ in 0..count {
        let (index, after) = publish_at(lines, done, rest)?;
        publishes.push(index)?;
        rest = after;
    }
    Ok((publishes, rest))
}

/// The index of a publish that is done.
#[tactic(auto, unfolding(crate::specs::Clients::publish_at))]
fn publish_at<'a>(
    lines: &[Line],
    done: usize,
    bytes: &'a [u8],
) -> Result<(usize, &'a [u8]), ItemFault>
    ensures { (before : List ℕ) → Gives (λ x. (x.0, x.1.now)) result (publish_at lines.now done before bytes.now) }
{
    let (number, rest) = number_at(bytes)?;
    let index = number as usize;
    judge(
        is_done(LineKind::Publish, lines, done, index),
        bytes,
        Rule::Client,
    )?;
    Ok((index, rest))
}
