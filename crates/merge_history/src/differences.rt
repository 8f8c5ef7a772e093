//! The first packet of all that were taken that is not the one that was sent.
ghost use Rattle.std.specs.Prelude.{◌≡◌, ◌<◌, ◌^◌, ℕ, [], IfOk, IfSome, None, Ok, OnOk, length};
ghost use Rattle.merge_history.specs.Differences.{AllSent};
ghost use Rattle.merge_history.specs.Firsts.{AreRising, IsDifference, IsEarlier, IsFirst, IsStamped};
ghost use Rattle.merge_history.specs.Walks.{AreOutboxes};

use crate::history::History;
use crate::outbox::Outbox;
use crate::packet_layout::Layout;
use crate::walk::{Found, first_of};
use geo_base::Memory;
use std::alloc::Global;

/// A packet that a node took and that is not the one that was sent, with the stamp of the event that took it.
#[derive(Clone, Copy, Drop)]
pub struct PacketDifference {
    pub node: usize,
    pub stamp: u64,
    pub found: Found,
}

/// The first such packet of all, by stamp and node, where stamps rise in each history; None where each is the one that was sent.
pub fn first_difference(
    alloc: Global,
    layout: &Layout,
    histories: &[History<'_>],
) -> Result<Option<PacketDifference>, Memory>
    requires few { length histories.now < 2 ^ 32 }
    ensures found { IfOk result (λ o. IfSome o (IsDifference layout.now histories.now (length histories.now))) }
    ensures first { AreRising histories.now → IfOk result (λ o. IfSome o (IsFirst layout.now histories.now (length histories.now))) }
    ensures none { result ≡ Ok None → (n : ℕ) → AllSent layout.now histories.now n }
{
    let outboxes = outboxes_of(alloc, histories)?;
    let mut first = None;
    for (node, history) in histories.iter().enumerate() {
        let found = first_of(alloc, layout, histories, outboxes.as_slice(), node)?;
        first = earlier_of(first, with_stamp(history, node, found));
    }
    Ok(first)
}

/// What every node sent.
fn outboxes_of<'a>(alloc: Global, histories: &[History<'a>]) -> Result<Vec<Outbox<'a>>, Memory>
    ensures { IfOk result (λ os. AreOutboxes histories.now os.items) }
{
    let mut outboxes = Vec::new(alloc);
    match add_outboxes(alloc, histories, &mut outboxes) {
        Ok(()) => Ok(outboxes),
        Err(memory) => {
            drop(outboxes);
            Err(memory)
        }
    }
}

/// Adds what every node sent, where nothing stands yet.
fn add_outboxes<'a>(
    alloc: Global,
    histories: &[History<'a>],
    outboxes: &mut Vec<Outbox<'a>>,
) -> Result<(), Memory>
    requires { outboxes.old.items ≡ [] }
    ensures { OnOk result (AreOutboxes histories.now outboxes.new.items) }
{
    for history in histories {
        outboxes.push(Outbox::of(alloc, history.events())?)?;
    }
    Ok(())
}

/// What was found at a node, with the stamp of its event.
fn with_stamp(history: &History<'_>, node: usize, found: Option<Found>) -> Option<PacketDifference>
    ensures { IsStamped history.now node found result }
{
    let found = found?;
    let events = history.events();
    if found.place < events.len() {
        let done = &events[found.place];
        Some(PacketDifference {
            node,
            stamp: done.stamp.number(),
            found,
        })
    } else {
        None
    }
}

/// The earlier of two by stamp, the first where neither is.
fn earlier_of(
    first: Option<PacketDifference>,
    next: Option<PacketDifference>,
) -> Option<PacketDifference>
    ensures { IsEarlier first next result }
{
    match (first, next) {
        (Some(one), Some(other)) => Some(if other.stamp < one.stamp { other } else { one }),
        (Some(one), None) => Some(one),
        (None, other) => other,
    }
}
