//! The lines of an event's writes.
ghost use Rattle.std.specs.Prelude.{◌≡◌, ◌++◌, take, IfOk, OnOk, OnErr, length};
ghost use Rattle.broker_state.specs.Fits.{PlanFits};
ghost use Rattle.broker_state.specs.Plan.{plan_in};
ghost use Rattle.broker_state.specs.Writes.{machine_write};
ghost use Rattle.broker_subs.specs.Steps.{machine_sub_write};
ghost use Rattle.geo_base.specs.Broker.{sub_named};
ghost use Rattle.geo_base.specs.TraceItems.{Acks, Appends};
ghost use Rattle.geo_base.specs.Topic.{next_position};
ghost use Rattle.geo_base.specs.Traced.{act_of, cause_of, cursor_of, gained, snapshot_told};
ghost use Rattle.trace_runs.specs.Acts.{acts_before};
ghost use Rattle.trace_runs.specs.Naming.{act_line};
ghost use Rattle.trace_runs.specs.Snapshots.{HaveSeen, Knows};
ghost use Rattle.trace_runs.specs.Writes.{IsWithin, ReadsWithin, SubIsWithin, indexes_acked, lines_of, naming};

use crate::acts::{add_acks, add_append, add_create, add_delete, add_seek};
use crate::cause::cause_of;
use crate::gained::{gained_by_update, gained_each, gained_to};
use crate::naming::naming;
use crate::snapshot_lines::snapshot_told;
use crate::subs::{cursor_of, name_of};
use crate::telling::Telling;
use broker::Broker;
use broker_state::{Plan, StateWrite};
use broker_subs::SubWrite;
use cursor_acks::Cursor;
use geo_base::{Blob, Cause, Entry, EntryStore, Event, Memory};
use std::alloc::Global;

/// Appends the lines of the first `count` durable writes of an event that is prepared at a broker, in their order. An `Err` is want of
/// memory, and then the lines before stand, with a part of what was to be appended or none.
#[tactic(auto, using(crate::proofs::Steps::no_line))]
pub fn add_writes(
    alloc: Global,
    telling: &mut Telling,
    node: &Broker,
    event: &Event,
    plan: &Plan,
    count: usize,
) -> Result<(), Memory>
    requires read { ReadsWithin node.now.site event.now }
    requires fits { PlanFits node.now.site.per_ledger node.now.broker plan.now }
    requires known { Knows node.now telling.old.snapshots }
    ensures told { OnOk result (telling.new.text ≡ telling.old.text ++ lines_of node.now.site (acts_before node.now.site (cause_of node.now.broker event.now) node.now.broker (take count (plan_in node.now.broker plan.now).writes))) }
    ensures seen { HaveSeen node.now telling.old.snapshots telling.new.snapshots }
    ensures err { OnErr result (take (length telling.old.text) telling.new.text ≡ telling.old.text) }
{
    let cause = cause_of(node, event);
    let sub = name_of(node, plan);
    for number in 0..count.min(plan.write_count()) {
        add_write(alloc, telling, node, cause, sub, plan.write_at(number))?;
    }
    Ok(())
}

/// The line of a write, if it has one; `sub` is the name of the event's subscription.
#[tactic(auto, using(crate::proofs::Seen::seen_same))]
fn add_write(
    alloc: Global,
    telling: &mut Telling,
    node: &Broker,
    cause: Cause,
    sub: &[u8],
    write: &StateWrite,
) -> Result<(), Memory>
    requires within { IsWithin node.now.broker.entries write.now }
    requires known { Knows node.now telling.old.snapshots }
    ensures told { OnOk result (telling.new.text ≡ telling.old.text ++ lines_of node.now.site (act_of node.now.site cause node.now.broker (machine_write sub.now node.now.broker.entries write.now))) }
    ensures seen { HaveSeen node.now telling.old.snapshots telling.new.snapshots }
    ensures err { OnErr result (take (length telling.old.text) telling.new.text ≡ telling.old.text) }
{
    match write {
        StateWrite::Append { entry, .. } => append(alloc, telling, node, entry),
        StateWrite::Create { sub, latest } => {
            let name = sub.name().as_str().as_bytes();
            add_create(&mut telling.text, &naming(node), name, *latest)
        }
        StateWrite::Delete => add_delete(&mut telling.text, &naming(node), sub),
        StateWrite::Sub(write) => {
            add_sub_write(alloc, &mut telling.text, node, cause, sub, write)
        },
        StateWrite::ReplicatorAck { .. } | StateWrite::SessionNumber { .. } | StateWrite::Ledger =>
            Ok(()),
    }
}

/// The line of an entry that is stored next.
#[tactic(auto, using(crate::proofs::Steps::one_line))]
fn append(alloc: Global, telling: &mut Telling, node: &Broker, entry: &Entry) -> Result<(), Memory>
    requires known { Knows node.now telling.old.snapshots }
    ensures told { OnOk result (telling.new.text ≡ telling.old.text ++ act_line (naming node.now.site) (Appends (next_position node.now.site.per_ledger node.now.broker.ledgers) entry.now (snapshot_told node.now.site node.now.broker entry.now entry.now.content))) }
    ensures seen { HaveSeen node.now telling.old.snapshots telling.new.snapshots }
    ensures err { OnErr result (take (length telling.old.text) telling.new.text ≡ telling.old.text) }
{
    let by = snapshot_told(alloc, &mut telling.snapshots, node, entry)?;
    add_append(
        &mut telling.text,
        &naming(node),
        node.store().next(),
        entry,
        by,
    )
}

/// The line of a write of a subscription that is here, or was created before it.
#[tactic(auto, using(crate::proofs::Steps::one_line))]
fn add_sub_write(
    alloc: Global,
    lines: &mut Blob,
    node: &Broker,
    cause: Cause,
    sub: &[u8],
    write: &SubWrite,
) -> Result<(), Memory>
    requires { SubIsWithin node.now.broker.entries write.now }
    ensures ok { OnOk result (lines.new ≡ lines.old ++ lines_of node.now.site (act_of node.now.site cause node.now.broker (machine_sub_write sub.now node.now.broker.entries write.now))) }
    ensures err { OnErr result (take (length lines.old) lines.new ≡ lines.old) }
{
    match write {
        SubWrite::Acks(_) | SubWrite::AckTo(_) | SubWrite::UpdateTo { .. } => {
            add_gained(alloc, lines, node, cause, sub, write)
        }
        SubWrite::Seek(index) => add_seek(lines, &naming(node), sub, *index),
        SubWrite::Alter { .. } => Ok(()),
    }
}

/// The line of what a write of acknowledgements gains.
fn add_gained(
    alloc: Global,
    lines: &mut Blob,
    node: &Broker,
    cause: Cause,
    sub: &[u8],
    write: &SubWrite,
) -> Result<(), Memory>
    requires { SubIsWithin node.now.broker.entries write.now }
    ensures ok { OnOk result (lines.new ≡ lines.old ++ act_line (naming node.now.site) (Acks sub.now (gained (cursor_of (sub_named node.now.broker.subs sub.now)) (indexes_acked node.now.broker.entries write.now)) cause)) }
    ensures err { OnErr result (take (length lines.old) lines.new ≡ lines.old) }
{
    let gained = gained_by(alloc, node, sub, write)?;
    let added = add_acks(lines, &naming(node), sub, &gained, cause);
    drop(gained);
    added
}

/// The indexes that the subscription of a name gains by a write.
fn gained_by(alloc: Global, node: &Broker, sub: &[u8], write: &SubWrite) -> Result<Cursor, Memory>
    requires { SubIsWithin node.now.broker.entries write.now }
    ensures { IfOk result (λ c. c.indexes ≡ gained (cursor_of (sub_named node.now.broker.subs sub.now)) (indexes_acked node.now.broker.entries write.now)) }
{
    let none = Cursor::none(alloc);
    let gained = gained_over(alloc, node, cursor_of(node, sub, &none), write);
    drop(none);
    gained
}

/// The indexes that a cursor gains by a write.
fn gained_over(
    alloc: Global,
    node: &Broker,
    cursor: &Cursor,
    write: &SubWrite,
) -> Result<Cursor, Memory>
    requires { SubIsWithin node.now.broker.entries write.now }
    ensures { IfOk result (λ c. c.indexes ≡ gained cursor.now.indexes (indexes_acked node.now.broker.entries write.now)) }
{
    let store = node.store();
    let len = store.len() as u64;
    match write {
        SubWrite::Acks(indexes) => gained_each(alloc, cursor, indexes.as_slice(), len),
        SubWrite::AckTo(index) => gained_to(alloc, cursor, *index, len),
        SubWrite::UpdateTo { index, from, .. } => gained_by_update(
            alloc, cursor, store, *index, *from,
        ),
        SubWrite::Seek(_) | SubWrite::Alter { .. } => Ok(Cursor::none(alloc)),
    }
}
