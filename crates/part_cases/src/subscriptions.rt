//! Subscriptions of a broker.
ghost use Rattle.std.specs.Prelude.{◌≡◌, ◌≤◌, length, IfOk};
ghost use Rattle.broker_subs.specs.Table.{is_new};

use crate::entries::{entry, ident, sub_name};
use broker_subs::*;
use dispatcher::{AckFault, Choice};
use geo_base::{AckKind, Consumer, Content, Entry, EntryStore, Memory, SubKind, Targets};
use std::alloc::Global;
use topic_store::ListStore;

fn message(alloc: Global, seq: u64) -> Result<Entry, Memory> {
    let ident = ident(alloc, 0, "p", seq)?;
    Ok(entry(alloc, ident, Content::Data, Targets::All))
}

/// A topic of three messages.
fn topic(alloc: Global) -> Result<ListStore, Memory>
    ensures { IfOk result (λ store. length store.entries ≡ 3) }
{
    let mut store = ListStore::new(alloc, 8)?;
    for seq in 0..3 {
        store.reserve(1)?;
        store.append(message(alloc, seq)?);
    }
    Ok(store)
}

/// The consumer that joins.
const CONSUMER: Consumer = Consumer {
    client: 4,
    id: 7,
    permits: 9,
};

/// What an offer to a new subscription of that topic would do: before anything, once index 0 is given, once all up to 1 is acknowledged,
/// once its consumer has left, and once reading begins at 1 again with another one.
fn choices(sub: &mut Sub, store: &ListStore) -> [Choice; 5]
    requires new { is_new sub.old }
    requires room { 3 ≤ sub.old.room }
    requires acks { 2 ≤ sub.old.acks }
    requires topic { length store.now.entries ≡ 3 }
{
    sub.change(SubChange::Attach(CONSUMER));
    let first = sub.choice(store);
    sub.change(SubChange::Given {
        index: 0,
        consumer_index: 0,
    });
    let given = sub.choice(store);
    sub.write(SubWrite::AckTo(1), store);
    sub.change(SubChange::Acked);
    let acked = sub.choice(store);
    sub.leave(4);
    let left = sub.choice(store);
    sub.write(SubWrite::Seek(1), store);
    sub.change(SubChange::Cleared);
    sub.change(SubChange::Attach(CONSUMER));
    [first, given, acked, left, sub.choice(store)]
}

/// What an offer to a subscription would do then.
fn chosen(alloc: Global) -> Result<[Choice; 5], Memory> {
    let name = sub_name(alloc, "s")?;
    let store = topic(alloc)?;
    let mut sub = Sub::new(alloc, name, SubKind::Shared, false, 3, 2)?;
    let chosen = choices(&mut sub, &store);
    drop(sub);
    drop(store);
    Ok(chosen)
}

#[test]
fn acknowledged_indexes_are_not_offered_again(rt: HostRuntime) -> Result<(), Memory> {
    let gives = |index| Choice::Give { index, place: 0 };
    let chosen = chosen(rt.alloc())?;
    assert!(rt; chosen == [gives(0), gives(1), gives(2), Choice::Idle, gives(1)]);
    Ok(())
}

/// Whether another consumer can join beside the one of a new subscription, what its acknowledgements are answered, how many are left once
/// it has left, and how many seeks are durable once there was one.
fn asked_left_and_seeks(sub: &mut Sub, store: &ListStore) -> (bool, bool, usize, u64)
    requires new { is_new sub.old }
    requires room { 2 ≤ sub.old.room }
    requires acks { 2 ≤ sub.old.acks }
    requires topic { length store.now.entries ≡ 3 }
{
    sub.change(SubChange::Attach(CONSUMER));
    let joins = !sub.busy(5, SubKind::Shared) && sub.busy(4, SubKind::Shared);
    let acks = sub.on_ack(4, 7, AckKind::Individual) == Ok(())
        && sub.on_ack(4, 7, AckKind::Cumulative) == Err(AckFault::CumulativeNotAllowed)
        && sub.on_ack(4, 8, AckKind::Individual) == Err(AckFault::ConsumerNotFound);
    sub.leave(4);
    let left = sub.consumers().len();
    sub.write(SubWrite::Seek(1), store);
    (joins, acks, left, sub.durable().seeks)
}

/// The same of a subscription of that topic.
fn asked(alloc: Global) -> Result<(bool, bool, usize, u64), Memory> {
    let name = sub_name(alloc, "s")?;
    let store = topic(alloc)?;
    let mut sub = Sub::new(alloc, name, SubKind::Shared, false, 2, 2)?;
    let asked = asked_left_and_seeks(&mut sub, &store);
    drop(sub);
    drop(store);
    Ok(asked)
}

#[test]
fn consumers_leave_and_seeks_are_counted(rt: HostRuntime) -> Result<(), Memory> {
    let (joins, acks, left, seeks) = asked(rt.alloc())?;
    assert!(rt; joins && acks && left == 0 && seeks == 1);
    Ok(())
}

/// A table of one subscription, which is replicated and begins at index 3.
fn table(alloc: Global) -> Result<SubTable, Memory> {
    let name = sub_name(alloc, "s")?;
    let sub = Sub::new(alloc, name, SubKind::Failover, true, 1, 1)?;
    let mut table = SubTable::new(alloc);
    match table.reserve(1) {
        Ok(()) => {
            table.create(sub, true, 3);
            Ok(table)
        }
        Err(fault) => {
            drop(sub);
            drop(table);
            Err(fault)
        }
    }
}

/// Whether the one subscription is found by its name, and no other and no consumer is, and whether it is replicated, and begins at
/// index 3.
fn is_found(table: &SubTable) -> bool {
    table.find(b"s") == Some(0)
        && table.find(b"r") == None
        && table.find_consumer(4, 7) == None
        && table.any_replicated()
        && table.len() == 1
        && table.at(0).cursor().mark_delete() == 3
}

/// Where the subscription is found by its name after a restart.
fn found_again(alloc: Global, table: &SubTable) -> Result<Option<usize>, Memory> {
    let restored = SubTable::restored(alloc, table.durable(alloc)?)?;
    let found = restored.find(b"s");
    drop(restored);
    Ok(found)
}

#[test]
fn subscriptions_are_found_by_name(rt: HostRuntime) -> Result<(), Memory> {
    let table = table(rt.alloc())?;
    let is_found = is_found(&table);
    let again = found_again(rt.alloc(), &table);
    drop(table);
    assert!(rt; is_found);
    assert_eq!(rt; again?, Some(0));
    Ok(())
}
