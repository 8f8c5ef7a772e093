//! What a durable write does.
ghost use Rattle.std.specs.Prelude.{◌≡◌, [], if◌then◌else◌, IfOk, OnOk, OnErr};
ghost use Rattle.geo_base.specs.Broker.{at_sub, written};
ghost use Rattle.geo_base.specs.Cursor.{below};
ghost use Rattle.geo_base.specs.declared.write.Write.{Write as MachineWrite};
ghost use Rattle.geo_base.specs.declared.write.Write.TheVariants as write;
ghost use Rattle.durable_parts.specs.Applied.{StandsFor, applied};
ghost use Rattle.durable_parts.specs.Changed.{with_part};
ghost use Rattle.durable_parts.specs.Durable.{broker_of};

use crate::durable::{Durable, DurableSub, SubPart};
use crate::write::Write;
use cursor_acks::Cursor;
use geo_base::{Entry, EntryStore, Memory, SubKind, SubName};
use std::alloc::Global;

/// Does one durable write. One that names a subscription or a cluster that is not here changes nothing, and neither does the
/// creation of a subscription that is here; unchanged where memory is wanting. It does what the machine's write does that it stands for:
/// one that carries a whole cursor stands for the write of what that cursor gains over the one before it.
#[tactic(auto, using(crate::proofs::Standing::stands_done))]
pub fn apply_write(alloc: Global, durable: &mut Durable, write: Write) -> Result<(), Memory>
    ensures ok { OnOk result (broker_of durable.new ≡ applied durable.old.store.per_ledger (broker_of durable.old) write) }
    ensures machine { (m : MachineWrite) → StandsFor (broker_of durable.old) write m → OnOk result (broker_of durable.new ≡ written durable.old.store.per_ledger (broker_of durable.old) m) }
    ensures err { OnErr result (broker_of durable.new ≡ broker_of durable.old) }
    ensures own { durable.new.own ≡ durable.old.own }
    ensures per_ledger { durable.new.store.per_ledger ≡ durable.old.store.per_ledger }
{
    match write {
        Write::Append(entry) => append(durable, entry),
        Write::Create {
            sub,
            kind,
            replicated,
            latest,
        } => create(alloc, durable, sub, kind, replicated, latest),
        Write::Change {
            sub,
            kind,
            replicated,
        } => {
            alter(durable, sub, SubPart::Kind { kind, replicated });
            Ok(())
        }
        Write::Delete(sub) => {
            delete(durable, sub);
            Ok(())
        }
        Write::Acks { sub, cursor } => {
            alter(durable, sub, SubPart::Acks(cursor));
            Ok(())
        }
        Write::Seek { sub, cursor, seeks } => {
            alter(durable, sub, SubPart::Seek { cursor, seeks });
            Ok(())
        }
        Write::ReplicatorAcks { remote, cursor } => {
            durable.replicators.set_cursor(remote, cursor);
            Ok(())
        }
        Write::Session { remote, session } => {
            durable.replicators.set_session(remote, session);
            Ok(())
        }
        Write::Ledger => open_ledger(durable),
    }
}

/// An entry is stored.
fn append(durable: &mut Durable, entry: Entry) -> Result<(), Memory>
    ensures ok { OnOk result (broker_of durable.new ≡ written durable.old.store.per_ledger (broker_of durable.old) (write.Append entry)) }
    ensures err { OnErr result (broker_of durable.new ≡ broker_of durable.old) }
    ensures own { durable.new.own ≡ durable.old.own }
    ensures per_ledger { durable.new.store.per_ledger ≡ durable.old.store.per_ledger }
{
    match durable.store.reserve(1) {
        Ok(()) => {
            durable.store.append(entry);
            Ok(())
        }
        Err(fault) => {
            drop(entry);
            Err(fault)
        }
    }
}

/// The next ledger is opened.
fn open_ledger(durable: &mut Durable) -> Result<(), Memory>
    ensures ok { OnOk result (broker_of durable.new ≡ written durable.old.store.per_ledger (broker_of durable.old) write.Ledger) }
    ensures err { OnErr result (broker_of durable.new ≡ broker_of durable.old) }
    ensures own { durable.new.own ≡ durable.old.own }
    ensures per_ledger { durable.new.store.per_ledger ≡ durable.old.store.per_ledger }
{
    durable.store.reserve(1)?;
    durable.store.open_ledger();
    Ok(())
}

/// A subscription is created, at Latest or at Earliest, unless one of its name is here.
fn create(
    alloc: Global,
    durable: &mut Durable,
    name: SubName,
    kind: SubKind,
    replicated: bool,
    latest: bool,
) -> Result<(), Memory>
    ensures ok { OnOk result (broker_of durable.new ≡ written durable.old.store.per_ledger (broker_of durable.old) (write.Create name kind replicated latest)) }
    ensures err { OnErr result (broker_of durable.new ≡ broker_of durable.old) }
    ensures own { durable.new.own ≡ durable.old.own }
    ensures per_ledger { durable.new.store.per_ledger ≡ durable.old.store.per_ledger }
{
    if durable.subs.named(&name).is_some() {
        drop(name);
        return Ok(());
    }
    match beginning(alloc, latest, durable.store.len() as u64) {
        Ok(cursor) => durable.subs.add(DurableSub {
            name,
            kind,
            replicated,
            cursor,
            seeks: 0,
        }),
        Err(fault) => {
            drop(name);
            Err(fault)
        }
    }
}

/// The cursor of a subscription that is made at Latest in a topic of so many entries, or at Earliest.
fn beginning(alloc: Global, latest: bool, len: u64) -> Result<Cursor, Memory>
    ensures { IfOk result (λ c. c.indexes ≡ (if latest then below len else [])) }
{
    if latest {
        Cursor::all(alloc, len)
    } else {
        Ok(Cursor::none(alloc))
    }
}

/// A part of the subscription of a name is another one, if it is here.
fn alter(durable: &mut Durable, name: SubName, part: SubPart)
    ensures broker { broker_of durable.new ≡ at_sub (broker_of durable.old) name (λ s. with_part part s) }
    ensures own { durable.new.own ≡ durable.old.own }
    ensures per_ledger { durable.new.store.per_ledger ≡ durable.old.store.per_ledger }
{
    durable.subs.set(&name, part);
}

/// The subscription of a name is gone.
fn delete(durable: &mut Durable, name: SubName)
    ensures broker { broker_of durable.new ≡ written durable.old.store.per_ledger (broker_of durable.old) (write.Delete name) }
    ensures own { durable.new.own ≡ durable.old.own }
    ensures per_ledger { durable.new.store.per_ledger ≡ durable.old.store.per_ledger }
{
    durable.subs.remove(&name);
}
