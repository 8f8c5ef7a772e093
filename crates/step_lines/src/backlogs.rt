//! The backlogs of a broker's subscriptions, which are counted on from one event to the next.
//!
//! To ask a broker for a backlog takes time by the ranges of the cursor. So it is asked once, and then the backlogs are counted on over what
//! each event writes: one more for a message that is stored, less by those that a write acknowledges.
ghost use Rattle.std.specs.Prelude.{◌≡◌, ◌<◌, ℕ, ◌∷◌, [], drop, false, filter, if◌then◌else◌, length, map, true, IfSome, IfOk, Ok, OnErr, OnOk};
ghost use Rattle.broker_state.specs.Plan.{PlanView};
ghost use Rattle.broker_state.specs.declared.write.StateWrite.TheVariants as state_write;
ghost use Rattle.broker_subs.specs.Table.{sub_at};
ghost use Rattle.geo_base.specs.Broker.{backlog};
ghost use Rattle.geo_base.specs.Cursor.{has};
ghost use Rattle.std.specs.Str.{bytes_eq};
ghost use Rattle.step_lines.specs.Backlogs.{TellsBacklogs, after_writes, are_silent, backlog_with, backlog_written, backlogs_of, is_other, is_silent, nothing_known, wrote};

use crate::acked::{backlog_after, is_message, messages_from};
use crate::sub_names::{has_sub, is_named};
use broker::Broker;
use broker_state::{Plan, StateWrite};
use broker_subs::{Sub, SubWrite};
use geo_base::{Entry, EntryStore, Memory};
use std::alloc::Global;
use std::marker::Model;
use std::mem;

/// The backlogs of a broker's subscriptions in order of creation, where they are known, and memory in which they are counted on.
#[derive(Drop)]
pub struct Backlogs {
    is_known: bool,
    counts: Vec<u64>,
    next: Vec<u64>,
}

impl Model for Backlogs {
    ghost use Rattle.step_lines.specs.Backlogs.{KnownBacklogs};

    ghost Value = { KnownBacklogs };

    ghost view = { λ b. record { is_known = b.is_known; counts = b.counts.items } };
}

impl Backlogs {
    /// Nothing is known; takes no memory.
    pub(crate) fn new(alloc: Global) -> Backlogs
        ensures { result ≡ nothing_known }
    {
        Backlogs {
            is_known: false,
            counts: Vec::new(alloc),
            next: Vec::new(alloc),
        }
    }

    /// The backlogs that were asked or counted.
    pub(crate) fn counts(&self) -> &[u64]
        ensures { result.now ≡ self.now.counts }
    {
        self.counts.as_slice()
    }

    /// They are no more known.
    pub(crate) fn forget(&mut self)
        ensures { self.new.is_known ≡ false }
    {
        self.is_known = false;
    }

    /// Asks a broker, unless they are known. An `Err` is want of memory, and then nothing is known.
    pub(crate) fn know(&mut self, broker: &Broker) -> Result<(), Memory>
        requires { TellsBacklogs self.old broker.now.broker }
        ensures { OnOk result (self.new ≡ record { is_known = true; counts = backlogs_of broker.now.broker }) }
    {
        if self.is_known {
            return Ok(());
        }
        add_backlogs(&mut self.counts, broker)?;
        self.is_known = true;
        Ok(())
    }

    /// Counts on over an event that is prepared, where no write after the first changes a backlog. Over any other event, as is an update
    /// that creates a subscription, they are no more known.
    #[tactic(auto, using(crate::proofs::Counting::first_counted, crate::proofs::Counting::none_written))]
    pub(crate) fn follow(
        &mut self,
        alloc: Global,
        broker: &Broker,
        plan: &Plan,
    ) -> Result<(), Memory>
        requires { TellsBacklogs self.old broker.now.broker }
        ensures { (per : ℕ) → OnOk result (TellsBacklogs self.new (wrote per broker.now.broker plan.now)) }
    {
        if plan.write_count() == 0 || !self.is_known {
            return Ok(());
        }
        self.is_known = are_silent(plan, 1)
            && self.count_on(alloc, broker, plan, plan.write_at(0))?;
        Ok(())
    }

    /// Counts on over the first write of an event; whether that could be counted.
    fn count_on(
        &mut self,
        alloc: Global,
        broker: &Broker,
        plan: &Plan,
        write: &StateWrite,
    ) -> Result<bool, Memory>
        requires { self.old.counts ≡ backlogs_of broker.now.broker }
        ensures { (per : ℕ) → result ≡ Ok true → self.new.counts ≡ backlogs_of (after_writes per broker.now.broker plan.now (write.now ∷ [])) }
    {
        match write {
            StateWrite::Append { entry, .. } => self.count_stored(broker, entry),
            StateWrite::Sub(write) => self.count_sub(alloc, broker, plan, write),
            StateWrite::Create { sub, latest } => self.count_created(broker, sub, *latest),
            StateWrite::Delete => self.count_deleted(broker, plan),
            StateWrite::ReplicatorAck { .. }
            | StateWrite::SessionNumber { .. }
            | StateWrite::Ledger => Ok(true),
        }
    }

    /// Counts on over an entry that is stored; whether that could be counted.
    fn count_stored(&mut self, broker: &Broker, entry: &Entry) -> Result<bool, Memory>
        requires { self.old.counts ≡ backlogs_of broker.now.broker }
        ensures { result ≡ Ok true → self.new.counts ≡ map (backlog_with broker.now.broker entry.now) broker.now.broker.subs }
    {
        let is_counted = add_stored(&mut self.next, self.counts.as_slice(), broker, entry)?;
        mem::swap(&mut self.counts, &mut self.next);
        Ok(is_counted)
    }

    /// Counts on over a write of the event's subscription; whether that could be counted.
    #[tactic(auto, using(crate::proofs::Counting::sub_counted))]
    fn count_sub(
        &mut self,
        alloc: Global,
        broker: &Broker,
        plan: &Plan,
        write: &SubWrite,
    ) -> Result<bool, Memory>
        requires { self.old.counts ≡ backlogs_of broker.now.broker }
        ensures { (per : ℕ) → result ≡ Ok true → self.new.counts ≡ backlogs_of (after_writes per broker.now.broker plan.now (state_write.Sub write.now ∷ [])) }
    {
        match broker.sub(plan.sub_index()) {
            Some(named) => self.count_written(alloc, broker, named, write),
            None => Ok(false),
        }
    }

    /// Counts on over a write of the subscription of a name; whether that could be counted.
    fn count_written(
        &mut self,
        alloc: Global,
        broker: &Broker,
        named: &Sub,
        write: &SubWrite,
    ) -> Result<bool, Memory>
        requires { self.old.counts ≡ backlogs_of broker.now.broker }
        ensures { result ≡ Ok true → self.new.counts ≡ map (backlog_written broker.now.broker named.now.sub.name write.now) broker.now.broker.subs }
    {
        let counts = self.counts.as_slice();
        let is_counted = add_written(alloc, &mut self.next, counts, broker, named, write)?;
        mem::swap(&mut self.counts, &mut self.next);
        Ok(is_counted)
    }

    /// Counts on over a subscription that is created, unless there is one of its name.
    #[tactic(auto, using(crate::proofs::Counting::created_more, crate::proofs::Counting::created_none))]
    fn count_created(&mut self, broker: &Broker, sub: &Sub, latest: bool) -> Result<bool, Memory>
        requires { self.old.counts ≡ backlogs_of broker.now.broker }
        ensures { (per : ℕ) (p : PlanView) → result ≡ Ok true → self.new.counts ≡ backlogs_of (after_writes per broker.now.broker p (state_write.Create sub.now latest ∷ [])) }
    {
        if !has_sub(broker, sub.name().as_str().as_bytes()) {
            let first = first_open(broker, latest);
            self.counts.push(messages_from(broker.store(), first))?;
        }
        Ok(true)
    }

    /// Counts on over the event's subscription, which is deleted; whether that could be counted.
    #[tactic(auto, using(crate::proofs::Counting::deleted_counted))]
    fn count_deleted(&mut self, broker: &Broker, plan: &Plan) -> Result<bool, Memory>
        requires { self.old.counts ≡ backlogs_of broker.now.broker }
        ensures { (per : ℕ) → result ≡ Ok true → self.new.counts ≡ backlogs_of (after_writes per broker.now.broker plan.now (state_write.Delete ∷ [])) }
    {
        match broker.sub(plan.sub_index()) {
            Some(named) => self.count_without(broker, named),
            None => Ok(false),
        }
    }

    /// Leaves out the subscriptions of a name.
    fn count_without(&mut self, broker: &Broker, named: &Sub) -> Result<bool, Memory>
        requires { self.old.counts ≡ backlogs_of broker.now.broker }
        ensures { result ≡ Ok true → self.new.counts ≡ map (backlog broker.now.broker) (filter (is_other named.now.sub.name) broker.now.broker.subs) }
    {
        add_others(&mut self.next, self.counts.as_slice(), broker, named)?;
        mem::swap(&mut self.counts, &mut self.next);
        Ok(true)
    }
}

/// The backlogs of a broker's subscriptions, in order of creation, in the place of what was there.
pub(crate) fn add_backlogs(counts: &mut Vec<u64>, broker: &Broker) -> Result<(), Memory>
    ensures { OnOk result (counts.new.items ≡ backlogs_of broker.now.broker) }
{
    counts.clear();
    for place in 0..broker.subs() {
        counts.push(broker.backlog(place))?;
    }
    Ok(())
}

/// The backlogs after an entry is stored, in the place of what was there; whether they could be counted.
#[tactic(auto, using(crate::proofs::Counting::backlog_there, crate::proofs::Counting::place_within))]
fn add_stored(
    next: &mut Vec<u64>,
    counts: &[u64],
    broker: &Broker,
    entry: &Entry,
) -> Result<bool, Memory>
    requires { counts.now ≡ backlogs_of broker.now.broker }
    ensures { result ≡ Ok true → next.new.items ≡ map (backlog_with broker.now.broker entry.now) broker.now.broker.subs }
{
    next.clear();
    for place in 0..broker.subs() {
        match with_stored(broker, place, entry, counts[place]) {
            Some(count) => next.push(count)?,
            None => return Ok(false),
        }
    }
    Ok(true)
}

/// The backlogs after a write of the subscription of a name, in the place of what was there; whether they could be counted.
#[tactic(auto, using(crate::proofs::Counting::backlog_there, crate::proofs::Counting::place_within))]
fn add_written(
    alloc: Global,
    next: &mut Vec<u64>,
    counts: &[u64],
    broker: &Broker,
    named: &Sub,
    write: &SubWrite,
) -> Result<bool, Memory>
    requires { counts.now ≡ backlogs_of broker.now.broker }
    ensures { result ≡ Ok true → next.new.items ≡ map (backlog_written broker.now.broker named.now.sub.name write.now) broker.now.broker.subs }
{
    next.clear();
    for place in 0..broker.subs() {
        match with_written(alloc, broker, place, named, write, counts[place])? {
            Some(count) => next.push(count)?,
            None => return Ok(false),
        }
    }
    Ok(true)
}

/// The backlogs of the subscriptions of other names, in the place of what was there.
fn add_others(
    next: &mut Vec<u64>,
    counts: &[u64],
    broker: &Broker,
    named: &Sub,
) -> Result<(), Memory>
    requires { counts.now ≡ backlogs_of broker.now.broker }
    ensures { OnOk result (next.new.items ≡ map (backlog broker.now.broker) (filter (is_other named.now.sub.name) broker.now.broker.subs)) }
{
    next.clear();
    for place in 0..broker.subs() {
        if !is_named_as(broker, place, named) {
            next.push(count_at(counts, broker, place))?;
        }
    }
    Ok(())
}

/// The backlog of the subscription at a place, of a broker whose backlogs these are.
#[tactic(auto, using(crate::proofs::Counting::backlog_there, crate::proofs::Counting::place_within))]
fn count_at(counts: &[u64], broker: &Broker, place: usize) -> u64
    requires counts { counts.now ≡ backlogs_of broker.now.broker }
    requires place { place < length broker.now.broker.subs }
    ensures { result ≡ backlog broker.now.broker (sub_at broker.now.broker.subs place) }
{
    counts[place]
}

/// The backlog of the subscription at a place, which this was, after an entry is stored; None where no number counts it.
#[tactic(auto, using(crate::proofs::Counting::with_open, crate::proofs::Counting::with_acked, crate::proofs::Counting::with_marker))]
fn with_stored(broker: &Broker, place: usize, entry: &Entry, count: u64) -> Option<u64>
    requires place { place < length broker.now.broker.subs }
    requires count { count ≡ backlog broker.now.broker (sub_at broker.now.broker.subs place) }
    ensures { IfSome result (λ c. c ≡ backlog_with broker.now.broker entry.now (sub_at broker.now.broker.subs place)) }
{
    if !is_message(entry) || is_acked(broker, place, broker.store().len() as u64) {
        return Some(count);
    }
    count.checked_add(1)
}

/// The backlog of the subscription at a place, which this was, after a write of the one of a name; None where that is not counted.
fn with_written(
    alloc: Global,
    broker: &Broker,
    place: usize,
    named: &Sub,
    write: &SubWrite,
    count: u64,
) -> Result<Option<u64>, Memory>
    requires place { place < length broker.now.broker.subs }
    requires count { count ≡ backlog broker.now.broker (sub_at broker.now.broker.subs place) }
    ensures { IfOk result (λ o. IfSome o (λ c. c ≡ backlog_written broker.now.broker named.now.sub.name write.now (sub_at broker.now.broker.subs place))) }
{
    if !is_named_as(broker, place, named) {
        return Ok(Some(count));
    }
    match broker.sub(place) {
        Some(sub) => backlog_after(alloc, broker, sub, write, count),
        None => unreachable!(),
    }
}

/// Whether the subscription at a place has the name of another one.
fn is_named_as(broker: &Broker, place: usize, named: &Sub) -> bool
    requires { place < length broker.now.broker.subs }
    ensures { result ≡ bytes_eq (sub_at broker.now.broker.subs place).name named.now.sub.name }
{
    match broker.sub(place) {
        Some(sub) => is_named(sub, named.name().as_str().as_bytes()),
        None => unreachable!(),
    }
}

/// Whether the subscription at a place has acknowledged an index.
fn is_acked(broker: &Broker, place: usize, index: u64) -> bool
    requires { place < length broker.now.broker.subs }
    ensures { result ≡ has (sub_at broker.now.broker.subs place).cursor index }
{
    match broker.sub(place) {
        Some(sub) => sub.cursor().is_acked(index),
        None => unreachable!(),
    }
}

/// The first index that a subscription has not acknowledged which is created at the end of the topic, or at its begin.
fn first_open(broker: &Broker, latest: bool) -> u64
    ensures { result ≡ (if latest then length broker.now.broker.entries else 0) }
{
    if latest {
        broker.store().len() as u64
    } else {
        0
    }
}

/// Whether the writes of an event that is prepared change no backlog, from a number on.
#[tactic(auto, using(crate::proofs::Counting::silent_here, crate::proofs::Counting::silent_next))]
fn are_silent(plan: &Plan, first: usize) -> bool
    ensures { result ≡ are_silent (drop first plan.now.writes) }
{
    for number in first..plan.write_count() {
        if !is_silent(plan.write_at(number)) {
            return false;
        }
    }
    true
}

/// Whether a write changes no backlog.
fn is_silent(write: &StateWrite) -> bool
    ensures { result ≡ is_silent write.now }
{
    match write {
        StateWrite::Append { entry, .. } => !is_message(entry),
        StateWrite::ReplicatorAck { .. } | StateWrite::SessionNumber { .. } | StateWrite::Ledger =>
            true,
        StateWrite::Create { .. } | StateWrite::Delete | StateWrite::Sub(_) => false,
    }
}
