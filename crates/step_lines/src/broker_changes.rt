//! What an event changed at a broker.
ghost use Rattle.std.specs.Prelude.{◌≡◌, ◌<◌, ◌++◌, [], drop, length, map, slice_index_or, OnErr, OnOk};
ghost use Rattle.std.specs.Str.{bytes_eq};
ghost use Rattle.broker_subs.specs.Table.{sub_at};
ghost use Rattle.geo_base.specs.Broker.{Broker as Machine, backlog};
ghost use Rattle.step_laws.specs.Steps.{broker_changes, change_line};
ghost use Rattle.step_lines.specs.Backlogs.{backlogs_of};
ghost use Rattle.step_lines.specs.Changes.{place_line, placed, stood_lines};
ghost use Rattle.step_lines.specs.Resting.{Rests};
ghost use Rattle.step_lines.specs.Noted.{AreReplicators, IsNoted, gone_named, gone_told, same_before, same_shown, shown_named, sub_told, subs_told};

use crate::entries::add_new_entries;
use crate::heads::{Indent, add_place};
use crate::noted::{NotedBroker, NotedSub, shown_of};
use crate::replicators::{NotedReplicator, add_other_replicators, is_any_other};
use crate::sub_names::has_sub;
use broker::Broker;
use geo_base::{Blob, Memory};
use report_lines::{SubShown, add_sub_line};

/// Appends what is other at a broker, whose backlogs these are, than it was noted, under its topic's line, which stands only where
/// something is.
pub(crate) fn add_broker_changes(
    lines: &mut Blob,
    indent: Indent,
    topic: &str,
    broker: &Broker,
    noted: &NotedBroker,
    backlogs: &[u64],
) -> Result<(), Memory>
    requires replicators { length noted.now.replicators.items ≡ length broker.now.site.clusters }
    requires backlogs { backlogs.now ≡ backlogs_of broker.now.broker }
    ensures { (b : Machine) → IsNoted (length broker.now.site.clusters) b noted.now
        → OnOk result (lines.new ≡ lines.old ++ stood_lines indent (placed (place_line topic.now (slice_index_or broker.now.site.clusters broker.now.site.own []))
        (broker_changes broker.now.site.clusters broker.now.site.own b broker.now.broker))) }
{
    let start = lines.len();
    add_place(lines, indent, topic, broker)?;
    let from = lines.len();
    add_changes(lines, indent, broker, noted, backlogs)?;
    if lines.len() == from {
        lines.truncate(start);
    }
    Ok(())
}

/// Appends what is other at a broker than it was noted where entries and subscriptions rest: only replicators may be other.
pub(crate) fn add_replicator_changes(
    lines: &mut Blob,
    indent: Indent,
    topic: &str,
    broker: &Broker,
    noted: &[NotedReplicator],
) -> Result<(), Memory>
    requires { length noted.now ≡ length broker.now.site.clusters }
    ensures { (b : Machine) → AreReplicators (length broker.now.site.clusters) b noted.now → Rests b broker.now.broker
        → OnOk result (lines.new ≡ lines.old ++ stood_lines indent (placed (place_line topic.now (slice_index_or broker.now.site.clusters broker.now.site.own []))
        (broker_changes broker.now.site.clusters broker.now.site.own b broker.now.broker))) }
{
    if !is_any_other(broker, noted) {
        return Ok(());
    }
    let start = lines.len();
    add_place(lines, indent, topic, broker)?;
    let from = lines.len();
    add_changes_at_rest(lines, indent, broker, noted)?;
    if lines.len() == from {
        lines.truncate(start);
    }
    Ok(())
}

/// Appends the replicators that are other than noted, which is all that is other there.
fn add_changes_at_rest(
    lines: &mut Blob,
    indent: Indent,
    broker: &Broker,
    noted: &[NotedReplicator],
) -> Result<(), Memory>
    requires { length noted.now ≡ length broker.now.site.clusters }
    ensures { (b : Machine) → AreReplicators (length broker.now.site.clusters) b noted.now → Rests b broker.now.broker
        → OnOk result (lines.new ≡ lines.old ++ stood_lines indent (map change_line (broker_changes broker.now.site.clusters broker.now.site.own b broker.now.broker))) }
{
    add_other_replicators(lines, indent, broker, noted)
}

/// Appends what is other, in the order of a report: entries, replicators, and subscriptions, before which those stand that are gone.
fn add_changes(
    lines: &mut Blob,
    indent: Indent,
    broker: &Broker,
    noted: &NotedBroker,
    backlogs: &[u64],
) -> Result<(), Memory>
    requires replicators { length noted.now.replicators.items ≡ length broker.now.site.clusters }
    requires backlogs { backlogs.now ≡ backlogs_of broker.now.broker }
    ensures { (b : Machine) → IsNoted (length broker.now.site.clusters) b noted.now
        → OnOk result (lines.new ≡ lines.old ++ stood_lines indent (map change_line (broker_changes broker.now.site.clusters broker.now.site.own b broker.now.broker))) }
{
    add_new_entries(lines, indent, broker, noted.entries)?;
    add_other_replicators(lines, indent, broker, noted.replicators.as_slice())?;
    add_gone_subs(lines, indent, broker, noted.subs.as_slice())?;
    add_other_subs(lines, indent, broker, noted.subs.as_slice(), backlogs)
}

/// The subscriptions that are no more.
fn add_gone_subs(
    lines: &mut Blob,
    indent: Indent,
    broker: &Broker,
    noted: &[NotedSub],
) -> Result<(), Memory>
    ensures { OnOk result (lines.new ≡ lines.old ++ stood_lines indent (map change_line (gone_told broker.now.broker noted.now))) }
{
    for sub in noted {
        add_if_gone(lines, indent, broker, sub.name.as_str().as_bytes())?;
    }
    Ok(())
}

/// The subscription of a name, if it is no more.
fn add_if_gone(lines: &mut Blob, indent: Indent, broker: &Broker, name: &[u8]) -> Result<(), Memory>
    ensures { OnOk result (lines.new ≡ lines.old ++ stood_lines indent (map change_line (gone_named broker.now.broker name.now))) }
{
    if has_sub(broker, name) {
        return Ok(());
    }
    indent.add(lines)?;
    lines.append(b"gone ")?;
    lines.append(name)?;
    lines.append(b"\n")
}

/// The subscriptions that are new or other than before.
#[tactic(auto, using(crate::proofs::Counting::backlog_there, crate::proofs::Counting::place_within))]
fn add_other_subs(
    lines: &mut Blob,
    indent: Indent,
    broker: &Broker,
    noted: &[NotedSub],
    backlogs: &[u64],
) -> Result<(), Memory>
    requires { backlogs.now ≡ backlogs_of broker.now.broker }
    ensures { OnOk result (lines.new ≡ lines.old ++ stood_lines indent (map change_line (subs_told broker.now.broker noted.now broker.now.broker.subs))) }
{
    for place in 0..broker.subs() {
        add_other_sub(lines, indent, broker, place, backlogs[place], noted)?;
    }
    Ok(())
}

/// The subscription at a place, whose backlog this is, if it is new or other than before.
fn add_other_sub(
    lines: &mut Blob,
    indent: Indent,
    broker: &Broker,
    place: usize,
    count: u64,
    noted: &[NotedSub],
) -> Result<(), Memory>
    requires place { place < length broker.now.broker.subs }
    requires count { count ≡ backlog broker.now.broker (sub_at broker.now.broker.subs place) }
    ensures { OnOk result (lines.new ≡ lines.old ++ stood_lines indent (map change_line (sub_told broker.now.broker (shown_named noted.now (sub_at broker.now.broker.subs place).name) (sub_at broker.now.broker.subs place)))) }
{
    match broker.sub(place) {
        Some(sub) => {
            let name = sub.name().as_str();
            let now = shown_of(broker, place, count);
            if is_as_noted(shown_named(noted, name.as_bytes()), &now) {
                return Ok(());
            }
            indent.add(lines)?;
            add_sub_line(lines, name, &now)
        }
        None => unreachable!(),
    }
}

/// What was noted of the subscription of a name, if there was one.
fn shown_named(noted: &[NotedSub], name: &[u8]) -> Option<SubShown>
    ensures { result ≡ shown_named noted.now name.now }
{
    for sub in noted {
        if is_noted(sub, name) {
            return Some(sub.shown);
        }
    }
    None
}

/// Whether what was noted is of a subscription of a name.
fn is_noted(sub: &NotedSub, name: &[u8]) -> bool
    ensures { result ≡ bytes_eq sub.now.name name.now }
{
    sub.name.as_str().as_bytes() == name
}

/// Whether a subscription was noted, and a report showed the same of it.
fn is_as_noted(before: Option<SubShown>, now: &SubShown) -> bool
    ensures { result ≡ same_before before now.now }
{
    match before {
        Some(before) => is_same(&before, now),
        None => false,
    }
}

/// Whether a report shows the same of two.
fn is_same(before: &SubShown, now: &SubShown) -> bool
    ensures { result ≡ same_shown before.now now.now }
{
    before.kind == now.kind
        && before.is_replicated == now.is_replicated
        && before.mark == now.mark
        && before.backlog == now.backlog
        && before.seeks == now.seeks
}
