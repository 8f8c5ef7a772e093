//! The subscriptions of a topic.
ghost use Rattle.std.specs.Prelude.{◌≡◌, ◌≤◌, ℕ, List, [], true, IfOk, None};
ghost use Rattle.durable_parts.specs.Parts.{sub_of};
ghost use Rattle.geo_base.specs.Broker.{sub_named};
ghost use Rattle.geo_base.specs.Name.{is_name};
ghost use Rattle.state_items.specs.Reading.{Gives, many};
ghost use Rattle.state_nodes.specs.Subs.{behind_name, byte_within, kind_of, name_at, seeks_at, sub_at, subs_at, with_name};

use cursor_acks::Cursor;
use durable_parts::{DurableSub, DurableSubs};
use geo_base::limits::SUBSCRIPTIONS;
use geo_base::{Memory, NameFault, SubKind, SubName, name_text};
use state_items::{
    ItemFault, MOST_COUNT, Rule, byte_at, cursor_at, judge, number_at, number_within, text_at,
};
use std::alloc::Global;

/// The version of a state file whose subscriptions have no count of seeks.
const WITHOUT_SEEKS: u32 = 1;

/// The highest byte of a kind.
const MOST_KIND: u8 = 3;

/// Subscriptions in order of creation, over a topic of `entries` entries.
#[tactic(auto, unfolding(crate::specs::Subs::subs_at))]
pub(crate) fn subs_at(
    alloc: Global,
    version: u32,
    entries: u64,
    bytes: &[u8],
) -> Result<(DurableSubs, &[u8]), ItemFault>
    ensures { Gives (λ x. (x.0, x.1.now)) result (subs_at version entries bytes.now) }
{
    let (count, rest) = number_at(bytes)?;
    judge(count <= SUBSCRIPTIONS as u64, bytes, Rule::Subscription)?;
    counted_subs(alloc, version, entries, count, rest)
}

/// So many subscriptions.
fn counted_subs(
    alloc: Global,
    version: u32,
    entries: u64,
    count: u64,
    bytes: &[u8],
) -> Result<(DurableSubs, &[u8]), ItemFault>
    ensures { Gives (λ x. (x.0, x.1.now)) result (many (sub_at version entries) count [] bytes.now) }
{
    let mut subs = DurableSubs::new(alloc);
    let mut rest = bytes;
    for _ in 0..count {
        let (sub, after) = sub_at(alloc, version, entries, &subs, rest)?;
        subs.add(sub)?;
        rest = after;
    }
    Ok((subs, rest))
}

/// One more subscription.
#[tactic(auto, unfolding(crate::specs::Subs::sub_at))]
fn sub_at<'a>(
    alloc: Global,
    version: u32,
    entries: u64,
    before: &DurableSubs,
    bytes: &'a [u8],
) -> Result<(DurableSub, &'a [u8]), ItemFault>
    ensures read { Gives (λ x. (sub_of x.0, x.1.now)) result (sub_at version entries before.now bytes.now) }
    ensures new { IfOk result (λ x. sub_named before.now x.0.name ≡ None) }
{
    let (name, rest) = name_at(alloc, before, bytes)?;
    match behind_name(alloc, version, entries, rest) {
        Ok((part, rest)) => Ok((named(name, part), rest)),
        Err(fault) => {
            drop(name);
            Err(fault)
        }
    }
}

/// What a subscription is beside its name.
#[derive(Drop)]
pub(crate) struct Nameless {
    pub(crate) kind: SubKind,
    pub(crate) replicated: bool,
    pub(crate) cursor: Cursor,
    pub(crate) seeks: u64,
}

/// It with its name.
fn named(name: SubName, part: Nameless) -> DurableSub
    ensures sub { sub_of result ≡ with_name name part }
    ensures name { result.name ≡ name }
{
    DurableSub {
        name,
        kind: part.kind,
        replicated: part.replicated,
        cursor: part.cursor,
        seeks: part.seeks,
    }
}

/// What stands after a subscription's name.
#[tactic(auto, unfolding(crate::specs::Subs::behind_name))]
fn behind_name(
    alloc: Global,
    version: u32,
    entries: u64,
    bytes: &[u8],
) -> Result<(Nameless, &[u8]), ItemFault>
    ensures { (name : List ℕ) → Gives (λ x. (with_name name x.0, x.1.now)) result (behind_name version entries name bytes.now) }
{
    let (kind, rest) = byte_within(bytes, MOST_KIND)?;
    let (flag, rest) = byte_within(rest, 1)?;
    let (cursor, rest) = cursor_at(alloc, entries, rest)?;
    match seeks_at(version, rest) {
        Ok((seeks, rest)) => {
            let part = Nameless {
                kind: kind_of(kind),
                replicated: flag == 1,
                cursor,
                seeks,
            };
            Ok((part, rest))
        }
        Err(fault) => {
            drop(cursor);
            Err(fault)
        }
    }
}

/// A name that no subscription has yet.
#[tactic(auto, unfolding(crate::specs::Subs::name_at))]
fn name_at<'a>(
    alloc: Global,
    before: &DurableSubs,
    bytes: &'a [u8],
) -> Result<(SubName, &'a [u8]), ItemFault>
    ensures read { Gives (λ x. (x.0, x.1.now)) result (name_at before.now bytes.now) }
    ensures new { IfOk result (λ x. sub_named before.now x.0 ≡ None) }
{
    let (word, rest) = text_at(bytes)?;
    let Some(text) = name_text(word) else {
        return Err(ItemFault::at(bytes, Rule::Subscription));
    };
    let name = new_name(alloc, text)?;
    if before.named(&name).is_some() {
        drop(name);
        return Err(ItemFault::at(bytes, Rule::Subscription));
    }
    Ok((name, rest))
}

/// A text that is a name, as one.
fn new_name(alloc: Global, text: &str) -> Result<SubName, Memory>
    requires { is_name text.now ≡ true }
    ensures { IfOk result (λ name. name ≡ text.now) }
{
    match SubName::read(alloc, text) {
        Ok(name) => Ok(name),
        Err(NameFault::Memory) => Err(Memory),
        Err(NameFault::Empty | NameFault::TooLong | NameFault::BadByte) => unreachable!(),
    }
}

/// A byte that is at most `most`.
#[tactic(auto, unfolding(crate::specs::Subs::byte_within))]
fn byte_within(bytes: &[u8], most: u8) -> Result<(u8, &[u8]), ItemFault>
    ensures read { Gives (λ x. (x.0, x.1.now)) result (byte_within most bytes.now) }
    ensures within { IfOk result (λ x. x.0 ≤ most) }
{
    let (byte, rest) = byte_at(bytes)?;
    judge(byte <= most, bytes, Rule::Subscription)?;
    Ok((byte, rest))
}

/// How often an operator reset the cursor; the first version does not say it.
#[tactic(auto, unfolding(crate::specs::Subs::seeks_at))]
fn seeks_at(version: u32, bytes: &[u8]) -> Result<(u64, &[u8]), ItemFault>
    ensures { Gives (λ x. (x.0, x.1.now)) result (seeks_at version bytes.now) }
{
    if version == WITHOUT_SEEKS {
        return Ok((0, bytes));
    }
    number_within(bytes, MOST_COUNT, Rule::Count)
}

/// The kind of a byte.
fn kind_of(byte: u8) -> SubKind
    ensures { result ≡ kind_of byte }
{
    match byte {
        0 => SubKind::Exclusive,
        1 => SubKind::Shared,
        2 => SubKind::Failover,
        _ => SubKind::KeyShared,
    }
}
