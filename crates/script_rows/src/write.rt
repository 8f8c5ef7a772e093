//! Steps written by their rows.
ghost use Rattle.std.specs.Prelude.{◌≡◌, [], ◌∷◌, ◌++◌, IfOk, OnOk, OnErr, take, length, codes};
ghost use Rattle.std.specs.Fmt.{decimal};
ghost use Rattle.script_rows.specs.NameBytes.{name_at};
ghost use Rattle.script_rows.specs.declared.column.Column.TheVariants as kind;
ghost use Rattle.script_rows.specs.Names.{nothing_seen};
ghost use Rattle.script_rows.specs.Values.{IsAtLink, item, key, name, place, seq, text, to};
ghost use Rattle.script_rows.specs.Written.{choice_word, event_values, event_words, fate_number, items, key_word, kind_of, place_word, spaced, step_line, targets_word, word_of, words_in};
ghost use Rattle.std.specs.List.{join_with_byte};

use crate::column::{Column, Menu};
use crate::columns::Columns;
use crate::event_kind::EventKind;
use crate::names::Names;
use crate::seen::Seen;
use crate::value::Value;
use crate::{NameTable, list_word, number_word};
use geo_base::{Blob, Event, Fate, Memory, Position, Sequence, Step, Targets};
use std::alloc::Global;
use std::fmt::Write;

impl Value<'_> {
    pub(crate) fn item(&self) -> u32
        ensures { result ≡ item self.now }
    {
        match self {
            Value::Item(item) => *item,
            _ => 0,
        }
    }

    fn seq(&self) -> u64
        ensures { result ≡ seq self.now }
    {
        match self {
            Value::Seq(seq) => *seq,
            _ => 0,
        }
    }

    fn place(&self) -> Option<Position>
        ensures { result ≡ place self.now }
    {
        match self {
            Value::PositionOrEnd(place) => *place,
            _ => None,
        }
    }

    fn targets(&self) -> Targets
        ensures { result ≡ to self.now }
    {
        match self {
            Value::Targets(targets) => *targets,
            _ => Targets::All,
        }
    }

    fn name(&self) -> &[u8]
        ensures { result.now ≡ name self.now }
    {
        match self {
            Value::Name(name) => name.as_bytes(),
            _ => &[],
        }
    }

    fn text(&self) -> &[u8]
        ensures { result.now ≡ text self.now }
    {
        match self {
            Value::Text(text) => text.as_bytes(),
            _ => &[],
        }
    }

    fn key_word(&self) -> &[u8]
        ensures { result.now ≡ key_word (key self.now) }
    {
        match self {
            Value::Key(Some(key)) => key.as_bytes(),
            _ => b"-",
        }
    }
}

impl<'a> Names<'a> {
    /// Writes the line of a step, without its line feed, after what stands there; where memory is wanting that stands, with a part of the
    /// line or none.
    #[tactic(auto, using(crate::proofs::Spaced::halt_joined))]
    pub fn write_step(&self, alloc: Global, out: &mut Blob, step: &Step) -> Result<(), Memory>
        ensures ok { OnOk result (out.new ≡ out.old ++ step_line self.now step.now) }
        ensures err { OnErr result (take (length out.old) out.new ≡ out.old) }
    {
        match step {
            Step::Plain(event) => self.write_event(alloc, out, event),
            Step::Halt(count, event) => {
                write_halt(alloc, out, *count)?;
                self.write_event(alloc, out, event)
            }
            Step::Settle => out.append(b"settle"),
            Step::Stop => out.append(b"stop"),
        }
    }

    /// Writes the words of an event.
    #[tactic(auto, using(crate::proofs::Spaced::word_joined))]
    fn write_event(&self, alloc: Global, out: &mut Blob, event: &Event) -> Result<(), Memory>
        ensures ok { OnOk result (out.new ≡ out.old ++ join_with_byte 32 (event_words self.now event.now)) }
        ensures err { OnErr result (take (length out.old) out.new ≡ out.old) }
    {
        let kind = kind_of(event);
        out.append(kind.word())?;
        let values = event_values(alloc, event)?;
        let columns = Columns::new(kind.columns());
        let wrote = self.write_row(alloc, out, &columns, values.as_slice());
        drop(values);
        wrote
    }

    /// Writes values after what stands there, each after a space.
    #[tactic(auto, using(crate::proofs::Spaced::one_word))]
    fn write_row(
        &self,
        alloc: Global,
        out: &mut Blob,
        columns: &Columns,
        values: &[Value<'_>],
    ) -> Result<(), Memory>
        ensures ok { OnOk result (out.new
            ≡ out.old ++ spaced (words_in self.now nothing_seen columns.now values.now)) }
        ensures err { OnErr result (take (length out.old) out.new ≡ out.old) }
    {
        let mut left = columns.copied();
        let mut seen = Seen::nothing();
        for value in values {
            let Some(column) = left.next_column() else {
                return Ok(());
            };
            out.append(b" ")?;
            let word = self.word(alloc, &seen, column, value)?;
            let kept = self.cluster_word(column, value);
            seen = self.seen_after(&seen, column, word.as_slice(), kept);
            let wrote = out.append(word.as_slice());
            drop(word);
            wrote?;
        }
        Ok(())
    }

    /// The word that writes a value.
    fn word(
        &self,
        alloc: Global,
        seen: &Seen<'_>,
        column: Column,
        value: &Value<'_>,
    ) -> Result<Blob, Memory>
        ensures { IfOk result (λ w. w ≡ word_of self.now seen.now column value.now) }
    {
        match column {
            Column::Topic | Column::Home => named_word(alloc, self.topics(), value.item()),
            Column::Cluster | Column::Other => named_word(alloc, self.clusters(), value.item()),
            Column::Client | Column::Doer(_) => named_word(alloc, self.clients(), value.item()),
            Column::Offered => Blob::from_slice(alloc, self.sub_name(seen.topic(), value.item())),
            Column::Sub
            | Column::Producer
            | Column::NewCluster
            | Column::NewTopic
            | Column::NewClient => Blob::from_slice(alloc, value.name()),
            Column::Targets => targets_word(alloc, self.clusters(), value.targets()),
            Column::Key => Blob::from_slice(alloc, value.key_word()),
            Column::Text => Blob::from_slice(alloc, value.text()),
            Column::Count { .. } | Column::Lost | Column::Twice => number_word(
                alloc,
                u64::from(value.item()),
            ),
            Column::Seq => number_word(alloc, value.seq()),
            Column::PositionOrEnd => place_word(alloc, value.place()),
            Column::Menu(menu) => Blob::from_slice(alloc, choice_word(menu, value.item())),
        }
    }

    /// The word of a cluster.
    fn cluster_word(&self, column: Column, value: &Value<'_>) -> &'a [u8]
        ensures { column ≡ kind.Cluster → result.now ≡ name_at self.now.clusters (item value.now) }
    {
        match column {
            Column::Cluster => self.clusters().name(value.item() as usize),
            _ => &[],
        }
    }
}

/// Writes the words of a halt that stand before its event.
fn write_halt(alloc: Global, out: &mut Blob, count: u32) -> Result<(), Memory>
    ensures ok { OnOk result (out.new ≡ ((out.old ++ codes "halt ") ++ decimal count) ++ codes " ") }
    ensures err { OnErr result (take (length out.old) out.new ≡ out.old) }
{
    out.append(b"halt ")?;
    let digits = number_word(alloc, u64::from(count))?;
    let wrote = out.append(digits.as_slice());
    drop(digits);
    wrote?;
    out.append(b" ")
}

fn named_word(alloc: Global, names: &NameTable<'_>, number: u32) -> Result<Blob, Memory>
    ensures { IfOk result (λ w. w ≡ name_at names.now number) }
{
    Blob::from_slice(alloc, names.name(number as usize))
}

fn targets_word(alloc: Global, clusters: &NameTable<'_>, targets: Targets) -> Result<Blob, Memory>
    ensures { IfOk result (λ w. w ≡ targets_word clusters.now targets) }
{
    match targets {
        Targets::All => Blob::from_slice(alloc, b"*"),
        Targets::Only(mask) => list_word(alloc, clusters, mask),
    }
}

fn place_word(alloc: Global, place: Option<Position>) -> Result<Blob, Memory>
    ensures { IfOk result (λ w. w ≡ place_word place) }
{
    match place {
        None => Blob::from_slice(alloc, b"end"),
        Some(position) => {
            let ledger = position.ledger;
            let entry = position.entry;
            let text = format!(in alloc; "{ledger}:{entry}").map_err(|_| Memory)?;
            Blob::from_slice(alloc, text.as_bytes())
        }
    }
}

fn choice_word(menu: Menu, number: u32) -> &'static [u8]
    ensures { result.now ≡ choice_word menu number }
{
    match (menu, number) {
        (Menu::Version, _) => b"1",
        (Menu::Fate, 0) => b"good",
        (Menu::Fate, 1) => b"lost",
        (Menu::Fate, _) => b"twice",
        (Menu::Start, 0) => b"latest",
        (Menu::Start, _) => b"earliest",
        (Menu::SubKind, 0) => b"exclusive",
        (Menu::SubKind, 1) => b"shared",
        (Menu::SubKind, 2) => b"failover",
        (Menu::SubKind, _) => b"keyshared",
        (Menu::Replication, 0) => b"local",
        (Menu::Replication, _) => b"replicated",
    }
}

/// The kind of an event's row.
fn kind_of(event: &Event) -> EventKind
    ensures { result ≡ kind_of event.now }
{
    match event {
        Event::Go { .. } => EventKind::Go,
        Event::Get { .. } => EventKind::Get,
        Event::Reconnect { .. } => EventKind::Reconnect,
        Event::Serve { .. } => EventKind::Serve,
        Event::Drop { .. } => EventKind::Drop,
        Event::Reset { .. } => EventKind::Reset,
        Event::Read { .. } => EventKind::Read,
        Event::Take { .. } => EventKind::Take,
        Event::Receipt { .. } => EventKind::Receipt,
        Event::Snap { .. } => EventKind::Snap,
        Event::Offer { .. } => EventKind::Offer,
        Event::Seek { .. } => EventKind::Seek,
        Event::Restart { .. } => EventKind::Restart,
    }
}

fn fate_number(fate: Fate) -> u32
    ensures { result ≡ fate_number fate }
{
    match fate {
        Fate::Good => 0,
        Fate::Lost => 1,
        Fate::Twice => 2,
    }
}

/// The values of an event's row.
fn event_values(alloc: Global, event: &Event) -> Result<Sequence<Value<'static>>, Memory>
    ensures { IfOk result (λ vs. vs ≡ event_values event.now) }
{
    match event {
        Event::Go { client } | Event::Get { client } | Event::Reconnect { client } => {
            one(alloc, *client)
        }
        Event::Serve { cluster, client } | Event::Drop { cluster, client } => {
            two(alloc, *cluster, *client)
        }
        Event::Reset { .. } | Event::Read { .. } | Event::Take { .. } | Event::Receipt { .. } => {
            link_event_values(alloc, event)
        }
        Event::Snap { topic, cluster } | Event::Restart { topic, cluster } => {
            two(alloc, *topic, *cluster)
        }
        Event::Offer {
            topic,
            cluster,
            sub,
        } => three(alloc, *topic, *cluster, *sub),
        Event::Seek {
            topic,
            cluster,
            sub,
            to,
        } => {
            let mut values = three(alloc, *topic, *cluster, *sub)?;
            values.push(Value::PositionOrEnd(*to))?;
            Ok(values)
        }
    }
}

/// The values of an event's row that is between two clusters.
fn link_event_values(alloc: Global, event: &Event) -> Result<Sequence<Value<'static>>, Memory>
    requires { IsAtLink (kind_of event.now) }
    ensures { IfOk result (λ vs. vs ≡ event_values event.now) }
{
    match event {
        Event::Reset {
            topic,
            source,
            target,
        }
        | Event::Read {
            topic,
            source,
            target,
        } => three(alloc, *topic, *source, *target),
        Event::Take {
            topic,
            source,
            target,
            fate,
        }
        | Event::Receipt {
            topic,
            source,
            target,
            fate,
        } => four(alloc, *topic, *source, *target, fate_number(*fate)),
        _ => unreachable!(),
    }
}

fn one(alloc: Global, a: u32) -> Result<Sequence<Value<'static>>, Memory>
    ensures { IfOk result (λ vs. vs ≡ items (a ∷ [])) }
{
    let mut values = Sequence::new(alloc);
    values.push(Value::Item(a))?;
    Ok(values)
}

fn two(alloc: Global, a: u32, b: u32) -> Result<Sequence<Value<'static>>, Memory>
    ensures { IfOk result (λ vs. vs ≡ items (a ∷ b ∷ [])) }
{
    let mut values = one(alloc, a)?;
    values.push(Value::Item(b))?;
    Ok(values)
}

fn three(alloc: Global, a: u32, b: u32, c: u32) -> Result<Sequence<Value<'static>>, Memory>
    ensures { IfOk result (λ vs. vs ≡ items (a ∷ b ∷ c ∷ [])) }
{
    let mut values = two(alloc, a, b)?;
    values.push(Value::Item(c))?;
    Ok(values)
}

fn four(alloc: Global, a: u32, b: u32, c: u32, d: u32) -> Result<Sequence<Value<'static>>, Memory>
    ensures { IfOk result (λ vs. vs ≡ items (a ∷ b ∷ c ∷ d ∷ [])) }
{
    let mut values = three(alloc, a, b, c)?;
    values.push(Value::Item(d))?;
    Ok(values)
}
