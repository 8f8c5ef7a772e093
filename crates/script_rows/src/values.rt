//! What the values of a row make.
ghost use Rattle.std.specs.Prelude.{◌≡◌, ◌==◌, IfOk};
ghost use Rattle.script_rows.specs.Values.{IsAtBroker, IsAtLink, event_of, fate_numbered, ident_of, item_at, key_at, line_of, name_at, place_at, rest, seq_at, step_of, sub_kind_numbered, text_at, to_at};

use crate::NameWord;
use crate::act_kind::ActKind;
use crate::event_kind::EventKind;
use crate::kind::Kind;
use crate::line_kind::LineKind;
use crate::value::Value;
use geo_base::{Blob, Event, Fate, Ident, Line, Memory, Position, Step, SubKind, Targets, Text};
use std::alloc::Global;

/// The step of a line that schedules one; a line of another kind schedules none, and is given `settle`.
pub fn step_of(kind: Kind, values: &[Value<'_>]) -> Step
    ensures { result ≡ step_of kind values.now }
{
    match kind {
        Kind::Event(kind) => Step::Plain(event_of(kind, values)),
        Kind::Halt(kind) => Step::Halt(item_at(values, 0), event_of(kind, rest(values))),
        Kind::Other(LineKind::Stop) => Step::Stop,
        _ => Step::Settle,
    }
}

/// The event of a row's values.
fn event_of(kind: EventKind, values: &[Value<'_>]) -> Event
    ensures { result ≡ event_of kind values.now }
{
    let first = item_at(values, 0);
    match kind {
        EventKind::Go => Event::Go { client: first },
        EventKind::Get => Event::Get { client: first },
        EventKind::Reconnect => Event::Reconnect { client: first },
        EventKind::Serve => Event::Serve {
            cluster: first,
            client: item_at(values, 1),
        },
        EventKind::Drop => Event::Drop {
            cluster: first,
            client: item_at(values, 1),
        },
        EventKind::Reset | EventKind::Read | EventKind::Take | EventKind::Receipt => {
            link_event_of(kind, values)
        }
        EventKind::Snap | EventKind::Offer | EventKind::Seek | EventKind::Restart => {
            broker_event_of(kind, values)
        }
    }
}

/// The event between two clusters.
fn link_event_of(kind: EventKind, values: &[Value<'_>]) -> Event
    requires { IsAtLink kind }
    ensures { result ≡ event_of kind values.now }
{
    let topic = item_at(values, 0);
    let source = item_at(values, 1);
    let target = item_at(values, 2);
    match kind {
        EventKind::Reset => Event::Reset {
            topic,
            source,
            target,
        },
        EventKind::Read => Event::Read {
            topic,
            source,
            target,
        },
        EventKind::Take => Event::Take {
            topic,
            source,
            target,
            fate: fate_at(values, 3),
        },
        EventKind::Receipt => Event::Receipt {
            topic,
            source,
            target,
            fate: fate_at(values, 3),
        },
        _ => unreachable!(),
    }
}

/// The event at a topic's broker alone.
fn broker_event_of(kind: EventKind, values: &[Value<'_>]) -> Event
    requires { IsAtBroker kind }
    ensures { result ≡ event_of kind values.now }
{
    let topic = item_at(values, 0);
    let cluster = item_at(values, 1);
    match kind {
        EventKind::Snap => Event::Snap { topic, cluster },
        EventKind::Offer => Event::Offer {
            topic,
            cluster,
            sub: item_at(values, 2),
        },
        EventKind::Seek => Event::Seek {
            topic,
            cluster,
            sub: item_at(values, 2),
            to: place_at(values, 3),
        },
        EventKind::Restart => Event::Restart { topic, cluster },
        _ => unreachable!(),
    }
}

/// The client's line of a row's values.
pub fn line_of(alloc: Global, kind: ActKind, values: &[Value<'_>]) -> Result<Line, Memory>
    ensures { IfOk result (λ line. line ≡ line_of kind values.now) }
{
    match kind {
        ActKind::Produce => Ok(Line::Produce),
        ActKind::Pub => Ok(Line::Pub {
            seq: seq_at(values, 0),
            to: to_at(values, 1),
            key: key_at(alloc, values, 2)?,
            text: text_at(alloc, values, 3)?,
        }),
        ActKind::Sub => Ok(Line::Sub {
            sub: name_at(values, 0).text(alloc)?,
            kind: sub_kind_at(values, 1),
            earliest: item_at(values, 2) == 1,
            replicated: item_at(values, 3) == 1,
        }),
        ActKind::Flow => Ok(Line::Flow {
            permits: item_at(values, 0),
        }),
        ActKind::Ack => Ok(Line::Ack {
            ident: ident_of(alloc, values)?,
        }),
        ActKind::AckTo => Ok(Line::AckTo {
            ident: ident_of(alloc, values)?,
        }),
        ActKind::AckAll => Ok(Line::AckAll),
        ActKind::Unsub => Ok(Line::Unsub),
        ActKind::Close => Ok(Line::Close),
        ActKind::CloseProducer => Ok(Line::CloseProducer),
        ActKind::Ping => Ok(Line::Ping),
        ActKind::Move => Ok(Line::Move {
            cluster: item_at(values, 0),
        }),
    }
}

/// `X P SEQ`
fn ident_of(alloc: Global, values: &[Value<'_>]) -> Result<Ident, Memory>
    ensures { IfOk result (λ ident. ident ≡ ident_of values.now) }
{
    Ok(Ident {
        origin: item_at(values, 0),
        producer: name_at(values, 1).producer(alloc)?,
        seq: seq_at(values, 2),
    })
}

/// The values after the first.
pub fn rest<'b, 'a>(values: &'b [Value<'a>]) -> &'b [Value<'a>]
    ensures { result.now ≡ rest values.now }
{
    match values {
        [] => &[],
        [_, rest @ ..] => rest,
    }
}

/// A number of a row.
pub fn item_at(values: &[Value<'_>], at: usize) -> u32
    ensures { result ≡ item_at values.now at }
{
    match values.get(at) {
        Some(Value::Item(item)) => *item,
        _ => 0,
    }
}

/// A name of a row.
pub fn name_at<'a>(values: &[Value<'a>], at: usize) -> NameWord<'a>
    ensures { result ≡ name_at values.now at }
{
    match values.get(at) {
        Some(Value::Name(name)) => name.copied(),
        _ => NameWord::empty(),
    }
}

fn seq_at(values: &[Value<'_>], at: usize) -> u64
    ensures { result ≡ seq_at values.now at }
{
    match values.get(at) {
        Some(Value::Seq(seq)) => *seq,
        _ => 0,
    }
}

fn place_at(values: &[Value<'_>], at: usize) -> Option<Position>
    ensures { result ≡ place_at values.now at }
{
    match values.get(at) {
        Some(Value::PositionOrEnd(place)) => *place,
        _ => None,
    }
}

fn to_at(values: &[Value<'_>], at: usize) -> Targets
    ensures { result ≡ to_at values.now at }
{
    match values.get(at) {
        Some(Value::Targets(targets)) => *targets,
        _ => Targets::All,
    }
}

fn key_at(alloc: Global, values: &[Value<'_>], at: usize) -> Result<Option<Text>, Memory>
    ensures { IfOk result (λ key. key ≡ key_at values.now at) }
{
    match values.get(at) {
        Some(Value::Key(Some(key))) => Ok(Some(key.text(alloc)?)),
        _ => Ok(None),
    }
}

fn text_at(alloc: Global, values: &[Value<'_>], at: usize) -> Result<Blob, Memory>
    ensures { IfOk result (λ text. text ≡ text_at values.now at) }
{
    match values.get(at) {
        Some(Value::Text(text)) => Blob::from_slice(alloc, text.as_bytes()),
        _ => Ok(Blob::new(alloc)),
    }
}

fn fate_at(values: &[Value<'_>], at: usize) -> Fate
    ensures { result ≡ fate_numbered (item_at values.now at) }
{
    match item_at(values, at) {
        0 => Fate::Good,
        1 => Fate::Lost,
        _ => Fate::Twice,
    }
}

fn sub_kind_at(values: &[Value<'_>], at: usize) -> SubKind
    ensures { result ≡ sub_kind_numbered (item_at values.now at) }
{
    match item_at(values, at) {
        0 => SubKind::Exclusive,
        1 => SubKind::Shared,
        2 => SubKind::Failover,
        _ => SubKind::KeyShared,
    }
}
