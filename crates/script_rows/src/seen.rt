//! What the words before in a line named.
ghost use Rattle.std.specs.Prelude.{◌≡◌, ◌-◌, Some, unwrap_or};
ghost use Rattle.script_rows.specs.Numbers.{number_of};
ghost use Rattle.script_rows.specs.Columns.{seen_after, value_of};
ghost use Rattle.script_rows.specs.Names.{nothing_seen};
ghost use Rattle.script_rows.specs.declared.column.Column.TheVariants as kind;

use crate::column::Column;
use crate::names::Names;
use crate::number_of;
use crate::value::Value;
use std::marker::Model;

/// The parts that chances are counted in.
pub(crate) const THOUSAND: u32 = 1_000;

/// What the words before in a line named: the number of its topic, a cluster, and how many packets of a thousand are lost.
#[derive(Drop)]
pub(crate) struct Seen<'a> {
    topic: u32,
    cluster: &'a [u8],
    lost: u32,
}

impl<'a> Model for Seen<'a> {
    ghost use Rattle.script_rows.specs.Names.{Seen};

    ghost Value = { Seen };

    ghost view = { λ s. record { topic = s.topic; cluster = s.cluster.now; lost = s.lost } };
}

impl<'a> Seen<'a> {
    /// Before the first word.
    pub(crate) fn nothing() -> Seen<'a>
        ensures { result ≡ nothing_seen }
    {
        Seen {
            topic: 0,
            cluster: &[],
            lost: 0,
        }
    }

    /// The number of the line's topic.
    pub(crate) fn topic(&self) -> u32
        ensures { result ≡ self.now.topic }
    {
        self.topic
    }

    /// The cluster that was named last.
    pub(crate) fn cluster(&self) -> &'a [u8]
        ensures { result.now ≡ self.now.cluster }
    {
        self.cluster
    }

    /// How many packets of a thousand are not lost.
    pub(crate) fn kept(&self) -> u32
        ensures { result ≡ 1000 - self.now.lost }
    {
        THOUSAND.saturating_sub(self.lost)
    }
}

impl Names<'_> {
    /// What the words after it know of a word, of which `kept` is a copy that lasts where it is a cluster.
    pub(crate) fn seen_after<'b>(
        &self,
        seen: &Seen<'b>,
        column: Column,
        word: &[u8],
        kept: &'b [u8],
    ) -> Seen<'b>
        requires { column ≡ kind.Cluster → kept.now ≡ word.now }
        ensures { result ≡ seen_after self.now seen.now column word.now }
    {
        let (topic, cluster, lost) = (seen.topic, seen.cluster, seen.lost);
        match column {
            Column::Topic => Seen {
                topic: self.topics().number(word),
                cluster,
                lost,
            },
            Column::Doer(_) => Seen {
                topic: self.member(word).topic,
                cluster,
                lost,
            },
            Column::Cluster => Seen {
                topic,
                cluster: kept,
                lost,
            },
            Column::Lost => Seen {
                topic,
                cluster,
                lost: lost_of(word),
            },
            _ => Seen {
                topic,
                cluster,
                lost,
            },
        }
    }

    /// The same of a word whose value is known.
    pub(crate) fn seen_with<'b>(
        &self,
        seen: Seen<'b>,
        column: Column,
        word: &'b [u8],
        value: &Value<'_>,
    ) -> Seen<'b>
        requires { value_of self.now seen column word.now ≡ Some value.now }
        ensures { result ≡ seen_after self.now seen.entry column word.now }
    {
        let mut seen = seen;
        match column {
            Column::Topic => seen.topic = value.item(),
            Column::Doer(_) => seen.topic = self.member_at(value.item()).topic,
            Column::Cluster => seen.cluster = word,
            Column::Lost => seen.lost = value.item(),
            _ => {}
        }
        seen
    }
}

/// How many packets of a thousand a word says; none where it is no such number.
fn lost_of(word: &[u8]) -> u32
    ensures { result ≡ unwrap_or (number_of 1000 word.now) 0 }
{
    match number_of(word, u64::from(THOUSAND)) {
        Some(lost) => lost as u32,
        None => 0,
    }
}
