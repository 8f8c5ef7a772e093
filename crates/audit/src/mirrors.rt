//! All topics of a trace.
ghost use Rattle.std.specs.Prelude.{◌≡◌, ◌<◌, ◌+◌, ◌*◌, [], ◌∷◌, ◌++◌, None, length, replicate, take, slice_get, slice_index_or, slice_set, IfOk, IfSome, OnOk};
ghost use Rattle.std.specs.List.{list_all};
ghost use Rattle.cursor_acks.specs.Ranges.{indexes_of};
ghost use Rattle.geo_base.specs.Mirror.{acted, index_at, mirror_number, no_mirror, opening_mirrors, told};
ghost use Rattle.geo_base.specs.Audit.{refused};
ghost use Rattle.geo_base.specs.Laws.{of_origin, outbound};
ghost use Rattle.trace_lines.specs.Said.{act_said, item_said};
ghost use Rattle.audit.specs.Acks.{acks_refused};
ghost use Rattle.audit.specs.Covers.{AreCovers, entries_of, is_covered_in};
ghost use Rattle.audit.specs.Numbers.{AreSized, IsItemOf};
ghost use Rattle.audit.specs.Stored.{is_same_at};
ghost use Rattle.audit.specs.Topic.{MayAct};

use crate::acks::Acked;
use crate::brought::{BroughtList, Route};
use crate::covers::{CoverList, Pair};
use crate::topic::TopicMirror;
use geo_base::{Entry, Memory, Position};
use script_text::Scenario;
use std::alloc::Global;
use std::marker::Model;
use trace_lines::{Line, Written};

/// All topics, topic by topic and in each cluster by cluster, and the number of the last event. Beside each topic stands what the
/// others need of it, and how far it has come with their entries.
#[derive(Drop)]
pub(crate) struct AllMirrors {
    topics: Vec<TopicMirror>,
    covers: Vec<CoverList>,
    brought: Vec<BroughtList>,
    events: u64,
}

impl Model for AllMirrors {
    ghost use Rattle.geo_base.specs.Mirror.{Mirrors};
    ghost use Rattle.audit.specs.Brought.{AreAllBrought};
    ghost use Rattle.audit.specs.Covers.{AreCovers};

    ghost Value = { Mirrors };

    ghost view = { λ m. record { topics = m.topics.items; events = m.events } };

    ghost invariant = { λ m. AreCovers m.topics.items m.covers.items × AreAllBrought m.topics.items m.brought.items };
}

/// A topic and a cluster, by their numbers.
#[derive(Clone, Copy, Drop)]
pub(crate) struct At {
    pub(crate) topic: u32,
    pub(crate) cluster: u32,
}

/// How many clusters a scenario declares.
pub(crate) fn cluster_count(scenario: &Scenario) -> u32
    ensures { result ≡ length scenario.now.setup.clusters }
{
    scenario.clusters().len() as u32
}

/// The number of a topic at a cluster among all.
pub(crate) fn number_of(scenario: &Scenario, topic: u32, cluster: u32) -> usize
    requires topic { topic < length scenario.now.setup.topics }
    requires cluster { cluster < length scenario.now.setup.clusters }
    ensures number { result ≡ mirror_number scenario.now.setup topic cluster }
    ensures within { result < length scenario.now.setup.topics * length scenario.now.setup.clusters }
{
    topic as usize * scenario.clusters().len() + cluster as usize
}

/// The index of a position in a topic, which has as many entries as positions; None where nothing stands there.
#[tactic(auto, using(crate::proofs::Within::index_within))]
fn index_in(topic: &TopicMirror, position: &Position) -> Option<usize>
    ensures index { result ≡ index_at topic.now position.now }
    ensures within { IfSome result (λ index. index < length topic.now.entries) }
{
    let stored = topic.stored();
    // it says that there are as many
    let _entries = stored.entries();
    topic.index_at(position)
}

/// So many topics, where there is none, of which nothing was told and nothing is needed, and to which nothing was brought.
#[tactic(auto, using(std::proofs::lemmas::List::replicate_more))]
fn add_topics(
    alloc: Global,
    topics: &mut Vec<TopicMirror>,
    covers: &mut Vec<CoverList>,
    brought: &mut Vec<BroughtList>,
    count: usize,
) -> Result<(), Memory>
    requires no_topic { topics.old.items ≡ [] }
    requires no_cover { covers.old.items ≡ [] }
    requires none_brought { brought.old.items ≡ [] }
    ensures topics { OnOk result (topics.new.items ≡ replicate count no_mirror) }
    ensures covers { OnOk result (covers.new.items ≡ replicate count []) }
    ensures brought { OnOk result (brought.new.items ≡ replicate count []) }
{
    for _number in 0..count {
        add_topic(alloc, topics, covers, brought)?;
    }
    Ok(())
}

/// One more topic of which nothing was told and nothing is needed, and to which nothing was brought.
fn add_topic(
    alloc: Global,
    topics: &mut Vec<TopicMirror>,
    covers: &mut Vec<CoverList>,
    brought: &mut Vec<BroughtList>,
) -> Result<(), Memory>
    ensures topics { OnOk result (topics.new.items ≡ topics.old.items ++ no_mirror ∷ []) }
    ensures covers { OnOk result (covers.new.items ≡ covers.old.items ++ [] ∷ []) }
    ensures brought { OnOk result (brought.new.items ≡ brought.old.items ++ [] ∷ []) }
{
    topics.push(TopicMirror::new(alloc))?;
    covers.push(CoverList::new(alloc))?;
    brought.push(BroughtList::new(alloc))?;
    Ok(())
}

impl AllMirrors {
    /// Nothing was told. An `Err` is want of memory.
    pub(crate) fn new(alloc: Global, scenario: &Scenario) -> Result<AllMirrors, Memory>
        ensures { IfOk result (λ mirrors. mirrors ≡ opening_mirrors scenario.now.setup) }
    {
        let count = scenario.topics().len() * scenario.clusters().len();
        let mut topics = Vec::new(alloc);
        let mut covers = Vec::new(alloc);
        let mut brought = Vec::new(alloc);
        match add_topics(alloc, &mut topics, &mut covers, &mut brought, count) {
            Ok(()) => Ok(AllMirrors {
                topics,
                covers,
                brought,
                events: 0,
            }),
            Err(memory) => {
                drop(topics);
                drop(covers);
                drop(brought);
                Err(memory)
            }
        }
    }

    /// The number of the last event.
    pub(crate) fn events(&self) -> u64
        ensures { result ≡ self.now.events }
    {
        self.events
    }

    /// An event begins.
    pub(crate) fn begin(&mut self, number: u64)
        ensures { self.new ≡ record self.old { events = number } }
    {
        self.events = number;
    }

    /// The topics.
    pub(crate) fn topics(&self) -> &[TopicMirror]
        ensures { result.now ≡ self.now.topics }
    {
        self.topics.as_slice()
    }

    /// How many entries the topic of a number has.
    pub(crate) fn len_of(&self, number: usize) -> u64
        requires { number < length self.now.topics }
        ensures { result ≡ length (entries_of self.now.topics number) }
    {
        self.topics[number].len()
    }

    /// The index of a position in the topic of a number; None where nothing stands there.
    pub(crate) fn index_in(&self, number: usize, position: &Position) -> Option<usize>
        requires { number < length self.now.topics }
        ensures index { result ≡ index_at (slice_index_or self.now.topics number no_mirror) position.now }
        ensures within { IfSome result (λ index. index < length (entries_of self.now.topics number)) }
    {
        index_in(&self.topics[number], position)
    }

    /// Whether what has to stand in the own topic of the entries of another one up to an index stands among the first `count`.
    pub(crate) fn covers(
        &mut self,
        alloc: Global,
        pair: Pair,
        index: usize,
        count: usize,
    ) -> Result<bool, Memory>
        requires here { pair.here < length self.old.topics }
        requires there { pair.there < length self.old.topics }
        requires index { index < length (entries_of self.old.topics pair.there) }
        ensures same { self.new ≡ self.old }
        ensures covers { IfOk result (λ covers. covers ≡ list_all (is_covered_in pair.own (entries_of self.old.topics pair.here) count) (take (index + 1) (entries_of self.old.topics pair.there))) }
    {
        self.covers[pair.here].covers(alloc, self.topics.as_slice(), pair, index, count)
    }

    /// Whether an entry is the next one on a way from another cluster to the topic of a number.
    pub(crate) fn is_next(
        &mut self,
        here: usize,
        route: Route,
        entry: &Entry,
    ) -> Result<bool, Memory>
        requires here { here < length self.old.topics }
        requires there { route.there < length self.old.topics }
        ensures same { self.new ≡ self.old }
        ensures next { IfOk result (λ next. next ≡ is_same_at entry.now (slice_get (outbound route.origin route.own (entries_of self.old.topics route.there)) (length (of_origin route.origin (entries_of self.old.topics here))))) }
    {
        self.brought[here].is_next(self.topics.as_slice(), here, route, entry)
    }

    /// The lowest rule that an acknowledgement in the topic of a number, at a cluster, breaks.
    pub(crate) fn acks_refused(
        &mut self,
        alloc: Global,
        number: usize,
        cluster: u32,
        acked: Acked<'_>,
    ) -> Result<Option<u32>, Memory>
        requires { number < length self.old.topics }
        ensures same { self.new ≡ self.old }
        ensures refused { IfOk result (λ refused. refused ≡ acks_refused cluster (slice_index_or self.old.topics number no_mirror) acked.entry.sub.now (indexes_of acked.entry.ranges.now) acked.entry.cause.now) }
    {
        self.topics[number].acks_refused(alloc, cluster, acked)
    }

    /// A topic writes.
    fn write(&mut self, alloc: Global, number: usize, written: Written) -> Result<(), Memory>
        requires number { number < length self.old.topics }
        requires may { MayAct (slice_index_or self.old.topics number no_mirror) (act_said written) }
        ensures { OnOk result (self.new ≡ record { topics = slice_set self.old.topics number (acted (slice_index_or self.old.topics number no_mirror) (act_said written)); events = self.old.events }) }
    {
        self.topics[number].write(alloc, written)
    }

    /// What a line that no rule refuses tells is done. An `Err` is want of memory.
    pub(crate) fn tell(
        &mut self,
        alloc: Global,
        scenario: &Scenario,
        line: Line,
    ) -> Result<(), Memory>
        requires sized { AreSized scenario.now.setup self.old }
        requires numbers { IsItemOf scenario.now.setup (item_said line) }
        requires accepted { refused scenario.now.setup self.old (item_said line) ≡ None }
        ensures { OnOk result (self.new ≡ told scenario.now.setup self.old (item_said line)) }
    {
        match line {
            Line::Begins(number) => {
                self.begin(number);
                Ok(())
            }
            Line::Writes {
                topic,
                cluster,
                written,
            } => self.write(alloc, number_of(scenario, topic, cluster), written),
        }
    }
}
