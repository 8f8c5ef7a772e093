//! The rules of lines.
ghost use Rattle.std.specs.Prelude.{◌≡◌, ◌<◌, None, Some, if◌then◌else◌, length};
ghost use Rattle.observation.specs.Observed.{seen_at};
ghost use Rattle.observed_text.specs.Observing.{are_of, is_untouched, line_refused, name_refused, read_refused, seen_refused};
ghost use Rattle.observed_text.specs.Sizes.{IsLineOf, IsReadOf, IsSized};

use crate::line::{Line, Logged, Read};
use crate::so_far::LinesSoFar;
use audit::may_gain;
use cursor_acks::Cursor;
use geo_base::Text;
use observe::{At, SeenTopic};
use script_text::Scenario;
use std::alloc::Global;
use trace_lines::AckedRanges;

/// The rules that a line breaks which has a form.
const TRIMMED: u32 = 2;

const UNREAD: u32 = 3;

const ASCENDING: u32 = 4;

const TOLD: u32 = 5;

const INDEXES: u32 = 6;

const SUBSCRIPTIONS: u32 = 7;

/// A rule, unless something holds.
fn unless(holds: bool, rule: u32) -> Option<u32>
    ensures { result ≡ (if holds then None else Some rule) }
{
    if holds { None } else { Some(rule) }
}

/// Whether each index of some ranges is that of an entry.
fn are_of(alloc: Global, seen: &SeenTopic, ranges: &AckedRanges) -> bool
    ensures { result ≡ are_of seen.now.topic ranges.now }
{
    let none = Cursor::none(alloc);
    may_gain(&none, ranges.as_slice(), seen.entries().len() as u64)
}

impl LinesSoFar {
    /// The lowest rule that a line breaks; None exactly where it breaks none. It takes no memory.
    pub(crate) fn line_refused(
        &self,
        alloc: Global,
        scenario: &Scenario,
        line: &Line,
    ) -> Option<u32>
        requires sized { IsSized scenario.now.setup self.now }
        requires numbers { IsLineOf scenario.now.setup line.now }
        ensures { result ≡ line_refused scenario.now.setup self.now line.now }
    {
        match line {
            Line::Logs { topic, logged } => match logged {
                Logged::Done { sub, ident: _ } => self.name_refused(*topic, sub),
                Logged::Receipt { .. } => None,
            },
            Line::Reads {
                topic,
                cluster,
                read,
            } => {
                let at = At {
                    topic: *topic,
                    cluster: *cluster,
                };
                self.read_refused(alloc, scenario, at, read)
            }
        }
    }

    /// The rule on the subscriptions of a topic.
    fn name_refused(&self, topic: u32, name: &Text) -> Option<u32>
        requires { topic < length self.now.subs }
        ensures { result ≡ name_refused self.now topic name.now }
    {
        unless(self.may_name(topic, name), SUBSCRIPTIONS)
    }

    /// The lowest rule that a line of a topic at a cluster breaks.
    fn read_refused(&self, alloc: Global, scenario: &Scenario, at: At, read: &Read) -> Option<u32>
        requires sized { IsSized scenario.now.setup self.now }
        requires topic { at.topic < length scenario.now.setup.topics }
        requires cluster { at.cluster < length scenario.now.setup.clusters }
        requires numbers { IsReadOf scenario.now.setup read.now }
        ensures { result ≡ read_refused scenario.now.setup self.now at.topic at.cluster (seen_at scenario.now.setup self.now.seen at.topic at.cluster) read.now }
    {
        match read {
            Read::Trimmed => Some(TRIMMED),
            Read::Unsure { sub } => self.name_refused(at.topic, sub),
            Read::Unread => unless(self.is_untouched(scenario, at), UNREAD),
            Read::Entry { .. } | Read::Cursor { .. } | Read::Brought { .. } | Read::Below { .. } =>
                {
                    if self.at(scenario, at).is_read() {
                        self.seen_refused(alloc, scenario, at, read)
                    } else {
                        Some(UNREAD)
                    }
                }
        }
    }

    /// Whether nothing was read of a topic at a cluster.
    fn is_untouched(&self, scenario: &Scenario, at: At) -> bool
        requires sized { IsSized scenario.now.setup self.now }
        requires topic { at.topic < length scenario.now.setup.topics }
        requires cluster { at.cluster < length scenario.now.setup.clusters }
        ensures { result ≡ is_untouched scenario.now.setup self.now at.topic at.cluster (seen_at scenario.now.setup self.now.seen at.topic at.cluster) }
    {
        let seen = self.at(scenario, at);
        seen.is_read()
            && seen.entries().is_empty()
            && seen.subs().is_empty()
            && !self.is_any_told(scenario, at)
    }

    /// The lowest rule that a line breaks of a topic at a cluster which was read.
    fn seen_refused(&self, alloc: Global, scenario: &Scenario, at: At, read: &Read) -> Option<u32>
        requires sized { IsSized scenario.now.setup self.now }
        requires topic { at.topic < length scenario.now.setup.topics }
        requires cluster { at.cluster < length scenario.now.setup.clusters }
        requires numbers { IsReadOf scenario.now.setup read.now }
        ensures { result ≡ seen_refused scenario.now.setup self.now at.topic at.cluster (seen_at scenario.now.setup self.now.seen at.topic at.cluster).topic read.now }
    {
        let seen = self.at(scenario, at);
        match read {
            Read::Entry { position, entry: _ } => unless(seen.is_above_all(position), ASCENDING),
            Read::Cursor { sub, ranges } => {
                if seen.has_cursor(sub) {
                    Some(TOLD)
                } else if are_of(alloc, seen, ranges) {
                    self.name_refused(at.topic, sub)
                } else {
                    Some(INDEXES)
                }
            }
            Read::Brought { to, ranges } => {
                if *to == at.cluster || self.is_told(scenario, at, *to) {
                    Some(TOLD)
                } else {
                    unless(are_of(alloc, seen, ranges), INDEXES)
                }
            }
            Read::Below { sub, index } => {
                if *index > seen.entries().len() as u64 {
                    Some(INDEXES)
                } else {
                    self.name_refused(at.topic, sub)
                }
            }
            Read::Unsure { .. } | Read::Unread | Read::Trimmed => None,
        }
    }
}
