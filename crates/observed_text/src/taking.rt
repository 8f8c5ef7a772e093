//! What a line tells that breaks no rule.
ghost use Rattle.std.specs.Prelude.{◌≡◌, ◌<◌, None, length, true, IfOk, OnOk};
ghost use Rattle.geo_base.specs.Setup.{Setup};
ghost use Rattle.observation.specs.declared.said.Said.TheVariants as said;
ghost use Rattle.observation.specs.Observed.{seen_at};
ghost use Rattle.observed_text.specs.declared.line.Line.TheVariants as line;
ghost use Rattle.observed_text.specs.declared.line.Read.TheVariants as read;
ghost use Rattle.observed_text.specs.Observing.{are_of, cursor_of, line_refused, line_taken, read_refused, read_taken, saying};
ghost use Rattle.observed_text.specs.Sizes.{IsLineOf, IsReadOf, IsSized};

use crate::line::{Line, Logged, Read};
use crate::so_far::LinesSoFar;
use audit::ack_all;
use cursor_acks::Cursor;
use geo_base::{Memory, Text};
use observation::Said;
use observe::{At, SeenTopic};
use script_text::Scenario;
use std::alloc::Global;
use trace_lines::AckedRanges;

/// The cursor that acknowledged some ranges of a topic's indexes.
fn cursor_of(alloc: Global, seen: &SeenTopic, ranges: &AckedRanges) -> Result<Cursor, Memory>
    requires { are_of seen.now.topic ranges.now ≡ true }
    ensures { IfOk result (λ cursor. cursor.indexes ≡ cursor_of ranges.now) }
{
    let mut cursor = Cursor::none(alloc);
    match ack_all(&mut cursor, ranges.as_slice(), seen.entries().len() as u64) {
        Ok(()) => Ok(cursor),
        Err(memory) => {
            drop(cursor);
            Err(memory)
        }
    }
}

impl LinesSoFar {
    /// What a line tells that breaks no rule is taken. An `Err` is want of memory.
    pub(crate) fn take(
        &mut self,
        alloc: Global,
        scenario: &Scenario,
        line: Line,
    ) -> Result<(), Memory>
        requires sized { IsSized scenario.now.setup self.old }
        requires numbers { IsLineOf scenario.now.setup line }
        requires accepted { line_refused scenario.now.setup self.old line ≡ None }
        ensures { OnOk result (self.new ≡ line_taken scenario.now.setup self.old line) }
    {
        match line {
            Line::Logs { topic, logged } => self.take_logged(alloc, topic, logged),
            Line::Reads {
                topic,
                cluster,
                read,
            } => self.take_read(alloc, scenario, At { topic, cluster }, read),
        }
    }

    /// What is logged of a topic.
    fn take_logged(&mut self, alloc: Global, topic: u32, logged: Logged) -> Result<(), Memory>
        requires { topic < length self.old.subs }
        ensures { (s : Setup) → OnOk result (self.new ≡ line_taken s self.old (line.Logs topic logged)) }
    {
        match logged {
            Logged::Receipt { ident, position } => self.push_said(Said::Receipt {
                topic,
                ident,
                position,
            }),
            Logged::Done { sub, ident } => match sub.copy(alloc) {
                Ok(name) => self.say(alloc, topic, &name, Said::Done { topic, sub, ident }),
                Err(memory) => {
                    drop(sub);
                    drop(ident);
                    Err(memory)
                }
            },
        }
    }

    /// What was read of a topic at a cluster.
    #[tactic(auto, using(crate::proofs::Accepted::brought_indexes, crate::proofs::Accepted::cursor_indexes, crate::proofs::Accepted::entry_above))]
    fn take_read(
        &mut self,
        alloc: Global,
        scenario: &Scenario,
        at: At,
        read: Read,
    ) -> Result<(), Memory>
        requires sized { IsSized scenario.now.setup self.old }
        requires topic { at.topic < length scenario.now.setup.topics }
        requires cluster { at.cluster < length scenario.now.setup.clusters }
        requires numbers { IsReadOf scenario.now.setup read }
        requires accepted { read_refused scenario.now.setup self.old at.topic at.cluster (seen_at scenario.now.setup self.old.seen at.topic at.cluster) read ≡ None }
        ensures { OnOk result (self.new ≡ read_taken scenario.now.setup self.old at.topic at.cluster (seen_at scenario.now.setup self.old.seen at.topic at.cluster) read) }
    {
        match read {
            Read::Entry { position, entry } => {
                self.push_entry(alloc, scenario, at, (position, entry))
            }
            Read::Cursor { sub, ranges } => self.take_cursor(alloc, scenario, at, sub, ranges),
            Read::Brought { to, ranges } => self.take_brought(alloc, scenario, at, to, ranges),
            Read::Below { sub, index } => self.take_below(alloc, at, sub, index),
            Read::Unsure { sub } => self.take_unsure(alloc, at, sub),
            Read::Unread => {
                self.set_unread(scenario, at);
                Ok(())
            }
            Read::Trimmed => Ok(()),
        }
    }

    /// A subscription's cursor.
    fn take_cursor(
        &mut self,
        alloc: Global,
        scenario: &Scenario,
        at: At,
        sub: Text,
        ranges: AckedRanges,
    ) -> Result<(), Memory>
        requires sized { IsSized scenario.now.setup self.old }
        requires topic { at.topic < length scenario.now.setup.topics }
        requires cluster { at.cluster < length scenario.now.setup.clusters }
        requires indexes { are_of (seen_at scenario.now.setup self.old.seen at.topic at.cluster).topic ranges ≡ true }
        ensures { OnOk result (self.new ≡ read_taken scenario.now.setup self.old at.topic at.cluster (seen_at scenario.now.setup self.old.seen at.topic at.cluster) (read.Cursor sub ranges)) }
    {
        let cursor = cursor_of(alloc, self.at(scenario, at), &ranges);
        drop(ranges);
        match cursor {
            Ok(cursor) => self.push_cursor(alloc, scenario, at, sub, cursor),
            Err(memory) => {
                drop(sub);
                Err(memory)
            }
        }
    }

    /// The cursor of the replicator to a cluster.
    fn take_brought(
        &mut self,
        alloc: Global,
        scenario: &Scenario,
        at: At,
        to: u32,
        ranges: AckedRanges,
    ) -> Result<(), Memory>
        requires sized { IsSized scenario.now.setup self.old }
        requires topic { at.topic < length scenario.now.setup.topics }
        requires cluster { at.cluster < length scenario.now.setup.clusters }
        requires to { to < length scenario.now.setup.clusters }
        requires indexes { are_of (seen_at scenario.now.setup self.old.seen at.topic at.cluster).topic ranges ≡ true }
        ensures { OnOk result (self.new ≡ read_taken scenario.now.setup self.old at.topic at.cluster (seen_at scenario.now.setup self.old.seen at.topic at.cluster) (read.Brought to ranges)) }
    {
        let cursor = cursor_of(alloc, self.at(scenario, at), &ranges);
        drop(ranges);
        self.set_received(scenario, at, to, cursor?);
        Ok(())
    }

    /// A subscription is done with all below an index.
    fn take_below(&mut self, alloc: Global, at: At, sub: Text, index: u64) -> Result<(), Memory>
        requires { at.topic < length self.old.subs }
        ensures { OnOk result (self.new ≡ saying self.old at.topic sub (said.Below at.topic at.cluster sub index)) }
    {
        let name = match sub.copy(alloc) {
            Ok(name) => name,
            Err(memory) => {
                drop(sub);
                return Err(memory);
            }
        };
        let said = Said::Below {
            topic: at.topic,
            cluster: at.cluster,
            sub,
            index,
        };
        self.say(alloc, at.topic, &name, said)
    }

    /// A subscription did something with a message that is not told.
    fn take_unsure(&mut self, alloc: Global, at: At, sub: Text) -> Result<(), Memory>
        requires { at.topic < length self.old.subs }
        ensures { OnOk result (self.new ≡ saying self.old at.topic sub (said.Unsure at.topic at.cluster sub)) }
    {
        let name = match sub.copy(alloc) {
            Ok(name) => name,
            Err(memory) => {
                drop(sub);
                return Err(memory);
            }
        };
        let said = Said::Unsure {
            topic: at.topic,
            cluster: at.cluster,
            sub,
        };
        self.say(alloc, at.topic, &name, said)
    }
}
