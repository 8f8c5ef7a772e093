//! The rules of subscriptions and their cursors.
ghost use Rattle.std.specs.Prelude.{◌≡◌, None, Some, IfOk};
ghost use Rattle.std.specs.Option.{option_copied};
ghost use Rattle.cursor_acks.specs.Ranges.{indexes_of};
ghost use Rattle.geo_base.specs.Audit.{cause_refused, entry_by, unless_broken};
ghost use Rattle.audit.specs.Rules.{rule_number};
ghost use Rattle.audit.specs.Acks.{acks_refused, create_refused, delete_refused, followed, follows_all, seek_refused, told_position};

use crate::named::only_position;
use crate::rule::Rule;
use crate::runs::{AckCause, end_by};
use crate::topic::TopicMirror;
use geo_base::{Cause, Content, Entry, Marker, Memory, Position, Text};
use std::alloc::Global;
use trace_lines::AckedRanges;

/// A rule that has to hold, where nothing is judged after it.
pub(crate) fn unless_broken(rule: Rule, holds: bool) -> Option<u32>
    ensures { result ≡ unless_broken (rule_number rule) holds None }
{
    if holds { None } else { Some(rule.number()) }
}

/// An acknowledgement on a subscription, and its cause.
#[derive(Clone, Copy, Drop)]
pub struct Acked<'a> {
    pub sub: &'a Text,
    pub ranges: &'a AckedRanges,
    pub cause: &'a Cause,
}

/// An update of another cluster that an acknowledgement follows: its cluster, and the index here that it names.
#[derive(Clone, Copy, Drop)]
pub(crate) struct Followed {
    pub(crate) cluster: u32,
    pub(crate) index: u64,
}

impl TopicMirror {
    /// The lowest rule that a creation breaks.
    pub fn create_refused(&self, sub: &Text) -> Option<u32>
        ensures { result ≡ create_refused self.now sub.now }
    {
        unless_broken(Rule::Subscription, self.sub(sub).is_none())
    }

    /// The lowest rule that a deletion breaks.
    pub fn delete_refused(&self, sub: &Text) -> Option<u32>
        ensures { result ≡ delete_refused self.now sub.now }
    {
        unless_broken(Rule::Subscription, self.sub(sub).is_some())
    }

    /// The lowest rule that a seek breaks.
    pub fn seek_refused(&self, sub: &Text, index: u64) -> Option<u32>
        ensures { result ≡ seek_refused self.now sub.now index }
    {
        if self.sub(sub).is_none() {
            return Some(Rule::Subscription.number());
        }
        unless_broken(Rule::Seek, index <= self.len())
    }

    /// The lowest rule that an acknowledgement at a cluster breaks.
    pub fn acks_refused(
        &mut self,
        alloc: Global,
        cluster: u32,
        acked: Acked<'_>,
    ) -> Result<Option<u32>, Memory>
        ensures same { self.new ≡ self.old }
        ensures refused { IfOk result (λ refused. refused ≡ acks_refused cluster self.old acked.entry.sub.now (indexes_of acked.entry.ranges.now) acked.entry.cause.now) }
    {
        match self.sub(acked.sub) {
            None => return Ok(Some(Rule::Subscription.number())),
            Some(found) => {
                if !found.may_gain(acked.ranges, self.len()) {
                    return Ok(Some(Rule::Acknowledged.number()));
                }
            }
        }
        self.cause_refused(alloc, cluster, acked)
    }

    /// The lowest rule that an acknowledgement breaks by its cause.
    #[tactic(auto, using(crate::proofs::Passing::markers_passed, crate::proofs::Following::follows_entry))]
    fn cause_refused(
        &mut self,
        alloc: Global,
        cluster: u32,
        acked: Acked<'_>,
    ) -> Result<Option<u32>, Memory>
        ensures same { self.new ≡ self.old }
        ensures refused { IfOk result (λ refused. refused ≡ cause_refused cluster self.old acked.entry.sub.now (indexes_of acked.entry.ranges.now) acked.entry.cause.now) }
    {
        match acked.cause {
            Cause::Client => Ok(None),
            Cause::Marker => Ok(unless_broken(
                Rule::Marker,
                self.pass(alloc, AckCause::Markers, acked.ranges)?,
            )),
            Cause::Update(position) => {
                let followed = self.followed(cluster, acked.sub, position);
                Ok(unless_broken(Rule::Named, self.follows(alloc, followed, acked.ranges)?))
            }
            Cause::Plain => Ok(Some(Rule::Form.number())),
            Cause::Seek => Ok(Some(Rule::Form.number())),
        }
    }

    /// The update at a position, where it is one that an acknowledgement on a subscription at a cluster may follow.
    fn followed(&self, cluster: u32, sub: &Text, position: &Position) -> Option<Followed>
        ensures { result ≡ followed cluster self.now sub.now (entry_by self.now (Some position.now)) }
    {
        let entry = self.entry_at(position)?;
        let position = told_position(cluster, sub, entry)?;
        let index = self.index_at(&position)?;
        Some(Followed {
            cluster: entry.ident.origin,
            index: index as u64,
        })
    }

    /// Whether an acknowledgement passes over what the update may pass over, and over nothing else.
    fn follows(
        &mut self,
        alloc: Global,
        followed: Option<Followed>,
        ranges: &AckedRanges,
    ) -> Result<bool, Memory>
        ensures same { self.new ≡ self.old }
        ensures follows { IfOk result (λ follows. follows ≡ follows_all self.old (indexes_of ranges.now) followed) }
    {
        match followed {
            None => Ok(false),
            Some(followed) => {
                if !end_by(ranges.as_slice(), followed.index) {
                    return Ok(false);
                }
                self.pass(alloc, AckCause::By(followed.cluster), ranges)
            }
        }
    }
}

/// The one position of a cluster that an update of another one for a subscription names.
fn told_position(cluster: u32, sub: &Text, entry: &Entry) -> Option<Position>
    ensures { result ≡ told_position cluster sub.now entry.now }
{
    let Content::Marked(marker) = &entry.content else {
        return None;
    };
    let Marker::Update { sub: name, remote } = marker.get() else {
        return None;
    };
    if name.as_bytes() != sub.as_bytes() || entry.ident.origin == cluster {
        return None;
    }
    only_position(cluster, remote.as_slice())
}
