//! Which entry of another cluster is the next one.
ghost use Rattle.std.specs.Prelude.{◌≡◌, ◌≤◌, ◌<◌, ◌+◌, [], true, false, length, slice_get, IfOk, MatchOption};
ghost use Rattle.geo_base.specs.Entry.{is_outbound};
ghost use Rattle.geo_base.specs.Laws.{of_origin, outbound};
ghost use Rattle.audit.specs.Brought.{AreBrought, AreBroughtTo, HasNoneFrom, IsFirstFrom, IsPlaceOf};
ghost use Rattle.audit.specs.Covers.{entries_of};
ghost use Rattle.audit.specs.Stored.{is_same_at};

use crate::same::is_same_entry;
use crate::topic::TopicMirror;
use geo_base::{Entry, Memory};
use std::alloc::Global;
use std::marker::Model;

/// From another cluster to the own one, and the number of the other one's topic.
#[derive(Clone, Copy, Drop, PartialEq)]
pub struct Route {
    pub origin: u32,
    pub own: u32,
    pub there: usize,
}

impl Route {
    /// Whether an entry is one that the other cluster stored first and that goes to the own one.
    fn has(&self, entry: &Entry) -> bool
        ensures { result ≡ is_outbound self.now.origin self.now.own entry.now }
    {
        entry.ident.origin == self.origin && entry.to.contains(self.own)
    }

    /// The index of the first such entry from one on; None where there is none.
    fn first_from(&self, there: &[Entry], from: usize) -> Option<usize>
        requires { from ≤ length there.now }
        ensures { MatchOption result (HasNoneFrom self.now there.now from) (IsFirstFrom self.now there.now from) }
    {
        let mut index = from;
        'entries: while index < there.len() {
            if self.has(&there[index]) {
                return Some(index);
            }
            index += 1;
        }
        None
    }
}

/// How far a topic has come with the entries of another cluster: among the first `seen` entries here are as many of them as go here
/// among the first `passed` of that cluster's topic. So each of both is gone over once, however often is asked.
#[derive(Drop)]
pub(crate) struct Brought {
    route: Route,
    seen: usize,
    passed: usize,
}

impl Model for Brought {
    ghost use Rattle.audit.specs.Brought.{BroughtHere};

    ghost Value = { BroughtHere };

    ghost view = { λ b. record { route = b.route; seen = b.seen; passed = b.passed } };
}

impl Brought {
    /// Goes over one entry more of the own topic; false where it is one of the other cluster, and none is left there that goes here.
    fn step(&mut self, here: &[Entry], there: &[Entry]) -> bool
        requires brought { AreBrought here.now there.now self.old }
        requires within { self.old.seen < length here.now }
        ensures brought { AreBrought here.now there.now self.new }
        ensures route { self.new.route ≡ self.old.route }
        ensures stepped { result ≡ true → self.new.seen ≡ self.old.seen + 1 }
        ensures more { result ≡ false → length (outbound self.old.route.origin self.old.route.own there.now) ≤ length (of_origin self.old.route.origin here.now) }
    {
        if here[self.seen].ident.origin != self.route.origin {
            self.seen += 1;
            return true;
        }
        match self.route.first_from(there, self.passed) {
            None => false,
            Some(index) => {
                self.passed = index + 1;
                self.seen += 1;
                true
            }
        }
    }

    /// Goes on to the end of the own topic; false where that has more entries of the other cluster than go here.
    fn extend(&mut self, here: &[Entry], there: &[Entry]) -> bool
        requires { AreBrought here.now there.now self.old }
        ensures brought { AreBrought here.now there.now self.new }
        ensures route { self.new.route ≡ self.old.route }
        ensures reached { result ≡ true → self.new.seen ≡ length here.now }
        ensures more { result ≡ false → length (outbound self.old.route.origin self.old.route.own there.now) ≤ length (of_origin self.old.route.origin here.now) }
    {
        'entries: while self.seen < here.len() {
            if !self.step(here, there) {
                return false;
            }
        }
        true
    }

    /// Whether an entry is the next one: of those of the other cluster that go here, the first that is not here, by their counts.
    fn is_next(&mut self, here: &[Entry], there: &[Entry], entry: &Entry) -> bool
        requires { AreBrought here.now there.now self.old }
        ensures brought { AreBrought here.now there.now self.new }
        ensures route { self.new.route ≡ self.old.route }
        ensures next { result ≡ is_same_at entry.now (slice_get (outbound self.old.route.origin self.old.route.own there.now) (length (of_origin self.old.route.origin here.now))) }
    {
        if !self.extend(here, there) {
            return false;
        }
        match self.route.first_from(there, self.passed) {
            None => false,
            Some(index) => is_same_entry(entry, &there[index]),
        }
    }
}

/// How far a topic has come with those of other clusters, each that was asked for once.
#[derive(Drop)]
pub struct BroughtList {
    brought: Vec<Brought>,
}

impl Model for BroughtList {
    ghost use Rattle.std.specs.Prelude.{List};
    ghost use Rattle.audit.specs.Brought.{BroughtHere};

    ghost Value = { List BroughtHere };

    ghost view = { λ l. l.brought.items };
}

impl BroughtList {
    /// Nothing was asked for; takes no memory.
    pub fn new(alloc: Global) -> BroughtList
        ensures { result ≡ [] }
    {
        BroughtList {
            brought: Vec::new(alloc),
        }
    }

    /// Where a way to the topic of number `here` stands, after the others where it was not asked for.
    fn place_for(
        &mut self,
        topics: &[TopicMirror],
        here: usize,
        route: Route,
    ) -> Result<usize, Memory>
        requires { AreBroughtTo topics.now here self.old }
        ensures brought { AreBroughtTo topics.now here self.new }
        ensures place { IfOk result (λ place. IsPlaceOf route self.new place) }
    {
        for (place, brought) in self.brought.iter().enumerate() {
            if brought.route == route {
                return Ok(place);
            }
        }
        self.brought.push(Brought {
            route,
            seen: 0,
            passed: 0,
        })?;
        Ok(self.brought.len() - 1)
    }

    /// Whether an entry is the next one on a way to the topic of number `here`.
    pub fn is_next(
        &mut self,
        topics: &[TopicMirror],
        here: usize,
        route: Route,
        entry: &Entry,
    ) -> Result<bool, Memory>
        requires brought { AreBroughtTo topics.now here self.old }
        requires here { here < length topics.now }
        requires there { route.there < length topics.now }
        ensures brought { AreBroughtTo topics.now here self.new }
        ensures next { IfOk result (λ next. next ≡ is_same_at entry.now (slice_get (outbound route.origin route.own (entries_of topics.now route.there)) (length (of_origin route.origin (entries_of topics.now here))))) }
    {
        let place = self.place_for(topics, here, route)?;
        let own = topics[here].stored().entries();
        let there = topics[route.there].stored().entries();
        Ok(self.brought[place].is_next(own, there, entry))
    }
}
