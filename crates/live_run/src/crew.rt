//! The actors of a worker, in rotation.
ghost use Rattle.std.specs.Prelude.{◌≡◌, ◌↔◌, ◌<◌, ◌++◌, length, min, IfOk, IsTrue, OnOk};
ghost use Rattle.live_run.specs.declared.crew.Ended.TheVariants as ended;
ghost use Rattle.live_run.specs.Crews.{member_if, member_of, members_below, most_actors};
ghost use Rattle.live_run.specs.Rotation.{IsRun, IsVisit, TakesTurn, Visits, own_count};

use crate::logs::LockedLog;
use actors::{Actor, Role, broker_number, client_number, cluster_count};
use geo_base::Memory;
use geo_io::Gate;
use script_text::Scenario;
use std::alloc::Global;
use std::sync::Wait;
use std::sync::atomic::{AtomicBool, Ordering};
use std::thread::yield_now;

/// How many places a packet takes in a ring at least: that of its head, and that of a part of its frame.
const PACKET_PLACES: usize = 2;

/// How many actors there are at most: as many as have a number of 32 bits before the last (own: a script has far fewer).
const MOST_ACTORS: usize = 4_294_967_295;

/// An actor, and the nodes at whose logs it takes its turns: so many from one on.
#[derive(Drop)]
struct Member {
    actor: Actor,
    first: usize,
    nodes: usize,
}

impl Member {
    /// The actor of a number and a role. A server goes to the topic's brokers at all clusters, every other actor to one node.
    fn new(scenario: &Scenario, number: u32, role: Role) -> Member
        ensures { result ≡ member_of scenario.now number role }
    {
        let (first, nodes) = match role {
            Role::Replicator(link) => (broker_number(scenario, link.topic, link.source), 1),
            Role::Receiver(link) => (broker_number(scenario, link.topic, link.target), 1),
            Role::Controller { topic, cluster } | Role::Dispatcher { topic, cluster, .. } => {
                (broker_number(scenario, topic, cluster), 1)
            }
            Role::Client { client } => (client_number(scenario, client), 1),
            Role::Server { topic, .. } => (
                broker_number(scenario, topic, 0),
                cluster_count(scenario) as usize,
            ),
        };
        Member {
            actor: Actor::new(scenario, number, role),
            first,
            nodes,
        }
    }

    /// A turn: the logs of its nodes are taken in order, one at a time, until the actor does an event. Whether it did one; an `Err` is
    /// want of memory, which ends the turn.
    fn turn<R: Wait>(&mut self, rt: &R, alloc: Global, logs: &[LockedLog]) -> Result<bool, Memory>
        ensures visits { Visits (own_count (length logs.now) self.old) self.old.actor self.new.actor result }
        ensures rest { self.new ≡ record self.old { actor = self.new.actor } }
    {
        let own = self.own_logs(logs);
        visit(&mut self.actor, rt, alloc, own)
    }

    /// The logs of its nodes.
    fn own_logs<'a>(&self, logs: &'a [LockedLog]) -> &'a [LockedLog]
        ensures { length result.now ≡ own_count (length logs.now) self.now }
    {
        let (_, rest) = logs.split_at(self.first.min(logs.len()));
        let (own, _) = rest.split_at(self.nodes.min(rest.len()));
        own
    }
}

/// An actor's turn at logs in order, one at a time, until it does an event.
fn visit<R: Wait>(
    actor: &mut Actor,
    rt: &R,
    alloc: Global,
    logs: &[LockedLog],
) -> Result<bool, Memory>
    ensures { Visits (length logs.now) actor.old actor.new result }
{
    let Some((first, rest)) = logs.split_first() else {
        return Ok(false);
    };
    if visit_one(actor, rt, alloc, first)? {
        return Ok(true);
    }
    visit(actor, rt, alloc, rest)
}

/// Its turn at one, under the lock. A client connects only once there is room for what it sends then, as no event is done before.
fn visit_one<R: Wait>(
    actor: &mut Actor,
    rt: &R,
    alloc: Global,
    locked: &LockedLog,
) -> Result<bool, Memory>
    ensures { IsVisit actor.old actor.new result }
{
    let mut log = locked.lock(rt);
    actor.turn_with_room(alloc, &mut log, PACKET_PLACES)
}

/// Adds the actor of a number and a role, where it is the worker's own.
#[tactic(auto, using(crate::proofs::Forming::no_more, crate::proofs::Forming::no_actor, crate::proofs::Forming::own_actor))]
fn add_where(
    is_own: bool,
    scenario: &Scenario,
    number: u32,
    role: Role,
    members: &mut Vec<Member>,
) -> Result<(), Memory>
    ensures { OnOk result (members.new.items ≡ members.old.items ++ member_if is_own (member_of scenario.now number role)) }
{
    if is_own {
        members.push(Member::new(scenario, number, role))?;
    }
    Ok(())
}

/// How the turns of a crew ended.
#[derive(Clone, Copy, Drop, PartialEq, Eq)]
pub(crate) enum Ended {
    /// It had all of them.
    Whole,
    /// Memory was wanting in the last one.
    Wanting,
    /// Memory was wanting in a turn of another crew.
    Stopped,
}

/// A worker: its actors, how many turns in a row did nothing, whether there are other workers, and how its turns ended.
#[derive(Drop)]
pub(crate) struct Crew {
    alloc: Global,
    worker: u32,
    members: Vec<Member>,
    quiet: usize,
    has_others: bool,
    ended: Ended,
}

impl Crew {
    /// The crew of a worker: each actor whose number is the worker's, modulo the number of workers (own: so that a scenario and a
    /// number of workers say who does what). An `Err` is want of memory.
    #[tactic(auto, using(crate::proofs::Forming::none, crate::proofs::Forming::one_more))]
    pub(crate) fn new(
        alloc: Global,
        scenario: &Scenario,
        roles: &[Role],
        worker: u32,
        workers: u32,
    ) -> Result<Crew, Memory>
        requires { 0 < workers }
        ensures { IfOk result (λ c. c.members.items ≡ members_below scenario.now roles.now worker workers (min (length roles.now) most_actors)) }
    {
        let mut members = Vec::new(alloc);
        for number in 0..roles.len().min(MOST_ACTORS) as u32 {
            let is_own = number % workers == worker;
            add_where(
                is_own,
                scenario,
                number,
                roles[number as usize],
                &mut members,
            )?;
        }
        Ok(Crew {
            alloc,
            worker,
            members,
            quiet: 0,
            has_others: workers > 1,
            ended: Ended::Whole,
        })
    }

    /// Whether it had all its turns.
    pub(crate) fn is_whole(&self) -> bool
        ensures { IsTrue result ↔ (self.now.ended ≡ ended.Whole) }
    {
        self.ended == Ended::Whole
    }

    /// So many turns, unless memory is wanting in one, here or in another crew that says so by the flag.
    #[tactic(auto, using(crate::proofs::Turning::starts, crate::proofs::Turning::one_turn, crate::proofs::Turning::all_turns, crate::proofs::Turning::wanted, crate::proofs::Turning::stopped))]
    pub(crate) fn run<R: Wait, G: Gate>(
        &mut self,
        rt: &R,
        logs: &[LockedLog],
        turns: u64,
        gate: &G,
        is_short: &AtomicBool,
    )
        ensures { IsRun (length logs.now) turns self.old.members.items self.new.members.items self.new.ended }
    {
        for turn in 0..turns {
            if is_short.load(Ordering::SeqCst) {
                self.ended = Ended::Stopped;
                return;
            }
            match self.turn(rt, logs, turn, gate) {
                Ok(()) => {}
                Err(_) => {
                    is_short.store(true, Ordering::SeqCst);
                    self.ended = Ended::Wanting;
                    return;
                }
            }
        }
        self.ended = Ended::Whole;
    }

    /// The turn of the next actor. A worker without actors has idle turns, for which there is no gate.
    #[tactic(auto, using(crate::proofs::Turning::idle, crate::proofs::Turning::takes, crate::proofs::Turning::wants))]
    fn turn<R: Wait, G: Gate>(
        &mut self,
        rt: &R,
        logs: &[LockedLog],
        turn: u64,
        gate: &G,
    ) -> Result<(), Memory>
        ensures { TakesTurn (length logs.now) turn self.old.members.items self.new.members.items result }
    {
        let count = self.members.len() as u64;
        if count == 0 {
            return Ok(());
        }
        let member = &mut self.members[(turn % count) as usize];
        gate.pass(self.worker, member.actor.number(), turn);
        match member.turn(rt, self.alloc, logs) {
            Ok(did) => {
                self.rest(did);
                Ok(())
            }
            Err(error) => Err(error),
        }
    }

    /// After a turn: a worker whose whole rotation did nothing lets another thread run. What its actors wait for is done by other
    /// workers, and while one of these stands still it would use up its turns on connections and sessions that begin anew.
    fn rest(&mut self, did: bool)
        ensures { self.new.members ≡ self.old.members }
    {
        self.quiet = if did { 0 } else { self.quiet.saturating_add(1) };
        if self.has_others && self.quiet >= self.members.len() {
            self.quiet = 0;
            yield_now();
        }
    }
}
