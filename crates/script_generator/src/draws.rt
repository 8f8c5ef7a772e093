//! Events that are drawn at random.
ghost use Rattle.std.specs.Prelude.{◌≡◌, ◌<◌};
ghost use Rattle.script_generator.specs.Drawing.{drawn, drawn_event, fate_of, rest, row_of, seeded, source_of, target_of, turn_at};

use geo_base::{Event, Fate};
use rand_core::utils::NextWord;
use rand_pcg::Pcg32;
use std::marker::Model;

/// The clusters, of which an event names one or two.
const CLUSTERS: u32 = 3;

/// The clients.
const CLIENTS: u32 = 4;

/// Ordered pairs of clusters.
const PAIRS: u32 = 6;

/// The one topic.
const TOPIC: u32 = 0;

/// The number of its one subscription.
const SUBSCRIPTION: u32 = 0;

/// Of so many packets one is lost, and one is taken twice.
const FATES: u32 = 16;

/// What the weights of the kinds of event add up to.
const WEIGHTS: u32 = 64;

/// After so many turns, and again after as many, a client connects again.
const RECONNECTS_EACH: u32 = 1_000;

/// After so many turns, and again after as many, a node restarts.
const RESTARTS_EACH: u32 = 2_500;

/// Kinds of event that are drawn.
#[derive(Clone, Copy, Drop, PartialEq, Eq)]
pub enum Row {
    Go,
    Serve,
    Get,
    Reset,
    Read,
    Take,
    Receipt,
    Snap,
    Offer,
    Drop,
}

/// The row of a weight below 64.
fn row_at(weight: u32) -> Row
    ensures { result ≡ row_of weight }
{
    match weight {
        0..=11 => Row::Go,
        12..=23 => Row::Serve,
        24..=31 => Row::Get,
        32 => Row::Reset,
        33..=40 => Row::Read,
        41..=48 => Row::Take,
        49..=54 => Row::Receipt,
        55 => Row::Snap,
        56..=62 => Row::Offer,
        _ => Row::Drop,
    }
}

/// An ordered pair of clusters.
#[derive(Clone, Copy, Drop, PartialEq, Eq)]
pub(crate) struct Pair {
    pub(crate) source: u32,
    pub(crate) target: u32,
}

/// The pair of a number: (0, 1), (0, 2), (1, 0), (1, 2), (2, 0), (2, 1).
pub(crate) fn pair_at(number: u32) -> Pair
    ensures source { result.source ≡ source_of number }
    ensures target { result.target ≡ target_of number }
{
    let source = number / 2;
    let other = number % 2;
    let target = if other < source { other } else { other + 1 };
    Pair { source, target }
}

/// What a drawn number makes of a packet.
fn fate(number: u32) -> Fate
    ensures { result ≡ fate_of number }
{
    match number {
        0 => Fate::Lost,
        1 => Fate::Twice,
        _ => Fate::Good,
    }
}

/// Where the draws of a run come from: PCG's generator of 32-bit words, on stream 54 as in its reference code.
#[derive(Drop)]
pub(crate) struct Draws {
    random: Pcg32,
}

impl Model for Draws {
    ghost use Rattle.rand_pcg.specs.Lcg.{Lcg};

    ghost Value = { Lcg };

    ghost view = { λ d. d.random };
}

impl Draws {
    /// The draws of a run's number.
    #[tactic(auto, unfolding(crate::specs::Drawing::seeded))]
    pub(crate) fn new(number: u32) -> Draws
        ensures { result ≡ seeded number }
    {
        Draws {
            random: Pcg32::new(number as u64, 54),
        }
    }

    /// A number below `bound`.
    #[tactic(auto, unfolding(crate::specs::Drawing::drawn, crate::specs::Drawing::rest))]
    fn draw(&mut self, bound: u32) -> u32
        requires { 0 < bound }
        ensures value { result ≡ drawn bound self.old }
        ensures rest { self.new ≡ rest self.old }
        ensures below { result < bound }
    {
        self.random.next_word() % bound
    }

    fn cluster(&mut self) -> u32
        ensures value { result ≡ drawn 3 self.old }
        ensures rest { self.new ≡ rest self.old }
    {
        self.draw(CLUSTERS)
    }

    fn client(&mut self) -> u32
        ensures value { result ≡ drawn 4 self.old }
        ensures rest { self.new ≡ rest self.old }
    {
        self.draw(CLIENTS)
    }

    fn pair(&mut self) -> Pair
        ensures source { result.source ≡ source_of (drawn 6 self.old) }
        ensures target { result.target ≡ target_of (drawn 6 self.old) }
        ensures rest { self.new ≡ rest self.old }
    {
        pair_at(self.draw(PAIRS))
    }

    fn fate(&mut self) -> Fate
        ensures value { result ≡ fate_of (drawn 16 self.old) }
        ensures rest { self.new ≡ rest self.old }
    {
        fate(self.draw(FATES))
    }

    /// The event of a turn, from 0.
    #[tactic(auto, unfolding(crate::specs::Drawing::turn_at))]
    pub(crate) fn turn(&mut self, turn: u32) -> Event
        ensures { turn_at turn self.old ≡ record { event = result; after = self.new } }
    {
        if turn % RECONNECTS_EACH == RECONNECTS_EACH - 1 {
            return Event::Reconnect {
                client: turn / RECONNECTS_EACH % CLIENTS,
            };
        }
        if turn % RESTARTS_EACH == RESTARTS_EACH - 1 {
            return Event::Restart {
                topic: TOPIC,
                cluster: self.cluster(),
            };
        }
        let row = row_at(self.draw(WEIGHTS));
        self.event(row)
    }

    /// An event of a row. Its numbers are drawn in the order in which it names them.
    fn event(&mut self, row: Row) -> Event
        ensures { drawn_event row self.old ≡ record { event = result; after = self.new } }
    {
        match row {
            Row::Go => Event::Go {
                client: self.client(),
            },
            Row::Serve => self.serve(),
            Row::Get => Event::Get {
                client: self.client(),
            },
            Row::Reset => self.reset(),
            Row::Read => self.read(),
            Row::Take => self.take(),
            Row::Receipt => self.receipt(),
            Row::Snap => Event::Snap {
                topic: TOPIC,
                cluster: self.cluster(),
            },
            Row::Offer => Event::Offer {
                topic: TOPIC,
                cluster: self.cluster(),
                sub: SUBSCRIPTION,
            },
            Row::Drop => self.drop_client(),
        }
    }

    fn serve(&mut self) -> Event
        ensures { drawn_event Row.Serve self.old ≡ record { event = result; after = self.new } }
    {
        let cluster = self.cluster();
        let client = self.client();
        Event::Serve { cluster, client }
    }

    fn drop_client(&mut self) -> Event
        ensures { drawn_event Row.Drop self.old ≡ record { event = result; after = self.new } }
    {
        let cluster = self.cluster();
        let client = self.client();
        Event::Drop { cluster, client }
    }

    fn reset(&mut self) -> Event
        ensures { drawn_event Row.Reset self.old ≡ record { event = result; after = self.new } }
    {
        let Pair { source, target } = self.pair();
        Event::Reset {
            topic: TOPIC,
            source,
            target,
        }
    }

    fn read(&mut self) -> Event
        ensures { drawn_event Row.Read self.old ≡ record { event = result; after = self.new } }
    {
        let Pair { source, target } = self.pair();
        Event::Read {
            topic: TOPIC,
            source,
            target,
        }
    }

    fn take(&mut self) -> Event
        ensures { drawn_event Row.Take self.old ≡ record { event = result; after = self.new } }
    {
        let Pair { source, target } = self.pair();
        Event::Take {
            topic: TOPIC,
            source,
            target,
            fate: self.fate(),
        }
    }

    fn receipt(&mut self) -> Event
        ensures { drawn_event Row.Receipt self.old ≡ record { event = result; after = self.new } }
    {
        let Pair { source, target } = self.pair();
        Event::Receipt {
            topic: TOPIC,
            source,
            target,
            fate: self.fate(),
        }
    }
}
