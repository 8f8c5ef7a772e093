//! What an actor does.
ghost use Rattle.std.specs.Prelude.{◌≡◌};
ghost use Rattle.geo_base.specs.declared.event.Event.TheVariants as event;

use geo_base::{Event, Fate};

/// A link of replication: the topic, and the clusters at its two ends, by number.
#[derive(Clone, Copy, Drop, PartialEq, Eq)]
pub struct Link {
    pub topic: u32,
    pub source: u32,
    pub target: u32,
}

impl Link {
    /// The source begins a session.
    pub fn reset(self) -> Event
        ensures { result ≡ event.Reset self.topic self.source self.target }
    {
        Event::Reset {
            topic: self.topic,
            source: self.source,
            target: self.target,
        }
    }

    /// The source reads its topic.
    pub fn read(self) -> Event
        ensures { result ≡ event.Read self.topic self.source self.target }
    {
        Event::Read {
            topic: self.topic,
            source: self.source,
            target: self.target,
        }
    }

    /// The target takes a packet.
    pub fn take(self, fate: Fate) -> Event
        ensures { result ≡ event.Take self.topic self.source self.target fate }
    {
        Event::Take {
            topic: self.topic,
            source: self.source,
            target: self.target,
            fate,
        }
    }

    /// The source takes an answer.
    pub fn receipt(self, fate: Fate) -> Event
        ensures { result ≡ event.Receipt self.topic self.source self.target fate }
    {
        Event::Receipt {
            topic: self.topic,
            source: self.source,
            target: self.target,
            fate,
        }
    }
}

/// What an actor of a run on threads tries to do, each at nodes of its own (own: in Pulsar these are threads of brokers and of
/// clients). The numbers are those of topics, clusters, subscription names and clients.
#[derive(Clone, Copy, Drop, PartialEq, Eq)]
pub enum Role {
    /// Begins sessions at the source of a link, takes their receipts, and reads the topic.
    Replicator(Link),
    /// Takes at the target of a link what comes.
    Receiver(Link),
    /// Begins snapshots, and restarts the broker by chance.
    Controller { topic: u32, cluster: u32 },
    /// Gives out the messages of a subscription.
    Dispatcher { topic: u32, cluster: u32, sub: u32 },
    /// Does a client's lines, gets what comes for it, and connects.
    Client { client: u32 },
    /// Serves a client of the topic, at whichever of its brokers.
    Server { topic: u32, client: u32 },
}
