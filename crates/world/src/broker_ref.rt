//! Which broker an event is of, and the link that it takes from.
ghost use Rattle.std.specs.Prelude.{◌≡◌};
ghost use Rattle.world.specs.Steps.{broker_ref_at};
ghost use Rattle.script_text.specs.Scenario.{IsEvent};
ghost use Rattle.kept_laws.specs.Events.{IsBrokers, cluster_of, takes_of, topic_of};
ghost use Rattle.links.specs.declared.name.Node.TheVariants as node;

use crate::world::World;
use geo_base::Event;
use links::{LinkName, Node, Port};
use script_text::Scenario;

/// The broker of a topic at a cluster, and the link that its event takes from, as it was found in a world. A world's links stay where
/// they are, so that it is found once in an event.
#[derive(Clone, Copy, Drop)]
pub struct BrokerRef {
    pub topic: u32,
    pub cluster: u32,
    pub takes: Port,
}

impl BrokerRef {
    /// The broker, as one that sends.
    pub(crate) fn sender(self) -> Node
        ensures { result ≡ node.Broker self.topic self.cluster }
    {
        Node::Broker {
            topic: self.topic,
            cluster: self.cluster,
        }
    }
}

impl World {
    /// Finds the broker of an event, and the link that the event takes from.
    pub fn broker_ref(&self, scenario: &Scenario, event: &Event) -> BrokerRef
        requires broker { IsBrokers event.now }
        requires scripted { IsEvent scenario.now.setup event.now }
        ensures { result ≡ broker_ref_at scenario.now.setup self.now.links event.now }
    {
        BrokerRef {
            topic: topic_of(scenario, event),
            cluster: cluster_of(event),
            takes: self.links.port(takes_of(event)),
        }
    }
}

/// The topic of the broker of an event.
fn topic_of(scenario: &Scenario, event: &Event) -> u32
    requires broker { IsBrokers event.now }
    requires scripted { IsEvent scenario.now.setup event.now }
    ensures { result ≡ topic_of scenario.now.setup event.now }
{
    match *event {
        Event::Serve { client, .. } | Event::Drop { client, .. } => {
            scenario.clients()[client as usize].topic()
        }
        Event::Take { topic, .. }
        | Event::Receipt { topic, .. }
        | Event::Reset { topic, .. }
        | Event::Read { topic, .. }
        | Event::Snap { topic, .. }
        | Event::Offer { topic, .. }
        | Event::Seek { topic, .. }
        | Event::Restart { topic, .. } => topic,
        Event::Go { .. } | Event::Get { .. } | Event::Reconnect { .. } => unreachable!(),
    }
}

/// The cluster of the broker of an event.
fn cluster_of(event: &Event) -> u32
    requires { IsBrokers event.now }
    ensures { result ≡ cluster_of event.now }
{
    match *event {
        Event::Take { target, .. } => target,
        Event::Receipt { source, .. } | Event::Reset { source, .. } | Event::Read { source, .. } =>
            source,
        Event::Serve { cluster, .. }
        | Event::Drop { cluster, .. }
        | Event::Snap { cluster, .. }
        | Event::Offer { cluster, .. }
        | Event::Seek { cluster, .. }
        | Event::Restart { cluster, .. } => cluster,
        Event::Go { .. } | Event::Get { .. } | Event::Reconnect { .. } => unreachable!(),
    }
}

/// The link that an event of a broker takes from, if it takes from one.
fn takes_of(event: &Event) -> Option<LinkName>
    ensures { result ≡ takes_of event.now }
{
    match *event {
        Event::Serve { cluster, client } => Some(LinkName::ToBroker { client, cluster }),
        Event::Take {
            topic,
            source,
            target,
            ..
        } => Some(LinkName::Forward {
            topic,
            source,
            target,
        }),
        Event::Receipt {
            topic,
            source,
            target,
            ..
        } => Some(LinkName::Back {
            topic,
            source,
            target,
        }),
        _ => None,
    }
}
