//! Which events are a node's own.
ghost use Rattle.std.specs.Prelude.{◌≡◌, ◌<◌, ◌↔◌, length, IsTrue};
ghost use Rattle.geo_base.specs.Broker.{Broker as MachineBroker};
ghost use Rattle.geo_base.specs.NodeState.{BrokerState, takes_from};
ghost use Rattle.geo_base.specs.Setup.{sub_names};
ghost use Rattle.node_log.specs.Owning.{IsAtBroker, IsAtClient, IsGet, IsGo, IsOfLink, IsOfTopic};

use broker::Broker;
use geo_base::{Event, Peer};
use script_text::Scenario;

/// Whether an event is one of a broker's, with all its numbers in range.
pub(crate) fn is_brokers(scenario: &Scenario, node: &Broker, event: &Event) -> bool
    ensures { IsTrue result ↔ IsAtBroker scenario.now.setup node.now.topic node.now.site.own event.now }
{
    match *event {
        Event::Serve { cluster, client } | Event::Drop { cluster, client } => {
            cluster == node.cluster() && is_of_topic(scenario, client, node.topic())
        }
        Event::Reset { .. } | Event::Read { .. } | Event::Take { .. } | Event::Receipt { .. } => {
            is_of_link(scenario, node, event)
        }
        Event::Snap { topic, cluster } | Event::Restart { topic, cluster } => {
            topic == node.topic() && cluster == node.cluster()
        }
        Event::Offer {
            topic,
            cluster,
            sub,
        }
        | Event::Seek {
            topic,
            cluster,
            sub,
            ..
        } => topic == node.topic() && cluster == node.cluster() && is_sub(scenario, topic, sub),
        Event::Go { .. } | Event::Get { .. } | Event::Reconnect { .. } => false,
    }
}

/// The same of an event of a link between brokers: it is of the one that sends, but a take, which is of the one that receives.
fn is_of_link(scenario: &Scenario, node: &Broker, event: &Event) -> bool
    requires { IsOfLink event.now }
    ensures { IsTrue result ↔ IsAtBroker scenario.now.setup node.now.topic node.now.site.own event.now }
{
    match *event {
        Event::Reset {
            topic,
            source,
            target,
        }
        | Event::Read {
            topic,
            source,
            target,
        }
        | Event::Receipt {
            topic,
            source,
            target,
            ..
        } => topic == node.topic() && source == node.cluster() && is_cluster(scenario, target),
        Event::Take {
            topic,
            source,
            target,
            ..
        } => topic == node.topic() && target == node.cluster() && is_cluster(scenario, source),
        _ => unreachable!(),
    }
}

/// Whether an event is one of a client's.
pub(crate) fn is_clients(client: u32, event: &Event) -> bool
    ensures { IsTrue result ↔ IsAtClient client event.now }
{
    match *event {
        Event::Go { client: other }
        | Event::Get { client: other }
        | Event::Reconnect { client: other } => other == client,
        _ => false,
    }
}

/// Whether an event does a client's next line.
pub(crate) fn is_go(event: &Event) -> bool
    ensures { IsTrue result ↔ IsGo event.now }
{
    matches!(event, Event::Go { .. })
}

/// Whether an event of a client takes a packet.
pub(crate) fn is_get(event: &Event) -> bool
    ensures { IsTrue result ↔ IsGet event.now }
{
    matches!(event, Event::Get { .. })
}

fn is_of_topic(scenario: &Scenario, client: u32, topic: u32) -> bool
    ensures { IsTrue result ↔ IsOfTopic scenario.now.setup client topic }
{
    let clients = scenario.clients();
    (client as usize) < clients.len() && clients[client as usize].topic() == topic
}

fn is_cluster(scenario: &Scenario, cluster: u32) -> bool
    ensures { IsTrue result ↔ (cluster < length scenario.now.setup.clusters) }
{
    (cluster as usize) < scenario.clusters().len()
}

#[tactic(auto, using(crate::proofs::OwnEvents::sub_within, crate::proofs::OwnEvents::sub_past))]
fn is_sub(scenario: &Scenario, topic: u32, sub: u32) -> bool
    ensures { IsTrue result ↔ (sub < length (sub_names scenario.now.setup topic)) }
{
    scenario.sub_name(topic, sub).is_some()
}

/// The peer whose next packet an event of a broker takes, if it takes one.
pub(crate) fn taken_from(event: &Event) -> Option<Peer>
    ensures { (b : MachineBroker) → result ≡ takes_from (BrokerState b) event.now }
{
    match *event {
        Event::Serve { client, .. } => Some(Peer::Client(client)),
        Event::Take { source, .. } => Some(Peer::Back(source)),
        Event::Receipt { target, .. } => Some(Peer::Forward(target)),
        _ => None,
    }
}
