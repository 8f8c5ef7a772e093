//! Which events a broker can do.
ghost use Rattle.std.specs.Prelude.{◌↔◌, IsTrue};
ghost use Rattle.broker_tasks.specs.Seeking.{SeekFits};
ghost use Rattle.broker.specs.Events.{CanHappen, HasNextMarker, IsClients, IsHere, IsLink, IsOfNode, MarkerRises, SeekRises, SessionRises};

use crate::broker::Broker;
use crate::preparing::name_at;
use broker_plans::{sub_at, sub_index_named};
use geo_base::Event;

/// How far a session's number may rise.
const SESSIONS: u64 = 9_223_372_036_854_775_808;

impl Broker {
    /// Whether an event is one of this broker, with its numbers of clusters and clients in range, and the numbers that it raises
    /// still have room to rise. Every event of a run has.
    pub fn accepts(&self, event: &Event) -> bool
        ensures { IsTrue result ↔ CanHappen self.now event.now }
    {
        self.is_own(event)
            && self.marker_rises(event)
            && self.session_rises(event)
            && self.seeks_rise(event)
    }

    fn is_own(&self, event: &Event) -> bool
        ensures { IsTrue result ↔ IsOfNode self.now event.now }
    {
        match *event {
            Event::Serve { cluster, client } | Event::Drop { cluster, client } => {
                self.is_of_client(cluster, client)
            }
            Event::Reset {
                topic,
                source,
                target,
            }
            | Event::Read {
                topic,
                source,
                target,
            }
            | Event::Receipt {
                topic,
                source,
                target,
                ..
            } => self.is_link(topic, source, target),
            Event::Take {
                topic,
                source,
                target,
                ..
            } => self.is_link(topic, target, source),
            Event::Snap { topic, cluster }
            | Event::Offer { topic, cluster, .. }
            | Event::Seek { topic, cluster, .. }
            | Event::Restart { topic, cluster } => self.is_here(topic, cluster),
            Event::Go { .. } | Event::Get { .. } | Event::Reconnect { .. } => false,
        }
    }

    fn is_of_client(&self, cluster: u32, client: u32) -> bool
        ensures { IsTrue result ↔ IsClients self.now cluster client }
    {
        cluster == self.state.site().own() && (client as usize) < self.state.sessions().len()
    }

    fn is_here(&self, topic: u32, cluster: u32) -> bool
        ensures { IsTrue result ↔ IsHere self.now topic cluster }
    {
        topic == self.topic && cluster == self.state.site().own()
    }

    fn is_link(&self, topic: u32, cluster: u32, other: u32) -> bool
        ensures { IsTrue result ↔ IsLink self.now topic cluster other }
    {
        self.is_here(topic, cluster) && (other as usize) < self.state.site().clusters().len()
    }

    fn marker_rises(&self, event: &Event) -> bool
        ensures { IsTrue result ↔ MarkerRises self.now.site self.now.broker event.now }
    {
        match *event {
            Event::Serve { .. }
            | Event::Read { .. }
            | Event::Snap { .. }
            | Event::Offer { .. }
            | Event::Seek { .. } => self.has_next_marker(),
            _ => true,
        }
    }

    fn has_next_marker(&self) -> bool
        ensures { IsTrue result ↔ HasNextMarker self.now.site self.now.broker }
    {
        self.state.next_marker() < u64::MAX
    }

    fn session_rises(&self, event: &Event) -> bool
        requires { IsOfNode self.now event.now }
        ensures { IsTrue result ↔ SessionRises self.now.broker event.now }
    {
        match *event {
            Event::Reset { target, .. } => self.replicator(target).replicator().session()
                < SESSIONS,
            _ => true,
        }
    }

    fn seeks_rise(&self, event: &Event) -> bool
        ensures { IsTrue result ↔ SeekRises self.now.names self.now.broker event.now }
    {
        match *event {
            Event::Seek { sub, .. } => self.seek_fits(name_at(self.names.as_slice(), sub)),
            _ => true,
        }
    }

    fn seek_fits(&self, name: &[u8]) -> bool
        ensures { IsTrue result ↔ SeekFits self.now.broker name.now }
    {
        match sub_index_named(&self.state, name) {
            None => true,
            Some(sub_index) => sub_at(&self.state, sub_index).durable().seeks < u64::MAX,
        }
    }
}
