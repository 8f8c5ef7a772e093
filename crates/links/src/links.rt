//! All links of the world, and what is sent on them in an event.
//!
//! What is sent in one event goes out whole or not at all: where memory ends in the middle of it, what was sent is taken back,
//! the last packet first.
ghost use Rattle.std.specs.Prelude.{◌≡◌, ◌≤◌, ◌<◌, ◌^◌, ◌*◌, [], IfOk, IfSome, OnOk, OnErr, length, replicate};
ghost use Rattle.std.specs.Option.{option_copied};
ghost use Rattle.links.specs.Queues.{all_discarded, delivered, empty_links, emptied, packet_in, queue_in, row_count, stamp_of, stamped, taken_in, with_last, with_queue_in, without_last};

use crate::link::Link;
use crate::name::{Node, link_to};
use crate::port::Port;
use geo_base::limits::CLUSTERS;
use geo_base::{Memory, Stamp, WireOut};
use std::alloc::Global;
use std::collections::VecDeque;
use std::marker::Model;
use wire_ends::WirePacket;

/// All links between so many brokers, and to and from so many clients, in one list by their ports. Where a name is of no link,
/// nothing is sent and nothing comes.
#[derive(Drop)]
pub struct Links {
    pub(crate) brokers: usize,
    pub(crate) clusters: usize,
    pub(crate) clients: usize,
    links: Vec<Link>,
}

impl Model for Links {
    ghost use Rattle.std.specs.Prelude.{◌≡◌, ◌≤◌, ◌<◌, ◌^◌, ◌*◌, length};
    ghost use Rattle.geo_base.specs.declared.limits.TheConstants.{CLUSTERS};
    ghost use Rattle.links.specs.Queues.{WireLinks, row_count};

    ghost Value = { WireLinks };

    ghost view = { λ l. record { brokers = l.brokers; clusters = l.clusters; clients = l.clients; queues = l.links.items } };

    ghost invariant = { λ l. (l.clusters ≤ CLUSTERS) × (row_count l.brokers l.clients < 2 ^ 64) × (length l.links.items ≡ row_count l.brokers l.clients * l.clusters) };
}

impl Links {
    /// Empty links of so many topics, clusters and clients; an `Err` is want of memory.
    pub fn new(
        alloc: Global,
        topics: usize,
        clusters: usize,
        clients: usize,
    ) -> Result<Links, Memory>
        requires few { clusters ≤ CLUSTERS }
        requires brokers { topics * clusters < 2 ^ 64 }
        ensures { IfOk result (λ l. l ≡ empty_links topics clusters clients) }
    {
        let brokers = topics * clusters;
        let Some(count) = link_count(brokers, clusters, clients) else {
            return Err(Memory);
        };
        let links = new_links(alloc, count)?;
        Ok(Links {
            brokers,
            clusters,
            clients,
            links,
        })
    }

    /// How many links there are.
    pub(crate) fn count(&self) -> usize
        ensures { result ≡ length self.now.queues }
    {
        self.links.len()
    }

    /// The packet that is taken next at a port, if there is one.
    #[tactic(auto, using(crate::proofs::Pairs::next_nowhere))]
    pub fn next(&self, port: Port) -> Option<&WirePacket>
        ensures { option_copied result ≡ packet_in self.now port }
    {
        if port.number < self.links.len() {
            self.links[port.number].next()
        } else {
            None
        }
    }

    /// The stamp of that packet; 0 where there is none.
    pub fn stamp(&self, port: Port) -> u64
        ensures { result ≡ stamp_of (packet_in self.now port) }
    {
        match self.next(port) {
            Some(packet) => packet.stamp.number(),
            None => 0,
        }
    }

    /// Takes that packet.
    #[tactic(auto, using(crate::proofs::Pairs::next_nowhere, crate::proofs::Pairs::set_nowhere))]
    pub fn take(&mut self, port: Port) -> Option<WirePacket>
        ensures taken { result ≡ packet_in self.old port }
        ensures rest { self.new ≡ taken_in port self.old }
    {
        if port.number < self.links.len() {
            self.links[port.number].take()
        } else {
            None
        }
    }

    /// Loses all packets that are not taken yet, as a stop of everything does.
    pub fn discard_all(&mut self)
        ensures { self.new ≡ all_discarded self.old }
    {
        discard_links(self.links.as_mut_slice());
    }

    /// Sends what a node sends in an event of this stamp, in order, whole or not at all: unchanged where memory is wanting. All of it is
    /// taken out of `sent`, which keeps its memory; where memory is wanting, what is left there has no meaning.
    #[tactic(auto, using(crate::proofs::Undoing::undone))]
    pub fn deliver(
        &mut self,
        from: Node,
        stamp: Stamp,
        sent: &mut VecDeque<WireOut>,
    ) -> Result<(), Memory>
        ensures ok { OnOk result (self.new ≡ delivered from stamp sent.old.items self.old) }
        ensures taken { OnOk result (sent.new.items ≡ []) }
        ensures err { OnErr result (self.new ≡ self.old) }
    {
        let Some(first) = sent.pop_front() else {
            return Ok(());
        };
        let port = self.port_of(link_to(from, first.to));
        if sent.is_empty() {
            return self.send(port, stamped(stamp, first));
        }
        self.send(port, stamped(stamp, first))?;
        match self.deliver(from, stamp, sent) {
            Ok(()) => Ok(()),
            Err(memory) => {
                self.unsend(port);
                Err(memory)
            }
        }
    }

    #[tactic(auto, using(crate::proofs::Pairs::set_nowhere))]
    fn send(&mut self, port: usize, packet: WirePacket) -> Result<(), Memory>
        ensures ok { OnOk result (self.new ≡ with_queue_in self.old port (with_last (queue_in self.old port) packet)) }
        ensures err { OnErr result (self.new ≡ self.old) }
    {
        if port < self.links.len() {
            self.links[port].send(packet)
        } else {
            Ok(())
        }
    }

    /// Takes back what was sent last on a link.
    #[tactic(auto, using(crate::proofs::Pairs::set_nowhere))]
    fn unsend(&mut self, port: usize)
        ensures { self.new ≡ with_queue_in self.old port (without_last (queue_in self.old port)) }
    {
        if port < self.links.len() {
            self.links[port].unsend();
        }
    }
}

/// How many links there are between so many brokers and clients. So many that 64 bits can't count them are in no memory.
fn link_count(brokers: usize, clusters: usize, clients: usize) -> Option<usize>
    ensures count { IfSome result (λ n. n ≡ row_count brokers clients * clusters) }
    ensures rows { IfSome result (λ n. row_count brokers clients < 2 ^ 64) }
{
    let ends = clients.checked_add(clients)?;
    let backs = brokers.checked_add(ends)?;
    brokers.checked_add(backs)?.checked_mul(clusters)
}

/// So many empty links; an `Err` is want of memory.
fn new_links(alloc: Global, count: usize) -> Result<Vec<Link>, Memory>
    ensures { IfOk result (λ links. links.items ≡ replicate count []) }
{
    let mut links = Vec::new(alloc);
    for _link in 0..count {
        links.push(Link::new(alloc))?;
    }
    Ok(links)
}

fn discard_links(links: &mut [Link])
    ensures { links.new ≡ emptied links.old }
{
    for link in links {
        link.discard();
    }
}

/// What is sent, as a packet of an event of this stamp.
fn stamped(stamp: Stamp, out: WireOut) -> WirePacket
    ensures { result ≡ stamped stamp out }
{
    WirePacket {
        session: out.session,
        stamp,
        frame: out.frame,
    }
}
