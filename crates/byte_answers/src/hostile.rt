//! A broker that takes packets of one link.
ghost use Rattle.std.specs.Prelude.{◌≡◌, [], IfOk, OnOk};
ghost use Rattle.byte_answers.specs.Setting.{setting};

use crate::fault::Fault;
use broker::Broker;
use broker_state::Site;
use geo_base::{Blob, ClusterName, EntryStore, Event, Fate, Memory, Stamp, TopicName, WireOut};
use std::alloc::Global;
use wire_ends::WirePacket;

/// Cluster b takes the next packet of the link from cluster a.
const TAKE: Event = Event::Take {
    topic: 0,
    source: 0,
    target: 1,
    fate: Fate::Good,
};

/// Entries of a ledger: the table stores three at most.
const PER_LEDGER: u64 = 8;

/// How many durable writes of an event a stop lets through.
const WRITES: u32 = 1;

/// The names of the clusters a, b and c.
fn add_names(alloc: Global, names: &mut Vec<ClusterName>) -> Result<(), Fault>
    requires { names.old.items ≡ [] }
    ensures { OnOk result (names.new.items ≡ setting.clusters) }
{
    names.reserve(3)?;
    names.push_reserved(ClusterName::read(alloc, "a")?);
    names.push_reserved(ClusterName::read(alloc, "b")?);
    names.push_reserved(ClusterName::read(alloc, "c")?);
    Ok(())
}

/// What the broker of topic t at cluster b knows, one of a, b and c.
fn site(alloc: Global) -> Result<Site, Fault>
    ensures { IfOk result (λ s. s ≡ setting) }
{
    let topic = TopicName::read(alloc, "t")?;
    let mut names = Vec::new(alloc);
    match add_names(alloc, &mut names) {
        Ok(()) => Ok(Site::new(1, names, topic, PER_LEDGER)),
        Err(fault) => {
            drop(names);
            drop(topic);
            Err(fault)
        }
    }
}

/// The broker before anything has happened.
pub fn node(alloc: Global) -> Result<Broker, Fault>
    ensures { IfOk result (λ v. v.site ≡ setting) }
{
    let site = site(alloc)?;
    Ok(Broker::new(alloc, 0, site, Vec::new(alloc), 0)?)
}

/// The next packet of the link.
fn packet(alloc: Global, session: u64, frame: &[u8]) -> Result<WirePacket, Memory>
    ensures { IfOk result (λ p. p ≡ record { session = session; stamp = 1; frame = frame.now }) }
{
    Ok(WirePacket {
        session,
        stamp: Stamp::new(1),
        frame: Blob::from_slice(alloc, frame)?,
    })
}

/// The packets that answer a packet of a session.
pub fn take(
    alloc: Global,
    node: &mut Broker,
    session: u64,
    frame: &[u8],
) -> Result<Vec<WireOut>, Fault>
    ensures { node.new.site ≡ node.old.site }
{
    if !node.accepts(&TAKE) {
        return Err(Fault::NotAccepted);
    }
    let packet = packet(alloc, session, frame)?;
    let acted = node.act(alloc, &TAKE, Some(&packet));
    drop(packet);
    Ok(acted?.sent)
}

/// How many packets answer a packet of a session.
pub fn count(alloc: Global, node: &mut Broker, session: u64, frame: &[u8]) -> Result<usize, Fault>
    ensures { node.new.site ≡ node.old.site }
{
    let answers = take(alloc, node, session, frame)?;
    let len = answers.len();
    drop(answers);
    Ok(len)
}

/// The broker stops after the first durable write of a packet of a session.
pub fn stop(alloc: Global, node: &mut Broker, session: u64, frame: &[u8]) -> Result<(), Fault>
    ensures { node.new.site ≡ node.old.site }
{
    if !node.accepts(&TAKE) {
        return Err(Fault::NotAccepted);
    }
    let packet = packet(alloc, session, frame)?;
    let halted = node.halt(alloc, WRITES, &TAKE, Some(&packet));
    drop(packet);
    Ok(halted?)
}

/// How many entries the broker has after it was saved and loaded.
pub fn kept(alloc: Global, node: &Broker) -> Result<usize, Fault>
    requires { node.now.site ≡ setting }
{
    let site = site(alloc)?;
    let durable = match node.durable(alloc) {
        Ok(durable) => durable,
        Err(_) => {
            drop(site);
            return Err(Fault::Memory);
        }
    };
    let loaded = Broker::from_durable(alloc, 0, site, Vec::new(alloc), durable, 0)?;
    let len = loaded.store().len();
    loaded.let_go();
    Ok(len)
}
