//! What a line may name.
ghost use Rattle.std.specs.Prelude.{◌≡◌, ◌+◌, ◌<◌, ◌≤◌, ◌^◌, [], false, if◌then◌else◌, length, slice_get, None, Some, OnErr, OnOk};
ghost use Rattle.std.specs.Option.{option_copied};
ghost use Rattle.script_rows.specs.NameBytes.{is_among, name_at, number_in};
ghost use Rattle.script_rows.specs.Names.{count_of, in_role, member_at, member_of, subs_of, with_client, with_cluster, with_role, with_sub, with_topic};

use crate::NameTable;
use crate::column::Role;
use geo_base::Memory;
use geo_base::limits::CLUSTERS;
use std::alloc::Global;
use std::marker::Model;

/// What is known of a client: the number of its topic, and whether it has a `produce` or a `move` line.
#[derive(Clone, Copy, Drop, PartialEq, Eq)]
pub struct Member {
    pub topic: u32,
    pub produces: bool,
    pub moves: bool,
}

/// What the lines so far declare by name. The subscriptions are those of each topic.
#[derive(Drop)]
pub struct Names<'a> {
    clusters: NameTable<'a>,
    topics: NameTable<'a>,
    clients: NameTable<'a>,
    members: Vec<Member>,
    subs: Vec<NameTable<'a>>,
}

impl<'a> Model for Names<'a> {
    ghost use Rattle.geo_base.specs.Scripted.{most_clusters};
    ghost use Rattle.std.specs.Prelude.{◌≤◌, length};
    ghost use Rattle.script_rows.specs.Names.{Names};

    ghost Value = { Names };

    ghost view = { λ n. record {
      clusters = n.clusters;
      topics = n.topics;
      clients = n.clients;
      members = n.members.items;
      subs = n.subs.items;
    } };

    ghost invariant = { λ n. length n.clusters ≤ most_clusters };
}

impl<'a> Names<'a> {
    /// Nothing; takes no memory.
    pub fn new(alloc: Global) -> Names<'a>
        ensures { result ≡ record { clusters = []; topics = []; clients = []; members = []; subs = [] } }
    {
        Names {
            clusters: NameTable::new(alloc),
            topics: NameTable::new(alloc),
            clients: NameTable::new(alloc),
            members: Vec::new(alloc),
            subs: Vec::new(alloc),
        }
    }

    /// Names in tables: the clients with what is known of each, and the subscriptions of each topic.
    pub fn from_tables(
        clusters: NameTable<'a>,
        topics: NameTable<'a>,
        clients: NameTable<'a>,
        members: Vec<Member>,
        subs: Vec<NameTable<'a>>,
    ) -> Names<'a>
        requires { length clusters ≤ CLUSTERS }
        ensures { result ≡ record {
          clusters = clusters.entry;
          topics = topics.entry;
          clients = clients.entry;
          members = members.items;
          subs = subs.entry.items;
        } }
    {
        Names {
            clusters,
            topics,
            clients,
            members,
            subs,
        }
    }

    /// The clusters.
    pub fn clusters(&self) -> &NameTable<'a>
        ensures names { result.now ≡ self.now.clusters }
        ensures few { length self.now.clusters ≤ CLUSTERS }
    {
        &self.clusters
    }

    /// The topics.
    pub fn topics(&self) -> &NameTable<'a>
        ensures { result.now ≡ self.now.topics }
    {
        &self.topics
    }

    /// The clients.
    pub fn clients(&self) -> &NameTable<'a>
        ensures { result.now ≡ self.now.clients }
    {
        &self.clients
    }

    /// Whether a topic has a subscription of a name.
    #[tactic(auto, using(crate::proofs::Subs::no_sub))]
    pub(crate) fn is_sub(&self, topic: u32, word: &[u8]) -> bool
        ensures { result ≡ is_among (subs_of self.now topic) word.now }
    {
        match self.subs_at(topic) {
            Some(names) => names.contains(word),
            None => false,
        }
    }

    /// How many subscriptions a topic has.
    #[tactic(auto, using(crate::proofs::Subs::no_count))]
    pub(crate) fn sub_count(&self, topic: u32) -> usize
        ensures { result ≡ length (subs_of self.now topic) }
    {
        match self.subs_at(topic) {
            Some(names) => names.len(),
            None => 0,
        }
    }

    /// The name of a subscription of a topic; empty where there is none.
    #[tactic(auto, using(crate::proofs::Subs::no_name))]
    pub(crate) fn sub_name(&self, topic: u32, number: u32) -> &'a [u8]
        ensures { result.now ≡ name_at (subs_of self.now topic) number }
    {
        match self.subs_at(topic) {
            Some(names) => names.name(number as usize),
            None => &[],
        }
    }

    /// The number of a subscription of a topic; None where it is none of them.
    #[tactic(auto, using(crate::proofs::Subs::not_found))]
    pub(crate) fn find_sub(&self, topic: u32, word: &[u8]) -> Option<u32>
        ensures { result ≡ (if is_among (subs_of self.now topic) word.now
            then Some (number_in (subs_of self.now topic) word.now) else None) }
    {
        match self.subs_at(topic) {
            Some(names) => names.find(word),
            None => None,
        }
    }

    fn subs_at(&self, topic: u32) -> Option<&NameTable<'a>>
        ensures { option_copied result ≡ slice_get self.now.subs topic }
    {
        self.subs.as_slice().get(topic as usize)
    }

    /// What is known of a client; one that is not declared has no topic.
    pub(crate) fn member(&self, word: &[u8]) -> Member
        ensures { result ≡ member_of self.now word.now }
    {
        self.member_at(self.clients.number(word))
    }

    /// What is known of the client of a number; one that is not declared has no topic.
    pub(crate) fn member_at(&self, client: u32) -> Member
        ensures { result ≡ member_at self.now client }
    {
        match self.members.as_slice().get(client as usize) {
            Some(member) => *member,
            None => Member {
                topic: self.topics.len() as u32,
                produces: false,
                moves: false,
            },
        }
    }

    /// How many clients a topic has.
    pub(crate) fn count(&self, topic: u32) -> usize
        ensures { result ≡ count_of self.now topic }
    {
        self.members
            .as_slice()
            .iter()
            .filter(|m| m.topic == topic)
            .count()
    }

    /// One more cluster; unchanged where memory is wanting.
    pub fn push_cluster(&mut self, name: &'a [u8]) -> Result<(), Memory>
        requires new { is_among self.old.clusters name.now ≡ false }
        requires room { length self.old.clusters < CLUSTERS }
        ensures ok { OnOk result (self.new ≡ with_cluster self.old name.now) }
        ensures err { OnErr result (self.new ≡ self.old) }
    {
        self.clusters.push(name)
    }

    /// One more topic, without subscriptions; unchanged where memory is wanting.
    pub fn push_topic(&mut self, alloc: Global, name: &'a [u8]) -> Result<(), Memory>
        requires { is_among self.old.topics name.now ≡ false }
        ensures ok { OnOk result (self.new ≡ with_topic self.old name.now) }
        ensures err { OnErr result (self.new ≡ self.old) }
    {
        self.subs.reserve(1)?;
        self.topics.push(name)?;
        self.subs.push_reserved(NameTable::new(alloc));
        Ok(())
    }

    /// One more client of a topic; unchanged where memory is wanting.
    pub fn push_client(&mut self, name: &'a [u8], topic: u32) -> Result<(), Memory>
        requires { is_among self.old.clients name.now ≡ false }
        ensures ok { OnOk result (self.new ≡ with_client self.old name.now topic) }
        ensures err { OnErr result (self.new ≡ self.old) }
    {
        self.members.reserve(1)?;
        self.clients.push(name)?;
        let member = Member {
            topic,
            produces: false,
            moves: false,
        };
        self.members.push_reserved(member);
        Ok(())
    }

    /// What a line makes of its client.
    pub fn note_role(&mut self, client: u32, role: Role)
        requires { client < length self.old.members }
        ensures { self.new ≡ with_role self.old client role }
    {
        let mut member = self.members[client as usize];
        match role {
            Role::Producer => member.produces = true,
            Role::Mover => member.moves = true,
            Role::Plain => {}
        }
        self.members[client as usize] = member;
    }

    /// A subscription of a topic, where it is new; unchanged where memory is wanting.
    pub fn note_sub(&mut self, topic: u32, name: &'a [u8]) -> Result<(), Memory>
        requires { topic < length self.old.subs }
        ensures ok { OnOk result (self.new ≡ with_sub self.old topic name.now) }
        ensures err { OnErr result (self.new ≡ self.old) }
    {
        if self.is_sub(topic, name) {
            return Ok(());
        }
        self.subs[topic as usize].push(name)
    }
}
