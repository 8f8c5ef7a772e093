//! The names of a script in tables.
ghost use Rattle.std.specs.Prelude.{◌≡◌, [], length, map, IfOk, OnOk};
ghost use Rattle.std.specs.List.{list_any, range_with_len};
ghost use Rattle.geo_base.specs.Scripted.{AreDistinct, is_move, is_produce};
ghost use Rattle.geo_base.specs.Setup.{Declared, sub_names};
ghost use Rattle.script_text.specs.Drafts.{IsDeclared};
ghost use Rattle.script_text.specs.Naming.{member_of, names_of};

use crate::client::ClientDecl;
use crate::declarations::Declarations;
use geo_base::{Line, Memory, Name};
use script_rows::{Member, NameTable, Names};
use std::alloc::Global;

/// The names of the clusters and of the topics.
#[derive(Drop)]
struct NodeNames<'a> {
    clusters: NameTable<'a>,
    topics: NameTable<'a>,
}

/// The names of the clients, and what is asked of each.
#[derive(Drop)]
struct ClientNames<'a> {
    clients: NameTable<'a>,
    members: Vec<Member>,
}

impl Declarations {
    /// What lines may name.
    pub(crate) fn names(&self, alloc: Global) -> Result<Names<'_>, Memory>
        ensures names { IfOk result (λ names. names ≡ names_of self.now.setup) }
        ensures known { OnOk result (IsDeclared self.now.setup) }
    {
        let subs = self.sub_tables(alloc)?;
        // each end by a call, so that it is proved once
        match self.client_names(alloc) {
            Ok(clients) => match self.node_names(alloc) {
                Ok(nodes) => Ok(Names::from_tables(
                    nodes.clusters,
                    nodes.topics,
                    clients.clients,
                    clients.members,
                    subs,
                )),
                Err(Memory) => {
                    drop(clients);
                    drop(subs);
                    Err(Memory)
                }
            },
            Err(Memory) => {
                drop(subs);
                Err(Memory)
            }
        }
    }

    /// The names of the clusters and of the topics.
    fn node_names(&self, alloc: Global) -> Result<NodeNames<'_>, Memory>
        ensures clusters { IfOk result (λ names. names.clusters ≡ self.now.setup.clusters) }
        ensures topics { IfOk result (λ names. names.topics ≡ self.now.setup.topics) }
        ensures known { OnOk result (IsDeclared self.now.setup) }
    {
        let setup = self.setup();
        let clusters = table_of(alloc, setup.clusters())?;
        match table_of(alloc, setup.topics()) {
            Ok(topics) => Ok(NodeNames { clusters, topics }),
            Err(Memory) => {
                drop(clusters);
                Err(Memory)
            }
        }
    }

    /// The names of the clients, and what is asked of each.
    fn client_names(&self, alloc: Global) -> Result<ClientNames<'_>, Memory>
        ensures clients { IfOk result (λ names. names.clients ≡ map (λ (d : Declared). d.name) self.now.setup.clients) }
        ensures members { IfOk result (λ names. names.members.items ≡ map member_of self.now.setup.clients) }
    {
        let setup = self.setup();
        let clients = client_table(alloc, setup.clients())?;
        match members_of(alloc, setup.clients()) {
            Ok(members) => Ok(ClientNames { clients, members }),
            Err(Memory) => {
                drop(clients);
                Err(Memory)
            }
        }
    }

    /// The subscriptions of each topic.
    fn sub_tables(&self, alloc: Global) -> Result<Vec<NameTable<'_>>, Memory>
        ensures { IfOk result (λ tables. tables.items
            ≡ map (sub_names self.now.setup) (range_with_len 0 (length self.now.setup.topics))) }
    {
        let mut tables = Vec::new(alloc);
        match self.add_sub_tables(alloc, &mut tables) {
            Ok(()) => Ok(tables),
            Err(Memory) => {
                drop(tables);
                Err(Memory)
            }
        }
    }

    /// The same, into tables that are none yet.
    fn add_sub_tables<'b>(
        &'b self,
        alloc: Global,
        tables: &mut Vec<NameTable<'b>>,
    ) -> Result<(), Memory>
        requires fresh { tables.old.items ≡ [] }
        ensures { OnOk result (tables.new.items
            ≡ map (sub_names self.now.setup) (range_with_len 0 (length self.now.setup.topics))) }
    {
        let count = self.setup().topics().len();
        for topic in 0..count {
            let table = table_of(alloc, self.sub_names(topic as u32))?;
            tables.push(table)?;
        }
        Ok(())
    }
}

/// A table of names that are told apart.
fn table_of<K>(alloc: Global, names: &[Name<K>]) -> Result<NameTable<'_>, Memory>
    requires apart { AreDistinct names.now }
    ensures { IfOk result (λ table. table ≡ names.now) }
{
    let mut table = NameTable::new(alloc);
    match add_names(&mut table, names) {
        Ok(()) => Ok(table),
        Err(Memory) => {
            drop(table);
            Err(Memory)
        }
    }
}

/// Names that are told apart, into a table without names.
#[tactic(auto, using(crate::proofs::Tables::fresh, crate::proofs::Tables::one_taken))]
fn add_names<'a, K>(table: &mut NameTable<'a>, names: &'a [Name<K>]) -> Result<(), Memory>
    requires fresh { table.old ≡ [] }
    requires apart { AreDistinct names.now }
    ensures { OnOk result (table.new ≡ names.now) }
{
    for name in names {
        table.push(name.as_str().as_bytes())?;
    }
    Ok(())
}

/// The names of clients that are told apart.
fn client_table(alloc: Global, clients: &[ClientDecl]) -> Result<NameTable<'_>, Memory>
    requires apart { AreDistinct (map (λ (d : Declared). d.name) clients.now) }
    ensures { IfOk result (λ table. table ≡ map (λ (d : Declared). d.name) clients.now) }
{
    let mut table = NameTable::new(alloc);
    match add_clients(&mut table, clients) {
        Ok(()) => Ok(table),
        Err(Memory) => {
            drop(table);
            Err(Memory)
        }
    }
}

/// The names of clients that are told apart, into a table without names.
#[tactic(auto, using(crate::proofs::Tables::fresh_after, crate::proofs::Tables::one_mapped))]
fn add_clients<'a>(table: &mut NameTable<'a>, clients: &'a [ClientDecl]) -> Result<(), Memory>
    requires fresh { table.old ≡ [] }
    requires apart { AreDistinct (map (λ (d : Declared). d.name) clients.now) }
    ensures { OnOk result (table.new ≡ map (λ (d : Declared). d.name) clients.now) }
{
    for client in clients {
        table.push(client.name().as_bytes())?;
    }
    Ok(())
}

/// What is asked of clients.
fn members_of(alloc: Global, clients: &[ClientDecl]) -> Result<Vec<Member>, Memory>
    ensures { IfOk result (λ members. members.items ≡ map member_of clients.now) }
{
    let mut members = Vec::new(alloc);
    match add_members(&mut members, clients) {
        Ok(()) => Ok(members),
        Err(Memory) => {
            drop(members);
            Err(Memory)
        }
    }
}

/// What is asked of clients, where nothing is said yet.
fn add_members(members: &mut Vec<Member>, clients: &[ClientDecl]) -> Result<(), Memory>
    requires fresh { members.old.items ≡ [] }
    ensures { OnOk result (members.new.items ≡ map member_of clients.now) }
{
    for client in clients {
        members.push(member_of(client))?;
    }
    Ok(())
}

/// What is asked of a client.
fn member_of(client: &ClientDecl) -> Member
    ensures { result ≡ member_of client.now }
{
    Member {
        topic: client.topic(),
        produces: has_produce(client.lines()),
        moves: has_move(client.lines()),
    }
}

/// Whether a line is `produce`.
fn has_produce(lines: &[Line]) -> bool
    ensures { result ≡ list_any is_produce lines.now }
{
    lines.iter().any(|line| is_produce(line))
}

/// Whether a line is a `move`.
fn has_move(lines: &[Line]) -> bool
    ensures { result ≡ list_any is_move lines.now }
{
    lines.iter().any(|line| is_move(line))
}

fn is_produce(line: &Line) -> bool
    ensures { result ≡ is_produce line.now }
{
    matches!(line, Line::Produce)
}

fn is_move(line: &Line) -> bool
    ensures { result ≡ is_move line.now }
{
    matches!(line, Line::Move { .. })
}
