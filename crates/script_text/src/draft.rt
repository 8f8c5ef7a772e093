//! What the lines so far declare.
ghost use Rattle.std.specs.Prelude.{◌≡◌, ◌<◌, true, false, length, IfOk, OnOk};
ghost use Rattle.geo_base.specs.Name.{is_name};
ghost use Rattle.script_rows.specs.NameBytes.{is_among};
ghost use Rattle.script_rows.specs.Names.{with_role};
ghost use Rattle.script_rows.specs.Rows.{role_of};
ghost use Rattle.script_rows.specs.Values.{line_of};
ghost use Rattle.script_text.specs.Adding.{progress_after};
ghost use Rattle.script_text.specs.Drafts.{CanAdd, CanAddHeading, IsDeclared, Judges, drafted, drafted_act, drafted_client, drafted_cluster, drafted_line, drafted_topic, drafted_with, no_draft, noted_line};
ghost use Rattle.script_text.specs.Subs.{AreKnown};

use crate::chance::{Chance, chance_of};
use crate::client::ClientDecl;
use crate::declarations::Declarations;
use crate::lines::TextLine;
use crate::setup::SetupParts;
use crate::steps::read_row;
use geo_base::limits::{CLUSTERS, LEDGER_ENTRIES};
use geo_base::{ClusterName, Line, Memory, ProducerName, Sequence, TopicName};
use script_rows::{
    ActKind, Heading, Kind, LineFault, LineKind, NameWord, Names, Progress, Row, Stage, Value,
    heading_of, item_at, line_of, name_at, rest,
};
use std::alloc::Global;
use std::marker::Model;
use std::mem;

/// What the lines so far declare, and their names in tables.
#[derive(Drop)]
pub(crate) struct Draft<'a> {
    names: Names<'a>,
    progress: Progress,
    chance: Option<Chance>,
    per_ledger: u64,
    clusters: Sequence<ClusterName>,
    topics: Sequence<TopicName>,
    clients: Vec<ClientDecl>,
}

impl<'a> Model for Draft<'a> {
    ghost use Rattle.script_text.specs.Drafts.{Draft, draft_with};

    ghost Value = { Draft };

    ghost view = { λ d. draft_with d.names d.progress d.chance d.per_ledger d.clusters d.topics d.clients.items };
}

impl<'a> Draft<'a> {
    /// Before the first line; takes no memory.
    pub(crate) fn new(alloc: Global) -> Draft<'a>
        ensures { result ≡ no_draft }
    {
        Draft {
            names: Names::new(alloc),
            progress: Progress {
                begun: false,
                last: Stage::Geo,
                has_ledger: false,
                has_chance: false,
            },
            chance: None,
            per_ledger: LEDGER_ENTRIES,
            clusters: Sequence::new(alloc),
            topics: Sequence::new(alloc),
            clients: Vec::new(alloc),
        }
    }

    /// Takes the next line in, unless it breaks a rule; it schedules no step.
    #[tactic(auto, using(crate::proofs::Drafting::line_can))]
    pub(crate) fn read_line(&mut self, alloc: Global, line: &TextLine<'a>) -> Result<(), LineFault>
        requires { AreKnown self.old.declared.setup self.old.names }
        ensures { Judges result self.new (drafted_line self.old line.now) }
    {
        if line.is_skipped() {
            return Ok(());
        }
        let heading = heading_of(line.bytes());
        let mut row = Row::empty();
        if let Some(rule) = read_row(self.progress, &self.names, line, &heading, &mut row) {
            return Err(LineFault::Broken(rule));
        }
        if let Heading::Headed(kind, _) = heading {
            self.add(alloc, kind, row.as_slice())?;
        }
        Ok(())
    }

    /// Takes in what the values of a row say.
    fn add(&mut self, alloc: Global, kind: Kind, values: &[Value<'a>]) -> Result<(), Memory>
        requires { CanAdd self.old kind values.now }
        ensures { OnOk result (self.new ≡ drafted self.old kind values.now) }
    {
        self.progress = progress_after(self.progress, kind);
        match kind {
            Kind::Other(LineKind::Ledger) => {
                self.per_ledger = u64::from(item_at(values, 0));
                Ok(())
            }
            Kind::Other(LineKind::Chance) => {
                self.chance = Some(chance_of(values));
                Ok(())
            }
            Kind::Other(LineKind::Cluster) => self.add_cluster(alloc, &name_at(values, 0)),
            Kind::Other(LineKind::Topic) => self.add_topic(alloc, &name_at(values, 0)),
            Kind::Other(LineKind::Client) => {
                self.add_client(
                    alloc,
                    &name_at(values, 0),
                    item_at(values, 1),
                    item_at(values, 2),
                )
            }
            Kind::Do(act) => self.add_line(alloc, act, values),
            _ => Ok(()),
        }
    }

    /// `cluster X`
    fn add_cluster(&mut self, alloc: Global, name: &NameWord<'a>) -> Result<(), Memory>
        requires named { is_name name.now ≡ true }
        requires new { is_among self.old.names.clusters name.now ≡ false }
        requires few { length self.old.names.clusters < CLUSTERS }
        ensures { OnOk result (self.new ≡ drafted_cluster self.old name.now) }
    {
        self.names.push_cluster(name.as_bytes())?;
        match ClusterName::read(alloc, name.as_str()) {
            Ok(name) => self.clusters.push(name),
            Err(_) => Err(Memory),
        }
    }

    /// `topic T`
    fn add_topic(&mut self, alloc: Global, name: &NameWord<'a>) -> Result<(), Memory>
        requires named { is_name name.now ≡ true }
        requires new { is_among self.old.names.topics name.now ≡ false }
        ensures { OnOk result (self.new ≡ drafted_topic self.old name.now) }
    {
        self.names.push_topic(alloc, name.as_bytes())?;
        match TopicName::read(alloc, name.as_str()) {
            Ok(name) => self.topics.push(name),
            Err(_) => Err(Memory),
        }
    }

    /// `client C T X`
    fn add_client(
        &mut self,
        alloc: Global,
        name: &NameWord<'a>,
        topic: u32,
        cluster: u32,
    ) -> Result<(), Memory>
        requires named { is_name name.now ≡ true }
        requires new { is_among self.old.names.clients name.now ≡ false }
        ensures { OnOk result (self.new ≡ drafted_client self.old name.now topic cluster) }
    {
        self.names.push_client(name.as_bytes(), topic)?;
        match ProducerName::read(alloc, name.as_str()) {
            Ok(name) => {
                self.clients
                    .push(ClientDecl::new(alloc, name, topic, cluster))
                    .map_err(|_| Memory)
            }
            Err(_) => Err(Memory),
        }
    }

    /// `do C ..`
    fn add_line(&mut self, alloc: Global, act: ActKind, values: &[Value<'a>]) -> Result<(), Memory>
        requires { CanAdd self.old (Kind.Do act) values.now }
        ensures { OnOk result (self.new ≡ drafted_act self.old act values.now) }
    {
        let client = item_at(values, 0);
        let said = rest(values);
        let topic = self.clients[client as usize].topic();
        note_line(&mut self.names, client, topic, act, said)?;
        let line = line_of(alloc, act, said)?;
        self.clients[client as usize].push_line(line)
    }

    /// What the lines declare; nothing is left here.
    pub(crate) fn finish(&mut self, alloc: Global) -> Result<Declarations, Memory>
        requires { IsDeclared self.old.declared.setup }
        ensures { IfOk result (λ d. d ≡ self.old.declared) }
    {
        let clusters = mem::replace(&mut self.clusters, Sequence::new(alloc));
        let topics = mem::replace(&mut self.topics, Sequence::new(alloc));
        let clients = mem::replace(&mut self.clients, Vec::new(alloc));
        let setup = SetupParts::new(
            self.per_ledger,
            clusters,
            topics,
            Sequence::from_vec(clients),
        );
        Declarations::new(alloc, self.progress, self.chance, setup)
    }
}

/// What a client's line makes of the names: the client's role, and a subscription of its topic.
fn note_line<'a>(
    names: &mut Names<'a>,
    client: u32,
    topic: u32,
    act: ActKind,
    said: &[Value<'a>],
) -> Result<(), Memory>
    requires client { client < length names.old.members }
    requires topic { topic < length names.old.subs }
    ensures { OnOk result (names.new
        ≡ noted_line (with_role names.old client (role_of act)) topic (line_of act said.now)) }
{
    names.note_role(client, act.role());
    if act == ActKind::Sub {
        names.note_sub(topic, name_at(said, 0).as_bytes())
    } else {
        Ok(())
    }
}

/// Which kinds of line came, with one more.
fn progress_after(progress: Progress, kind: Kind) -> Progress
    ensures { result ≡ progress_after progress kind }
{
    let mut after = progress;
    after.last = kind.stage();
    match kind {
        Kind::Other(LineKind::Geo) => after.begun = true,
        Kind::Other(LineKind::Ledger) => after.has_ledger = true,
        Kind::Other(LineKind::Chance) => after.has_chance = true,
        _ => {}
    }
    after
}
