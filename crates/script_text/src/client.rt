//! A client that a script declares.
ghost use Rattle.std.specs.Prelude.{◌≡◌, true, [], ◌∷◌, ◌++◌, OnOk, OnErr};
ghost use Rattle.geo_base.specs.Name.{is_name};
ghost use Rattle.script_text.specs.Adding.{new_client, one_more};

use geo_base::{Line, Memory, ProducerName, Sequence};
use std::alloc::Global;
use std::marker::Model;

/// A client of a script: its name, which is its producer's, the topic that it works on, the cluster that it is at
/// first, and its lines.
#[derive(Drop)]
pub struct ClientDecl {
    name: ProducerName,
    topic: u32,
    cluster: u32,
    lines: Sequence<Line>,
}

impl Model for ClientDecl {
    ghost use Rattle.std.specs.Prelude.{◌≡◌, true};
    ghost use Rattle.geo_base.specs.Name.{is_name};
    ghost use Rattle.geo_base.specs.Setup.{Declared};

    ghost Value = { Declared };

    ghost view = { λ c. record { name = c.name; topic = c.topic; cluster = c.cluster; lines = c.lines } };

    ghost invariant = { λ c. is_name c.name ≡ true };
}

impl ClientDecl {
    /// A client of its parts; takes no memory.
    pub fn of_parts(
        name: ProducerName,
        topic: u32,
        cluster: u32,
        lines: Sequence<Line>,
    ) -> ClientDecl
        requires { is_name name ≡ true }
        ensures { result ≡ record { name = name; topic = topic; cluster = cluster; lines = lines } }
    {
        ClientDecl {
            name,
            topic,
            cluster,
            lines,
        }
    }

    /// A client without lines; takes no memory.
    pub(crate) fn new(alloc: Global, name: ProducerName, topic: u32, cluster: u32) -> ClientDecl
        requires { is_name name ≡ true }
        ensures { result ≡ new_client name topic cluster }
    {
        ClientDecl::of_parts(name, topic, cluster, Sequence::new(alloc))
    }

    /// One more line.
    pub(crate) fn push_line(&mut self, line: Line) -> Result<(), Memory>
        ensures { OnOk result (self.new ≡ one_more self.old line) }
    {
        self.lines.push(line)
    }

    /// The client's name.
    pub fn name(&self) -> &ProducerName
        ensures name { result.now ≡ self.now.name }
        ensures is_one { is_name self.now.name ≡ true }
    {
        &self.name
    }

    /// The number of its topic.
    pub fn topic(&self) -> u32
        ensures { result ≡ self.now.topic }
    {
        self.topic
    }

    /// The number of the cluster that it is at first.
    pub fn cluster(&self) -> u32
        ensures { result ≡ self.now.cluster }
    {
        self.cluster
    }

    /// Its lines in order.
    pub fn lines(&self) -> &[Line]
        ensures { result.now ≡ self.now.lines }
    {
        self.lines.as_slice()
    }
}
