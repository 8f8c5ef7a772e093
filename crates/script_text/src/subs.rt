//! The names of subscriptions, which `sub` lines name.
ghost use Rattle.std.specs.Prelude.{◌≡◌, ℕ, ◌<◌, [], length, fold, get_or, IfOk, OnOk};
ghost use Rattle.std.specs.Option.{option_copied};
ghost use Rattle.geo_base.specs.Setup.{with_client, with_line, with_name};
ghost use Rattle.script_rows.specs.NameBytes.{is_among};
ghost use Rattle.script_text.specs.Subs.{sub_in};

use crate::client::ClientDecl;
use geo_base::{Line, Memory, Name, Sequence, SubName, Text};
use std::alloc::Global;
use std::marker::Model;

/// The names of a topic's subscriptions, each once.
#[derive(Drop)]
pub(crate) struct SubNames {
    names: Sequence<SubName>,
}

impl Model for SubNames {
    ghost use Rattle.std.specs.Prelude.{List, ℕ};

    ghost Value = { List (List ℕ) };

    ghost view = { λ n. n.names };
}

impl SubNames {
    /// No name; takes no memory.
    fn new(alloc: Global) -> SubNames
        ensures { result ≡ [] }
    {
        SubNames {
            names: Sequence::new(alloc),
        }
    }

    /// The names in order.
    pub(crate) fn as_slice(&self) -> &[SubName]
        ensures { result.now ≡ self.now }
    {
        self.names.as_slice()
    }

    /// One more name, where it is new.
    fn add(&mut self, alloc: Global, name: &Text) -> Result<(), Memory>
        ensures { OnOk result (self.new ≡ with_name self.old name.now) }
    {
        if is_among(self.names.as_slice(), name.as_bytes()) {
            return Ok(());
        }
        match SubName::read(alloc, name.as_str()) {
            Ok(name) => self.names.push(name),
            Err(_) => Err(Memory),
        }
    }

    /// The name that a line names, where it does and the name is new.
    fn add_line(&mut self, alloc: Global, line: &Line) -> Result<(), Memory>
        ensures { OnOk result (self.new ≡ with_line self.old line.now) }
    {
        match sub_named(line) {
            Some(name) => self.add(alloc, name),
            None => Ok(()),
        }
    }

    /// The names that lines name.
    fn add_lines(&mut self, alloc: Global, lines: &[Line]) -> Result<(), Memory>
        ensures { OnOk result (self.new ≡ fold with_line self.old lines.now) }
    {
        for line in lines {
            self.add_line(alloc, line)?;
        }
        Ok(())
    }

    /// The names that a client's lines name, where it is a client of this topic.
    fn add_client(&mut self, alloc: Global, topic: u32, client: &ClientDecl) -> Result<(), Memory>
        ensures { OnOk result (self.new ≡ with_client topic self.old client.now) }
    {
        if client.topic() == topic {
            self.add_lines(alloc, client.lines())
        } else {
            Ok(())
        }
    }
}

/// The subscription that a `sub` line names.
fn sub_named(line: &Line) -> Option<&Text>
    ensures { option_copied result ≡ sub_in line.now }
{
    match line {
        Line::Sub { sub, .. } => Some(sub),
        _ => None,
    }
}

/// Whether a name is among names.
fn is_among<K>(names: &[Name<K>], word: &[u8]) -> bool
    ensures { result ≡ is_among names.now word.now }
{
    names.iter().any(|n| n.as_str().as_bytes() == word)
}

/// The names of a topic's subscriptions, in the order of its clients and of their lines.
fn topic_names(alloc: Global, clients: &[ClientDecl], topic: u32) -> Result<SubNames, Memory>
    ensures { IfOk result (λ names. names ≡ fold (with_client topic) [] clients.now) }
{
    let mut names = SubNames::new(alloc);
    for client in clients {
        names.add_client(alloc, topic, client)?;
    }
    Ok(names)
}

/// The names of the subscriptions of so many topics.
pub(crate) fn all_names(
    alloc: Global,
    clients: &[ClientDecl],
    topics: u32,
) -> Result<Sequence<SubNames>, Memory>
    ensures many { IfOk result (λ all. length all ≡ topics) }
    ensures each { IfOk result (λ all. (t : ℕ) → t < topics
        → get_or all t [] ≡ fold (with_client t) [] clients.now) }
{
    let mut all = Sequence::new(alloc);
    for topic in 0..topics {
        all.push(topic_names(alloc, clients, topic)?)?;
    }
    Ok(all)
}
