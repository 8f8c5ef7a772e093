//! A word in its column: what it says there, or the lowest rule that it breaks.
ghost use Rattle.std.specs.Prelude.{◌≡◌, ◌-◌, ◌^◌, false, nat_lt, not, true, if◌then◌else◌, is_none, length, option_map, None, Some};
ghost use Rattle.script_rows.specs.NameBytes.{is_among, number_in};
ghost use Rattle.script_rows.specs.Numbers.{number_of};
ghost use Rattle.script_rows.specs.NameWords.{has_name_bytes, is_long};
ghost use Rattle.script_rows.specs.Columns.{choice_of, counted, is_other_role, key_of, place_of};
ghost use Rattle.script_rows.specs.Names.{nothing_seen};
ghost use Rattle.script_rows.specs.Reading.{cell_read, is_named, said};
ghost use Rattle.script_rows.specs.declared.column.Column.TheVariants as kind;

use crate::choice::{choice_of, key_of, place_of, target_list};
use crate::column::{Column, Menu, Role};
use crate::fault::Rule;
use crate::names::{Member, Names};
use crate::seen::{Seen, THOUSAND};
use crate::value::{TextWord, Value};
use crate::{NameTable, NameWord, has_name_bytes, mask_of, number_of};
use geo_base::Targets;
use geo_base::limits::{CLIENTS, CLUSTERS, NAME_BYTES, SUBSCRIPTIONS, TEXT_BYTES, TOPICS};

/// The greatest sequence id: it fits a signed number of 64 bits.
const MOST_SEQ: u64 = 9_223_372_036_854_775_807;

impl Names<'_> {
    /// What a word says in its column, or the lowest rule that it breaks there.
    pub(crate) fn read_cell<'b>(
        &self,
        seen: &Seen<'_>,
        column: Column,
        word: &'b [u8],
    ) -> Result<Value<'b>, Rule>
        ensures { result ≡ cell_read self.now seen.now column word.now }
    {
        match column {
            Column::Targets => self.read_targets(word),
            Column::Key => read_key(word),
            Column::Text => read_text(word),
            Column::Count { least, most } => formed(counted(least, most, word)),
            Column::Lost => formed(counted(0, THOUSAND, word)),
            Column::Twice => formed(counted(0, seen.kept(), word)),
            Column::Seq => formed(sequence_id(word)),
            Column::PositionOrEnd => formed(place(word)),
            Column::Menu(menu) => formed(chosen(menu, word)),
            _ => {
                if !has_name_bytes(word) {
                    Err(Rule::Form)
                } else if word.len() > NAME_BYTES {
                    Err(Rule::LongName)
                } else {
                    self.read_name(seen, column, word)
                }
            }
        }
    }

    /// The same of a name.
    fn read_name<'b>(
        &self,
        seen: &Seen<'_>,
        column: Column,
        word: &'b [u8],
    ) -> Result<Value<'b>, Rule>
        requires column { is_named column ≡ true }
        requires name { has_name_bytes word.now ≡ true }
        requires short { is_long word.now ≡ false }
        ensures { result ≡ cell_read self.now seen.now column word.now }
    {
        match column {
            Column::Topic => declared(self.topics(), word),
            Column::Cluster => declared(self.clusters(), word),
            Column::Client => declared(self.clients(), word),
            Column::Home => self.read_home(word),
            Column::Other => self.read_other(seen, word),
            Column::Doer(role) => self.read_doer(role, word),
            Column::Offered => self.read_offered(seen, word),
            Column::Sub => self.read_sub(seen, word),
            Column::Producer => self.read_producer(word),
            Column::NewCluster => self.read_new_cluster(word),
            Column::NewTopic => self.read_new_topic(word),
            Column::NewClient => self.read_new_client(word),
            _ => unreachable!(),
        }
    }

    /// The topic of one more client.
    fn read_home<'b>(&self, word: &'b [u8]) -> Result<Value<'b>, Rule>
        requires name { has_name_bytes word.now ≡ true }
        requires short { is_long word.now ≡ false }
        ensures { result ≡ cell_read self.now nothing_seen kind.Home word.now }
    {
        if self.count(self.topics().number(word)) >= CLIENTS {
            return Err(Rule::Clients);
        }
        declared(self.topics(), word)
    }

    /// Another cluster than the one before.
    fn read_other<'b>(&self, seen: &Seen<'_>, word: &'b [u8]) -> Result<Value<'b>, Rule>
        requires name { has_name_bytes word.now ≡ true }
        requires short { is_long word.now ≡ false }
        ensures { result ≡ cell_read self.now seen.now kind.Other word.now }
    {
        match self.clusters().find(word) {
            None => Err(Rule::Undeclared),
            Some(_) if seen.cluster() == word => Err(Rule::Loop),
            Some(number) => Ok(Value::Item(number)),
        }
    }

    /// The client that does a line.
    fn read_doer<'b>(&self, role: Role, word: &'b [u8]) -> Result<Value<'b>, Rule>
        requires name { has_name_bytes word.now ≡ true }
        requires short { is_long word.now ≡ false }
        ensures { result ≡ cell_read self.now nothing_seen (kind.Doer role) word.now }
    {
        match self.clients().find(word) {
            None => Err(Rule::Undeclared),
            Some(number) if is_other_role(self.member_at(number), role) => Err(Rule::Mixed),
            Some(number) => Ok(Value::Item(number)),
        }
    }

    /// A subscription of the line's topic.
    fn read_offered<'b>(&self, seen: &Seen<'_>, word: &'b [u8]) -> Result<Value<'b>, Rule>
        requires name { has_name_bytes word.now ≡ true }
        requires short { is_long word.now ≡ false }
        ensures { result ≡ cell_read self.now seen.now kind.Offered word.now }
    {
        match self.find_sub(seen.topic(), word) {
            None => Err(Rule::StrangeSubscription),
            Some(number) => Ok(Value::Item(number)),
        }
    }

    /// The name of a subscription of the line's topic.
    fn read_sub<'b>(&self, seen: &Seen<'_>, word: &'b [u8]) -> Result<Value<'b>, Rule>
        requires name { has_name_bytes word.now ≡ true }
        requires short { is_long word.now ≡ false }
        ensures { result ≡ cell_read self.now seen.now kind.Sub word.now }
    {
        if !self.is_sub(seen.topic(), word) && self.sub_count(seen.topic()) >= SUBSCRIPTIONS {
            return Err(Rule::Subscriptions);
        }
        Ok(named(word))
    }

    /// The name of a declared client.
    fn read_producer<'b>(&self, word: &'b [u8]) -> Result<Value<'b>, Rule>
        requires name { has_name_bytes word.now ≡ true }
        requires short { is_long word.now ≡ false }
        ensures { result ≡ cell_read self.now nothing_seen kind.Producer word.now }
    {
        if !self.clients().contains(word) {
            return Err(Rule::Undeclared);
        }
        Ok(named(word))
    }

    /// The name of one more cluster.
    fn read_new_cluster<'b>(&self, word: &'b [u8]) -> Result<Value<'b>, Rule>
        requires name { has_name_bytes word.now ≡ true }
        requires short { is_long word.now ≡ false }
        ensures { result ≡ cell_read self.now nothing_seen kind.NewCluster word.now }
    {
        if self.clusters().len() >= CLUSTERS {
            return Err(Rule::Clusters);
        }
        if self.clusters().contains(word) {
            return Err(Rule::NameTwice);
        }
        Ok(named(word))
    }

    /// The name of one more topic.
    fn read_new_topic<'b>(&self, word: &'b [u8]) -> Result<Value<'b>, Rule>
        requires name { has_name_bytes word.now ≡ true }
        requires short { is_long word.now ≡ false }
        ensures { result ≡ cell_read self.now nothing_seen kind.NewTopic word.now }
    {
        if self.topics().contains(word) {
            return Err(Rule::NameTwice);
        }
        if self.clusters().len() < 2 {
            return Err(Rule::Lone);
        }
        if self.topics().len() >= TOPICS {
            return Err(Rule::Topics);
        }
        Ok(named(word))
    }

    /// The name of one more client.
    fn read_new_client<'b>(&self, word: &'b [u8]) -> Result<Value<'b>, Rule>
        requires name { has_name_bytes word.now ≡ true }
        requires short { is_long word.now ≡ false }
        ensures { result ≡ cell_read self.now nothing_seen kind.NewClient word.now }
    {
        if self.clients().contains(word) {
            return Err(Rule::NameTwice);
        }
        Ok(named(word))
    }

    /// `*`, or names of clusters.
    fn read_targets<'b>(&self, word: &'b [u8]) -> Result<Value<'b>, Rule>
        ensures { result ≡ cell_read self.now nothing_seen kind.Targets word.now }
    {
        let Some(names) = target_list(word) else {
            return Ok(Value::Targets(Targets::All));
        };
        if !names.are_names() {
            return Err(Rule::Form);
        }
        if names.has_long() {
            return Err(Rule::LongName);
        }
        if names.has_stranger(self.clusters()) {
            return Err(Rule::Undeclared);
        }
        if names.has_repeat() {
            return Err(Rule::TargetTwice);
        }
        Ok(Value::Targets(Targets::Only(mask_of(self.clusters(), &names))))
    }
}

/// A declared name.
fn declared<'b>(names: &NameTable<'_>, word: &'b [u8]) -> Result<Value<'b>, Rule>
    ensures { result ≡ said (if not (is_among names.now word.now) then Some Rule.Undeclared else None)
        (Some (Value.Item (number_in names.now word.now))) }
{
    match names.find(word) {
        Some(number) => Ok(Value::Item(number)),
        None => Err(Rule::Undeclared),
    }
}

/// A name itself.
fn named(word: &[u8]) -> Value<'_>
    requires { has_name_bytes word.now ≡ true }
    ensures { result ≡ Value.Name word.now }
{
    match NameWord::read(word) {
        Some(name) => Value::Name(name),
        None => unreachable!(),
    }
}

/// A key, or `-`.
fn read_key(word: &[u8]) -> Result<Value<'_>, Rule>
    ensures { result ≡ said
        (if is_none (key_of word.now) then Some Rule.Form else if is_long word.now then Some Rule.LongName else None)
        (option_map Value.Key (key_of word.now)) }
{
    let Some(key) = key_of(word) else {
        return Err(Rule::Form);
    };
    if word.len() > NAME_BYTES {
        return Err(Rule::LongName);
    }
    Ok(Value::Key(key))
}

/// All that is left.
fn read_text(word: &[u8]) -> Result<Value<'_>, Rule>
    ensures { result ≡ said (if nat_lt TEXT_BYTES (length word.now) then Some Rule.LongText else None)
        (Some (Value.Text word.now)) }
{
    if word.len() > TEXT_BYTES {
        return Err(Rule::LongText);
    }
    Ok(Value::Text(TextWord::new(word)))
}

/// What has its column's form.
fn formed(value: Option<Value<'_>>) -> Result<Value<'_>, Rule>
    ensures { result ≡ said (if is_none value.entry then Some Rule.Form else None) value.entry }
{
    match value {
        Some(value) => Ok(value),
        None => Err(Rule::Form),
    }
}

/// A number of a range.
fn counted<'b>(least: u32, most: u32, word: &'b [u8]) -> Option<Value<'b>>
    ensures { result ≡ counted least most word.now }
{
    let number = number_of(word, u64::from(most))?;
    if number >= u64::from(least) {
        Some(Value::Item(number as u32))
    } else {
        None
    }
}

/// Whether a client has the other of the two roles.
fn is_other_role(member: Member, role: Role) -> bool
    ensures { result ≡ is_other_role member role }
{
    match role {
        Role::Producer => member.moves,
        Role::Mover => member.produces,
        Role::Plain => false,
    }
}

/// A sequence id.
fn sequence_id(word: &[u8]) -> Option<Value<'_>>
    ensures { result ≡ option_map Value.Seq (number_of (2 ^ 63 - 1) word.now) }
{
    Some(Value::Seq(number_of(word, MOST_SEQ)?))
}

/// A position, or the end.
fn place(word: &[u8]) -> Option<Value<'_>>
    ensures { result ≡ option_map Value.PositionOrEnd (place_of word.now) }
{
    Some(Value::PositionOrEnd(place_of(word)?))
}

/// A word of a choice.
fn chosen(menu: Menu, word: &[u8]) -> Option<Value<'_>>
    ensures { result ≡ option_map Value.Item (choice_of menu word.now) }
{
    Some(Value::Item(choice_of(menu, word)?))
}
