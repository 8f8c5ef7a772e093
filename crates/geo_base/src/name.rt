//! Names of clusters, topics and subscriptions, and of producers.
ghost use Rattle.std.specs.Prelude.{◌≡◌, ◌↔◌, ◌<◌, ◌≤◌, ◌^◌, [], true, false, length, IfNone, IfOk, IfSome, OnOk, IsErrOf, MatchOption};
ghost use Rattle.std.specs.List.{list_all};
ghost use Rattle.geo_base.specs.Name.{is_name, name_byte, HasBadByte};

use crate::limits::NAME_BYTES;
use crate::memory::Memory;
use crate::text::Text;
use std::alloc::Global;
use std::marker::{Model, PhantomData};
use thiserror::Error;

/// Why a text is no name. They are judged in this order.
#[derive(Clone, Copy, Debug, Drop, PartialEq, Eq, Error)]
pub enum NameFault {
    #[error("a name has at least one byte")]
    Empty,
    #[error("a name has at most 16 bytes")]
    TooLong,
    #[error("a name has bytes a to z, 0 to 9 and _")]
    BadByte,
    #[error("out of memory")]
    Memory,
}

/// A name: 1 to 16 bytes, each of `a` to `z`, `0` to `9` and `_` (own: the words of a script). `K` says of what.
#[derive(Drop)]
pub struct Name<K> {
    text: Text,
    of: PhantomData<K>,
}

impl<K> Model for Name<K> {
    ghost use Rattle.std.specs.Prelude.{◌≡◌, List, ℕ, true};
    ghost use Rattle.std.specs.List.{list_all};
    ghost use Rattle.geo_base.specs.Name.{is_name};

    ghost Value = { List ℕ };

    ghost view = { λ n. n.text };

    ghost invariant = { λ n. is_name n.text ≡ true };
}

/// What a `ClusterName` names.
#[derive(Drop)]
pub struct Cluster;

/// What a `TopicName` names.
#[derive(Drop)]
pub struct Topic;

/// What a `SubName` names.
#[derive(Drop)]
pub struct Subscription;

/// What a script's client names: its producer.
#[derive(Drop)]
pub struct Producer;

/// The name of a cluster.
pub type ClusterName = Name<Cluster>;

/// The name of a topic.
pub type TopicName = Name<Topic>;

/// The name of a subscription.
pub type SubName = Name<Subscription>;

impl<K> Name<K> {
    /// The name that a text is.
    pub fn read(alloc: Global, text: &str) -> Result<Name<K>, NameFault>
        ensures name { IfOk result (λ name. name ≡ text.now) }
        ensures is_one { OnOk result (is_name text.now ≡ true) }
        ensures empty { IsErrOf result NameFault.Empty ↔ (text.now ≡ []) }
        ensures too_long { IsErrOf result NameFault.TooLong ↔ (NAME_BYTES < length text.now) }
        ensures bad_byte { IsErrOf result NameFault.BadByte ↔ HasBadByte text.now }
    {
        if text.is_empty() {
            return Err(NameFault::Empty);
        }
        if text.len() > NAME_BYTES {
            return Err(NameFault::TooLong);
        }
        if !are_name_bytes(text.as_bytes()) {
            return Err(NameFault::BadByte);
        }
        match Text::from_str(alloc, text) {
            Ok(text) => Ok(Name {
                text,
                of: PhantomData,
            }),
            Err(_) => Err(NameFault::Memory),
        }
    }

    /// The name's text.
    pub fn as_str(&self) -> &str
        ensures text { result.now ≡ self.now }
        ensures is_one { is_name result.now ≡ true }
    {
        self.text.as_str()
    }
}

/// The text of a word that is a name; None exactly where it is none.
#[tactic(auto, using(crate::proofs::Names::name_utf8))]
pub fn name_text(word: &[u8]) -> Option<&str>
    ensures { MatchOption result (is_name word.now ≡ false)
        (λ text. (text.now ≡ word.now) × (is_name word.now ≡ true)) }
{
    if word.is_empty() || word.len() > NAME_BYTES || !are_name_bytes(word) {
        return None;
    }
    match str::from_utf8(word) {
        Ok(text) => Some(text),
        Err(_) => unreachable!(),
    }
}

fn are_name_bytes(bytes: &[u8]) -> bool
    ensures { result ≡ list_all name_byte bytes.now }
{
    bytes.iter().all(|b| is_name_byte(*b))
}

fn is_name_byte(byte: u8) -> bool
    ensures { result ≡ name_byte byte }
{
    matches!(byte, b'a'..=b'z' | b'0'..=b'9' | b'_')
}

/// The name of a producer, which a client of Pulsar may choose freely: any text.
#[derive(Drop)]
pub struct ProducerName {
    text: Text,
}

impl Model for ProducerName {
    ghost use Rattle.std.specs.Prelude.{List, ℕ};

    ghost Value = { List ℕ };

    ghost view = { λ n. n.text };
}

impl ProducerName {
    /// The name of a script's client, which names its producer.
    pub fn read(alloc: Global, text: &str) -> Result<ProducerName, NameFault>
        ensures name { IfOk result (λ name. name ≡ text.now) }
        ensures is_one { OnOk result (is_name text.now ≡ true) }
        ensures empty { IsErrOf result NameFault.Empty ↔ (text.now ≡ []) }
        ensures too_long { IsErrOf result NameFault.TooLong ↔ (NAME_BYTES < length text.now) }
        ensures bad_byte { IsErrOf result NameFault.BadByte ↔ HasBadByte text.now }
    {
        let name: Name<Producer> = Name::read(alloc, text)?;
        Ok(ProducerName { text: name.text })
    }

    /// The name's bytes.
    pub fn as_bytes(&self) -> &[u8]
        ensures { result.now ≡ self.now }
    {
        self.text.as_bytes()
    }

    /// A copy.
    pub fn copy(&self, alloc: Global) -> Result<ProducerName, Memory>
        ensures { IfOk result (λ c. c ≡ self.now) }
    {
        Ok(ProducerName {
            text: self.text.copy(alloc)?,
        })
    }

    /// A producer's name as it came.
    pub fn any(alloc: Global, text: &str) -> Result<ProducerName, Memory>
        ensures { IfOk result (λ name. name ≡ text.now) }
    {
        Ok(ProducerName {
            text: Text::from_str(alloc, text)?,
        })
    }

    /// A text that came as a producer's name; takes no memory.
    pub fn from_text(text: Text) -> ProducerName
        ensures { result ≡ text }
    {
        ProducerName { text }
    }

    /// The name's text.
    pub fn as_str(&self) -> &str
        ensures { result.now ≡ self.now }
    {
        self.text.as_str()
    }
}

/// The number of the cluster at a place among all; `None` exactly where that has no 32 bits.
pub fn cluster_number(place: usize) -> Option<u32>
    ensures number { IfSome result (λ n. n ≡ place) }
    ensures none { IfNone result (2 ^ 32 ≤ place) }
{
    match u32::try_from(place) {
        Ok(number) => Some(number),
        Err(_) => None,
    }
}
