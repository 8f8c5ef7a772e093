//! What a message says beside what names it and what it is.
ghost use Rattle.std.specs.Prelude.{◌≡◌, [], IfOk};

use crate::bytes::Blob;
use crate::copy::optional_text_copy;
use crate::memory::Memory;
use crate::sequence::Sequence;
use crate::text::Text;
use std::alloc::Global;
use std::boxed::Box;
use std::marker::Model;

/// What few messages have: the names of `replicate_to` as they stand, and the bytes of the fields that nobody reads.
#[derive(Drop)]
struct Others {
    names: Sequence<Text>,
    rest: Blob,
}

/// The metadata that neither names an entry nor says what it is (MessageMetadata in PulsarApi.proto): when it was published, in
/// milliseconds since 1970, its key, the names of `replicate_to` as they stand, and the bytes of the fields that nobody reads. The
/// names and those bytes stand in memory of their own, and only where there are any: a message has neither.
pub struct Metadata {
    publish_time: u64,
    key: Option<Text>,
    others: Option<Box<Others>>,
}

impl Model for Metadata {
    ghost use Rattle.std.specs.Prelude.{[]};
    ghost use Rattle.std.specs.Option.{option_map_or};
    ghost use Rattle.geo_base.specs.Metadata.{Metadata};

    ghost Value = { Metadata };

    ghost view = { λ m. record {
      publish_time = m.publish_time;
      key = m.key;
      names = option_map_or (λ o. o.value.names) m.others [];
      rest = option_map_or (λ o. o.value.rest) m.others [];
    } };
}

// A function of its own, so that who lets an entry go is not proved with and without each of its parts.
impl Drop for Metadata {
    fn drop(self) {
        let Metadata {
            publish_time: _publish_time,
            key: _key,
            others: _others,
        } = self;
    }
}

impl Metadata {
    /// The metadata of a message that names no cluster and has no field that nobody reads; takes no memory.
    pub fn usual(publish_time: u64, key: Option<Text>) -> Metadata
        ensures { result ≡ record { publish_time = publish_time; key = key; names = []; rest = [] } }
    {
        Metadata {
            publish_time,
            key,
            others: None,
        }
    }

    /// Metadata with what few messages have; an `Err` is want of memory.
    #[tactic(auto, using(crate::proofs::Usual::usual_is))]
    pub fn new(
        alloc: Global,
        publish_time: u64,
        key: Option<Text>,
        names: Sequence<Text>,
        rest: Blob,
    ) -> Result<Metadata, Memory>
        ensures { IfOk result (λ m. m ≡ record { publish_time = publish_time; key = key; names = names; rest = rest }) }
    {
        if names.as_slice().is_empty() && rest.as_slice().is_empty() {
            return Ok(Metadata::usual(publish_time, key));
        }
        let others = Box::new(alloc, Others { names, rest })?;
        Ok(Metadata {
            publish_time,
            key,
            others: Some(others),
        })
    }

    /// When the message was published, in milliseconds since 1970.
    pub fn publish_time(&self) -> u64
        ensures { result ≡ self.now.publish_time }
    {
        self.publish_time
    }

    /// The key by which messages are told apart and ordered.
    pub fn key(&self) -> &Option<Text>
        ensures { result.now ≡ self.now.key }
    {
        &self.key
    }

    /// The names of `replicate_to` as they stand.
    pub fn names(&self) -> &[Text]
        ensures { result.now ≡ self.now.names }
    {
        match &self.others {
            None => &[],
            Some(others) => others.as_ref().names.as_slice(),
        }
    }

    /// The bytes of the fields that nobody reads.
    pub fn rest(&self) -> &[u8]
        ensures { result.now ≡ self.now.rest }
    {
        match &self.others {
            None => &[],
            Some(others) => others.as_ref().rest.as_slice(),
        }
    }

    /// A copy; an `Err` is want of memory.
    pub fn copy(&self, alloc: Global) -> Result<Metadata, Memory>
        ensures { IfOk result (λ c. c ≡ self.now) }
    {
        let key = optional_text_copy(alloc, &self.key)?;
        match &self.others {
            None => Ok(Metadata::usual(self.publish_time, key)),
            Some(others) => {
                let names = others.as_ref().names.copy(alloc)?;
                let rest = others.as_ref().rest.copy(alloc)?;
                Metadata::new(alloc, self.publish_time, key, names, rest)
            }
        }
    }
}
