//! Message metadata as a value.

ghost use Rattle.std.specs.Prelude.{◌≡◌, Some, IfOk};
ghost use Rattle.message_meta.specs.Metadata.{Metadata};

use geo_base::{ClusterName, Memory, Sequence, Text};
use pb_fields::FieldList;
use std::alloc::Global;
use std::marker::Model;

/// Texts in order.
pub type TextList = Sequence<Text>;

/// The metadata of a message. `rest` holds no field that the table names: the others are kept in their order and
/// written again (own).
#[derive(Drop)]
pub struct Meta {
    /// The name of the producer that published the message.
    pub producer: Text,
    /// The message's number within its producer.
    pub seq: u64,
    /// When it was published, in milliseconds since 1970.
    pub publish_time: u64,
    /// The cluster that it was replicated from, where it was not published here.
    pub replicated_from: Option<Text>,
    /// The key by which messages are told apart and ordered.
    pub key: Option<Text>,
    /// The clusters that it is replicated to; all, where there is none.
    pub replicate_to: TextList,
    /// What kind of marker it is, where it is one.
    pub marker: Option<u64>,
    /// The fields that the table does not name.
    pub rest: FieldList,
}

impl Model for Meta {
    ghost use Rattle.std.specs.List.{AllByRecursion};
    ghost use Rattle.pb_fields.specs.Message.{IsUnknown};
    ghost use Rattle.message_meta.specs.Table.{rows};
    ghost use Rattle.message_meta.specs.Metadata.{Metadata};

    ghost Value = { Metadata };

    ghost view = { λ m. record {
      producer = m.producer;
      seq = m.seq;
      publish_time = m.publish_time;
      replicated_from = m.replicated_from;
      key = m.key;
      replicate_to = m.replicate_to;
      marker = m.marker;
      rest = m.rest;
    } };

    ghost invariant = { λ m. AllByRecursion (IsUnknown rows) m.rest };
}

impl Meta {
    /// The same metadata, replicated from a cluster; `Memory` where there is no room for its name.
    pub fn with_origin(self, alloc: Global, cluster: &ClusterName) -> Result<Meta, Memory>
        ensures { IfOk result (λ m. m ≡ record self { replicated_from = Some cluster.now }) }
    {
        let mut meta = self;
        meta.replicated_from = Some(Text::from_str(alloc, cluster.as_str())?);
        Ok(meta)
    }
}
