//! Fields: a number, and a value in one of the four wire types of the Protocol Buffers encoding that are in use.

ghost use Rattle.std.specs.Prelude.{◌≡◌, ◌≢◌, ◌↔◌, ◌++◌, ◌∷◌, [], List, ℕ, length, IfOk, IsTrue, IsUtf8, OnOk, OnErr, MatchOption};
ghost use Rattle.pb_fields.specs.declared.field.Value.TheVariants as value;
ghost use Rattle.pb_fields.specs.declared.field.WireType.{WireType};
ghost use Rattle.pb_fields.specs.Field.{HasNumber, wire_number, wire_type};
ghost use Rattle.std.specs.List.{AllByRecursion};

use geo_base::{Blob, Memory};
use std::alloc::Global;
use std::marker::Model;

/// How a value stands in the bytes (Protocol Buffers encoding, "Message Structure"). The two types of groups,
/// which are deprecated there, are not read.
#[derive(Clone, Copy, PartialEq, Eq)]
pub enum WireType {
    /// Groups of seven bits, number 0 in a tag.
    Varint,
    /// Eight bytes, number 1.
    Fixed64,
    /// A length and so many bytes, number 2.
    Bytes,
    /// Four bytes, number 5.
    Fixed32,
}

impl WireType {
    /// The number in a tag's low three bits.
    pub fn number(self) -> u32
        ensures { result ≡ wire_number self }
    {
        match self {
            WireType::Varint => 0,
            WireType::Fixed64 => 1,
            WireType::Bytes => 2,
            WireType::Fixed32 => 5,
        }
    }

    /// The type of a number in a tag's low three bits, where it is one of the four.
    pub fn from_number(number: u32) -> Option<WireType>
        ensures { MatchOption result ((w : WireType) → number ≢ wire_number w) (λ w. number ≡ wire_number w) }
    {
        match number {
            0 => Some(WireType::Varint),
            1 => Some(WireType::Fixed64),
            2 => Some(WireType::Bytes),
            5 => Some(WireType::Fixed32),
            _ => None,
        }
    }
}

/// A value as it stands in the bytes. What it means is the message's affair.
#[derive(Drop)]
pub enum Value {
    /// A number in groups of seven bits.
    Varint(u64),
    /// Eight bytes, the least first.
    Fixed64(u64),
    /// A length, and so many bytes: a text, an embedded message or bytes.
    Bytes(Blob),
    /// Four bytes, the least first.
    Fixed32(u32),
}

impl Value {
    /// How the value stands in the bytes.
    pub fn wire_type(&self) -> WireType
        ensures { result ≡ wire_type self.now }
    {
        match self {
            Value::Varint(_) => WireType::Varint,
            Value::Fixed64(_) => WireType::Fixed64,
            Value::Bytes(_) => WireType::Bytes,
            Value::Fixed32(_) => WireType::Fixed32,
        }
    }

    /// The number, where the value is a varint.
    pub fn as_varint(&self) -> Option<u64>
        ensures { MatchOption result ((n : ℕ) → self.now ≢ value.Varint n) (λ n. self.now ≡ value.Varint n) }
    {
        match self {
            Value::Varint(number) => Some(*number),
            _ => None,
        }
    }

    /// The content, where the value has a length.
    pub fn as_bytes(&self) -> Option<&[u8]>
        ensures { MatchOption result ((b : List ℕ) → self.now ≢ value.Bytes b) (λ b. self.now ≡ value.Bytes b.now) }
    {
        match self {
            Value::Bytes(content) => Some(content.as_slice()),
            _ => None,
        }
    }

    /// The content as a text, where it is UTF-8.
    pub fn as_text(&self) -> Option<&str>
        ensures { MatchOption result ((b : List ℕ) → IsUtf8 b → self.now ≢ value.Bytes b) (λ b. self.now ≡ value.Bytes b.now) }
    {
        match self {
            Value::Bytes(content) => str::from_utf8(content.as_slice()).ok(),
            _ => None,
        }
    }
}

/// A field of a message. Its number is 1 to 536870911, as `FieldList` keeps it and `write_field` requires it.
#[derive(Drop)]
pub struct Field {
    /// What the message's table calls the field by, 1 to 536870911.
    pub number: u32,
    /// What it holds.
    pub value: Value,
}

/// A SEND's metadata and most commands have no more fields, so that their list grows once.
const COMMON_FIELDS: usize = 8;

/// Fields in order, each with a number from 1 to 536870911.
#[derive(Drop)]
pub struct FieldList {
    pub(crate) fields: Vec<Field>,
}

impl Model for FieldList {
    ghost use Rattle.std.specs.Prelude.{List};
    ghost use Rattle.std.specs.List.{AllByRecursion};
    ghost use Rattle.pb_fields.specs.declared.field.Field.{Field};
    ghost use Rattle.pb_fields.specs.Field.{HasNumber};

    ghost Value = { List Field };

    ghost view = { λ l. l.fields.items };

    ghost invariant = { λ l. AllByRecursion HasNumber l.fields.items };
}

impl FieldList {
    /// No fields, which take no memory.
    pub fn new(alloc: Global) -> FieldList
        ensures { result ≡ [] }
    {
        FieldList {
            fields: Vec::new(alloc),
        }
    }

    /// No fields yet, with room for as many as most messages have; `Memory` where there is none.
    pub(crate) fn with_common_room(alloc: Global) -> Result<FieldList, Memory>
        ensures { IfOk result (λ list. list ≡ []) }
    {
        Ok(FieldList {
            fields: Vec::with_capacity(alloc, COMMON_FIELDS)?,
        })
    }

    /// How many fields there are.
    pub fn len(&self) -> usize
        ensures { result ≡ length self.now }
    {
        self.fields.len()
    }

    /// Whether there is none.
    pub fn is_empty(&self) -> bool
        ensures { IsTrue result ↔ (self.now ≡ []) }
    {
        self.fields.is_empty()
    }

    /// The fields as a slice.
    pub fn as_slice(&self) -> &[Field]
        ensures fields { result.now ≡ self.now }
        ensures numbers { AllByRecursion HasNumber self.now }
    {
        self.fields.as_slice()
    }

    /// Adds a field at the end. Want of memory leaves the list as it was.
    pub fn push(&mut self, field: Field) -> Result<(), Memory>
        requires { HasNumber field }
        ensures ok { OnOk result (self.new ≡ self.old ++ field ∷ []) }
        ensures err { OnErr result (self.new ≡ self.old) }
    {
        self.fields.push(field)?;
        Ok(())
    }
}
