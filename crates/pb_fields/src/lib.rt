//! Protocol Buffers messages as lists of fields.
//!
//! The reader takes any text that the Protocol Buffers encoding allows and says of any other bytes which field
//! is the first without a reading, and why. The writer writes the shortest text.
#![tactic(auto)]

mod buffer;
pub mod embedded;
mod fault;
mod field;
mod front;
mod laws;
pub mod message;
mod pair;
mod read;
mod size;
mod taken;
mod values;
mod write;

pub use buffer::Buffer;
pub use fault::{FieldFault, PbFault};
pub use field::{Field, FieldList, Value, WireType};
pub use front::{front_bytes, front_optional_text, front_text, front_varint};
pub use laws::{canonical_text, one_reading};
pub use pair::{FieldPair, field_pair};
pub use read::read_fields;
pub use size::{SHORT, SHORT_HEAD, short_field_size, varint_field_size};
pub use taken::take_last;
pub use write::{
    write_bytes, write_field, write_fields, write_head, write_optional_varint, write_varint,
};
