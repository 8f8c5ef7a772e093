//! Protobuf fields.

use crate::texts::is_told;
use geo_base::{Blob, Memory};
use pb_fields::embedded::{OfTable, Unread, optional_message, read_message_with};
use pb_fields::message::{Form, MessageFault, Row};
use pb_fields::*;
use std::alloc::{AllocError, Global};
use std::test::Fail;

/// How many fields a list of one field has.
fn listed(alloc: Global) -> Result<usize, Memory> {
    let content = Blob::from_slice(alloc, b"AB")?;
    let mut list = FieldList::new(alloc);
    let pushed = list.push(Field {
        number: 1,
        value: Value::Bytes(content),
    });
    let len = list.len();
    drop(list);
    pushed?;
    Ok(len)
}

#[test]
fn fields_are_listed(rt: HostRuntime) -> Result<(), Fail> {
    assert!(rt; listed(rt.alloc())? == 1);
    Ok(())
}

/// A text, and messages of two numbers.
const OUTER: &[Row] = &[
    Row {
        number: 1,
        form: Form::Text,
        required: true,
    },
    Row {
        number: 2,
        form: Form::Message,
        required: false,
    },
];

const INNER: &[Row] = &[
    Row {
        number: 1,
        form: Form::Varint,
        required: true,
    },
    Row {
        number: 2,
        form: Form::Varint,
        required: true,
    },
];

/// How many bytes the last embedded message has, if there is one.
fn size_of_inner(alloc: Global, bytes: &[u8]) -> Result<Option<usize>, MessageFault> {
    let inner = OfTable {
        rows: INNER,
        embedded: Unread,
    };
    let fields = read_message_with(alloc, OUTER, &inner, bytes)?;
    let content = optional_message(OUTER, &inner, fields.as_slice(), 2);
    let size = content.map(|content| content.len());
    drop(fields);
    Ok(size)
}

/// Whether a text tells that number, or the fault.
fn is_inner(alloc: Global, bytes: &[u8], text: &str) -> Result<bool, AllocError> {
    match size_of_inner(alloc, bytes) {
        Ok(Some(size)) => is_told(alloc, &size, text),
        Ok(None) => Ok(text == "none"),
        Err(fault) => is_told(alloc, &fault, text),
    }
}

/// Rows are bytes, and what the last embedded message's length is, or the fault.
const EMBEDDED: &[(&[u8], &str)] = &[
    (&[0x0a, 0x01, 0x61], "none"),
    (&[0x0a, 0x01, 0x61, 0x12, 0x04, 0x08, 0x01, 0x10, 0x02], "4"),
    // the last of two counts
    (
        &[
            0x12, 0x04, 0x08, 0x01, 0x10, 0x02, 0x0a, 0x00, 0x12, 0x06, 0x08, 0x01, 0x08, 0x01,
            0x10, 0x02,
        ],
        "6",
    ),
    // but the first is judged too
    (
        &[
            0x12, 0x02, 0x08, 0x01, 0x12, 0x04, 0x08, 0x01, 0x10, 0x02, 0x0a, 0x01, 0x61,
        ],
        "Missing(2)",
    ),
    // in its place among the fields
    (&[0x12, 0x02, 0x08, 0x01, 0x08, 0x05], "Missing(2)"),
    (&[0x08, 0x05, 0x12, 0x02, 0x08, 0x01], "WrongWire(1)"),
    (&[0x12, 0x02, 0x0a, 0x00, 0x0a, 0x01, 0xff], "WrongWire(1)"),
    (&[0x10, 0x01], "WrongWire(2)"),
    // an offset counts from the embedded message's first byte
    (
        &[0x0a, 0x01, 0x61, 0x12, 0x03, 0x08, 0x01, 0x0b],
        "Pb(WireType(3, 2))",
    ),
    // what the outer message lacks comes last
    (&[0x12, 0x04, 0x08, 0x01, 0x10, 0x02], "Missing(1)"),
    (&[0x12, 0x00], "Missing(1)"),
];

#[test]
fn embedded_messages_are_judged_in_their_place(rt: HostRuntime) -> Result<(), Fail> {
    for (bytes, wanted) in EMBEDDED.iter() {
        assert!(rt; is_inner(rt.alloc(), bytes, wanted)?, "at {bytes:?}");
    }
    Ok(())
}
