//! The commands from the fields of their own messages.

ghost use Rattle.std.specs.Prelude.{◌≡◌, ◌<◌, Some, IfOk};
ghost use Rattle.std.specs.List.{AllByRecursion};
ghost use Rattle.pb_fields.specs.declared.field.Value.TheVariants as value;
ghost use Rattle.pb_fields.specs.Message.{IsMessage, last_value};
ghost use Rattle.pb_fields.specs.Embedded.{IsMessageWith};
ghost use Rattle.pulsar_commands.specs.declared.kind.Kind.TheVariants as kind;
ghost use Rattle.pulsar_commands.specs.Table.{rows_of, choices_of, IsKnown};
ghost use Rattle.pulsar_commands.specs.Parts.{sub_number, ack_number};
ghost use Rattle.pulsar_commands.specs.Text.{IdRight, Tells};

use crate::command::Command;
use crate::ids::{all_ids, optional_id, required_id};
use crate::kind::Kind;
use crate::parts::{flag, number_or, text, text_where_there};
use crate::table::{
    ACK, CLOSE_CONSUMER, CLOSE_PRODUCER, CONNECT, CONNECTED, ERROR, FLOW, MESSAGE, PRODUCER,
    PRODUCER_SUCCESS, SEND, SEND_ERROR, SEND_RECEIPT, SUBSCRIBE, SUCCESS, UNSUBSCRIBE,
};
use geo_base::{AckKind, Memory, SubKind};
use pb_fields::Field;
use pb_fields::message::{optional_varint, required_varint};
use std::alloc::Global;

/// The command of a type that the fields of its own message say.
pub(crate) fn command_of_body(
    alloc: Global,
    kind: Kind,
    fields: &[Field],
) -> Result<Command, Memory>
    requires message { IsMessage (rows_of kind) fields.now }
    requires ids { IsMessageWith IdRight (rows_of kind) fields.now }
    requires known { AllByRecursion (IsKnown fields.now) (choices_of kind) }
    ensures { IfOk result (Tells kind fields.now) }
{
    match kind {
        Kind::Connect => connect(alloc, fields),
        Kind::Connected => connected(alloc, fields),
        Kind::Subscribe => subscribe(alloc, fields),
        Kind::Producer => producer(alloc, fields),
        Kind::Send => Ok(send(fields)),
        Kind::SendReceipt => send_receipt(alloc, fields),
        Kind::SendError => send_error(alloc, fields),
        Kind::Message => message(alloc, fields),
        Kind::Ack => ack(alloc, fields),
        Kind::Flow => Ok(flow(fields)),
        Kind::Unsubscribe => Ok(unsubscribe(fields)),
        Kind::Success => Ok(success(fields)),
        Kind::Error => error(alloc, fields),
        Kind::CloseProducer => Ok(close_producer(fields)),
        Kind::CloseConsumer => Ok(close_consumer(fields)),
        Kind::ProducerSuccess => producer_success(alloc, fields),
        Kind::Ping => Ok(Command::Ping),
        Kind::Pong => Ok(Command::Pong),
    }
}

fn connect(alloc: Global, fields: &[Field]) -> Result<Command, Memory>
    requires { IsMessage (rows_of kind.Connect) fields.now }
    ensures { IfOk result (Tells kind.Connect fields.now) }
{
    Ok(Command::Connect {
        client_version: text(alloc, CONNECT, fields, 1)?,
        protocol_version: optional_varint(CONNECT, fields, 4),
    })
}

fn connected(alloc: Global, fields: &[Field]) -> Result<Command, Memory>
    requires { IsMessage (rows_of kind.Connected) fields.now }
    ensures { IfOk result (Tells kind.Connected fields.now) }
{
    Ok(Command::Connected {
        server_version: text(alloc, CONNECTED, fields, 1)?,
        protocol_version: optional_varint(CONNECTED, fields, 2),
    })
}

fn subscribe(alloc: Global, fields: &[Field]) -> Result<Command, Memory>
    requires message { IsMessage (rows_of kind.Subscribe) fields.now }
    requires known { AllByRecursion (IsKnown fields.now) (choices_of kind.Subscribe) }
    ensures { IfOk result (Tells kind.Subscribe fields.now) }
{
    Ok(Command::Subscribe {
        topic: text(alloc, SUBSCRIBE, fields, 1)?,
        subscription: text(alloc, SUBSCRIBE, fields, 2)?,
        sub_type: sub_kind(required_varint(SUBSCRIBE, fields, 3)),
        consumer_id: required_varint(SUBSCRIBE, fields, 4),
        request_id: required_varint(SUBSCRIBE, fields, 5),
        consumer_name: text_where_there(alloc, SUBSCRIBE, fields, 6)?,
        initial_position: flag(SUBSCRIBE, fields, 13),
        replicate_subscription_state: flag(SUBSCRIBE, fields, 14),
    })
}

/// The value of subType that a number stands for.
fn sub_kind(number: u64) -> SubKind
    requires { number < 4 }
    ensures { number ≡ sub_number result }
{
    match number {
        0 => SubKind::Exclusive,
        1 => SubKind::Shared,
        2 => SubKind::Failover,
        _ => SubKind::KeyShared,
    }
}

fn producer(alloc: Global, fields: &[Field]) -> Result<Command, Memory>
    requires { IsMessage (rows_of kind.Producer) fields.now }
    ensures { IfOk result (Tells kind.Producer fields.now) }
{
    Ok(Command::Producer {
        topic: text(alloc, PRODUCER, fields, 1)?,
        producer_id: required_varint(PRODUCER, fields, 2),
        request_id: required_varint(PRODUCER, fields, 3),
        producer_name: text_where_there(alloc, PRODUCER, fields, 4)?,
    })
}

fn send(fields: &[Field]) -> Command
    requires { IsMessage (rows_of kind.Send) fields.now }
    ensures { Tells kind.Send fields.now result }
{
    Command::Send {
        producer_id: required_varint(SEND, fields, 1),
        sequence_id: required_varint(SEND, fields, 2),
        num_messages: number_or(SEND, fields, 3, 1),
    }
}

fn send_receipt(alloc: Global, fields: &[Field]) -> Result<Command, Memory>
    requires message { IsMessage (rows_of kind.SendReceipt) fields.now }
    requires ids { IsMessageWith IdRight (rows_of kind.SendReceipt) fields.now }
    ensures { IfOk result (Tells kind.SendReceipt fields.now) }
{
    Ok(Command::SendReceipt {
        producer_id: required_varint(SEND_RECEIPT, fields, 1),
        sequence_id: required_varint(SEND_RECEIPT, fields, 2),
        message_id: optional_id(alloc, SEND_RECEIPT, fields, 3)?,
    })
}

fn send_error(alloc: Global, fields: &[Field]) -> Result<Command, Memory>
    requires { IsMessage (rows_of kind.SendError) fields.now }
    ensures { IfOk result (Tells kind.SendError fields.now) }
{
    Ok(Command::SendError {
        producer_id: required_varint(SEND_ERROR, fields, 1),
        sequence_id: required_varint(SEND_ERROR, fields, 2),
        error: required_varint(SEND_ERROR, fields, 3),
        message: text(alloc, SEND_ERROR, fields, 4)?,
    })
}

fn message(alloc: Global, fields: &[Field]) -> Result<Command, Memory>
    requires message { IsMessage (rows_of kind.Message) fields.now }
    requires ids { IsMessageWith IdRight (rows_of kind.Message) fields.now }
    ensures { IfOk result (Tells kind.Message fields.now) }
{
    Ok(Command::Message {
        consumer_id: required_varint(MESSAGE, fields, 1),
        message_id: required_id(alloc, MESSAGE, fields, 2)?,
    })
}

fn ack(alloc: Global, fields: &[Field]) -> Result<Command, Memory>
    requires message { IsMessage (rows_of kind.Ack) fields.now }
    requires ids { IsMessageWith IdRight (rows_of kind.Ack) fields.now }
    requires known { AllByRecursion (IsKnown fields.now) (choices_of kind.Ack) }
    ensures { IfOk result (Tells kind.Ack fields.now) }
{
    Ok(Command::Ack {
        consumer_id: required_varint(ACK, fields, 1),
        ack_type: ack_kind(required_varint(ACK, fields, 2)),
        message_id: all_ids(alloc, ACK, fields, 3)?,
    })
}

/// The value of ack_type that a number stands for.
fn ack_kind(number: u64) -> AckKind
    requires { number < 2 }
    ensures { number ≡ ack_number result }
{
    match number {
        0 => AckKind::Individual,
        _ => AckKind::Cumulative,
    }
}

fn flow(fields: &[Field]) -> Command
    requires { IsMessage (rows_of kind.Flow) fields.now }
    ensures { Tells kind.Flow fields.now result }
{
    Command::Flow {
        consumer_id: required_varint(FLOW, fields, 1),
        message_permits: required_varint(FLOW, fields, 2),
    }
}

fn unsubscribe(fields: &[Field]) -> Command
    requires { IsMessage (rows_of kind.Unsubscribe) fields.now }
    ensures { Tells kind.Unsubscribe fields.now result }
{
    Command::Unsubscribe {
        consumer_id: required_varint(UNSUBSCRIBE, fields, 1),
        request_id: required_varint(UNSUBSCRIBE, fields, 2),
    }
}

fn success(fields: &[Field]) -> Command
    requires { IsMessage (rows_of kind.Success) fields.now }
    ensures { Tells kind.Success fields.now result }
{
    Command::Success {
        request_id: required_varint(SUCCESS, fields, 1),
    }
}

fn error(alloc: Global, fields: &[Field]) -> Result<Command, Memory>
    requires { IsMessage (rows_of kind.Error) fields.now }
    ensures { IfOk result (Tells kind.Error fields.now) }
{
    Ok(Command::Error {
        request_id: required_varint(ERROR, fields, 1),
        error: required_varint(ERROR, fields, 2),
        message: text(alloc, ERROR, fields, 3)?,
    })
}

fn close_producer(fields: &[Field]) -> Command
    requires { IsMessage (rows_of kind.CloseProducer) fields.now }
    ensures { Tells kind.CloseProducer fields.now result }
{
    Command::CloseProducer {
        producer_id: required_varint(CLOSE_PRODUCER, fields, 1),
        request_id: required_varint(CLOSE_PRODUCER, fields, 2),
    }
}

fn close_consumer(fields: &[Field]) -> Command
    requires { IsMessage (rows_of kind.CloseConsumer) fields.now }
    ensures { Tells kind.CloseConsumer fields.now result }
{
    Command::CloseConsumer {
        consumer_id: required_varint(CLOSE_CONSUMER, fields, 1),
        request_id: required_varint(CLOSE_CONSUMER, fields, 2),
    }
}

fn producer_success(alloc: Global, fields: &[Field]) -> Result<Command, Memory>
    requires { IsMessage (rows_of kind.ProducerSuccess) fields.now }
    ensures { IfOk result (Tells kind.ProducerSuccess fields.now) }
{
    Ok(Command::ProducerSuccess {
        request_id: required_varint(PRODUCER_SUCCESS, fields, 1),
        producer_name: text(alloc, PRODUCER_SUCCESS, fields, 2)?,
    })
}
