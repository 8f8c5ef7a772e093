//! What a consumer sends: SUBSCRIBE, ACK, FLOW, UNSUBSCRIBE and CLOSE_CONSUMER.

ghost use Rattle.std.specs.Prelude.{◌≡◌, OnOk};
ghost use Rattle.pulsar_commands.specs.declared.command.Command.TheVariants as command;
ghost use Rattle.pulsar_commands.specs.Parts.{parts, kind_of, sub_number, ack_number};
ghost use Rattle.pulsar_commands.specs.Replicators.{IsOfConsumer};
ghost use Rattle.pulsar_commands.specs.Canonical.{Writes};

use crate::command::Command;
use crate::ids::append_ids;
use crate::parts::{append_flag, append_number, append_optional_text, append_text};
use geo_base::{AckKind, Blob, Memory, Position, SubKind, Text};

/// Appends the fields of a command of a consumer.
pub(super) fn append_of_consumer(out: &mut Blob, command: &Command) -> Result<(), Memory>
    requires { IsOfConsumer (kind_of command.now) }
    ensures { OnOk result (Writes out.old (parts command.now) out.new) }
{
    match command {
        Command::Subscribe {
            topic,
            subscription,
            sub_type,
            consumer_id,
            request_id,
            consumer_name,
            initial_position,
            replicate_subscription_state,
        } => append_subscribe(
            out,
            Subscribe {
                topic,
                subscription,
                sub_type: *sub_type,
                consumer_id: *consumer_id,
                request_id: *request_id,
                consumer_name,
                initial_position: *initial_position,
                replicate_subscription_state: *replicate_subscription_state,
            },
        ),
        Command::Ack {
            consumer_id,
            ack_type,
            message_id,
        } => append_ack(out, *consumer_id, *ack_type, message_id.as_slice()),
        Command::Flow {
            consumer_id,
            message_permits,
        } => append_flow(out, *consumer_id, *message_permits),
        Command::Unsubscribe {
            consumer_id,
            request_id,
        } => append_unsubscribe(out, *consumer_id, *request_id),
        Command::CloseConsumer {
            consumer_id,
            request_id,
        } => append_close_consumer(out, *consumer_id, *request_id),
        _ => unreachable!(),
    }
}

/// The parts of a SUBSCRIBE, where they stand.
#[derive(Clone, Copy)]
struct Subscribe<'a> {
    topic: &'a Text,
    subscription: &'a Text,
    sub_type: SubKind,
    consumer_id: u64,
    request_id: u64,
    consumer_name: &'a Option<Text>,
    initial_position: bool,
    replicate_subscription_state: bool,
}

fn append_subscribe(out: &mut Blob, subscribe: Subscribe<'_>) -> Result<(), Memory>
    ensures { OnOk result (Writes out.old (parts (command.Subscribe subscribe.entry.topic.now subscribe.entry.subscription.now subscribe.entry.sub_type subscribe.entry.consumer_id subscribe.entry.request_id subscribe.entry.consumer_name.now subscribe.entry.initial_position subscribe.entry.replicate_subscription_state)) out.new) }
{
    append_text(out, 1, subscribe.topic)?;
    append_text(out, 2, subscribe.subscription)?;
    append_number(out, 3, sub_type_number(subscribe.sub_type))?;
    append_number(out, 4, subscribe.consumer_id)?;
    append_number(out, 5, subscribe.request_id)?;
    append_optional_text(out, 6, subscribe.consumer_name)?;
    append_flag(out, 13, subscribe.initial_position)?;
    append_flag(out, 14, subscribe.replicate_subscription_state)
}

/// Appends the fields of an ACK.
fn append_ack(
    out: &mut Blob,
    consumer_id: u64,
    ack_type: AckKind,
    message_id: &[Position],
) -> Result<(), Memory>
    ensures { OnOk result (Writes out.old (parts (command.Ack consumer_id ack_type message_id.now)) out.new) }
{
    append_number(out, 1, consumer_id)?;
    append_number(out, 2, ack_type_number(ack_type))?;
    append_ids(out, 3, message_id)
}

fn append_flow(out: &mut Blob, consumer_id: u64, message_permits: u64) -> Result<(), Memory>
    ensures { OnOk result (Writes out.old (parts (command.Flow consumer_id message_permits)) out.new) }
{
    append_number(out, 1, consumer_id)?;
    append_number(out, 2, message_permits)
}

fn append_unsubscribe(out: &mut Blob, consumer_id: u64, request_id: u64) -> Result<(), Memory>
    ensures { OnOk result (Writes out.old (parts (command.Unsubscribe consumer_id request_id)) out.new) }
{
    append_number(out, 1, consumer_id)?;
    append_number(out, 2, request_id)
}

fn append_close_consumer(out: &mut Blob, consumer_id: u64, request_id: u64) -> Result<(), Memory>
    ensures { OnOk result (Writes out.old (parts (command.CloseConsumer consumer_id request_id)) out.new) }
{
    append_number(out, 1, consumer_id)?;
    append_number(out, 2, request_id)
}

/// The number of a value of subType.
fn sub_type_number(kind: SubKind) -> u64
    ensures { result ≡ sub_number kind }
{
    match kind {
        SubKind::Exclusive => 0,
        SubKind::Shared => 1,
        SubKind::Failover => 2,
        SubKind::KeyShared => 3,
    }
}

/// The number of a value of ack_type.
pub(crate) fn ack_type_number(kind: AckKind) -> u64
    ensures { result ≡ ack_number kind }
{
    match kind {
        AckKind::Individual => 0,
        AckKind::Cumulative => 1,
    }
}
