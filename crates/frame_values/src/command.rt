//! Commands of the protocol and frames of the machine that carry no message.
ghost use Rattle.std.specs.Prelude.{◌≡◌, true, false, None, IfOk};
ghost use Rattle.pulsar_commands.specs.Parts.{kind_of};
ghost use Rattle.pulsar_frames.specs.Frames.{carries};
ghost use Rattle.message_meta.specs.Known.{IsRest};
ghost use Rattle.frame_values.specs.Groups.{IsAnswer, IsOfConsumer, IsOfProducer, IsOfSubscription};
ghost use Rattle.frame_values.specs.Texts.{command_of, unread_bytes};
ghost use Rattle.frame_values.specs.Values.{simple_frame};

use geo_base::{Frame, Memory, Position, Sequence, Text, optional_text_copy};
use pulsar_commands::Command;
use std::alloc::Global;

/// What a command without a message says.
#[tactic(auto, using(crate::proofs::Entries::no_rest))]
pub(crate) fn simple_frame(command: Command) -> Frame
    ensures value { result ≡ simple_frame command }
    ensures rest { IsRest (unread_bytes result) }
{
    match command {
        Command::Connect { .. } => Frame::Connect,
        Command::Connected { .. } => Frame::Connected,
        Command::Producer { .. }
        | Command::ProducerSuccess { .. }
        | Command::CloseProducer { .. } => producer_frame(command),
        Command::Subscribe { .. } | Command::Unsubscribe { .. } => subscription_frame(command),
        Command::Ack { .. } | Command::Flow { .. } | Command::CloseConsumer { .. } => {
            consumer_frame(command)
        }
        Command::SendReceipt { .. }
        | Command::SendError { .. }
        | Command::Success { .. }
        | Command::Error { .. } => answer_frame(command),
        Command::Send { .. } | Command::Message { .. } => Frame::Unreadable,
        Command::Ping => Frame::Ping,
        Command::Pong => Frame::Pong,
    }
}

/// What the beginning or the end of a producer says.
#[tactic(auto, using(crate::proofs::Entries::no_rest))]
fn producer_frame(command: Command) -> Frame
    requires { IsOfProducer command }
    ensures value { result ≡ simple_frame command }
    ensures rest { IsRest (unread_bytes result) }
{
    match command {
        Command::Producer {
            topic,
            producer_id,
            request_id,
            producer_name,
        } => Frame::Producer {
            topic,
            id: producer_id,
            request: request_id,
            name: producer_name,
        },
        Command::ProducerSuccess {
            request_id,
            producer_name,
        } => Frame::ProducerSuccess {
            request: request_id,
            name: producer_name,
        },
        Command::CloseProducer {
            producer_id,
            request_id,
        } => Frame::CloseProducer {
            id: producer_id,
            request: request_id,
        },
        _ => unreachable!(),
    }
}

/// What the beginning or the end of a subscription says.
#[tactic(auto, using(crate::proofs::Entries::no_rest))]
fn subscription_frame(command: Command) -> Frame
    requires { IsOfSubscription command }
    ensures value { result ≡ simple_frame command }
    ensures rest { IsRest (unread_bytes result) }
{
    match command {
        Command::Subscribe {
            topic,
            subscription,
            sub_type,
            consumer_id,
            request_id,
            consumer_name,
            initial_position,
            replicate_subscription_state,
        } => Frame::Subscribe {
            topic,
            sub: subscription,
            kind: sub_type,
            id: consumer_id,
            request: request_id,
            consumer: consumer_name,
            earliest: initial_position,
            replicated: replicate_subscription_state,
        },
        Command::Unsubscribe {
            consumer_id,
            request_id,
        } => Frame::Unsubscribe {
            id: consumer_id,
            request: request_id,
        },
        _ => unreachable!(),
    }
}

/// What a consumer says of its messages, or its end.
#[tactic(auto, using(crate::proofs::Entries::no_rest))]
fn consumer_frame(command: Command) -> Frame
    requires { IsOfConsumer command }
    ensures value { result ≡ simple_frame command }
    ensures rest { IsRest (unread_bytes result) }
{
    match command {
        Command::Ack {
            consumer_id,
            ack_type,
            message_id,
        } => Frame::Ack {
            id: consumer_id,
            kind: ack_type,
            positions: message_id,
        },
        Command::Flow {
            consumer_id,
            message_permits,
        } => Frame::Flow {
            id: consumer_id,
            permits: message_permits,
        },
        Command::CloseConsumer {
            consumer_id,
            request_id,
        } => Frame::CloseConsumer {
            id: consumer_id,
            request: request_id,
        },
        _ => unreachable!(),
    }
}

/// How a send or a request ended.
#[tactic(auto, using(crate::proofs::Entries::no_rest))]
fn answer_frame(command: Command) -> Frame
    requires { IsAnswer command }
    ensures value { result ≡ simple_frame command }
    ensures rest { IsRest (unread_bytes result) }
{
    match command {
        Command::SendReceipt {
            producer_id,
            sequence_id,
            message_id,
        } => Frame::SendReceipt {
            id: producer_id,
            seq: sequence_id,
            position: message_id,
        },
        Command::SendError {
            producer_id,
            sequence_id,
            error,
            ..
        } => Frame::SendError {
            id: producer_id,
            seq: sequence_id,
            code: error,
        },
        Command::Success { request_id } => Frame::Success {
            request: request_id,
        },
        Command::Error {
            request_id,
            error,
            ..
        } => Frame::Error {
            request: request_id,
            code: error,
        },
        _ => unreachable!(),
    }
}

/// The command that a frame is written as.
pub(crate) fn command_of(alloc: Global, frame: &Frame) -> Result<Command, Memory>
    ensures { IfOk result (λ c. c ≡ command_of frame.now) }
{
    match frame {
        Frame::Connect => Ok(Command::Connect {
            client_version: Text::from_str(alloc, "geo-client")?,
            protocol_version: None,
        }),
        Frame::Connected => Ok(Command::Connected {
            server_version: Text::from_str(alloc, "geo-broker")?,
            protocol_version: None,
        }),
        Frame::Producer { .. } | Frame::ProducerSuccess { .. } | Frame::CloseProducer { .. } => {
            producer_command(alloc, frame)
        }
        Frame::Subscribe { .. } | Frame::Unsubscribe { .. } => subscription_command(alloc, frame),
        Frame::Ack { .. } | Frame::Flow { .. } | Frame::CloseConsumer { .. } => {
            consumer_command(alloc, frame)
        }
        Frame::SendReceipt { .. }
        | Frame::SendError { .. }
        | Frame::Success { .. }
        | Frame::Error { .. } => answer_command(alloc, frame),
        Frame::Send { id, seq, .. } => Ok(Command::Send {
            producer_id: *id,
            sequence_id: *seq,
            num_messages: 1,
        }),
        Frame::Message { id, position, .. } => Ok(Command::Message {
            consumer_id: *id,
            message_id: *position,
        }),
        Frame::Ping => Ok(Command::Ping),
        Frame::Pong | Frame::Unreadable => Ok(Command::Pong),
    }
}

/// The command of a producer's beginning or end.
fn producer_command(alloc: Global, frame: &Frame) -> Result<Command, Memory>
    requires { IsOfProducer (command_of frame.now) }
    ensures { IfOk result (λ c. c ≡ command_of frame.now) }
{
    match frame {
        Frame::Producer {
            topic,
            id,
            request,
            name,
        } => Ok(Command::Producer {
            topic: topic.copy(alloc)?,
            producer_id: *id,
            request_id: *request,
            producer_name: optional_text_copy(alloc, name)?,
        }),
        Frame::ProducerSuccess { request, name } => Ok(Command::ProducerSuccess {
            request_id: *request,
            producer_name: name.copy(alloc)?,
        }),
        Frame::CloseProducer { id, request } => Ok(Command::CloseProducer {
            producer_id: *id,
            request_id: *request,
        }),
        _ => unreachable!(),
    }
}

/// The command of a subscription's beginning or end.
fn subscription_command(alloc: Global, frame: &Frame) -> Result<Command, Memory>
    requires { IsOfSubscription (command_of frame.now) }
    ensures { IfOk result (λ c. c ≡ command_of frame.now) }
{
    match frame {
        Frame::Subscribe {
            topic,
            sub,
            kind,
            id,
            request,
            consumer,
            earliest,
            replicated,
        } => Ok(Command::Subscribe {
            topic: topic.copy(alloc)?,
            subscription: sub.copy(alloc)?,
            sub_type: *kind,
            consumer_id: *id,
            request_id: *request,
            consumer_name: optional_text_copy(alloc, consumer)?,
            initial_position: *earliest,
            replicate_subscription_state: *replicated,
        }),
        Frame::Unsubscribe { id, request } => Ok(Command::Unsubscribe {
            consumer_id: *id,
            request_id: *request,
        }),
        _ => unreachable!(),
    }
}

/// The command of what a consumer says of its messages, or of its end.
fn consumer_command(alloc: Global, frame: &Frame) -> Result<Command, Memory>
    requires { IsOfConsumer (command_of frame.now) }
    ensures { IfOk result (λ c. c ≡ command_of frame.now) }
{
    match frame {
        Frame::Ack {
            id,
            kind,
            positions,
        } => Ok(Command::Ack {
            consumer_id: *id,
            ack_type: *kind,
            message_id: positions_copy(alloc, positions)?,
        }),
        Frame::Flow { id, permits } => Ok(Command::Flow {
            consumer_id: *id,
            message_permits: *permits,
        }),
        Frame::CloseConsumer { id, request } => Ok(Command::CloseConsumer {
            consumer_id: *id,
            request_id: *request,
        }),
        _ => unreachable!(),
    }
}

/// The command of how a send or a request ended.
fn answer_command(alloc: Global, frame: &Frame) -> Result<Command, Memory>
    requires { IsAnswer (command_of frame.now) }
    ensures { IfOk result (λ c. c ≡ command_of frame.now) }
{
    match frame {
        Frame::SendReceipt { id, seq, position } => Ok(Command::SendReceipt {
            producer_id: *id,
            sequence_id: *seq,
            message_id: *position,
        }),
        Frame::SendError { id, seq, code } => Ok(Command::SendError {
            producer_id: *id,
            sequence_id: *seq,
            error: *code,
            message: Text::from_str(alloc, "error")?,
        }),
        Frame::Success { request } => Ok(Command::Success {
            request_id: *request,
        }),
        Frame::Error { request, code } => Ok(Command::Error {
            request_id: *request,
            error: *code,
            message: Text::from_str(alloc, "error")?,
        }),
        _ => unreachable!(),
    }
}

fn positions_copy(
    alloc: Global,
    positions: &Sequence<Position>,
) -> Result<Sequence<Position>, Memory>
    ensures { IfOk result (λ c. c ≡ positions.now) }
{
    Ok(Sequence::from_vec(positions.as_slice().to_vec(alloc)?))
}
