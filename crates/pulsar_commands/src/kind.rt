//! The types of commands.

ghost use Rattle.std.specs.Prelude.{◌≡◌, ◌≢◌, MatchOption};
ghost use Rattle.pulsar_commands.specs.Table.{kind_number, rows_of, choices_of};

use crate::table::{
    ACK, ACK_CHOICES, CLOSE_CONSUMER, CLOSE_PRODUCER, CONNECT, CONNECTED, Choice, ERROR, FLOW,
    MESSAGE, PRODUCER, PRODUCER_SUCCESS, SEND, SEND_ERROR, SEND_RECEIPT, SUBSCRIBE,
    SUBSCRIBE_CHOICES, SUCCESS, UNSUBSCRIBE,
};
use pb_fields::message::Row;

/// The type of a command (BaseCommand.Type in PulsarApi.proto). Those of other numbers are refused (own).
#[derive(Clone, Copy, Drop, PartialEq, Eq)]
pub enum Kind {
    Connect,
    Connected,
    Subscribe,
    Producer,
    Send,
    SendReceipt,
    SendError,
    Message,
    Ack,
    Flow,
    Unsubscribe,
    Success,
    Error,
    CloseProducer,
    CloseConsumer,
    ProducerSuccess,
    Ping,
    Pong,
}

impl Kind {
    /// The type's number, 2 to 19, which is also that of the field that holds the command.
    pub fn number(self) -> u32
        ensures { result ≡ kind_number self }
    {
        match self {
            Kind::Connect => 2,
            Kind::Connected => 3,
            Kind::Subscribe => 4,
            Kind::Producer => 5,
            Kind::Send => 6,
            Kind::SendReceipt => 7,
            Kind::SendError => 8,
            Kind::Message => 9,
            Kind::Ack => 10,
            Kind::Flow => 11,
            Kind::Unsubscribe => 12,
            Kind::Success => 13,
            Kind::Error => 14,
            Kind::CloseProducer => 15,
            Kind::CloseConsumer => 16,
            Kind::ProducerSuccess => 17,
            Kind::Ping => 18,
            Kind::Pong => 19,
        }
    }

    /// The type of a number, where it is 2 to 19.
    pub fn from_number(number: u64) -> Option<Kind>
        ensures { MatchOption result ((k : Kind) → number ≢ kind_number k) (λ k. number ≡ kind_number k) }
    {
        match number {
            2 => Some(Kind::Connect),
            3 => Some(Kind::Connected),
            4 => Some(Kind::Subscribe),
            5 => Some(Kind::Producer),
            6 => Some(Kind::Send),
            7 => Some(Kind::SendReceipt),
            8 => Some(Kind::SendError),
            9 => Some(Kind::Message),
            10 => Some(Kind::Ack),
            11 => Some(Kind::Flow),
            12 => Some(Kind::Unsubscribe),
            13 => Some(Kind::Success),
            14 => Some(Kind::Error),
            15 => Some(Kind::CloseProducer),
            16 => Some(Kind::CloseConsumer),
            17 => Some(Kind::ProducerSuccess),
            18 => Some(Kind::Ping),
            19 => Some(Kind::Pong),
            _ => None,
        }
    }

    /// The fields of a command of the type.
    pub(crate) fn rows(self) -> &'static [Row]
        ensures { result.now ≡ rows_of self }
    {
        match self {
            Kind::Connect => CONNECT,
            Kind::Connected => CONNECTED,
            Kind::Subscribe => SUBSCRIBE,
            Kind::Producer => PRODUCER,
            Kind::Send => SEND,
            Kind::SendReceipt => SEND_RECEIPT,
            Kind::SendError => SEND_ERROR,
            Kind::Message => MESSAGE,
            Kind::Ack => ACK,
            Kind::Flow => FLOW,
            Kind::Unsubscribe => UNSUBSCRIBE,
            Kind::Success => SUCCESS,
            Kind::Error => ERROR,
            Kind::CloseProducer => CLOSE_PRODUCER,
            Kind::CloseConsumer => CLOSE_CONSUMER,
            Kind::ProducerSuccess => PRODUCER_SUCCESS,
            Kind::Ping | Kind::Pong => &[],
        }
    }

    /// The fields that hold values of enumerations, by ascending numbers.
    pub(crate) fn choices(self) -> &'static [Choice]
        ensures { result.now ≡ choices_of self }
    {
        match self {
            Kind::Subscribe => SUBSCRIBE_CHOICES,
            Kind::Ack => ACK_CHOICES,
            _ => &[],
        }
    }
}
