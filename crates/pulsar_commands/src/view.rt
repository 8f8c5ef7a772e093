//! The commands of the usual form, looked at in their place and written from their numbers: SEND, its receipt and MESSAGE, each of
//! whose fields is there once, in the order of their numbers, and nothing more. They take no memory.

ghost use Rattle.std.specs.Prelude.{◌≡◌, ◌<◌, ◌≤◌, ◌∷◌, [], length, Some, IfSome};
ghost use Rattle.std.specs.List.{AllByRecursion};
ghost use Rattle.pb_fields.specs.Buffer.{Puts};
ghost use Rattle.pb_fields.specs.Field.{bytes_field};
ghost use Rattle.pb_fields.specs.Front.{IsShortNumber};
ghost use Rattle.pb_fields.specs.Text.{IsText};
ghost use Rattle.pulsar_commands.specs.declared.command.Command.TheVariants as command;
ghost use Rattle.pulsar_commands.specs.declared.kind.Kind.TheVariants as kind;
ghost use Rattle.pulsar_commands.specs.Canonical.{IsPart, IsWritable, body_text, command_text};
ghost use Rattle.pulsar_commands.specs.Parts.{kind_of, parts};
ghost use Rattle.pulsar_commands.specs.Table.{kind_number};
ghost use Rattle.pulsar_commands.specs.Text.{IsCommandText};
ghost use Rattle.pulsar_commands.specs.Usual.{IsHeldText, command_viewed};

use crate::command::Command;
use crate::ids::{id_size, put_id, usual_id};
use crate::kind::Kind;
use crate::table::TYPE;
use geo_base::Position;
use pb_fields::{Buffer, SHORT_HEAD, front_bytes, front_varint, varint_field_size};

/// Bytes of the field of a command's type: its tag and the type's number, which is below 128.
const TYPE_BYTES: usize = 2;

/// A command of the usual form, with the field names of PulsarApi.proto.
#[derive(Clone, Copy)]
pub enum CommandView {
    Send {
        producer_id: u64,
        sequence_id: u64,
        num_messages: u64,
    },
    SendReceipt {
        producer_id: u64,
        sequence_id: u64,
        message_id: Position,
    },
    Message {
        consumer_id: u64,
        message_id: Position,
    },
}

/// The command that the bytes are a text of, where they have the usual form; None says nothing of the bytes.
#[tactic(auto, using(crate::proofs::UsualCommands::usual_command_is))]
pub fn usual_command(bytes: &[u8]) -> Option<CommandView>
    ensures { IfSome result (λ v. IsCommandText bytes.now (command_viewed v)) }
{
    let (number, rest) = front_varint(TYPE, bytes)?;
    let kind = Kind::from_number(number)?;
    match kind {
        Kind::Send => usual_send(own_content(kind.number(), rest)?),
        Kind::SendReceipt => usual_receipt(own_content(kind.number(), rest)?),
        Kind::Message => usual_message(own_content(kind.number(), rest)?),
        _ => None,
    }
}

/// The content of a command's own field, where nothing follows it.
fn own_content(number: u32, bytes: &[u8]) -> Option<&[u8]>
    requires { IsShortNumber number }
    ensures { IfSome result (λ content. IsText bytes.now (bytes_field number content.now ∷ [])) }
{
    let (content, rest) = front_bytes(number, bytes)?;
    if rest.is_empty() { Some(content) } else { None }
}

fn usual_send(content: &[u8]) -> Option<CommandView>
    ensures { IfSome result (λ v. IsHeldText kind.Send content.now (command_viewed v)) }
{
    let (producer_id, rest) = front_varint(1, content)?;
    let (sequence_id, rest) = front_varint(2, rest)?;
    let (num_messages, rest) = front_varint(3, rest)?;
    if rest.is_empty() {
        Some(CommandView::Send {
            producer_id,
            sequence_id,
            num_messages,
        })
    } else {
        None
    }
}

#[tactic(auto, using(crate::proofs::UsualCommands::receipt_is))]
fn usual_receipt(content: &[u8]) -> Option<CommandView>
    ensures { IfSome result (λ v. IsHeldText kind.SendReceipt content.now (command_viewed v)) }
{
    let (producer_id, rest) = front_varint(1, content)?;
    let (sequence_id, rest) = front_varint(2, rest)?;
    let message_id = usual_id(own_content(3, rest)?)?;
    Some(CommandView::SendReceipt {
        producer_id,
        sequence_id,
        message_id,
    })
}

#[tactic(auto, using(crate::proofs::UsualCommands::message_is))]
fn usual_message(content: &[u8]) -> Option<CommandView>
    ensures { IfSome result (λ v. IsHeldText kind.Message content.now (command_viewed v)) }
{
    let (consumer_id, rest) = front_varint(1, content)?;
    let message_id = usual_id(own_content(2, rest)?)?;
    Some(CommandView::Message {
        consumer_id,
        message_id,
    })
}

impl CommandView {
    /// The command's type.
    pub fn kind(self) -> Kind
        ensures { result ≡ kind_of (command_viewed self) }
    {
        match self {
            CommandView::Send { .. } => Kind::Send,
            CommandView::SendReceipt { .. } => Kind::SendReceipt,
            CommandView::Message { .. } => Kind::Message,
        }
    }

    /// The command; takes no memory.
    pub fn to_command(self) -> Command
        ensures { result ≡ command_viewed self }
    {
        match self {
            CommandView::Send {
                producer_id,
                sequence_id,
                num_messages,
            } => Command::Send {
                producer_id,
                sequence_id,
                num_messages,
            },
            CommandView::SendReceipt {
                producer_id,
                sequence_id,
                message_id,
            } => Command::SendReceipt {
                producer_id,
                sequence_id,
                message_id: Some(message_id),
            },
            CommandView::Message {
                consumer_id,
                message_id,
            } => Command::Message {
                consumer_id,
                message_id,
            },
        }
    }

    /// The bytes of its canonical text.
    #[tactic(auto, using(crate::proofs::UsualCommands::command_length))]
    pub fn size(self) -> usize
        ensures size { result ≡ length (command_text (command_viewed self)) }
        ensures few { result < 64 }
    {
        TYPE_BYTES + SHORT_HEAD + self.body_size()
    }

    /// Puts its canonical text, whose size `size` gave, after the bytes of a buffer that has room for it.
    pub fn put(self, out: &mut Buffer, size: usize)
        requires size { size ≡ length (command_text (command_viewed self)) }
        requires few { size < 64 }
        requires room { size ≤ out.old.spare }
        ensures text { Puts out.old (command_text (command_viewed self)) out.new }
        ensures writable { IsWritable (command_viewed self) }
    {
        let number = self.kind().number();
        out.put_varint(TYPE, u64::from(number));
        out.put_head(number, size - (TYPE_BYTES + SHORT_HEAD));
        self.put_body(out);
    }

    /// The bytes of the command's own message.
    #[tactic(auto, using(crate::proofs::UsualCommands::send_length, crate::proofs::UsualCommands::receipt_length, crate::proofs::UsualCommands::message_length))]
    fn body_size(self) -> usize
        ensures size { result ≡ length (body_text (command_viewed self)) }
        ensures few { result < 60 }
    {
        match self {
            CommandView::Send {
                producer_id,
                sequence_id,
                num_messages,
            } => {
                varint_field_size(1, producer_id)
                    + varint_field_size(2, sequence_id)
                    + varint_field_size(3, num_messages)
            }
            CommandView::SendReceipt {
                producer_id,
                sequence_id,
                message_id,
            } => {
                varint_field_size(1, producer_id)
                    + varint_field_size(2, sequence_id)
                    + (SHORT_HEAD + id_size(message_id))
            }
            CommandView::Message {
                consumer_id,
                message_id,
            } => varint_field_size(1, consumer_id) + (SHORT_HEAD + id_size(message_id)),
        }
    }

    /// Puts the fields of the command's own message.
    fn put_body(self, out: &mut Buffer)
        requires { length (body_text (command_viewed self)) ≤ out.old.spare }
        ensures text { Puts out.old (body_text (command_viewed self)) out.new }
        ensures writable { AllByRecursion IsPart (parts (command_viewed self)) }
    {
        match self {
            CommandView::Send {
                producer_id,
                sequence_id,
                num_messages,
            } => put_send(out, producer_id, sequence_id, num_messages),
            CommandView::SendReceipt {
                producer_id,
                sequence_id,
                message_id,
            } => put_receipt(out, producer_id, sequence_id, message_id),
            CommandView::Message {
                consumer_id,
                message_id,
            } => put_message(out, consumer_id, message_id),
        }
    }
}

fn put_send(out: &mut Buffer, producer_id: u64, sequence_id: u64, num_messages: u64)
    requires { length (body_text (command.Send producer_id sequence_id num_messages)) ≤ out.old.spare }
    ensures text { Puts out.old (body_text (command.Send producer_id sequence_id num_messages)) out.new }
    ensures writable { AllByRecursion IsPart (parts (command.Send producer_id sequence_id num_messages)) }
{
    out.put_varint(1, producer_id);
    out.put_varint(2, sequence_id);
    out.put_varint(3, num_messages);
}

fn put_receipt(out: &mut Buffer, producer_id: u64, sequence_id: u64, message_id: Position)
    requires { length (body_text (command.SendReceipt producer_id sequence_id (Some message_id))) ≤ out.old.spare }
    ensures text { Puts out.old (body_text (command.SendReceipt producer_id sequence_id (Some message_id))) out.new }
    ensures writable { AllByRecursion IsPart (parts (command.SendReceipt producer_id sequence_id (Some message_id))) }
{
    out.put_varint(1, producer_id);
    out.put_varint(2, sequence_id);
    put_id(out, 3, message_id);
}

fn put_message(out: &mut Buffer, consumer_id: u64, message_id: Position)
    requires { length (body_text (command.Message consumer_id message_id)) ≤ out.old.spare }
    ensures text { Puts out.old (body_text (command.Message consumer_id message_id)) out.new }
    ensures writable { AllByRecursion IsPart (parts (command.Message consumer_id message_id)) }
{
    out.put_varint(1, consumer_id);
    put_id(out, 2, message_id);
}
