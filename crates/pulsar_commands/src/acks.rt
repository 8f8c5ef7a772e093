//! ACKs of the usual form: the consumer's number, the type, and then the positions one after another, and nothing more. One names many
//! positions, so they are read into one list, and written after a size that was counted before.

ghost use Rattle.std.specs.Prelude.{◌≡◌, ◌<◌, ◌≤◌, ◌*◌, ◌∷◌, [], length, map, IfOk, IfSome};
ghost use Rattle.std.specs.List.{AllByRecursion};
ghost use Rattle.pb_fields.specs.Buffer.{Puts};
ghost use Rattle.pb_fields.specs.Canonical.{text};
ghost use Rattle.pb_fields.specs.Field.{varint_field};
ghost use Rattle.pb_fields.specs.Front.{Fronts};
ghost use Rattle.pulsar_commands.specs.declared.kind.Kind.TheVariants as kind;
ghost use Rattle.pulsar_commands.specs.Canonical.{IsPosition, IsWritable, body_text, command_text, id_field};
ghost use Rattle.pulsar_commands.specs.Parts.{ack_number};
ghost use Rattle.pulsar_commands.specs.Usual.{FrontIds, IsHeldText, ack_viewed};

use crate::append::consumer::ack_type_number;
use crate::command::{Command, PositionList};
use crate::ids::{id_size, put_id, usual_id};
use crate::kind::Kind;
use crate::table::{MESSAGE_ID, TYPE};
use geo_base::limits::ACKED_AT_ONCE;
use geo_base::{AckKind, Memory, Position};
use pb_fields::{Buffer, SHORT_HEAD, front_bytes, front_varint, varint_field_size};
use std::alloc::Global;

/// The fewest bytes of a position in an ACK: its head, and two numbers of a byte each after their tags.
const LEAST_ID_BYTES: usize = 6;

/// An ACK's own message has fewer bytes: at most 24 of each of `ACKED_AT_ONCE` positions, and 22 of the two numbers before them.
pub const ACK_BODY_BOUND: usize = 5_000_000;

/// Its canonical text has fewer bytes: what stands before its own message has at most a hundred.
pub const ACK_BOUND: usize = 5_000_100;

/// The ACK whose own message the content is, where that has the usual form; None says nothing of the content. `Memory` where there is
/// no room for its positions.
#[tactic(auto, using(crate::proofs::UsualAcks::ack_is))]
pub(crate) fn usual_ack(alloc: Global, content: &[u8]) -> Result<Option<Command>, Memory>
    ensures { IfOk result (λ c. IfSome c (IsHeldText kind.Ack content.now)) }
{
    let Some((consumer_id, ack_type, rest)) = ack_front(content) else {
        return Ok(None);
    };
    match usual_ids(alloc, rest)? {
        Some(message_id) => Ok(Some(Command::Ack {
            consumer_id,
            ack_type,
            message_id,
        })),
        None => Ok(None),
    }
}

/// The consumer's number and the type, and the bytes after them.
#[tactic(auto, using(crate::proofs::UsualAcks::front_is))]
fn ack_front(content: &[u8]) -> Option<(u64, AckKind, &[u8])>
    ensures { IfSome result (λ x. Fronts content.now (varint_field 1 x.0 ∷ varint_field 2 (ack_number x.1) ∷ []) x.2.now) }
{
    let (consumer_id, rest) = front_varint(1, content)?;
    let (number, rest) = front_varint(2, rest)?;
    let ack_type = ack_type_of(number)?;
    Some((consumer_id, ack_type, rest))
}

/// The value of ack_type that a number stands for, where it is one.
fn ack_type_of(number: u64) -> Option<AckKind>
    ensures { IfSome result (λ k. number ≡ ack_number k) }
{
    match number {
        0 => Some(AckKind::Individual),
        1 => Some(AckKind::Cumulative),
        _ => None,
    }
}

/// The positions whose fields the bytes are, one after another; None says nothing of the bytes.
#[tactic(auto, using(crate::proofs::UsualAcks::no_ids, crate::proofs::UsualAcks::more_ids))]
fn usual_ids(alloc: Global, bytes: &[u8]) -> Result<Option<PositionList>, Memory>
    ensures { IfOk result (λ ps. IfSome ps (λ ps. FrontIds bytes.now ps [])) }
{
    let most = bytes.len() / LEAST_ID_BYTES;
    let mut positions = Vec::with_capacity(alloc, most)?;
    let mut rest = bytes;
    while positions.len() < most && !rest.is_empty() {
        let Some((position, after)) = front_id(rest) else {
            return Ok(None);
        };
        positions.push_reserved(position);
        rest = after;
    }
    if rest.is_empty() {
        Ok(Some(PositionList::from_vec(positions)))
    } else {
        Ok(None)
    }
}

/// The position in the field at the front of the bytes, and the bytes after it.
#[tactic(auto, using(crate::proofs::UsualAcks::one_id))]
fn front_id(bytes: &[u8]) -> Option<(Position, &[u8])>
    ensures { IfSome result (λ x. FrontIds bytes.now (x.0 ∷ []) x.1.now) }
{
    let (content, after) = front_bytes(MESSAGE_ID, bytes)?;
    let position = usual_id(content)?;
    Some((position, after))
}

/// An ACK, its positions where they stand.
#[derive(Clone, Copy)]
pub struct AckView<'a> {
    /// The number of the consumer.
    pub consumer_id: u64,
    /// Whether it is for the positions alone or for all up to them.
    pub ack_type: AckKind,
    /// The positions, at most `ACKED_AT_ONCE`.
    pub message_id: &'a [Position],
}

impl<'a> AckView<'a> {
    /// The bytes of the command's own message.
    #[tactic(auto, using(crate::proofs::UsualAcks::body_length))]
    pub fn body_size(self) -> usize
        requires { length self.message_id.now ≤ ACKED_AT_ONCE }
        ensures size { result ≡ length (body_text (ack_viewed self.entry)) }
        ensures few { result < ACK_BODY_BOUND }
    {
        varint_field_size(1, self.consumer_id)
            + varint_field_size(2, ack_type_number(self.ack_type))
            + ids_size(self.message_id)
    }

    /// The bytes of its canonical text, of which so many are its own message.
    #[tactic(auto, using(crate::proofs::UsualAcks::ack_length))]
    pub fn size(self, body: usize) -> usize
        requires body { body ≡ length (body_text (ack_viewed self)) }
        requires few { body < ACK_BODY_BOUND }
        ensures size { result ≡ length (command_text (ack_viewed self.entry)) }
        ensures few { result < ACK_BOUND }
    {
        let number = Kind::Ack.number();
        // A head is as long as the field of its length.
        varint_field_size(TYPE, u64::from(number)) + varint_field_size(number, body as u64) + body
    }

    /// Puts its canonical text, of which so many bytes are its own message, after the bytes of a buffer that has room for it.
    pub fn put(self, out: &mut Buffer, body: usize)
        requires body { body ≡ length (body_text (ack_viewed self)) }
        requires few { body < ACK_BODY_BOUND }
        requires room { length (command_text (ack_viewed self)) ≤ out.old.spare }
        ensures text { Puts out.old (command_text (ack_viewed self.entry)) out.new }
        ensures writable { IsWritable (ack_viewed self.entry) }
    {
        let number = Kind::Ack.number();
        out.put_varint(TYPE, u64::from(number));
        out.put_head(number, body);
        out.put_varint(1, self.consumer_id);
        out.put_varint(2, ack_type_number(self.ack_type));
        put_ids(out, self.message_id);
    }
}

/// Puts the fields of positions in an ACK.
fn put_ids(out: &mut Buffer, positions: &[Position])
    requires { length (text (map (id_field MESSAGE_ID) positions.now)) ≤ out.old.spare }
    ensures text { Puts out.old (text (map (id_field MESSAGE_ID) positions.now)) out.new }
    ensures writable { AllByRecursion IsPosition positions.now }
{
    for position in positions {
        put_id(out, MESSAGE_ID, *position);
    }
}

/// The bytes of the fields of positions in an ACK.
#[tactic(auto, using(crate::proofs::UsualAcks::ids_more))]
fn ids_size(positions: &[Position]) -> usize
    requires { length positions.now ≤ ACKED_AT_ONCE }
    ensures size { result ≡ length (text (map (id_field MESSAGE_ID) positions.now)) }
    ensures few { result ≤ 24 * length positions.now }
{
    let mut size = 0;
    for position in positions {
        size += SHORT_HEAD + id_size(*position);
    }
    size
}
