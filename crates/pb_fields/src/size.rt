//! How many bytes canonical texts have, so that memory for a whole message is asked for once. The fields' numbers are below 16, so
//! that a tag is one byte.

ghost use Rattle.std.specs.Prelude.{◌≡◌, ◌<◌, ◌≤◌, length, IfSome, MatchOption};
ghost use Rattle.pb_fields.specs.Canonical.{field_text, varint};
ghost use Rattle.pb_fields.specs.Field.{bytes_field, varint_field};
ghost use Rattle.pb_fields.specs.Front.{IsShortNumber};

/// A number below this one is a varint of one byte (Protocol Buffers encoding, "Base 128 Varints").
pub const SHORT: usize = 0x80;

/// What one byte of a varint holds: seven bits.
const GROUP: u64 = 0x80;

/// What precedes the content of a field: its tag and a length below `SHORT`, a byte each.
pub const SHORT_HEAD: usize = 2;

/// The bytes of the field of a varint; at most eleven.
#[tactic(auto, using(crate::proofs::Sizes::length_varint_field))]
pub fn varint_field_size(number: u32, value: u64) -> usize
    requires { IsShortNumber number }
    ensures size { result ≡ length (field_text (varint_field number value)) }
    ensures few { result < 12 }
{
    1 + varint_size(value)
}

/// The bytes of the field of a content that is shorter than `SHORT`; None exactly where it is not.
#[tactic(auto, using(crate::proofs::Sizes::length_bytes_field))]
pub fn short_field_size(number: u32, content: &[u8]) -> Option<usize>
    requires { IsShortNumber number }
    ensures size { MatchOption result (SHORT ≤ length content.now) (λ n. n ≡ length (field_text (bytes_field number content.now))) }
    ensures few { IfSome result (λ n. n < 130) }
{
    if content.len() < SHORT {
        Some(SHORT_HEAD + content.len())
    } else {
        None
    }
}

/// The bytes of the shortest varint of a number: a byte for seven bits, at most ten.
#[tactic(auto, using(crate::proofs::Sizes::length_small, crate::proofs::Sizes::length_more, crate::proofs::Sizes::length_most))]
fn varint_size(number: u64) -> usize
    ensures size { result ≡ length (varint number) }
    ensures few { result < 11 }
{
    if number < GROUP {
        return 1;
    }
    1 + varint_size(number / GROUP)
}
