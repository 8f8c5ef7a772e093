//! Taking a field's value out of its list, so that a text need not be copied.

ghost use Rattle.std.specs.Prelude.{◌≡◌, ◌≢◌, false, is_none, MatchOption, List, None, IsUtf8, ℕ};
ghost use Rattle.pb_fields.specs.declared.field.Value.TheVariants as value;
ghost use Rattle.pb_fields.specs.declared.message.Row.{Row};
ghost use Rattle.pb_fields.specs.Message.{IsLastAt, IsTaken, last_value, row_of, unknown, values};

use crate::field::{Field, FieldList, Value};
use geo_base::Text;
use std::mem;

impl Value {
    /// The content as a text of its own, where it is UTF-8. It takes no memory.
    pub fn into_text(self) -> Option<Text>
        ensures { MatchOption result ((b : List ℕ) → IsUtf8 b → self ≢ value.Bytes b) (λ b. self ≡ value.Bytes b) }
    {
        match self {
            Value::Bytes(content) => {
                let text = String::from_utf8(content.into_vec()).ok()?;
                Some(Text::from_string(text))
            }
            _ => None,
        }
    }
}

/// Takes the last value of a number, the one that counts where the field is not repeated, and leaves a 0 in its place. All other
/// fields stay, so what other numbers say does, and so do the fields that a table with that number does not name. Without a value
/// of that number nothing changes.
pub fn take_last(fields: &mut FieldList, number: u32) -> Option<Value>
    ensures taken { result ≡ last_value number fields.old }
    ensures left { MatchOption result (fields.new ≡ fields.old) (λ v. IsTaken number fields.old fields.new) }
    ensures others { (n : ℕ) → n ≢ number → values n fields.new ≡ values n fields.old }
    ensures unknown { (rows : List Row) → is_none (row_of rows number) ≡ false → unknown rows fields.new ≡ unknown rows fields.old }
{
    let place = last_place(fields.as_slice(), number)?;
    Some(mem::replace(&mut fields.fields[place].value, Value::Varint(0)))
}

/// Where the last value of a number stands.
fn last_place(fields: &[Field], number: u32) -> Option<usize>
    ensures { MatchOption result (last_value number fields.now ≡ None) (IsLastAt number fields.now fields.now) }
{
    let mut last = None;
    for (place, field) in fields.iter().enumerate() {
        if field.number == number {
            last = Some(place);
        }
    }
    last
}
