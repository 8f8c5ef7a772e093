//! What the words of a line say.
ghost use Rattle.std.specs.Prelude.{◌≡◌, ◌<◌, [], ◌∷◌, ◌++◌, length};

use crate::value::Value;
use arrayvec::ArrayVec;
use std::marker::Model;

/// How many columns a line has at most.
pub(crate) const COLUMNS: usize = 5;

/// What the words of a line say in its columns, one value a word.
#[derive(Drop)]
pub struct Row<'a> {
    values: ArrayVec<Value<'a>, COLUMNS>,
}

impl<'a> Model for Row<'a> {
    ghost use Rattle.std.specs.Prelude.{List};
    ghost use Rattle.script_rows.specs.declared.value.Value.{Value as Said};

    ghost Value = { List Said };

    ghost view = { λ r. r.values.items };
}

impl<'a> Row<'a> {
    /// No word.
    pub fn empty() -> Row<'a>
        ensures { result ≡ [] }
    {
        Row {
            values: ArrayVec::new(),
        }
    }

    /// The values.
    pub fn as_slice(&self) -> &[Value<'a>]
        ensures { result.now ≡ self.now }
    {
        self.values.as_slice()
    }

    /// One more value.
    pub(crate) fn push(&mut self, value: Value<'a>)
        requires { length self.old < 5 }
        ensures { self.new ≡ self.old ++ value.entry ∷ [] }
    {
        self.values.push(value);
    }
}
