//! What words say in their columns.
ghost use Rattle.std.specs.Prelude.{◌≡◌};

use crate::NameWord;
use geo_base::{Position, Targets};
use std::marker::Model;

/// A text of a line.
#[derive(Drop)]
pub struct TextWord<'a> {
    text: &'a [u8],
}

impl<'a> Model for TextWord<'a> {
    ghost use Rattle.std.specs.Prelude.{List, ℕ};

    ghost Value = { List ℕ };

    ghost view = { λ t. t.text.now };
}

impl<'a> TextWord<'a> {
    /// A text of these bytes.
    pub(crate) fn new(text: &'a [u8]) -> TextWord<'a>
        ensures { result ≡ text.now }
    {
        TextWord { text }
    }

    /// Its bytes.
    pub fn as_bytes(&self) -> &'a [u8]
        ensures { result.now ≡ self.now }
    {
        self.text
    }
}

/// What a word says in its column.
#[derive(Drop)]
pub enum Value<'a> {
    /// the number of something declared, a choice, or a number
    Item(u32),
    /// a sequence id
    Seq(u64),
    /// a position, or the end
    PositionOrEnd(Option<Position>),
    /// the clusters that a list names
    Targets(Targets),
    /// a key
    Key(Option<NameWord<'a>>),
    /// a name itself
    Name(NameWord<'a>),
    /// a text
    Text(TextWord<'a>),
}

impl Default for Value<'_> {
    /// A place of a row that no word fills.
    fn default() -> Self {
        Value::Item(0)
    }
}
