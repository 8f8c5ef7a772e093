//! A text that owns its bytes.
ghost use Rattle.std.specs.Prelude.{◌≡◌, IfOk, string_bytes};

use crate::limits::NAME_BYTES;
use crate::memory::Memory;
use arrayvec::ArrayString;
use std::alloc::Global;
use std::marker::Model;

/// Bytes of the longest text that takes no memory of its own: a name of a script is such a text (own).
const SHORT: usize = NAME_BYTES;

/// A text in UTF-8, which contracts see as the list of its bytes. A short one takes no memory of its own: it stands in `short`, and
/// `long` is empty; a long one stands in `long`. There are no two forms by cases, since a proof goes through the cases of all that is
/// dropped.
#[derive(Drop)]
pub struct Text {
    short: ArrayString<SHORT>,
    long: String,
}

impl Model for Text {
    ghost use Rattle.std.specs.Prelude.{◌++◌, List, ℕ, string_bytes};
    ghost use Rattle.geo_base.specs.Texts.{StandsOnce};

    ghost Value = { List ℕ };

    ghost view = { λ t. t.short.bytes ++ string_bytes t.long };

    ghost invariant = { λ t. StandsOnce t.short.bytes (string_bytes t.long) };
}

impl Text {
    /// A copy of a text.
    pub fn from_str(alloc: Global, text: &str) -> Result<Text, Memory>
        ensures { IfOk result (λ t. t ≡ text.now) }
    {
        match ArrayString::from(text) {
            Ok(short) => Ok(Text {
                short,
                long: String::new(alloc),
            }),
            Err(_) => {
                let long = String::from_str(alloc, text)?;
                Ok(Text {
                    short: ArrayString::new(),
                    long,
                })
            }
        }
    }

    /// The text of a string; takes no memory.
    pub fn from_string(text: String) -> Text
        ensures { result ≡ string_bytes text }
    {
        Text {
            short: ArrayString::new(),
            long: text,
        }
    }

    /// The text.
    #[tactic(auto, using(crate::proofs::Texts::all_long, crate::proofs::Texts::all_short))]
    pub fn as_str(&self) -> &str
        ensures { result.now ≡ self.now }
    {
        if self.short.as_str().is_empty() {
            self.long.as_str()
        } else {
            self.short.as_str()
        }
    }

    /// The text's bytes.
    pub fn as_bytes(&self) -> &[u8]
        ensures { result.now ≡ self.now }
    {
        self.as_str().as_bytes()
    }

    /// A copy.
    pub fn copy(&self, alloc: Global) -> Result<Text, Memory>
        ensures { IfOk result (λ t. t ≡ self.now) }
    {
        Text::from_str(alloc, self.as_str())
    }
}
