//! The chances of a run on threads.
ghost use Rattle.std.specs.Prelude.{◌≡◌};
ghost use Rattle.script_text.specs.Adding.{chance_of};

use script_rows::{Value, item_at};

/// `chance NUMBER LOST TWICE RESTART`: the number that draws come from, and of a thousand packets how many are lost and how
/// many come twice, and of a thousand turns of a broker in how many it restarts.
#[derive(Clone, Copy, Debug, Drop, PartialEq, Eq)]
pub struct Chance {
    pub number: u32,
    pub lost: u32,
    pub twice: u32,
    pub restart: u32,
}

/// The chances that the values of a row say.
pub(crate) fn chance_of(values: &[Value<'_>]) -> Chance
    ensures { result ≡ chance_of values.now }
{
    Chance {
        number: item_at(values, 0),
        lost: item_at(values, 1),
        twice: item_at(values, 2),
        restart: item_at(values, 3),
    }
}
