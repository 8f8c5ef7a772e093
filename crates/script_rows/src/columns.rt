//! The columns of a row that are left.
ghost use Rattle.std.specs.Prelude.{◌≡◌, [], ◌∷◌, MatchOption};
ghost use Rattle.script_rows.specs.Rows.{columns_of};

use crate::column::Column;
use crate::kind::Kind;
use std::marker::Model;

/// The columns that are left, one of them perhaps put before the others.
#[derive(Drop)]
pub(crate) struct Columns {
    front: Option<Column>,
    rest: &'static [Column],
}

impl Model for Columns {
    ghost use Rattle.std.specs.Prelude.{List};
    ghost use Rattle.script_rows.specs.declared.column.Column.{Column};
    ghost use Rattle.script_rows.specs.Rows.{columns_after};

    ghost Value = { List Column };

    ghost view = { λ c. columns_after c.front c.rest.now };
}

impl Columns {
    /// These columns.
    pub(crate) fn new(rest: &'static [Column]) -> Columns
        ensures { result ≡ rest.now }
    {
        Columns { front: None, rest }
    }

    /// The columns of a kind of line.
    pub(crate) fn of(kind: Kind) -> Columns
        ensures { result ≡ columns_of kind }
    {
        match kind {
            Kind::Other(line) => Columns::new(line.columns()),
            Kind::Do(act) => Columns {
                front: Some(Column::Doer(act.role())),
                rest: act.columns(),
            },
            Kind::Event(event) => Columns::new(event.columns()),
            Kind::Halt(event) => Columns {
                front: Some(Column::Count { least: 0, most: 8 }),
                rest: event.columns(),
            },
        }
    }

    /// The same columns.
    pub(crate) fn copied(&self) -> Columns
        ensures { result ≡ self.now }
    {
        Columns {
            front: self.front,
            rest: self.rest,
        }
    }

    /// The next column.
    pub(crate) fn next_column(&mut self) -> Option<Column>
        ensures { MatchOption result (self.old ≡ []) (λ column. self.old ≡ column ∷ self.new) }
    {
        match self.front {
            Some(column) => {
                self.front = None;
                Some(column)
            }
            None => match self.rest {
                [] => None,
                [column, rest @ ..] => {
                    self.rest = rest;
                    Some(*column)
                }
            },
        }
    }
}
