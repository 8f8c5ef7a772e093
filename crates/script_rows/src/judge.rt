//! Lines judged by their columns, in one walk over their words.
ghost use Rattle.std.specs.Prelude.{◌≡◌, ◌+◌, ◌≤◌, find, [], length, None, Some};
ghost use Rattle.script_rows.specs.Judging.{cells_break, heading_breaks, kind_breaks, values_of, word_rules};
ghost use Rattle.script_rows.specs.Names.{nothing_seen};
ghost use Rattle.script_rows.specs.Reading.{lower, step_said, values_in};

use crate::cells::Cells;
use crate::columns::Columns;
use crate::fault::Rule;
use crate::heading::Heading;
use crate::names::Names;
use crate::progress::Progress;
use crate::row::Row;
use crate::seen::Seen;
use crate::value::Value;
use crate::values::step_of;
use geo_base::Step;

impl Names<'_> {
    /// The lowest rule that the words of a line break. Where they break none, what they say stands in the row.
    pub fn read<'b>(
        &self,
        progress: Progress,
        heading: &Heading<'b>,
        row: &mut Row<'b>,
    ) -> Option<Rule>
        requires { row.old ≡ [] }
        ensures broken { result ≡ find (heading_breaks progress self.now heading.now) word_rules }
        ensures values { result ≡ None → values_in self.now heading.now ≡ Some row.new }
    {
        match heading {
            Heading::Unknown => Some(Rule::Word),
            Heading::Formless => Some(Rule::Form),
            Heading::Headed(kind, cells) => {
                let broken = self.read_cells(Columns::of(*kind), cells.copied(), row);
                lower(progress.broken(*kind), broken)
            }
        }
    }

    /// The lowest rule that words in columns break. Where they break none, what they say stands in the row.
    #[tactic(auto, using(crate::proofs::Lowers::lower_none))]
    fn read_cells<'b>(&self, columns: Columns, cells: Cells<'b>, row: &mut Row<'b>) -> Option<Rule>
        requires empty { row.old ≡ [] }
        requires few { length columns ≤ 5 }
        ensures broken { result ≡ find (λ rule. cells_break self.now rule nothing_seen columns cells.entry) word_rules }
        ensures values { result ≡ None → values_of self.now nothing_seen columns cells.entry ≡ Some row.new }
    {
        let (mut left_columns, mut left) = (columns, cells);
        let mut seen = Seen::nothing();
        let mut broken = None;
        while let Some(column) = left_columns.next_column() {
            let Some(word) = left.next_word() else {
                return lower(broken, Some(Rule::Form));
            };
            match self.read_cell(&seen, column, word) {
                Ok(value) => {
                    seen = self.seen_with(seen, column, word, &value);
                    row.push(value);
                }
                Err(rule) => {
                    seen = self.seen_after(&seen, column, word, word);
                    broken = lower(broken, Some(rule));
                }
            }
        }
        match left.next_word() {
            Some(_) => lower(broken, Some(Rule::Form)),
            None => broken,
        }
    }
}

impl Heading<'_> {
    /// The step that a line of these values schedules; None where it schedules none.
    pub fn step(&self, values: &[Value<'_>]) -> Option<Step>
        ensures { result ≡ step_said self.now values.now }
    {
        match self {
            Heading::Headed(kind, _) if kind.schedules() => Some(step_of(*kind, values)),
            _ => None,
        }
    }
}

/// The lower of two rules, where there are any.
fn lower(left: Option<Rule>, right: Option<Rule>) -> Option<Rule>
    ensures { result ≡ lower left right }
{
    match (left, right) {
        (Some(left), Some(right)) if left.number() > right.number() => Some(right),
        (Some(left), _) => Some(left),
        (None, right) => right,
    }
}
