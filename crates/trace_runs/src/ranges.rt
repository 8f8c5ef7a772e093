//! The indexes that a cursor gained, as ranges.
ghost use Rattle.std.specs.Prelude.{◌≡◌, ◌++◌, ◌∷◌, [], if◌then◌else◌, OnOk, OnErr, take, length};
ghost use Rattle.geo_base.specs.TraceText.{ranges_of, shown_range, shown_ranges};
ghost use Rattle.trace_runs.specs.Ranges.{as_shown};

use cursor_acks::{Cursor, IndexRange, RangeList};
use geo_base::{Blob, Memory};
use report_lines::add_number;

/// Ranges of indexes that ascend, with a gap between each two, with commas; `-` where there is none.
pub(crate) fn add_ranges(lines: &mut Blob, gained: &Cursor) -> Result<(), Memory>
    ensures ok { OnOk result (lines.new ≡ lines.old ++ shown_ranges (ranges_of gained.now.indexes)) }
    ensures err { OnErr result (take (length lines.old) lines.new ≡ lines.old) }
{
    gained.is_told_by_ranges();
    add_all(lines, gained.ranges())
}

fn add_all(lines: &mut Blob, ranges: &RangeList) -> Result<(), Memory>
    ensures ok { OnOk result (lines.new ≡ lines.old ++ shown_ranges (as_shown ranges.now.list)) }
    ensures err { OnErr result (take (length lines.old) lines.new ≡ lines.old) }
{
    let mut rest = ranges.iter();
    let Some(first) = rest.next() else {
        return lines.append(b"-");
    };
    add_range(lines, first)?;
    for range in rest {
        lines.append(b",")?;
        add_range(lines, range)?;
    }
    Ok(())
}

fn add_range(lines: &mut Blob, range: IndexRange) -> Result<(), Memory>
    ensures ok { OnOk result (lines.new ≡ lines.old ++ shown_range (record { first = range.first; last = range.last })) }
    ensures err { OnErr result (take (length lines.old) lines.new ≡ lines.old) }
{
    add_number(lines, range.first)?;
    lines.append(b"-")?;
    add_number(lines, range.last)
}
