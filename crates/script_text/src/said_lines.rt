//! The lines of a text that say its steps.
ghost use Rattle.std.specs.Prelude.{◌≡◌, ◌+◌, ◌≤◌, [], ◌∷◌, drop, length, MatchOption};
ghost use Rattle.script_text.specs.Lines.{lines_of};
ghost use Rattle.script_text.specs.Said.{said_from};

use crate::lines::Lines;
use std::marker::Model;

/// A line that says a step.
#[derive(Drop)]
pub struct SaidLine<'a> {
    line: u64,
    bytes: &'a [u8],
}

impl<'a> Model for SaidLine<'a> {
    ghost use Rattle.script_text.specs.Said.{Said};

    ghost Value = { Said };

    ghost view = { λ l. record { line = l.line; bytes = l.bytes.now } };
}

impl<'a> SaidLine<'a> {
    /// Its number in its text, from 1.
    pub fn line(&self) -> u64
        ensures { result ≡ self.now.line }
    {
        self.line
    }

    /// Its bytes, without its line feed.
    pub fn bytes(&self) -> &'a [u8]
        ensures { result.now ≡ self.now.bytes }
    {
        self.bytes
    }
}

/// The lines of a text that are left, of those that say its steps.
#[derive(Drop)]
pub struct SaidLines<'a> {
    lines: Lines<'a>,
    before: u64,
}

impl<'a> Model for SaidLines<'a> {
    ghost use Rattle.std.specs.Prelude.{◌+◌, ◌<◌, ◌^◌, List, length};
    ghost use Rattle.script_text.specs.Said.{Said, said_from};

    ghost Value = { List Said };

    ghost view = { λ l. said_from (l.before + 1) l.lines };

    // a line has a number
    ghost invariant = { λ l. l.before + length l.lines < 2 ^ 64 };
}

impl<'a> SaidLines<'a> {
    /// Those of a text from after its first so many lines on, which say nothing else; none where it has fewer lines.
    #[tactic(auto, using(crate::proofs::LineCounts::length_lines_of))]
    pub fn behind(text: &'a [u8], lines: u64) -> SaidLines<'a>
        ensures { result ≡ said_from (lines + 1) (drop lines (lines_of text.now)) }
    {
        let mut rest = Lines::new(text);
        let before = skip_lines(&mut rest, lines);
        SaidLines {
            lines: rest,
            before,
        }
    }

    /// The next one.
    pub fn next_said(&mut self) -> Option<SaidLine<'a>>
        ensures { MatchOption result ((self.old ≡ []) × (self.new ≡ [])) (λ said. self.old ≡ said ∷ self.new) }
    {
        while let Some(line) = self.lines.next_line() {
            self.before += 1;
            if !line.is_skipped() {
                return Some(SaidLine {
                    line: self.before,
                    bytes: line.bytes(),
                });
            }
        }
        None
    }
}

/// Reads over so many lines, or all where there are fewer; how many it read over.
#[tactic(auto, using(crate::proofs::Skipping::skip_one, crate::proofs::Skipping::skip_none))]
fn skip_lines(lines: &mut Lines<'_>, count: u64) -> u64
    ensures rest { lines.new ≡ drop count lines.old }
    ensures counted { result + length lines.new ≤ length lines.old }
    ensures numbered { said_from (result + 1) lines.new ≡ said_from (count + 1) lines.new }
{
    let mut before = 0;
    while before < count {
        if lines.next_line().is_none() {
            return before;
        }
        before += 1;
    }
    before
}
