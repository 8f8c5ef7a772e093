//! The lines of a script.
ghost use Rattle.std.specs.Prelude.{◌≡◌, ◌==◌, ◌&&◌, false, [], ◌∷◌, MatchOption, IfNone, IfSome, position};
ghost use Rattle.std.specs.List.{list_all};
ghost use Rattle.script_rows.specs.NameWords.{cut_by};
ghost use Rattle.script_text.specs.Drafts.{StartsWithStep, says_step};
ghost use Rattle.script_text.specs.Lines.{lines_of, is_skipped, is_printable};

use crate::steps::says_step;
use memchr::memchr;
use std::marker::Model;

/// A line of a script.
#[derive(Drop)]
pub(crate) struct TextLine<'a> {
    bytes: &'a [u8],
    ended: bool,
}

impl<'a> Model for TextLine<'a> {
    ghost use Rattle.script_text.specs.Lines.{TextLine};

    ghost Value = { TextLine };

    ghost view = { λ l. record { bytes = l.bytes.now; ended = l.ended } };
}

impl<'a> TextLine<'a> {
    /// The line's bytes, without its line feed.
    pub(crate) fn bytes(&self) -> &'a [u8]
        ensures { result.now ≡ self.now.bytes }
    {
        self.bytes
    }

    /// Whether a line feed ends it.
    pub(crate) fn is_ended(&self) -> bool
        ensures { result ≡ self.now.ended }
    {
        self.ended
    }

    /// Whether it is empty or a comment.
    pub(crate) fn is_skipped(&self) -> bool
        ensures { result ≡ is_skipped self.now.bytes }
    {
        match self.bytes {
            [] => true,
            [first, ..] => *first == b'#',
        }
    }

    /// Whether each of its bytes is printable, and a line feed ends it.
    pub(crate) fn is_plain(&self) -> bool
        ensures { result ≡ (list_all is_printable self.now.bytes && self.now.ended) }
    {
        self.is_printable() && self.ended
    }

    /// Whether each of its bytes is printable.
    fn is_printable(&self) -> bool
        ensures { result ≡ list_all is_printable self.now.bytes }
    {
        self.bytes.iter().all(|b| is_printable_byte(*b))
    }
}

fn is_printable_byte(byte: u8) -> bool
    ensures { result ≡ is_printable byte }
{
    matches!(byte, b' '..=b'~')
}

/// The lines of a script that are left.
#[derive(Drop)]
pub(crate) struct Lines<'a> {
    rest: &'a [u8],
}

impl<'a> Model for Lines<'a> {
    ghost use Rattle.std.specs.Prelude.{List};
    ghost use Rattle.script_text.specs.Lines.{TextLine, lines_of};

    ghost Value = { List TextLine };

    ghost view = { λ l. lines_of l.rest.now };
}

impl<'a> Lines<'a> {
    /// The lines of a script.
    pub(crate) fn new(bytes: &'a [u8]) -> Lines<'a>
        ensures { result ≡ lines_of bytes.now }
    {
        Lines { rest: bytes }
    }

    /// The next line.
    #[tactic(auto, using(crate::proofs::Cuts::lines_cut, crate::proofs::Cuts::lines_uncut))]
    pub(crate) fn next_line(&mut self) -> Option<TextLine<'a>>
        ensures { MatchOption result ((self.old ≡ []) × (self.new ≡ [])) (λ line. self.old ≡ line ∷ self.new) }
    {
        if self.rest.is_empty() {
            return None;
        }
        match cut_line(self.rest) {
            Some((bytes, rest)) => {
                self.rest = rest;
                Some(TextLine { bytes, ended: true })
            }
            None => {
                let bytes = self.rest;
                self.rest = &[];
                Some(TextLine {
                    bytes,
                    ended: false,
                })
            }
        }
    }

    /// The same lines.
    pub(crate) fn copied(&self) -> Lines<'a>
        ensures { result ≡ self.now }
    {
        Lines { rest: self.rest }
    }

    /// The next line, unless it schedules a step.
    pub(crate) fn next_declaration(&mut self) -> Option<TextLine<'a>>
        ensures line { IfSome result (λ line. (self.old ≡ line ∷ self.new) × (says_step line ≡ false)) }
        ensures none { IfNone result (self.new ≡ self.old) }
        ensures end { IfNone result (StartsWithStep self.old) }
    {
        let before = self.copied();
        match self.next_line() {
            Some(line) => {
                if says_step(&line) {
                    *self = before;
                    None
                } else {
                    Some(line)
                }
            }
            None => {
                *self = before;
                None
            }
        }
    }
}

/// The bytes before the first line feed and those after it.
#[tactic(auto, using(crate::proofs::Cuts::cut_found, crate::proofs::Cuts::cut_none))]
fn cut_line(bytes: &[u8]) -> Option<(&[u8], &[u8])>
    ensures { MatchOption result
        (cut_by 10 bytes.now ≡ bytes.now ∷ [])
        (λ parts. cut_by 10 bytes.now ≡ parts.0.now ∷ cut_by 10 parts.1.now) }
{
    let end = line_end(bytes)?;
    Some((&bytes[..end], &bytes[end + 1..]))
}

/// How many bytes are looked through at once: few lines of a schedule are longer.
const NEAR: usize = 32;

/// The place of the first line feed.
#[tactic(auto, using(crate::proofs::Feeds::found_behind, crate::proofs::Feeds::none_behind))]
fn line_end(bytes: &[u8]) -> Option<usize>
    ensures { result ≡ position (λ b. b == 10) bytes.now }
{
    let mut seen = 0;
    let mut rest = bytes;
    while let Some((near, behind)) = rest.split_first_chunk::<NEAR>() {
        if let Some(place) = memchr(b'\n', near) {
            return Some(seen + place);
        }
        seen += NEAR;
        rest = behind;
    }
    match feed_in(rest) {
        Some(place) => Some(seen + place),
        None => None,
    }
}

/// The same, of few bytes.
fn feed_in(bytes: &[u8]) -> Option<usize>
    ensures { result ≡ position (λ b. b == 10) bytes.now }
{
    bytes.iter().position(|b| *b == b'\n')
}
