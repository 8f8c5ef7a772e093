//! Steps of lines that were read before: the events of a schedule name a few nodes again and again, and a line schedules the same
//! step each time that it stands there.
ghost use Rattle.std.specs.Prelude.{◌≡◌, ◌<◌, ◌≤◌, length, All, Contains, IfOk, IfSome, Some};
ghost use Rattle.script_text.specs.Recent.{IsNoted, IsNothing};

use crate::form::Short;
use crate::line_ends::{first_eight, first_four, is_same, last_eight, last_four};
use geo_base::{Memory, Step};
use std::alloc::Global;
use std::marker::Model;

/// How many lines are kept, one for each number that 12 bits write (own): a script names hundreds of different steps, and two
/// of them should seldom share a place.
const PLACES: usize = 4096;

/// The bits of 64 above which the 12 of a place stand.
const PLACE_SHIFT: u32 = 52;

/// 2^64 over the golden ratio: the upper bits of a product with it depend on each bit of the other number (multiplicative
/// hashing, after Knuth).
const SPREAD: u64 = 0x9e37_79b9_7f4a_7c15;

/// A line without its line feed, and the step that it schedules; none where no line was noted.
#[derive(Drop)]
struct RecentLine<'a> {
    line: &'a [u8],
    step: Option<Short>,
}

impl<'a> Model for RecentLine<'a> {
    ghost use Rattle.script_text.specs.Recent.{Kept};

    ghost Value = { Kept };

    ghost view = { λ p. record { line = p.line.now; step = p.step } };
}

impl<'a> RecentLine<'a> {
    /// The step of a line, where it is this one.
    fn step_of(&self, line: &[u8]) -> Option<&Short>
        ensures { IfSome result (λ s. self.now ≡ record { line = line.now; step = Some s.now }) }
    {
        if is_same(self.line, line) {
            self.step.as_ref()
        } else {
            None
        }
    }
}

/// The lines that were read last.
#[derive(Drop)]
pub(crate) struct Recent<'a> {
    places: Vec<RecentLine<'a>>,
}

impl<'a> Model for Recent<'a> {
    ghost use Rattle.std.specs.Prelude.{◌≡◌, List, length};
    ghost use Rattle.script_text.specs.Recent.{Kept};

    ghost Value = { List Kept };

    ghost view = { λ r. r.places.items };

    ghost invariant = { λ r. length r.places.items ≡ 4096 };
}

impl<'a> Recent<'a> {
    /// No line. An `Err` is want of memory.
    #[tactic(auto, using(crate::proofs::RecentLines::one_more, crate::proofs::RecentLines::none_yet))]
    pub(crate) fn new(alloc: Global) -> Result<Recent<'a>, Memory>
        ensures { IfOk result (All IsNothing) }
    {
        let mut places = Vec::new(alloc);
        places.reserve_exact(PLACES)?;
        for _place in 0..PLACES {
            places.push(RecentLine {
                line: &[],
                step: None,
            })?;
        }
        Ok(Recent { places })
    }

    /// The step of a line, where it was noted and no line after it at its place.
    pub(crate) fn find(&self, line: &[u8]) -> Option<&Short>
        ensures { IfSome result (λ s. Contains self.now (record { line = line.now; step = Some s.now })) }
    {
        self.places[place_of(line)].step_of(line)
    }

    /// A line was read that schedules a step. It is noted if the step has a short form, as nearly each has.
    pub(crate) fn note(&mut self, line: &'a [u8], step: &Step)
        ensures { IsNoted self.old self.new (record { line = line.now; step = Some step.now }) }
    {
        if let Some(short) = Short::of(step) {
            self.places[place_of(line)] = RecentLine {
                line,
                step: Some(short),
            };
        }
    }
}

/// The place of a line.
pub(crate) fn place_of(line: &[u8]) -> usize
    ensures { result < PLACES }
{
    (number_of(line).wrapping_mul(SPREAD) >> PLACE_SHIFT) as usize
}

/// A number of a line: its first eight bytes and its last sixteen, so that different lines of at most 24 bytes seldom share one.
/// A line of fewer than four bytes schedules no step.
fn number_of(line: &[u8]) -> u64 {
    match line.len() {
        0..4 => 0,
        4..8 => u64::from(first_four(line)) << 32 | u64::from(last_four(line)),
        8..16 => ends_of(line),
        _ => ends_of(line).wrapping_add(last_eight(&line[..line.len() - 8]).rotate_left(13)),
    }
}

/// The number of a line's first eight bytes and its last.
fn ends_of(line: &[u8]) -> u64
    requires { 8 ≤ length line.now }
{
    first_eight(line)
        .rotate_left(29)
        .wrapping_add(last_eight(line))
}
