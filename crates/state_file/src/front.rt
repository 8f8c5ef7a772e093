//! What stands before the brokers of a file.
ghost use Rattle.std.specs.Prelude.{◌≡◌, ◌≤◌, ◌<◌, ◌^◌, length, IfOk};
ghost use Rattle.std.specs.Str.{bytes_eq};
ghost use Rattle.script_text.specs.Canonical.{declarations_text};
ghost use Rattle.state_items.specs.Reading.{Gives};
ghost use Rattle.state_file.specs.Reading.{declarations_at, head_at, magic_at, so_many, version_at};

use geo_base::Memory;
use script_text::{Scenario, ScriptFault, read_script, write_declarations};
use state_items::{ItemFault, Rule, judge, number_at, word_at};
use state_nodes::{Counts, counts_at};
use std::alloc::Global;

/// The first bytes of a file.
pub(crate) const MAGIC: &[u8] = b"GEOSTATE";

/// How many they are.
const MAGIC_BYTES: usize = 8;

/// The version of a file that begins with the magic bytes.
#[tactic(auto, unfolding(crate::specs::Reading::version_at))]
pub(crate) fn version_at(bytes: &[u8]) -> Result<(u32, &[u8]), ItemFault>
    ensures read { Gives (λ x. (x.0, x.1.now)) result (version_at bytes.now) }
    ensures shorter { IfOk result (λ x. length x.1.now ≤ length bytes.now) }
{
    let (_magic, rest) = magic_at(bytes)?;
    word_at(rest)
}

#[tactic(auto, unfolding(crate::specs::Reading::magic_at))]
fn magic_at(bytes: &[u8]) -> Result<(&[u8], &[u8]), ItemFault>
    ensures read { Gives (λ x. (x.0.now, x.1.now)) result (magic_at bytes.now) }
    ensures shorter { IfOk result (λ x. length x.1.now ≤ length bytes.now) }
{
    if bytes.len() < MAGIC_BYTES {
        return Err(ItemFault::at(bytes, Rule::Whole));
    }
    let (front, rest) = bytes.split_at(MAGIC_BYTES);
    judge(front == MAGIC, bytes, Rule::Magic)?;
    Ok((front, rest))
}

/// What the script declares, and what the run counted.
#[tactic(auto, unfolding(crate::specs::Reading::head_at))]
pub(crate) fn head_at(alloc: Global, bytes: &[u8]) -> Result<((Scenario, Counts), &[u8]), ItemFault>
    requires { length bytes.now < 2 ^ 32 }
    ensures { Gives (λ x. ((x.0.0, x.0.1), x.1.now)) result (head_at bytes.now) }
{
    let (scenario, rest) = declarations_at(alloc, bytes)?;
    match counts_at(rest) {
        Ok((counts, rest)) => Ok(((scenario, counts), rest)),
        Err(fault) => {
            drop(scenario);
            Err(fault)
        }
    }
}

/// The declarations, after their length.
#[tactic(auto, unfolding(crate::specs::Reading::declarations_at))]
fn declarations_at(alloc: Global, bytes: &[u8]) -> Result<(Scenario, &[u8]), ItemFault>
    requires { length bytes.now < 2 ^ 32 }
    ensures { Gives (λ x. (x.0, x.1.now)) result (declarations_at bytes.now) }
{
    let (len, rest) = number_at(bytes)?;
    so_many(alloc, len, rest)
}

/// The declarations, so many bytes.
fn so_many(alloc: Global, len: u64, bytes: &[u8]) -> Result<(Scenario, &[u8]), ItemFault>
    requires { length bytes.now < 2 ^ 32 }
    ensures { Gives (λ x. (x.0, x.1.now)) result (so_many len bytes.now) }
{
    if (bytes.len() as u64) < len {
        return Err(ItemFault::at(bytes, Rule::Whole));
    }
    let (text, rest) = bytes.split_at(len as usize);
    let scenario = match read_script(alloc, text) {
        Ok(scenario) => scenario,
        Err(ScriptFault::Memory) => return Err(ItemFault::Memory),
        Err(ScriptFault::Rule { .. }) => return Err(ItemFault::at(bytes, Rule::Declarations)),
    };
    match is_canonical(alloc, &scenario, text) {
        Ok(is_canonical) => {
            if is_canonical {
                Ok((scenario, rest))
            } else {
                drop(scenario);
                Err(ItemFault::at(bytes, Rule::Declarations))
            }
        }
        Err(Memory) => {
            drop(scenario);
            Err(ItemFault::Memory)
        }
    }
}

/// Whether a text is that which is written of the declarations that it says.
fn is_canonical(alloc: Global, scenario: &Scenario, text: &[u8]) -> Result<bool, Memory>
    ensures { IfOk result (λ b. b ≡ bytes_eq (declarations_text scenario.now.setup scenario.now.chance) text.now) }
{
    let canonical = write_declarations(alloc, scenario)?;
    Ok(canonical.as_slice() == text)
}
