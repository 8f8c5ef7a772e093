//! A script that is written as it was read.

use crate::fault::Fault;
use crate::output::{put_blob, put_line};
use geo_base::Memory;
use script_text::{Scenario, ScriptFault, read_script, write_declarations, write_schedule};
use std::alloc::Global;

/// Bytes of a script: far more than one has here, and fewer than the reader's own limit of 2^32.
const MOST_BYTES: usize = 1_000_000;

/// A script as it was read, or the line that refuses it.
pub fn answer_script(alloc: Global, script: &[u8], out: &mut Vec<u8>) -> Result<(), Fault> {
    if script.len() > MOST_BYTES {
        return Err(Fault::LongScript);
    }
    match read_script(alloc, script) {
        Ok(scenario) => {
            let put = put_scenario(alloc, &scenario, out);
            drop(scenario);
            Ok(put?)
        }
        Err(ScriptFault::Memory) => Err(Fault::Memory),
        Err(fault) => Ok(put_line(out, &fault)?),
    }
}

/// The declarations, and then the schedule.
fn put_scenario(alloc: Global, scenario: &Scenario, out: &mut Vec<u8>) -> Result<(), Memory> {
    put_blob(out, write_declarations(alloc, scenario)?)?;
    put_blob(out, write_schedule(alloc, scenario, scenario.steps())?)
}
