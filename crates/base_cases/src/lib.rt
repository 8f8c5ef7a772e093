//! Tests of what has no broker: `geo_base` and `geo_io`; scripts (`script_rows`, `script_text`, `script_generator`); and what is on the
//! wire and at its ends, the codecs, the ends of links, and a client. They stand in a crate of their own, since a crate with tests is
//! proved a second time with them, and in one, since each such crate costs the gate most of a minute whatever it holds.
#![tactic(auto)]

#[cfg(test)]
mod bytes;
#[cfg(test)]
mod copies;
#[cfg(test)]
mod crossing;
#[cfg(test)]
mod ends;
#[cfg(test)]
mod fields;
#[cfg(test)]
mod frames;
#[cfg(test)]
mod generated_runs;
#[cfg(test)]
mod holding;
#[cfg(test)]
mod kept_scripts;
#[cfg(test)]
mod markers;
#[cfg(test)]
mod memory_ends;
#[cfg(test)]
mod metadata;
#[cfg(test)]
mod names;
#[cfg(test)]
mod packets;
#[cfg(test)]
mod pieces;
#[cfg(test)]
mod schedules;
#[cfg(test)]
mod script_words;
#[cfg(test)]
mod sequences;
#[cfg(test)]
mod std_ends;
#[cfg(test)]
mod story;
#[cfg(test)]
mod streams;
#[cfg(test)]
mod texts;
#[cfg(test)]
mod threads;
#[cfg(test)]
mod walks;
