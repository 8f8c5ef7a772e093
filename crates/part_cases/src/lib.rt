//! Tests of the parts of a broker, and of what is kept: compacted views of a topic, and ledgers in another store. They stand in a crate of
//! their own, since a crate with tests is proved a second time with them, and in one, since each such crate costs the gate a minute and more
//! whatever it holds.
#![tactic(auto)]

#[cfg(test)]
mod acknowledging;
#[cfg(test)]
mod building;
#[cfg(test)]
mod caching;
#[cfg(test)]
mod compacting;
#[cfg(test)]
mod dispatching;
#[cfg(test)]
mod duplicates;
#[cfg(test)]
mod entries;
#[cfg(test)]
mod keys;
#[cfg(test)]
mod ledgers;
#[cfg(test)]
mod offers;
#[cfg(test)]
mod plain_replicator;
#[cfg(test)]
mod replicating;
#[cfg(test)]
mod restarting;
#[cfg(test)]
mod stored_entries;
#[cfg(test)]
mod subscriptions;
#[cfg(test)]
mod telling;
#[cfg(test)]
mod texts;
#[cfg(test)]
mod tiering;
#[cfg(test)]
mod updating;
