//! Tests of logs of nodes, of their merge, of actors and of runs on threads. They stand in a crate of their own: a crate with tests is
//! proved a second time with them, and whoever builds the program builds none of them.
#![tactic(auto)]

#[cfg(test)]
mod beside;
#[cfg(test)]
mod differences;
#[cfg(test)]
mod idle;
#[cfg(test)]
mod logs;
#[cfg(test)]
mod merging;
#[cfg(test)]
mod places;
#[cfg(test)]
mod rotation;
#[cfg(test)]
mod story;
#[cfg(test)]
mod strange;
#[cfg(test)]
mod threads;
#[cfg(test)]
mod turns;
