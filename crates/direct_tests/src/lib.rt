//! Calls of the other crates' public functions where rows of data do not reach: threads and a gate, random lists of events and
//! random blocks, and types that no row names. Each case of a table has a name.
#![tactic(auto)]

#[cfg(test)]
mod byte_strings;
#[cfg(test)]
mod cases;
#[cfg(test)]
mod chains;
#[cfg(test)]
mod data;
#[cfg(test)]
mod held;
#[cfg(test)]
mod ledgers;
#[cfg(test)]
mod lists;
#[cfg(test)]
mod machines;
#[cfg(test)]
mod numbers;
#[cfg(test)]
mod outcomes;
#[cfg(test)]
mod proposals;
#[cfg(test)]
mod proposing;
#[cfg(test)]
mod random;
#[cfg(test)]
mod random_blocks;
#[cfg(test)]
mod random_lists;
#[cfg(test)]
mod readings;
#[cfg(test)]
mod runs;
#[cfg(test)]
mod script;
#[cfg(test)]
mod sets;
#[cfg(test)]
mod sets_of_objects;
#[cfg(test)]
mod unproposed;
