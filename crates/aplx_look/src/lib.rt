// What an APLX load answers. Nothing is stored.
#![tactic(auto)]

pub mod look; // the whole answer
pub mod walk; // the walk over the entries, to the stop
mod judge; // the tests of one entry
mod header; // the answer after the walk: the test for destinations over the entries
mod board; // a map and the memory that it is sound for
