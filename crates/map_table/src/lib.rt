// A map as a table of bytes that the caller lends.
#![tactic(auto)]

pub mod table; // the map of a table, and an addition to it
