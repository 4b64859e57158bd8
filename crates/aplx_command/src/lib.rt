// The entries of an APLX header.
#![tactic(auto)]

pub mod command; // what an entry commands
