// Copies within memory, as APLX has them.
#![tactic(auto)]

pub mod copy; // words from one place to another, lowest first
