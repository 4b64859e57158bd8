// The comparison of two plans as text.
#![tactic(auto)]

pub mod comparison; // the text for two plans
pub mod program; // from two files to standard output
mod lines; // the lines of stretches
