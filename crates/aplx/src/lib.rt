// The APLX loader.
#![tactic(auto)]

pub mod load; // the load
mod perform; // the commands carried out
