// The serial ROM loader.
#![tactic(auto)]

pub mod load; // the load
mod rom; // a map and the bytes of a serial ROM, which are not too many
mod walk; // what stands at an offset, and the walk to the stop
mod store; // blocks into memory
