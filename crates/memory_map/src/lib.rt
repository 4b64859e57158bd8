// The memory map.
#![tactic(auto)]

pub mod map; // up to eight regions: adding, soundness, lookup, run entries
