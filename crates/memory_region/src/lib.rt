// One region of memory.
#![tactic(auto)]

pub mod region; // addresses, place in the buffer, rights
