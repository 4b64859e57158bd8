// Two plans compared.
#![tactic(auto)]

pub mod compare; // the comparison
pub mod reading; // which plans can be compared
mod block; // addresses that differ alike
mod listing; // the list of stretches
mod pairs; // pairs of bytes
mod run; // the stretch from index 0, and its run
mod segment; // where the last byte at an address comes from
mod sides; // the same for both plans
