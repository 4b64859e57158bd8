// Bytes, words and ranges, as the loaders and packers need them. Each function answers for any input.
#![tactic(auto)]

pub mod read; // numbers out of bytes
pub mod put; // numbers into bytes
pub mod turned; // numbers with their bytes the other way round
pub mod four; // four words at a time
pub mod range; // ranges that share a number, and lengths rounded up
pub mod equal; // slices with the same bytes
