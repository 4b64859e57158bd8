// Words in a row: one repeated, and words between Big and Little Endian. Each function answers for any input.
#![tactic(auto)]

pub mod fill; // a word repeated
pub mod swap; // words between Big and Little Endian
