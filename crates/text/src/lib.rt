// Text that programs write.
#![tactic(auto)]

pub mod decimal; // numbers in decimal digits
pub mod hex; // numbers in hex digits
pub mod refusal; // the line of a refusal
mod digits; // the digits of a number in a base
