// The library for C: a static library. Each export calls the function of `reidhintsje` that has its name, and promises what that promises.
#![tactic(auto)]

pub mod table; // the calls of a map
pub mod load; // the two loaders
pub mod plans; // the reader of plans, the packers, the reader of images, and their check
pub mod comparison; // two plans compared
pub mod packet; // the answerer
pub mod message; // the messages of a flood fill
