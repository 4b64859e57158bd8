// Outcomes as eight numbers, for a caller that takes no enum.
#![tactic(auto)]

pub mod numbers; // the numbers of each outcome
pub mod comparison; // those of two plans that were compared
