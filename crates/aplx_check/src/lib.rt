// Whether an APLX image follows a plan.
#![tactic(auto)]

pub mod check; // the check
mod due; // the part, run or piece that is due
mod end; // the end entry
