// What a load answers, for both media, and what each case of it says.
#![tactic(auto)]

pub mod refusal; // refusals and their causes
pub mod answer; // stops, and what a load answers
