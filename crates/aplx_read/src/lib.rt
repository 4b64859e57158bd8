// An APLX image read back as a plan.
#![tactic(auto)]

pub mod image; // the image's pieces
pub mod read_back; // the plan, written
mod entry; // one entry of the image
