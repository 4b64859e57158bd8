// The APLX packer that keeps one copy of equal put data.
#![tactic(auto)]

pub mod pack; // the packer
mod contents; // the different contents
mod image; // what is written
