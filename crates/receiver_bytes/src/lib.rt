// A flood-fill receiver as 1,544 bytes that the caller lends: a message changes them where they stand.
#![tactic(auto)]

pub mod layout; // where the parts stand
mod read; // what the bytes say
mod write; // what a message that is done changes
pub mod receiver; // the four messages
