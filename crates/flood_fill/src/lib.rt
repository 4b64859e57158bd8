// The flood-fill receiver: an image that is passed along in blocks of words.
#![tactic(auto)]

pub mod message; // the four messages
pub mod header; // what was declared, and the block that is open
pub mod test; // the tests of a message
pub mod flags; // flags in a row
mod store; // words into the image
pub mod receiver; // the receiver's state, and what a message does to it
