// A plan packed as an image, and an image as its plan, as bytes to be written to a file.
#![tactic(auto)]

pub mod convert; // the image of a plan
pub mod read_back; // the plan of an image
pub mod program; // from standard input to standard output
mod shown; // bytes, or the line of a refusal
