// The SCP answerer.
#![tactic(auto)]

pub mod answer; // one packet
mod board; // a map and the memory that it is sound for
mod reply; // the bytes of a response
mod run; // RUN and APLX
mod transfer; // READ and WRITE
