// The lines of a bench script: commands in, replies out.
#![tactic(auto)]

pub mod command;
pub mod reading;
pub mod reply;
