// How close may totes come? A scanner board (end A) sends a label for each tote to a merge board (end B), which looks at its receiver only
// now and then. One run of twenty totes at one interval, over any cable.
#![tactic(auto)]

mod board;
pub mod case;
mod inputs;
mod log;
mod moment;
pub mod noise;
pub mod outcome;
pub mod position;
pub mod run;
mod scanner;
