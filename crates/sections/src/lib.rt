// The three sections of a TMS 9902A that its internal clock drives: transmitter, receiver and interval timer.
//
// Levels are bools: true is mark, false is space. Control lines are true where they are active.
#![tactic(auto)]

pub mod bits;
pub mod receiver;
pub mod timer;
pub mod transmitter;
