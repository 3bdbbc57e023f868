// One TMS 9902A: its registers, flags, lines and clocks, as a host's processor and its line see them.
//
// Levels are bools: true is mark, false is space. Control lines are true where they are active.
#![tactic(auto)]

pub mod chip;
