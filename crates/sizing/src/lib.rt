// What a serial line can carry: the times of a bit, a character and a label, and how many labels a minute.
#![tactic(auto)]

pub mod figures;
pub mod line;
