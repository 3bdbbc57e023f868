// Laws above the definitions of one chip, in the words of its manual. Each stands on the contract of a function.
#![tactic(auto)]

pub mod lines;
pub mod rows;
