// What the programs share: the lines of an input, the numbers in them, and how a refused line is shown.
#![tactic(auto)]

pub mod lines;
pub mod numbers;
pub mod refused;
