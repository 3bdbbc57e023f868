// The events of a moment: which list is refused, and how its events are served.
#![tactic(auto)]

pub mod chips;
pub mod ranks;
pub mod rules;
