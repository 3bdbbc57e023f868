// Two chips and the cable between them, and the calls of a bench, as definitions; and the law that characters arrive.
#![tactic(auto)]

pub mod event;
pub mod law;
pub mod opening;
pub mod ranks;
pub mod rows;
